// Punctuators.

ghost use Rattle.std.specs.Prelude.{◌≡◌};
ghost use Rattle.std.specs.Str.{chars};
ghost use Rattle.cc_lexer.specs.Items as items;
ghost use Rattle.cc_lexer.specs.Marks as marks;

use crate::item::Item;
use crate::token::{Fault, Mark, TokenKind};
use cc_text::split_first;

// The mark that is one character.
#[inline(always)]
pub(crate) fn single(c: char) -> Option<Mark>
    ensures { result ≡ marks.single c }
{
    let mark = match c {
        '{' => Mark::OpenBrace,
        '}' => Mark::CloseBrace,
        '(' => Mark::OpenParen,
        ')' => Mark::CloseParen,
        '[' => Mark::OpenBracket,
        ']' => Mark::CloseBracket,
        '.' => Mark::Dot,
        ';' => Mark::Semicolon,
        ',' => Mark::Comma,
        '<' => Mark::Less,
        '>' => Mark::Greater,
        '+' => Mark::Plus,
        '-' => Mark::Minus,
        '*' => Mark::Star,
        '%' => Mark::Percent,
        '&' => Mark::Ampersand,
        '|' => Mark::Bar,
        '^' => Mark::Caret,
        '!' => Mark::Bang,
        '~' => Mark::Tilde,
        '?' => Mark::Question,
        ':' => Mark::Colon,
        '=' => Mark::Equal,
        '/' => Mark::Slash,
        _ => return None,
    };
    Some(mark)
}

// The mark that a mark and one more character spell.
pub(crate) fn longer(mark: Mark, c: char) -> Option<Mark>
    ensures { result ≡ marks.longer mark c }
{
    let longer = match (mark, c) {
        (Mark::Less, '=') => Mark::LessEqual,
        (Mark::Less, '<') => Mark::LessLess,
        (Mark::Greater, '=') => Mark::GreaterEqual,
        (Mark::Greater, '>') => Mark::GreaterGreater,
        (Mark::EqualEqual, '=') => Mark::EqualEqualEqual,
        (Mark::BangEqual, '=') => Mark::BangEqualEqual,
        (Mark::Plus, '+') => Mark::PlusPlus,
        (Mark::Plus, '=') => Mark::PlusEqual,
        (Mark::Minus, '-') => Mark::MinusMinus,
        (Mark::Minus, '=') => Mark::MinusEqual,
        (Mark::Star, '=') => Mark::StarEqual,
        (Mark::Percent, '=') => Mark::PercentEqual,
        (Mark::LessLess, '=') => Mark::LessLessEqual,
        (Mark::GreaterGreater, '>') => Mark::GreaterGreaterGreater,
        (Mark::GreaterGreater, '=') => Mark::GreaterGreaterEqual,
        (Mark::GreaterGreaterGreater, '=') => Mark::GreaterGreaterGreaterEqual,
        (Mark::Ampersand, '&') => Mark::AmpersandAmpersand,
        (Mark::Ampersand, '=') => Mark::AmpersandEqual,
        (Mark::Bar, '|') => Mark::BarBar,
        (Mark::Bar, '=') => Mark::BarEqual,
        (Mark::Caret, '=') => Mark::CaretEqual,
        (Mark::Bang, '=') => Mark::BangEqual,
        (Mark::Equal, '=') => Mark::EqualEqual,
        (Mark::Slash, '=') => Mark::SlashEqual,
        _ => return None,
    };
    Some(longer)
}

/// The longest mark that begins with this one, which stands before the text.
#[inline(always)]
pub(crate) fn longest(first: Mark, rest: &str) -> Item<'_>
    ensures { items.IsItem (items.longest first (chars rest.now)) result }
{
    let mut mark = first;
    let mut end = rest;
    while let Some((c, behind)) = split_first(end) {
        let Some(next) = longer(mark, c) else {
            break;
        };
        mark = next;
        end = behind;
    }
    Item::Token(TokenKind::Mark(mark), end)
}

/// The longest mark that a text begins with, by its first character and what is behind that.
pub(crate) fn mark(c: char, rest: &str) -> Item<'_>
    ensures { items.IsItem (items.mark c (chars rest.now)) result }
{
    match single(c) {
        Some(first) => longest(first, rest),
        None => Item::Nothing(Fault::Syntax),
    }
}
