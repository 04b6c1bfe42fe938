// Comments.

ghost use Rattle.std.specs.Prelude.{◌≡◌, ◌∷◌, Some, None, MatchOption, IfSome};
ghost use Rattle.std.specs.Str.{chars, IsUtf8};
ghost use Rattle.cc_lexer.specs.Comments as comments;
ghost use Rattle.cc_lexer.specs.Items as items;

use crate::item::Item;
use crate::piece::Piece;
use crate::span::front;
use crate::token::Fault;
use cc_text::{is_line_end, split_first};

// What is behind the next `*/`.
fn behind_comment(text: &str) -> Option<&str>
    ensures value { MatchOption result (comments.behind_comment (chars text.now) ≡ None)
        (λ r. comments.behind_comment (chars text.now) ≡ Some (chars r.now)) }
    ensures text { IfSome result (λ r. IsUtf8 r.now) }
{
    let mut rest = text;
    while let Some((c, behind)) = split_first(rest) {
        match split_first(behind) {
            Some(('/', end)) if c == '*' => return Some(end),
            _ => rest = behind,
        }
    }
    None
}

fn has_line_end(text: &str) -> bool
    ensures { result ≡ comments.has_line_end (chars text.now) }
{
    let mut rest = text;
    while let Some((c, behind)) = split_first(rest) {
        if is_line_end(c) {
            return true;
        }
        rest = behind;
    }
    false
}

// Whether the comment that goes on so behind its `/*` is an annotation.
fn is_annotation(inside: &str) -> bool
    ensures { result ≡ comments.is_annotation (chars inside.now) }
{
    match split_first(inside) {
        Some(('*', behind)) => !matches!(split_first(behind), Some(('/', _))),
        _ => false,
    }
}

/// The comment that a text begins with, whose `/*` ends before the inside.
pub(crate) fn block<'a>(text: &'a str, inside: &'a str) -> Item<'a>
    requires { chars text.now ≡ 47 ∷ 42 ∷ chars inside.now }
    ensures { items.IsItem (items.block (chars inside.now) (comments.behind_comment (chars inside.now))) result }
{
    let Some(rest) = behind_comment(inside) else {
        return Item::Nothing(Fault::Syntax);
    };
    let whole = front(text, rest);
    let line = has_line_end(whole);
    if is_annotation(inside) {
        Item::Annotation(Piece::new(whole), line, rest)
    } else {
        Item::Blank(line, rest)
    }
}
