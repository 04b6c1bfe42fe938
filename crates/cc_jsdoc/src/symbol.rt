// The symbols of types.

ghost use Rattle.std.specs.Prelude.{◌≡◌, ◌≢◌, ◌<◌, ◌≤◌, ℕ, List, Some, None, IfSome, MatchOption, length};
ghost use Rattle.std.specs.Str.{chars, IsUtf8};
ghost use Rattle.cc_jsdoc.specs.Symbols.{symbol, Mark, Closes};
ghost use Rattle.cc_jsdoc.specs.Shown.{symbol_of, IsWordText};

use crate::classes::{Class, is_start};
use crate::span::{behind, front, split};
use cc_text::split_first;

/// A word, or any other character.
#[derive(Clone, Copy)]
pub(crate) enum Symbol<'a> {
    Word(&'a str),
    Mark(char),
}

/// The next symbol, which may stand behind white space, and what is behind it. There is none
/// where nothing but white space is left.
pub(crate) fn next_symbol(text: &str) -> Option<(Symbol<'_>, &str)>
    ensures value { MatchOption result (symbol (chars text.now) ≡ None)
        (λ r. symbol (chars text.now) ≡ Some (symbol_of r.0, chars r.1.now)) }
    ensures word_text { IfSome result (λ r. IsWordText r.0) }
    ensures rest_text { IfSome result (λ r. IsUtf8 r.1.now) }
    ensures shorter { IfSome result (λ r. length r.1.now < length text.now) }
{
    let begin = behind(text, Class::Blank);
    let Some((first, rest)) = split_first(begin) else {
        return None;
    };
    if is_start(first) {
        let (word, rest) = split(begin, Class::Part);
        Some((Symbol::Word(word), rest))
    } else {
        Some((Symbol::Mark(first), rest))
    }
}

/// What is behind a mark, if that is the next symbol.
pub(crate) fn behind_mark(text: &str, mark: char) -> Option<&str>
    ensures value { MatchOption result ((rest : List ℕ) → ¬ Mark mark (chars text.now) rest)
        (λ r. Mark mark (chars text.now) (chars r.now)) }
    ensures rest_text { IfSome result (λ r. IsUtf8 r.now) }
    ensures shorter { IfSome result (λ r. length r.now < length text.now) }
{
    match next_symbol(text) {
        Some((Symbol::Mark(c), rest)) if c == mark => Some(rest),
        _ => None,
    }
}

/// The text up to the mark that closes a pair, whose opening mark stands before the text, and
/// what is behind that.
pub(crate) fn close(text: &str, left: char, right: char) -> Option<(&str, &str)>
    requires { left ≢ right }
    ensures value { MatchOption result ((inside rest : List ℕ) → ¬ Closes left right (chars text.now) inside rest)
        (λ r. Closes left right (chars text.now) (chars r.0.now) (chars r.1.now)) }
    ensures inside_text { IfSome result (λ r. IsUtf8 r.0.now) }
    ensures rest_text { IfSome result (λ r. IsUtf8 r.1.now) }
    ensures shorter { IfSome result (λ r. length r.1.now ≤ length text.now) }
{
    let mut rest = text;
    let mut depth = 0usize;
    while let Some((c, behind)) = split_first(rest) {
        if c == right {
            if depth == 0 {
                return Some((front(text, rest), behind));
            }
            depth -= 1;
        } else if c == left {
            depth += 1;
        }
        rest = behind;
    }
    None
}
