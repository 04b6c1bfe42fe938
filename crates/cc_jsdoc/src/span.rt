// Parts of a text.

ghost use Rattle.std.specs.Prelude.{◌≡◌, ◌++◌, ◌≤◌, length, not};
ghost use Rattle.std.specs.Str.{chars, IsUtf8};
ghost use Rattle.cc_text.specs.Ends.{Ends};
ghost use Rattle.cc_lexer.specs.Characters as characters;
ghost use Rattle.cc_jsdoc.specs.Classes.{is_in};

use crate::classes::{Class, contains};
use cc_text::split_first;

/// The text before an end of it.
pub(crate) fn front<'a>(text: &'a str, rest: &str) -> &'a str
    requires { Ends (chars text.now) (chars rest.now) }
    ensures { chars text.now ≡ chars result.now ++ chars rest.now }
{
    &text[..text.len() - rest.len()]
}

/// What is behind the characters of a class at the front.
pub(crate) fn behind(text: &str, class: Class) -> &str
    ensures value { chars result.now ≡ characters.behind (is_in class) (chars text.now) }
    ensures shorter { length result.now ≤ length text.now }
{
    let mut rest = text;
    while let Some((c, behind)) = split_first(rest) {
        if !contains(class, c) {
            break;
        }
        rest = behind;
    }
    rest
}

/// The characters of a class at the front, and what is behind them.
pub(crate) fn split(text: &str, class: Class) -> (&str, &str)
    ensures front { chars result.0.now ≡ characters.run (is_in class) (chars text.now) }
    ensures rest { chars result.1.now ≡ characters.behind (is_in class) (chars text.now) }
    ensures front_text { IsUtf8 result.0.now }
    ensures rest_text { IsUtf8 result.1.now }
    ensures shorter { length result.1.now ≤ length text.now }
{
    let rest = behind(text, class);
    (front(text, rest), rest)
}
