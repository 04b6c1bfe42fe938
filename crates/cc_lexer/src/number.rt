// Numbers.

ghost use Rattle.std.specs.Prelude.{◌≡◌, ◌∷◌};
ghost use Rattle.std.specs.Str.{chars};
ghost use Rattle.cc_lexer.specs.Numbers as numbers;
ghost use Rattle.cc_lexer.specs.Items as items;

use crate::item::Item;
use crate::span::{begins_with_digit, behind_digits, digits, split_name};
use crate::token::{Fault, TokenKind};
use cc_ast::reading::Construct;
use cc_text::{numeral, split_first, whole};

fn is_signed(text: &str) -> bool
    ensures { result ≡ numbers.is_signed (chars text.now) }
{
    match split_first(text) {
        Some(('+' | '-', rest)) => begins_with_digit(rest),
        _ => false,
    }
}

fn is_exponent(text: &str) -> bool
    ensures { result ≡ numbers.is_exponent (chars text.now) }
{
    match split_first(text) {
        Some(('e' | 'E', rest)) => begins_with_digit(rest) || is_signed(rest),
        _ => false,
    }
}

fn is_large_hexadecimal(text: &str) -> bool
    ensures { result ≡ numbers.is_large_hexadecimal (chars text.now) }
{
    match split_first(text) {
        Some(('x' | 'X', rest)) => numeral(digits(rest, 16), 16).is_none(),
        _ => false,
    }
}

fn begins_with_dot(text: &str) -> bool
    ensures { result ≡ numbers.begins_with_dot (chars text.now) }
{
    matches!(split_first(text), Some(('.', _)))
}

// A text that begins with a digit, and what is behind that digit.
fn is_number_form(c: char, rest: &str, text: &str) -> bool
    requires { chars text.now ≡ c ∷ chars rest.now }
    ensures { result ≡ numbers.is_number_form c (chars rest.now) }
{
    let end = behind_digits(rest, 10);
    (c == '0' && (begins_with_digit(rest) || is_large_hexadecimal(rest)))
        || begins_with_dot(end)
        || is_exponent(end)
        || numeral(digits(text, 10), 10).is_none()
}

/// The number that a text begins with, by its first digit and what is behind that.
pub(crate) fn number<'a>(c: char, rest: &str, text: &'a str) -> Item<'a>
    requires { chars text.now ≡ c ∷ chars rest.now }
    ensures { items.IsItem (items.number c (chars rest.now)) result }
{
    if is_number_form(c, rest, text) {
        return Item::Nothing(Fault::Refused(Construct::NumberForm));
    }
    let (digits, behind) = split_name(text);
    match whole(digits) {
        None => Item::Nothing(Fault::Syntax),
        Some(n) => Item::Token(TokenKind::Number(n), behind),
    }
}
