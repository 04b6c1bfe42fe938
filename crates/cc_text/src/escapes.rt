// Escapes of strings.

ghost use Rattle.std.specs.Prelude.{◌≡◌, ℕ, ◌+◌, ◌<◌, ◌∷◌, [], Some, None, drop, length, slice_index, MatchOption, IfSome};
ghost use Rattle.std.specs.Char.Escape.{encode_utf16};
ghost use Rattle.std.specs.Str.{chars, IsUtf8};
ghost use Rattle.cc_text.specs.Escape as escape;

use crate::front::{is_line_end, split_first};

/// What an escape gives, with the byte at which the text goes on: a unit, a pair of units, or
/// nothing where a line is continued. An octal escape and what is no escape give no unit.
#[derive(Clone, Copy)]
pub enum Escape {
    Unit(u16, usize),
    Pair(u16, u16, usize),
    Nothing(usize),
    Octal,
    Bad,
}

/// The same, with the text behind the escape.
#[derive(Clone, Copy)]
pub enum Behind<'a> {
    Unit(u16, &'a str),
    Pair(u16, u16, &'a str),
    Nothing(&'a str),
    Octal,
    Bad,
}

// A hexadecimal digit.
fn hex_digit(text: &str) -> Option<(u16, &str)>
    ensures value { MatchOption result (escape.hex_digit (chars text.now) ≡ None)
        (λ r. escape.hex_digit (chars text.now) ≡ Some (r.0, chars r.1.now)) }
    ensures text { IfSome result (λ r. IsUtf8 r.1.now) }
    ensures small { IfSome result (λ r. r.0 < 16) }
{
    let (first, rest) = split_first(text)?;
    let digit = first.to_digit(16)?;
    Some((digit as u16, rest))
}

// Two of them.
fn hex_pair(text: &str) -> Option<(u16, &str)>
    ensures value { MatchOption result (escape.hex_pair (chars text.now) ≡ None)
        (λ r. escape.hex_pair (chars text.now) ≡ Some (r.0, chars r.1.now)) }
    ensures text { IfSome result (λ r. IsUtf8 r.1.now) }
    ensures small { IfSome result (λ r. r.0 < 256) }
{
    let (high, rest) = hex_digit(text)?;
    let (low, rest) = hex_digit(rest)?;
    Some((high * 16 + low, rest))
}

// Four of them.
fn hex_quad(text: &str) -> Option<(u16, &str)>
    ensures text { IfSome result (λ r. IsUtf8 r.1.now) }
    ensures value { MatchOption result (escape.hex_quad (chars text.now) ≡ None)
        (λ r. escape.hex_quad (chars text.now) ≡ Some (r.0, chars r.1.now)) }
{
    let (high, rest) = hex_pair(text)?;
    let (low, rest) = hex_pair(rest)?;
    Some((high * 256 + low, rest))
}

fn unit_behind(value: Option<(u16, &str)>) -> Behind<'_>
    ensures { MatchOption value.entry (result ≡ Behind.Bad) (λ r. result ≡ Behind.Unit r.0 r.1) }
{
    match value {
        None => Behind::Bad,
        Some((unit, rest)) => Behind::Unit(unit, rest),
    }
}

// The character for itself, but for the six letters.
fn itself(c: char, rest: &str) -> Behind<'_>
    ensures { escape.IsBehind (escape.gives (escape.itself c) (chars rest.now)) result }
{
    let unit = match c {
        'b' => 8,
        't' => 9,
        'n' => 10,
        'v' => 11,
        'f' => 12,
        'r' => 13,
        _ => return character(c, rest),
    };
    Behind::Unit(unit, rest)
}

fn character(c: char, rest: &str) -> Behind<'_>
    ensures { escape.IsBehind (escape.gives (encode_utf16 c) (chars rest.now)) result }
{
    let code = c as u32;
    if code < 0x1_0000 {
        return Behind::Unit(code as u16, rest);
    }
    let above = code - 0x1_0000;
    Behind::Pair(
        (0xD800 + above / 0x400) as u16,
        (0xDC00 + above % 0x400) as u16,
        rest,
    )
}

fn behind_digit(c: char, rest: &str) -> Behind<'_>
    ensures { escape.IsBehind (escape.digit c (chars rest.now)) result }
{
    match split_first(rest) {
        Some(('0'..='9', _)) => Behind::Octal,
        _ => if c == '0' {
            Behind::Unit(0, rest)
        } else {
            Behind::Octal
        },
    }
}

// The text behind a line end that begins with this character; CR LF is one.
fn behind_line_end(c: char, rest: &str) -> &str
    ensures { chars result.now ≡ escape.behind_line_end c (chars rest.now) }
{
    match split_first(rest) {
        Some(('\n', behind)) if c == '\r' => behind,
        _ => rest,
    }
}

/// What stands behind a backslash.
pub fn escape_behind(text: &str) -> Behind<'_>
    ensures { escape.IsBehind (escape.escaped (chars text.now)) result }
{
    let Some((c, rest)) = split_first(text) else {
        return Behind::Bad;
    };
    match c {
        '0'..='9' => behind_digit(c, rest),
        'x' => unit_behind(hex_pair(rest)),
        'u' => unit_behind(hex_quad(rest)),
        _ => if is_line_end(c) {
            Behind::Nothing(behind_line_end(c, rest))
        } else {
            itself(c, rest)
        },
    }
}

/// What the escape gives whose backslash stands at a byte of the text, as the bytes from there on
/// say: one or two units, or nothing where a line is continued, and the byte behind it.
pub fn read_escape(text: &str, at: usize) -> Escape
    requires within { at < length text.now }
    requires backslash { slice_index text.now at ≡ 92 }
    ensures { escape.Answers text.now (escape.escaped (chars (drop (at + 1) text.now))) result }
{
    let rest = &text[at + 1..];
    match escape_behind(rest) {
        Behind::Unit(unit, behind) => Escape::Unit(unit, text.len() - behind.len()),
        Behind::Pair(high, low, behind) => Escape::Pair(high, low, text.len() - behind.len()),
        Behind::Nothing(behind) => Escape::Nothing(text.len() - behind.len()),
        Behind::Octal => Escape::Octal,
        Behind::Bad => Escape::Bad,
    }
}
