// Names, texts and numbers of the form, byte by byte.

ghost use Rattle.std.specs.Prelude.{◌≡◌, ◌<◌, ◌≤◌, ◌++◌, length, pos, IfOk, MatchOption, IsTrue, IsFalse};
ghost use Rattle.std.specs.List.{prefix_len, list_any, list_all};
ghost use Rattle.std.specs.Str.{bytes_eq};
ghost use Rattle.cc_driver.specs.Names as names;
ghost use Rattle.cc_driver.specs.Form as form;
ghost use Rattle.cc_driver.specs.FormReading as reading;

use cc_ast::units::Units;
use std::alloc::{AllocError, Global};

// 2^53: the whole numbers below it are exact. None of them has more digits than `MOST_DIGITS`.
const WHOLE_LIMIT: u64 = 9_007_199_254_740_992;

const MOST_DIGITS: usize = 16;

// The reserved words (ECMA-262 5.1, 7.6.1.1, 7.6.1.2, 7.8.1 and 7.8.2), and the names that have a
// meaning of their own.
static TAKEN: [&[u8]; 44] = [
    b"break",
    b"case",
    b"catch",
    b"continue",
    b"debugger",
    b"default",
    b"delete",
    b"do",
    b"else",
    b"finally",
    b"for",
    b"function",
    b"if",
    b"in",
    b"instanceof",
    b"new",
    b"return",
    b"switch",
    b"this",
    b"throw",
    b"try",
    b"typeof",
    b"var",
    b"void",
    b"while",
    b"with",
    b"class",
    b"const",
    b"enum",
    b"export",
    b"extends",
    b"import",
    b"super",
    b"null",
    b"true",
    b"false",
    b"Object",
    b"Math",
    b"String",
    b"eval",
    b"arguments",
    b"undefined",
    b"NaN",
    b"Infinity",
];

fn is_name_start(byte: u8) -> bool
    ensures { result ≡ names.is_name_start byte }
{
    matches!(byte, b'a'..=b'z' | b'A'..=b'Z' | b'$' | b'_')
}

fn is_name_part(byte: u8) -> bool
    ensures { result ≡ names.is_name_part byte }
{
    is_name_start(byte) || matches!(byte, b'0'..=b'9')
}

fn is_plain(byte: u8) -> bool
    ensures { result ≡ form.is_plain byte }
{
    matches!(byte, 32..=126) && !matches!(byte, b'"' | b'\'' | b'\\')
}

/// Whether a byte is a decimal digit.
pub(crate) fn is_digit(byte: u8) -> bool
    ensures { result ≡ reading.is_digit byte }
{
    matches!(byte, b'0'..=b'9')
}

/// How many bytes from the front on may stand in a name.
pub(crate) fn name_length(text: &[u8]) -> usize
    ensures length { result ≡ prefix_len names.is_name_part text.now }
    ensures within { result ≤ length text.now }
{
    text.iter().take_while(|byte| is_name_part(**byte)).count()
}

/// How many bytes from the front on may stand in a text.
pub(crate) fn plain_length(text: &[u8]) -> usize
    ensures length { result ≡ prefix_len form.is_plain text.now }
    ensures within { result ≤ length text.now }
{
    text.iter().take_while(|byte| is_plain(**byte)).count()
}

/// How many bytes from the front on are digits.
pub(crate) fn digits_length(text: &[u8]) -> usize
    ensures length { result ≡ prefix_len reading.is_digit text.now }
    ensures within { result ≤ length text.now }
{
    text.iter().take_while(|byte| is_digit(**byte)).count()
}

fn leads_well(digits: &[u8]) -> bool
    ensures { result ≡ reading.leads_well digits.now }
{
    match digits.first() {
        Some(first) => b'0' < *first || digits.len() == 1,
        None => false,
    }
}

// The number that at most 16 digits write.
fn number_of(digits: &[u8]) -> u64
    requires digits { IsTrue (list_all reading.is_digit digits.now) }
    requires few { length digits.now ≤ 16 }
    ensures { result ≡ reading.number_behind 0 digits.now }
{
    let mut number = 0u64;
    for digit in digits {
        number = number * 10 + u64::from(*digit - b'0');
    }
    number
}

/// The number that digits write, or `None` where a 0 stands before them or it is above 2^53-1.
pub(crate) fn free_number(digits: &[u8]) -> Option<i64>
    requires { IsTrue (list_all reading.is_digit digits.now) }
    ensures { MatchOption result (IsFalse (reading.is_free_number digits.now)) (λ number. IsTrue (reading.is_free_number digits.now) × (number ≡ pos (reading.number_behind 0 digits.now))) }
{
    if !leads_well(digits) || digits.len() > MOST_DIGITS {
        return None;
    }
    let number = number_of(digits);
    if number < WHOLE_LIMIT {
        Some(number as i64)
    } else {
        None
    }
}

fn is_among(name: &[u8], words: &[&[u8]]) -> bool
    ensures { result ≡ list_any (λ word. bytes_eq name.now word.now) words.now }
{
    words.iter().any(|word| name == *word)
}

fn is_taken(name: &[u8]) -> bool
    ensures { result ≡ names.is_in name.now (names.reserved_words ++ names.built_in_names ++ names.special_names) }
{
    is_among(name, &TAKEN)
}

/// Whether bytes that may stand in a name are one.
pub(crate) fn is_free_name(name: &[u8]) -> bool
    ensures { result ≡ reading.is_free_name name.now }
{
    match name.first() {
        Some(first) => is_name_start(*first) && !is_taken(name),
        None => false,
    }
}

/// Bytes as units.
pub(crate) fn units_of(alloc: Global, bytes: &[u8]) -> Result<Units, AllocError>
    ensures { IfOk result (λ units. units ≡ bytes.now) }
{
    let list = bytes.iter().map(|byte| u16::from(*byte)).collect(alloc)?;
    Ok(Units { list })
}
