// Values in words: `undefined`, `null`, `true`, `false`, `12`, `'text'`, `object:3`, `extern:0`.

ghost use Rattle.std.specs.Prelude.{IsTrue};
ghost use Rattle.cc_value.specs.Bridge.{IsMade};

use crate::escapes::{make_units, push_units};
use crate::words::is_nothing_at;
use cc_ast::units::Units;
use cc_value::value::Value;
use std::alloc::{AllocError, Global};
use std::fmt::Write;

/// The greatest whole number that a program makes.
const GREATEST: u64 = 9_007_199_254_740_991;

/// The text between two quotes.
pub fn quoted(word: &str) -> Option<&str> {
    match word.strip_prefix('\'') {
        Some(rest) => rest.strip_suffix('\''),
        None => None,
    }
}

fn make_object(kind: &str, number: usize) -> Option<Value> {
    match kind {
        "object" => Some(Value::Object(number)),
        "extern" => match u32::try_from(number) {
            Ok(number) => Some(Value::Outside(number)),
            Err(_) => None,
        },
        _ => None,
    }
}

// An object by its number, or a whole number.
fn make_number(word: &str) -> Option<Value> {
    if let Some((kind, number)) = word.split_once(':') {
        return match number.parse::<usize>() {
            Ok(number) => make_object(kind, number),
            Err(_) => None,
        };
    }
    match word.parse::<i64>() {
        Ok(z) => Some(Value::Whole(z)),
        Err(_) => None,
    }
}

fn make_text(alloc: Global, text: &str) -> Option<Value> {
    match make_units(alloc, text) {
        Some(units) => Some(Value::Text(units)),
        None => None,
    }
}

fn make_value(alloc: Global, word: &str) -> Option<Value> {
    match word {
        "undefined" => Some(Value::Undefined),
        "null" => Some(Value::Null),
        "true" => Some(Value::Truth(true)),
        "false" => Some(Value::Truth(false)),
        _ => match quoted(word) {
            Some(text) => make_text(alloc, text),
            None => make_number(word),
        },
    }
}

pub fn value_at(alloc: Global, words: &[&str], at: usize) -> Option<Value> {
    match words.get(at) {
        Some(word) => make_value(alloc, word),
        None => None,
    }
}

/// A value that may not be there.
pub fn optional_value_at(alloc: Global, words: &[&str], at: usize) -> Option<Option<Value>> {
    if is_nothing_at(words, at) {
        return Some(None);
    }
    match value_at(alloc, words, at) {
        Some(value) => Some(Some(value)),
        None => None,
    }
}

fn make_values(alloc: Global, words: &[&str]) -> Option<Vec<Value>> {
    let mut values = Vec::new(alloc);
    for word in words {
        let Some(value) = make_value(alloc, word) else {
            return None;
        };
        if values.push(value).is_err() {
            return None;
        }
    }
    Some(values)
}

/// The values from a place on.
pub fn values_from(alloc: Global, words: &[&str], from: usize) -> Option<Vec<Value>> {
    match words.get(from..) {
        Some(words) => make_values(alloc, words),
        None => None,
    }
}

/// A name, which stands without quotes.
pub fn units_at(alloc: Global, words: &[&str], at: usize) -> Option<Units> {
    match words.get(at) {
        Some(word) => make_units(alloc, word),
        None => None,
    }
}

/// A name that may not be there.
pub fn optional_units_at(alloc: Global, words: &[&str], at: usize) -> Option<Option<Units>> {
    if is_nothing_at(words, at) {
        return Some(None);
    }
    match units_at(alloc, words, at) {
        Some(units) => Some(Some(units)),
        None => None,
    }
}

/// Whether a whole number is within those that a program makes.
pub fn is_made(value: &Value) -> bool
    ensures { IsTrue result → IsMade value.now }
{
    match value {
        Value::Undefined => true,
        Value::Null => true,
        Value::Truth(_) => true,
        Value::Whole(z) => z.unsigned_abs() <= GREATEST,
        Value::Text(_) => true,
        Value::Object(_) => true,
        Value::Outside(_) => true,
    }
}

/// Appends a value as a word.
pub fn push_value(out: &mut String, value: &Value) -> Result<(), AllocError> {
    match value {
        Value::Undefined => out.push_str("undefined"),
        Value::Null => out.push_str("null"),
        Value::Truth(b) => write!(out, "{b}"),
        Value::Whole(z) => write!(out, "{z}"),
        Value::Text(units) => push_text(out, units),
        Value::Object(object) => write!(out, "object:{object}"),
        Value::Outside(object) => write!(out, "extern:{object}"),
    }
}

/// Appends a text in quotes.
pub fn push_text(out: &mut String, units: &Units) -> Result<(), AllocError> {
    out.push('\'')?;
    push_units(out, units)?;
    out.push('\'')
}
