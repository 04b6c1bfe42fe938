// Texts: their order, and the text of a value (ECMA-262 5.1, 9.8, 11.8.5).

ghost use Rattle.std.specs.Prelude.{◌≡◌, ◌++◌, OnOk};
ghost use Rattle.cc_meaning.specs.Operators.{decimal, list_eq, text_less, truth_text};
ghost use Rattle.cc_value.specs.Bridge.{Appends, text_of, value_of};

use crate::value::{OpFault, Value};
use itoa::Buffer;
use std::alloc::AllocError;

/// Whether two texts have the same units.
pub fn is_equal(s: &[u16], t: &[u16]) -> bool
    ensures { result ≡ list_eq s.now t.now }
{
    if s.len() != t.len() {
        return false;
    }
    for (i, unit) in s.iter().enumerate() {
        if *unit != t[i] {
            return false;
        }
    }
    true
}

/// Whether the first text comes before the second.
pub(crate) fn is_less(s: &[u16], t: &[u16]) -> bool
    ensures { result ≡ text_less s.now t.now }
{
    for (i, unit) in t.iter().enumerate() {
        if i >= s.len() || s[i] < *unit {
            return true;
        }
        if *unit < s[i] {
            return false;
        }
    }
    false
}

/// Appends characters of ASCII as units.
pub(crate) fn append_ascii(into: &mut Vec<u16>, bytes: &[u8]) -> Result<(), AllocError>
    ensures { OnOk result (into.new.items ≡ into.old.items ++ bytes.now) }
{
    for byte in bytes {
        into.push(u16::from(*byte))?;
    }
    Ok(())
}

/// Appends the text of a value. An object has none.
pub(crate) fn append_text(into: &mut Vec<u16>, value: &Value) -> Result<(), OpFault>
    ensures { Appends into.old.items into.new.items (text_of (value_of value.now)) result }
{
    match value {
        Value::Undefined => append_ascii(into, b"undefined")?,
        Value::Null => append_ascii(into, b"null")?,
        Value::Truth(b) => append_truth(into, *b)?,
        Value::Whole(z) => append_whole(into, *z)?,
        Value::Text(text) => into.extend_from_slice(text.list.as_slice())?,
        Value::Object(_) | Value::Outside(_) => return Err(OpFault::Rule2),
    }
    Ok(())
}

fn append_whole(into: &mut Vec<u16>, z: i64) -> Result<(), AllocError>
    ensures { OnOk result (into.new.items ≡ into.old.items ++ decimal z) }
{
    let mut buffer = Buffer::new();
    append_ascii(into, buffer.format(z).as_bytes())
}

fn append_truth(into: &mut Vec<u16>, b: bool) -> Result<(), AllocError>
    ensures { OnOk result (into.new.items ≡ into.old.items ++ truth_text b) }
{
    if b {
        append_ascii(into, b"true")
    } else {
        append_ascii(into, b"false")
    }
}
