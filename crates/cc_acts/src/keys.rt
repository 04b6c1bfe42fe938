// The texts that values are as keys (ECMA-262 5.1, 11.2.1).

ghost use Rattle.std.specs.Prelude.{◌≡◌, IfOk};
ghost use Rattle.std.specs.Option.{option_map};
ghost use Rattle.cc_meaning.specs.Names.{name_prototype};
ghost use Rattle.cc_meaning.specs.Operators.{decimal, key_text};
ghost use Rattle.cc_value.specs.Bridge.{value_of};

use cc_ast::copy::CopyOf;
use cc_ast::units::Units;
use cc_value::value::Value;
use itoa::Buffer;
use std::alloc::{AllocError, Global};

// A text of ASCII characters.
fn units_of(alloc: Global, bytes: &[u8]) -> Result<Units, AllocError>
    ensures { IfOk result (λ units. units ≡ bytes.now) }
{
    let mut list = Vec::new(alloc);
    for byte in bytes {
        list.push(u16::from(*byte))?;
    }
    Ok(Units { list })
}

fn decimal_of(alloc: Global, number: i64) -> Result<Units, AllocError>
    ensures { IfOk result (λ units. units ≡ decimal number) }
{
    let mut buffer = Buffer::new();
    units_of(alloc, buffer.format(number).as_bytes())
}

/// The text that a value is as a key, where it is one.
pub fn key_of(alloc: Global, value: &Value) -> Result<Option<Units>, AllocError>
    ensures { IfOk result (λ text. text ≡ key_text (value_of value.now)) }
{
    match value {
        Value::Text(text) => Ok(Some(text.copy_of(alloc)?)),
        Value::Whole(number) => Ok(Some(decimal_of(alloc, *number)?)),
        _ => Ok(None),
    }
}

/// The name of the slot that each function has from the start.
pub(crate) fn prototype_name(alloc: Global) -> Result<Units, AllocError>
    ensures { IfOk result (λ units. units ≡ name_prototype) }
{
    units_of(alloc, b"prototype")
}
