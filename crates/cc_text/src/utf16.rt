// Characters as units.

ghost use Rattle.std.specs.Prelude.{◌≡◌, ◌++◌, IfOk, OnOk, OnErr};
ghost use Rattle.std.specs.Str.{chars};
ghost use Rattle.std.specs.Char.Escape.{encode_utf16};
ghost use Rattle.cc_text.specs.Utf16.{utf16};

use cc_ast::units::Units;
use std::alloc::{AllocError, Global};

/// Adds the units of a character. After an error some of them may stand there.
pub fn push_char(units: &mut Vec<u16>, c: char) -> Result<(), AllocError>
    ensures { OnOk result (units.new.items ≡ units.old.items ++ encode_utf16 c) }
{
    let code = c as u32;
    if code < 0x1_0000 {
        units.push(code as u16)?;
    } else {
        let above = code - 0x1_0000;
        units.push((0xD800 + above / 0x400) as u16)?;
        units.push((0xDC00 + above % 0x400) as u16)?;
    }
    Ok(())
}

/// The UTF-16 units of a text.
pub fn units_of(alloc: Global, text: &str) -> Result<Units, AllocError>
    ensures { IfOk result (λ units. units ≡ utf16 (chars text.now)) }
{
    let mut list = Vec::with_capacity(alloc, text.len())?;
    let mut rest = text;
    while let Some((c, behind)) = crate::front::split_first(rest) {
        push_char(&mut list, c)?;
        rest = behind;
    }
    Ok(Units { list })
}
