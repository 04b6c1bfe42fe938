// Names by number.
ghost use Rattle.std.specs.Prelude.{◌≡◌, IfOk};
ghost use Rattle.cc_driver.specs.Naming.{NameNumber};

use std::alloc::{AllocError, Global};

/// The characters of names in their order, of which the first 54 may begin one.
const CHARACTERS: &[u8; 64] = b"abcdefghijklmnopqrstuvwxyzABCDEFGHIJKLMNOPQRSTUVWXYZ$_0123456789";

/// The name with a number: names go by length, and then by their characters.
pub fn numbered(alloc: Global, k: u64) -> Result<Vec<u16>, AllocError>
    ensures { IfOk result (λ name. NameNumber k name.items) }
{
    if k < 54 {
        let mut name = Vec::new(alloc);
        name.push(u16::from(CHARACTERS[k as usize]))?;
        return Ok(name);
    }
    let behind = k - 54;
    let mut name = numbered(alloc, behind / 64)?;
    name.push(u16::from(CHARACTERS[(behind % 64) as usize]))?;
    Ok(name)
}
