// Pieces that are put at the end, and their bytes.
ghost use Rattle.std.specs.Prelude.{◌≡◌, [], ◌∷◌, ◌++◌, List, ℕ, IfOk, OnOk, All, Some, None, if◌then◌else◌};
ghost use Rattle.std.specs.List.{list_all};
ghost use Rattle.std.specs.Str.{IsAscii};
ghost use Rattle.cc_driver.specs.declared.spelling.Piece.TheVariants.{Bytes};
ghost use Rattle.cc_driver.specs.Form.{is_plain};
ghost use Rattle.cc_driver.specs.Spelling.{piece_text};
ghost use Rattle.cc_driver.specs.Shapes.{numeral, quoted};

use crate::spelling::Piece;
use cc_ast::units::Units;
use itoa::Buffer;
use sqlite_items::Items;
use std::alloc::{AllocError, Global};

// 2^53: the whole numbers below it are exact.
const WHOLE_LIMIT: i64 = 9_007_199_254_740_992;

/// The bytes as one piece at the end.
pub fn push_bytes(alloc: Global, pieces: &mut Items<Piece>, bytes: &[u8]) -> Result<(), AllocError>
    ensures { OnOk result (pieces.new ≡ pieces.old ++ Bytes bytes.now ∷ []) }
{
    pieces.push(Piece::Bytes(Items::from_slice(alloc, bytes)?))
}

/// A text in double quotes, or `None` where it has a unit that is not plain.
pub fn quote(alloc: Global, text: &Units) -> Result<Option<Items<u8>>, AllocError>
    ensures { IfOk result (λ bytes. bytes ≡ quoted text.now) }
{
    let mut bytes = Items::new(alloc);
    if push_quoted(&mut bytes, text)? {
        Ok(Some(bytes))
    } else {
        Ok(None)
    }
}

/// Puts a text in double quotes where nothing stands yet, or answers false where it has a unit that
/// is not plain.
fn push_quoted(bytes: &mut Items<u8>, text: &Units) -> Result<bool, AllocError>
    requires { bytes.old ≡ [] }
    ensures { IfOk result (λ fits. (if fits then Some bytes.new else None) ≡ quoted text.now) }
{
    bytes.push(b'"')?;
    for unit in text.list.as_slice() {
        if !is_plain(*unit) {
            return Ok(false);
        }
        bytes.push(*unit as u8)?;
    }
    bytes.push(b'"')?;
    Ok(true)
}

/// The decimal of a number, or `None` where it is below 0 or above 2^53-1.
pub fn decimal_of(alloc: Global, number: i64) -> Result<Option<Items<u8>>, AllocError>
    ensures { IfOk result (λ bytes. bytes ≡ numeral number) }
{
    if number < 0 || number >= WHOLE_LIMIT {
        return Ok(None);
    }
    let mut buffer = Buffer::new();
    let text = buffer.format(number as u64).as_bytes();
    Ok(Some(Items::from_slice(alloc, text)?))
}

/// Whether a text may have the unit: 32 to 126 without quotes and backslash.
fn is_plain(unit: u16) -> bool
    ensures { result ≡ is_plain unit }
{
    (32 <= unit && unit <= 126) && !(unit == 34 || unit == 39 || unit == 92)
}

/// The bytes of a piece, at the end.
pub fn push_piece(
    bytes: &mut Vec<u8>,
    names: &Items<Units>,
    piece: &Piece,
) -> Result<(), AllocError>
    requires { All IsAscii names.now }
    ensures { OnOk result (bytes.new.items ≡ bytes.old.items ++ piece_text names.now piece.now) }
{
    match piece {
        Piece::Bytes(text) => bytes.extend_from_slice(text.as_slice()),
        Piece::Global(g) => match names.get(*g as usize) {
            None => Ok(()),
            Some(name) => push_name(bytes, name),
        },
    }
}

fn push_name(bytes: &mut Vec<u8>, name: &Units) -> Result<(), AllocError>
    requires { IsAscii name.now }
    ensures { OnOk result (bytes.new.items ≡ bytes.old.items ++ name.now) }
{
    for unit in name.list.as_slice() {
        bytes.push(*unit as u8)?;
    }
    Ok(())
}
