// The text of a program, before its globals have names and after.
ghost use Rattle.std.specs.Prelude.{◌≡◌, IfOk, All};
ghost use Rattle.std.specs.Str.{IsAscii};
ghost use Rattle.cc_driver.specs.Spelling.{spell_chunk, text_of};

mod parts;
mod shape;
mod statement;
mod value;

use crate::spelling::parts::push_piece;
use crate::spelling::statement::push_statements;
use cc_ast::program::Program;
use cc_ast::units::Units;
use sqlite_items::Items;
use std::alloc::{AllocError, Global};

/// A piece of the text of a program: bytes that stand for themselves, or a global.
#[derive(Drop)]
pub enum Piece {
    Bytes(Items<u8>),
    Global(u32),
}

/// The pieces of the first chunk, or `None` where it has a node outside the form.
pub fn spell(alloc: Global, program: &Program) -> Result<Option<Items<Piece>>, AllocError>
    ensures { IfOk result (λ pieces. pieces ≡ spell_chunk program.now 0) }
{
    let mut pieces = Items::new(alloc);
    match program.scopes.get(0) {
        None => Ok(Some(pieces)),
        Some(scope) => {
            if push_statements(alloc, &mut pieces, scope.body.get().as_slice())? {
                Ok(Some(pieces))
            } else {
                Ok(None)
            }
        }
    }
}

/// The bytes of the pieces, with the names of the globals by their numbers.
pub fn text(
    alloc: Global,
    names: &Items<Units>,
    pieces: &Items<Piece>,
) -> Result<Vec<u8>, AllocError>
    requires { All IsAscii names.now }
    ensures { IfOk result (λ bytes. bytes.items ≡ text_of names.now pieces.now) }
{
    let mut bytes = Vec::new(alloc);
    for piece in pieces.as_slice() {
        push_piece(&mut bytes, names, piece)?;
    }
    Ok(bytes)
}
