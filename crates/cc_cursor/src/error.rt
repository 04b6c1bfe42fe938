// Why reading stops.

use cc_ast::place::Place;
use cc_ast::reading::Construct;
use std::alloc::AllocError;
use thiserror::Error;

/// What is wrong at a token. `Spent` says that a list was longer than the turns allow, which are
/// more than the tokens.
#[derive(Clone, Copy, Debug)]
pub enum Cause {
    Syntax,
    Depth,
    Spent,
    Refused(Construct),
}

/// A cause, and the place where it is.
#[derive(Clone, Copy, Debug)]
pub struct Fault {
    pub cause: Cause,
    pub place: Place,
}

/// A fault of the tokens, or want of memory.
#[derive(Clone, Copy, Debug, Error)]
pub enum ReadError {
    #[error("a fault at a token")]
    Fault(Fault),
    #[error("out of memory")]
    Memory,
}

impl From<AllocError> for ReadError {
    ghost use Rattle.std.specs.Prelude.{◌≡◌};
    ghost use Rattle.cc_cursor.specs.declared.error.ReadError.TheVariants.{Memory};

    ghost from_gives = { λ _ e. e ≡ Memory };

    fn from(_: AllocError) -> ReadError {
        ReadError::Memory
    }
}
