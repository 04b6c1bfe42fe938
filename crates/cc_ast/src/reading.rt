// What reading refuses.

use crate::place::Place;
use crate::units::Units;
use thiserror::Error;

/// What a limit counts.
#[derive(Clone, Copy, Debug)]
pub enum LimitKind {
    Workers,
    Files,
    Chunks,
    Bytes,
    Depth,
    Scopes,
}

/// A construct of ECMA-262 5.1, or of a later edition, that the language leaves out.
#[derive(Clone, Copy, Debug)]
pub enum Construct {
    RegExp,
    With,
    Debugger,
    Accessor,
    EvalName,
    ArgumentsName,
    BlockFunction,
    NumberForm,
    NameEscape,
    OctalEscape,
    LaterWord,
    Hole,
    DeleteName,
    BuiltIn,
    HostWrite,
}

/// Why a text is no program of the language. `byte` counts bytes from 0, and `Memory` is want of
/// memory.
#[derive(Debug, Drop, Error)]
pub enum Refusal {
    #[error("file {file} is not UTF-8 at byte {byte}")]
    NotUtf8 { file: u32, byte: u32 },
    #[error("beyond a limit")]
    Limit { kind: LimitKind, place: Place },
    #[error("no program")]
    Syntax { place: Place },
    #[error("a construct that the language leaves out")]
    Refused { kind: Construct, place: Place },
    #[error("an undeclared name")]
    Undeclared { name: Units, place: Place },
    #[error("declared twice")]
    Redeclared { place: Place },
    #[error("a class that extends itself")]
    Cycle { place: Place },
    #[error("out of memory")]
    Memory,
}
