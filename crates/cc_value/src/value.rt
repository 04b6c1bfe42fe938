// Values, views, events, and why an operator gives none.

use cc_ast::units::Units;
use sqlite_items::Items;
use std::alloc::AllocError;
use thiserror::Error;

/// A value (ECMA-262 5.1, 8). Objects of the program and of the outside go by number.
#[derive(Drop)]
pub enum Value {
    Undefined,
    Null,
    Truth(bool),
    Whole(i64),
    Text(Units),
    Object(usize),
    Outside(u32),
}

/// A value as the outside sees it: an object of the program stands as its handle.
#[derive(Drop)]
pub enum View {
    Undefined,
    Null,
    Truth(bool),
    Whole(i64),
    Text(Units),
    Handle(usize),
    Outside(u32),
}

/// What reaches the outside, and how each turn and each inner call ends.
#[derive(Drop)]
pub enum Event {
    Call {
        target: View,
        this: View,
        args: Items<View>,
    },
    New {
        target: View,
        args: Items<View>,
    },
    Get {
        target: View,
        name: Units,
    },
    Set {
        target: View,
        name: Units,
        value: View,
    },
    Ended {
        value: View,
    },
    Threw {
        value: View,
    },
}

/// Why an operator gives no value: the rule that it breaks, or want of memory.
#[derive(Clone, Copy, Debug, Error)]
pub enum OpFault {
    #[error("a number that isn't whole, is past 2^53-1 or is the negative zero")]
    Rule1,
    #[error("an operand of another kind")]
    Rule2,
    #[error("out of memory")]
    Memory,
}

impl From<AllocError> for OpFault {
    ghost use Rattle.cc_value.specs.declared.value.OpFault.TheVariants.{Memory};
    ghost use Rattle.std.specs.Prelude.{◌≡◌};

    ghost from_gives = { λ _ e. e ≡ Memory };

    fn from(_refused: AllocError) -> OpFault {
        OpFault::Memory
    }
}
