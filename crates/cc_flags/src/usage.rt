// What is wrong with words.

use cc_ast::reading::LimitKind;
use std::alloc::{AllocError, AllocFailed};
use thiserror::Error;

/// What is wrong with a word, or what is missing. The first four are faults of a word's form.
#[derive(Clone, Copy, Debug)]
pub enum UsageKind {
    /// The call has no such flag.
    Unknown,
    /// The flag needs a value, and is the last word.
    NoValue,
    /// The value isn't of the flag's form.
    Value,
    /// The flag may be given once, and an earlier word gives it.
    Repeated,
    /// The flag doesn't stand together with an earlier one, or without one that isn't there.
    Together,
    /// There is no source file.
    MissingJs,
    /// Nothing says where the output goes, or there is no script to replay.
    MissingOutput,
}

/// Why words are no job. `at` counts words from 0; what is missing has the number of words.
/// `Memory` is want of memory.
#[derive(Clone, Copy, Debug, Error)]
pub enum Usage {
    #[error("word {at} is no part of a command line")]
    Word { at: usize, kind: UsageKind },
    #[error("word {at} is beyond a limit")]
    Limit { at: usize, kind: LimitKind },
    #[error("out of memory")]
    Memory,
}

impl From<AllocError> for Usage {
    ghost use Rattle.cc_flags.specs.declared.usage.Usage.TheVariants.{Memory};
    ghost use Rattle.std.specs.Prelude.{◌≡◌};

    ghost from_gives = { λ _ usage. usage ≡ Memory };

    fn from(_error: AllocError) -> Usage {
        Usage::Memory
    }
}

impl<T: Drop> From<AllocFailed<T>> for Usage {
    ghost use Rattle.cc_flags.specs.declared.usage.Usage.TheVariants.{Memory};
    ghost use Rattle.std.specs.Prelude.{◌≡◌};

    ghost from_gives = { λ _ usage. usage ≡ Memory };

    fn from(_error: AllocFailed<T>) -> Usage {
        Usage::Memory
    }
}
