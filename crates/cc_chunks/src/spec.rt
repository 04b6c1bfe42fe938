// What is asked for, and what is wrong with it.

use std::alloc::AllocError;
use thiserror::Error;

/// A chunk as it is asked for: its name, how many of the files that are left it takes, and the
/// names of the chunks that it depends on directly (Closure Compiler, `--chunk`).
#[derive(Drop)]
pub struct ChunkSpec {
    pub name: String,
    pub count: u32,
    pub deps: Vec<String>,
}

/// Why specs are no graph: the number of the spec, and what is wrong with it.
#[derive(Clone, Copy, Debug, Error)]
pub enum ChunkFault {
    /// An earlier spec has its name.
    #[error("spec {0} has the name of an earlier one")]
    DoubleName(u32),
    /// It depends on a name that no spec has.
    #[error("spec {0} depends on a chunk that isn't there")]
    UnknownDep(u32),
    /// It depends on itself or on a later spec.
    #[error("spec {0} depends on itself or a later one")]
    LaterDep(u32),
    /// With it more files are taken than there are, or it is the last and leaves some.
    #[error("spec {0} takes too many or too few files")]
    FileCount(u32),
    #[error("out of memory")]
    Memory,
}

impl From<AllocError> for ChunkFault {
    ghost use Rattle.cc_chunks.specs.declared.spec.ChunkFault.TheVariants.{Memory};
    ghost use Rattle.std.specs.Prelude.{◌≡◌};

    ghost from_gives = { λ _ fault. fault ≡ Memory };

    fn from(_error: AllocError) -> ChunkFault {
        ChunkFault::Memory
    }
}
