// The chunks of the specs, one after another.

ghost use Rattle.std.specs.Prelude.{◌≡◌, ◌≢◌, ℕ, ◌+◌, ◌^◌, ◌<◌, IfOk, OnOk, IfErr, List, [], ◌∷◌, ◌++◌, length};
ghost use Rattle.cc_chunks.specs.Built.{Built};
ghost use Rattle.cc_chunks.specs.Faults.{first_of, names_of, IsFirstFault};
ghost use Rattle.cc_chunks.specs.Numbers.{number_in};
ghost use Rattle.cc_chunks.specs.declared.spec.ChunkFault.TheVariants.{Memory};

use crate::check::{check_count, chunk_at};
use crate::names::{Numbers, first_numbers};
use crate::spec::{ChunkFault, ChunkSpec};
use cc_ast::tables::ChunkInfo;
use sqlite_items::Items;
use std::alloc::{AllocError, Global};

/// The chunks of the first specs, how many files each takes, and how many they take together.
#[derive(Drop)]
pub(crate) struct Gathered {
    pub(crate) chunks: Items<ChunkInfo>,
    pub(crate) counts: Items<u32>,
    pub(crate) taken: u64,
}

/// The chunks of all specs, or the first fault in them.
pub(crate) fn gather(alloc: Global, specs: &[ChunkSpec], files: u32) -> Result<Gathered, ChunkFault>
    requires { length specs.now < 2 ^ 32 }
    ensures built { IfOk result (λ all. Built specs.now files (length specs.now) all.chunks all.counts all.taken) }
    ensures fault { IfErr result (λ fault. fault ≢ Memory → IsFirstFault specs.now files fault) }
{
    let numbers = first_numbers(alloc, specs)?;
    gather_by(alloc, specs, files, &numbers)
}

fn gather_by(
    alloc: Global,
    specs: &[ChunkSpec],
    files: u32,
    numbers: &Numbers<'_>,
) -> Result<Gathered, ChunkFault>
    requires few { length specs.now < 2 ^ 32 }
    requires numbers { (name : List ℕ) → number_in numbers.now name
        ≡ first_of (names_of specs.now) name }
    ensures built { IfOk result (λ all. Built specs.now files (length specs.now) all.chunks all.counts all.taken) }
    ensures fault { IfErr result (λ fault. fault ≢ Memory → IsFirstFault specs.now files fault) }
{
    let mut all = Gathered {
        chunks: Items::new(alloc),
        counts: Items::new(alloc),
        taken: 0,
    };
    for i in 0..specs.len() {
        all.add(alloc, specs, files, numbers, i)?;
    }
    Ok(all)
}

impl Gathered {
    /// Adds the chunk of the next spec.
    fn add(
        &mut self,
        alloc: Global,
        specs: &[ChunkSpec],
        files: u32,
        numbers: &Numbers<'_>,
        i: usize,
    ) -> Result<(), ChunkFault>
        requires within { i < length specs.now }
        requires few { length specs.now < 2 ^ 32 }
        requires numbers { (name : List ℕ) → number_in numbers.now name
            ≡ first_of (names_of specs.now) name }
        requires built { Built specs.now files i self.old.chunks self.old.counts self.old.taken }
        ensures built { OnOk result (Built specs.now files (i + 1) self.new.chunks self.new.counts self.new.taken) }
        ensures fault { IfErr result (λ fault. fault ≢ Memory → IsFirstFault specs.now files fault) }
    {
        let chunk = chunk_at(alloc, specs, numbers, i)?;
        let spec = &specs[i];
        self.push(chunk, spec.count)?;
        check_count(specs, files, i, self.taken)?;
        Ok(())
    }

    fn push(&mut self, chunk: ChunkInfo, count: u32) -> Result<(), AllocError>
        requires { self.old.taken + count < 2 ^ 64 }
        ensures chunks { OnOk result (self.new.chunks ≡ self.old.chunks ++ chunk ∷ []) }
        ensures counts { OnOk result (self.new.counts ≡ self.old.counts ++ count ∷ []) }
        ensures taken { OnOk result (self.new.taken ≡ self.old.taken + count) }
    {
        self.chunks.push(chunk)?;
        self.counts.push(count)?;
        self.taken += u64::from(count);
        Ok(())
    }
}
