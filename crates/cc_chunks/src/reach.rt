// The table of all that each chunk depends on.

ghost use Rattle.std.specs.Prelude.{◌≡◌, ◌↔◌, ℕ, ◌+◌, ◌*◌, ◌<◌, ◌≤◌, IfOk, IsTrue, vec_len, length};
ghost use Rattle.cc_chunks.specs.Graph.{Depends, DependsDown};
ghost use Rattle.cc_chunks.specs.Sets.{has};
ghost use Rattle.cc_chunks.specs.Tables.{IsReach, AreReaches, IsTable};

use crate::set::NumberSet;
use cc_ast::tables::ChunkInfo;
use std::alloc::{AllocError, Global};

/// The chunks that a chunk depends on, and how many they are.
#[derive(Drop)]
pub(crate) struct Reach {
    pub(crate) set: NumberSet,
    pub(crate) count: usize,
}

/// An entry for each chunk.
pub(crate) fn table_of(alloc: Global, chunks: &[ChunkInfo]) -> Result<Vec<Reach>, AllocError>
    requires { DependsDown chunks.now }
    ensures { IfOk result (λ table. IsTable chunks.now table.items) }
{
    let mut table = Vec::new(alloc);
    for _ in 0..chunks.len() {
        let reach = next_reach(alloc, chunks, table.as_slice())?;
        table.push(reach)?;
    }
    Ok(table)
}

/// The entry of the first chunk that has none yet.
fn next_reach(alloc: Global, chunks: &[ChunkInfo], table: &[Reach]) -> Result<Reach, AllocError>
    requires next { length table.now < length chunks.now }
    requires down { DependsDown chunks.now }
    requires reaches { AreReaches chunks.now table.now }
    ensures { IfOk result (IsReach chunks.now (length table.now)) }
{
    let set = reached(alloc, chunks, table)?;
    let count = set.count();
    Ok(Reach { set, count })
}

/// The chunks that the first chunk without an entry depends on.
fn reached(alloc: Global, chunks: &[ChunkInfo], table: &[Reach]) -> Result<NumberSet, AllocError>
    requires next { length table.now < length chunks.now }
    requires down { DependsDown chunks.now }
    requires reaches { AreReaches chunks.now table.now }
    ensures room { IfOk result (λ set. length table.now ≤ 64 * vec_len set.words) }
    ensures tight { IfOk result (λ set. 64 * vec_len set.words < length table.now + 64) }
    ensures right { IfOk result (λ set. (b : ℕ) → IsTrue (has set.words.items b)
        ↔ Depends chunks.now (length table.now) b) }
{
    let mut set = NumberSet::with_room(alloc, table.len())?;
    for dep in chunks[table.len()].deps.as_slice() {
        let earlier = &table[*dep as usize];
        set.unite(&earlier.set);
        set.insert(*dep as usize);
    }
    Ok(set)
}
