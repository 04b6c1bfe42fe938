// The graph.

ghost use Rattle.std.specs.Prelude.{◌≡◌, ◌≢◌, ◌↔◌, ◌⊎◌, ℕ, ◌/◌, ◌%◌, ◌^◌, ◌<◌, IfOk, OnOk, IfErr, IsTrue, MatchOption, IfSome, Some, length, []};
ghost use Rattle.std.specs.List.{All};
ghost use Rattle.std.specs.Option.{ForSome};

use crate::gathered::{Gathered, gather};
use crate::reach::{Reach, table_of};
use crate::set::{has_bit, with_bit};
use crate::spec::{ChunkFault, ChunkSpec};
use cc_ast::program::Program;
use cc_ast::shared::Shared;
use cc_ast::tables::ChunkInfo;
use sqlite_items::{Items, at};
use std::alloc::{AllocError, Global};
use std::marker::Model;

/// Chunks that depend on chunks before them, with a table of all that each depends on.
#[derive(Drop)]
pub struct ChunkGraph {
    chunks: Shared<Items<ChunkInfo>>,
    counts: Items<u32>,
    table: Vec<Reach>,
}

impl Model for ChunkGraph {
    ghost use Rattle.cc_chunks.specs.Graph.{Graph};
    ghost use Rattle.cc_chunks.specs.Tables.{IsTable};

    ghost Value = { Graph };

    ghost view = { λ g. record { chunks = g.chunks; counts = g.counts } };

    ghost invariant = { λ g. IsTable g.chunks g.table.items };
}

impl ChunkGraph {
    ghost use Rattle.cc_chunks.specs.declared.spec.ChunkFault.TheVariants.{Memory};
    ghost use Rattle.cc_chunks.specs.declared.spec.ChunkFault.{ChunkFault};
    ghost use Rattle.cc_chunks.specs.Faults.{HasFault, IsFirstFault, IsGraphOf};
    ghost use Rattle.cc_chunks.specs.Sets as Sets;
    ghost use Rattle.cc_chunks.specs.Tables.{IsCommonWord};
    ghost use Rattle.cc_chunks.specs.Graph.{Depends, DependsDown, IsCommon, IsDeepestCommon, DependsOnCount, GoesBefore};

    /// The graph of these specs, which share out `files` files in their order.
    pub fn of(alloc: Global, specs: &[ChunkSpec], files: u32) -> Result<ChunkGraph, ChunkFault>
        requires { length specs.now < 2 ^ 32 }
        ensures graph { IfOk result (IsGraphOf specs.now) }
        ensures sound { OnOk result ((fault : ChunkFault) → ¬ HasFault specs.now files fault) }

        // Of several faults the first is answered. Memory may be wanting at any time.
        ensures fault { IfErr result (λ fault. fault ≢ Memory → IsFirstFault specs.now files fault) }
    {
        let gathered = gather(alloc, specs, files)?;
        Ok(ChunkGraph::of_gathered(alloc, gathered)?)
    }

    fn of_gathered(alloc: Global, gathered: Gathered) -> Result<ChunkGraph, AllocError>
        requires { DependsDown gathered.chunks }
        ensures chunks { IfOk result (λ graph. graph.chunks ≡ gathered.chunks) }
        ensures counts { IfOk result (λ graph. graph.counts ≡ gathered.counts) }
    {
        let Gathered {
            chunks,
            counts,
            taken: _,
        } = gathered;
        let chunks = Shared::new(alloc, chunks)?;
        ChunkGraph::with_chunks(alloc, chunks, counts)
    }

    /// The graph of a program's chunks, in which no chunk takes files any more.
    pub fn from_program(alloc: Global, program: &Program) -> Result<ChunkGraph, AllocError>
        requires { DependsDown program.now.chunks }
        ensures chunks { IfOk result (λ graph. graph.chunks ≡ program.now.chunks) }
        ensures counts { IfOk result (λ graph. graph.counts ≡ []) }
    {
        let chunks = program.chunks.try_clone()?;
        ChunkGraph::with_chunks(alloc, chunks, Items::new(alloc))
    }

    fn with_chunks(
        alloc: Global,
        chunks: Shared<Items<ChunkInfo>>,
        counts: Items<u32>,
    ) -> Result<ChunkGraph, AllocError>
        requires { DependsDown chunks }
        ensures chunks { IfOk result (λ graph. graph.chunks ≡ chunks) }
        ensures counts { IfOk result (λ graph. graph.counts ≡ counts) }
    {
        let table = table_of(alloc, chunks.get().as_slice())?;
        Ok(ChunkGraph {
            chunks,
            counts,
            table,
        })
    }

    /// The chunks by number.
    pub fn chunks(&self) -> &[ChunkInfo]
        ensures chunks { result.now ≡ self.now.chunks }
        ensures down { DependsDown self.now.chunks }
    {
        self.chunks.get().as_slice()
    }

    /// How many files each chunk takes, in the order of the files; none for a program's chunks.
    pub fn counts(&self) -> &[u32]
        ensures { result.now ≡ self.now.counts }
    {
        self.counts.as_slice()
    }

    /// Whether `a` depends on `b`, directly or through others.
    pub fn depends(&self, a: u32, b: u32) -> bool
        ensures { IsTrue result ↔ Depends self.now.chunks a b }
    {
        match at(self.table.as_slice(), a as usize) {
            Some(reach) => reach.set.contains(b as usize),
            None => false,
        }
    }

    /// The chunk that each of the list is or depends on, and that itself depends on the most
    /// chunks; of several such chunks the first.
    pub fn deepest_common(&self, chunks: &[u32]) -> Option<u32>
        requires some { 0 < length chunks.now }
        requires in_graph { All (λ k. k < length self.now.chunks) chunks.now }
        ensures { MatchOption result ((c : ℕ) → ¬ IsCommon self.now.chunks chunks.now c)
            (IsDeepestCommon self.now.chunks chunks.now) }
    {
        // A common chunk is no later than any of the list, since the chunks of the table depend on
        // earlier ones alone.
        let _ = &self.table;
        let mut deepest: Option<u32> = None;
        let mut common = 0;
        for c in 0..=chunks[0] {
            common = self.common_at(chunks, c as usize, common);
            if has_bit(common, c as usize) {
                deepest = Some(self.deeper_of(deepest, c));
            }
        }
        deepest
    }

    /// The word of the common chunks that `c` stands in, where `last` is that of the chunk before
    /// it.
    fn common_at(&self, chunks: &[u32], c: usize, last: u64) -> u64
        requires in_graph { All (λ k. k < length self.now.chunks) chunks.now }
        requires last { c % 64 ≢ 0 → IsCommonWord self.now.chunks chunks.now (c / 64) last }
        ensures { IsCommonWord self.now.chunks chunks.now (c / 64) result }
    {
        if c % 64 == 0 {
            self.common_word(chunks, c / 64)
        } else {
            last
        }
    }

    /// The word at a place of the set of the chunks that each of the list is or depends on.
    fn common_word(&self, chunks: &[u32], at: usize) -> u64
        requires in_graph { All (λ k. k < length self.now.chunks) chunks.now }
        ensures { IsCommonWord self.now.chunks chunks.now at result }
    {
        let mut common = u64::MAX;
        for k in chunks {
            common &= self.reached_word(*k as usize, at);
        }
        common
    }

    /// The word at a place of the set of the chunks that `k` is or depends on.
    fn reached_word(&self, k: usize, at: usize) -> u64
        requires { k < length self.now.chunks }
        ensures { (c : ℕ) → c / 64 ≡ at
            → IsTrue (Sets.has_bit result c) ↔ ((k ≡ c) ⊎ Depends self.now.chunks k c) }
    {
        let word = self.table[k].set.word(at);
        if k / 64 == at {
            with_bit(word, k)
        } else {
            word
        }
    }

    /// The one of a chunk and a later one that depends on more chunks, the first where they
    /// depend on as many.
    fn deeper_of(&self, earlier: Option<u32>, c: u32) -> u32
        requires within { c < length self.now.chunks }
        requires earlier { ForSome earlier (λ d. d < c) }
        ensures one { (result ≡ c) ⊎ (Some result ≡ earlier) }
        ensures before { GoesBefore self.now.chunks result c }
        ensures before_earlier { IfSome earlier (GoesBefore self.now.chunks result) }
    {
        let count = self.count(c);
        match earlier {
            Some(d) if count <= self.count(d) => d,
            _ => c,
        }
    }

    /// How many chunks a chunk depends on.
    fn count(&self, a: u32) -> usize
        requires { a < length self.now.chunks }
        ensures { DependsOnCount self.now.chunks a result }
    {
        self.table[a as usize].count
    }
}
