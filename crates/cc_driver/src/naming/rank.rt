// The order in which globals get their names.
ghost use Rattle.std.specs.Prelude.{◌≡◌, ℕ, ◌<◌, ◌^◌, IfOk, map, length, slice_index, IsPermutation};
ghost use Rattle.cc_driver.specs.Naming.{occurrences, own_globals, IsRanked};
ghost use Rattle.cc_driver.specs.NamingSteps.{rank_of, global_of};

use crate::spelling::Piece;
use cc_ast::tables::GlobalInfo;
use std::alloc::{AllocError, Global};

/// A global's rank: the greater its count, the lesser is `falling`.
#[derive(Clone, Copy, PartialEq, Eq, PartialOrd, Ord)]
pub struct Rank {
    pub falling: usize,
    pub global: usize,
}

/// The globals that the chunks declare, in the order in which they get their names: more
/// occurrences come first, and of as many the lesser number.
pub fn rank_globals(
    alloc: Global,
    pieces: &[Piece],
    globals: &[GlobalInfo],
    counts: &[usize],
) -> Result<Vec<Rank>, AllocError>
    requires len { length counts.now ≡ length globals.now }
    requires counts { (g : ℕ) → g < length globals.now → slice_index counts.now g ≡ occurrences pieces.now g }
    requires short { length pieces.now < 2 ^ 64 }
    ensures all { IfOk result (λ ranks. IsPermutation (own_globals 0 globals.now) (map global_of ranks.items)) }
    ensures ranked { IfOk result (λ ranks. IsRanked pieces.now (map global_of ranks.items)) }
{
    let mut ranks = own_ranks(alloc, pieces, globals, counts)?;
    ranks.sort_unstable();
    Ok(ranks)
}

fn own_ranks(
    alloc: Global,
    pieces: &[Piece],
    globals: &[GlobalInfo],
    counts: &[usize],
) -> Result<Vec<Rank>, AllocError>
    requires len { length counts.now ≡ length globals.now }
    requires counts { (g : ℕ) → g < length globals.now → slice_index counts.now g ≡ occurrences pieces.now g }
    ensures { IfOk result (λ ranks. ranks.items ≡ map (rank_of pieces.now) (own_globals 0 globals.now)) }
{
    let mut ranks = Vec::new(alloc);
    for (g, global) in globals.iter().enumerate() {
        if global.chunk.is_some() {
            ranks.push(Rank {
                falling: usize::MAX - counts[g],
                global: g,
            })?;
        }
    }
    Ok(ranks)
}
