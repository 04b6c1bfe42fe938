// How often globals are printed.
ghost use Rattle.std.specs.Prelude.{◌≡◌, ℕ, ◌+◌, ◌<◌, IfOk, length, vec_len, slice_index, if◌then◌else◌};
ghost use Rattle.cc_driver.specs.Naming.{is_global, occurrences};

use crate::spelling::Piece;
use std::alloc::{AllocError, Global};

/// How often each of the first `n` globals is printed.
pub fn count_globals(alloc: Global, pieces: &[Piece], n: usize) -> Result<Vec<usize>, AllocError>
    ensures len { IfOk result (λ counts. vec_len counts ≡ n) }
    ensures counts { IfOk result (λ counts. (g : ℕ) → g < n → slice_index counts.items g ≡ occurrences pieces.now g) }
{
    let mut counts = vec![in alloc; 0usize; n]?;
    for piece in pieces {
        count_piece(counts.as_mut_slice(), piece);
    }
    Ok(counts)
}

fn count_piece(counts: &mut [usize], piece: &Piece)
    requires { (g : ℕ) → g < length counts.old → slice_index counts.old g < usize.MAX }
    ensures { (g : ℕ) → g < length counts.old → slice_index counts.new g
        ≡ slice_index counts.old g + (if is_global g piece.now then 1 else 0) }
{
    match piece {
        Piece::Bytes(_) => {}
        Piece::Global(g) => {
            let g = *g as usize;
            if g < counts.len() {
                counts[g] += 1;
            }
        }
    }
}
