//! Large valid input made from a number: the externs and three chunks, of which `x` and `y`
//! depend on `base`. `generate` answers exactly the texts of specs/Texts.antt, whose draws are
//! those of specs/Draws.antt.
#![tactic(auto)]

mod calls;
mod draws;
mod functions;

ghost use Rattle.std.specs.Prelude.{◌≡◌, ◌<◌, IfOk};
ghost use Rattle.cc_gen.specs.Texts.{base_text, x_text, y_text, externs_text};

use crate::calls::calls_text;
use crate::draws::Draws;
use crate::functions::base_text;
use std::alloc::{AllocError, Global};

/// The texts of one generated input, in ASCII.
#[derive(Drop)]
pub struct Generated {
    pub externs: Vec<u8>,
    pub base: Vec<u8>,
    pub x: Vec<u8>,
    pub y: Vec<u8>,
}

/// Generates `size` functions in `base`, and a tenth as many calls of them and one in each of the
/// other chunks.
pub fn generate(alloc: Global, seed: u64, size: u32) -> Result<Generated, AllocError>
    requires { 0 < size }
    ensures externs { IfOk result (λ input. input.externs.items ≡ externs_text) }
    ensures base { IfOk result (λ input. input.base.items ≡ base_text seed size) }
    ensures x { IfOk result (λ input. input.x.items ≡ x_text seed size) }
    ensures y { IfOk result (λ input. input.y.items ≡ y_text seed size) }
{
    let mut draws = Draws::from_seed(seed);
    let externs = Vec::from_slice(alloc, b"function out(x){}")?;
    let base = base_text(alloc, &mut draws, size)?;
    let x = calls_text(alloc, &mut draws, size, 1)?;
    let y = calls_text(alloc, &mut draws, size, 2)?;
    Ok(Generated {
        externs,
        base,
        x,
        y,
    })
}
