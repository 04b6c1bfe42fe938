// The chunks that call the functions of the base chunk.

ghost use Rattle.std.specs.Prelude.{◌≡◌, ◌<◌, ◌+◌, ◌++◌, IfOk, OnOk, ℕ};
ghost use Rattle.std.specs.String.{string_bytes};
ghost use Rattle.cc_gen.specs.Draws.{state};
ghost use Rattle.cc_gen.specs.Texts.{call_count, call_line};
ghost use Rattle.cc_gen.specs.Texts as Texts;

use crate::draws::Draws;
use std::alloc::{AllocError, Global};

/// The calls that a chunk makes with an argument, each on a line. Their functions are the next
/// draws.
pub(crate) fn calls_text(
    alloc: Global,
    draws: &mut Draws,
    size: u32,
    argument: u32,
) -> Result<Vec<u8>, AllocError>
    requires { 0 < size }
    ensures text { IfOk result (λ text. (seed first : ℕ) → draws.old.state ≡ state seed first
        → text.items ≡ Texts.calls_text seed size argument first (call_count size)) }
    ensures state { OnOk result ((seed first : ℕ) → draws.old.state ≡ state seed first
        → draws.new.state ≡ state seed (first + call_count size)) }
{
    let mut text = String::new(alloc);
    for _ in 0..1 + size / 10 {
        let j = draws.draw(size);
        push_call(&mut text, j, argument)?;
    }
    Ok(text.into_bytes())
}

#[tactic(auto, unfolding(crate::specs::Texts::call_line))]
fn push_call(text: &mut String, j: u32, argument: u32) -> Result<(), AllocError>
    ensures { OnOk result (string_bytes text.new ≡ string_bytes text.old ++ call_line argument j) }
{
    writeln!(text, "out(f{j}({argument}));")
}
