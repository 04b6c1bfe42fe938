// A program put through the phases by one worker.
ghost use Rattle.std.specs.Prelude.{◌≡◌, ◌+◌, ◌<◌, ◌^◌, IfOk, OnOk, is_some};
ghost use Rattle.cc_core.specs.Events.{after_close};
ghost use Rattle.cc_core.specs.State.{NoneOut, started, reading};
ghost use Rattle.cc_core.specs.Work.{phase};
ghost use Rattle.cc_meaning.specs.WellMade.{WellMade};
ghost use Rattle.cc_passes.specs.Phases.{folding, optimised};
ghost use Rattle.cc_tied.specs.Promises.{HasNoPaths};

use crate::folding::Folding;
use cc_ast::program::Program;
use cc_core::alone::work_alone;
use cc_core::shop::Shop;
use std::alloc::{AllocError, Global};

/// Makes every rewrite of the phase that is at work, closes it, and says whether another follows.
fn finish_phase(shop: &mut Shop<Folding>) -> Result<bool, AllocError>
    requires none_out { NoneOut shop.old.state.slots }
    requires few { shop.old.state.closed + 1 < 2 ^ 32 }
    ensures closed { OnOk result (shop.new.state ≡ after_close folding shop.old.state) }
    ensures follows { IfOk result (λ follows. follows ≡ is_some (folding.next shop.old.state.step shop.old.state.base (phase folding shop.old.state.step shop.old.state.base))) }
{
    work_alone(shop)?;
    match shop.close() {
        Ok(follows) => Ok(follows),
        // Every slot is done, so no more than memory can be wanting.
        Err(_) => Err(AllocError),
    }
}

/// Makes all phases of a program that is at its first step.
fn finish_all(shop: &mut Shop<Folding>) -> Result<(), AllocError>
    requires { shop.old.state ≡ started shop.old.state.source }
    ensures { OnOk result (reading folding shop.new.state ≡ optimised shop.old.state.source) }
{
    for _round in 0..12_u32 {
        let follows = finish_phase(shop)?;
        if !follows {
            return Ok(());
        }
    }
    Ok(())
}

/// The program after the phases.
pub fn optimise(alloc: Global, program: Program) -> Result<Program, AllocError>
    requires well { WellMade program }
    requires no_paths { HasNoPaths program }
    ensures { IfOk result (λ p. p ≡ optimised program) }
{
    let Ok(mut shop) = Shop::begin(alloc, Folding, program) else {
        return Err(AllocError);
    };
    let Ok(()) = finish_all(&mut shop) else {
        return Err(AllocError);
    };
    Ok(shop.take())
}
