// The list of phases: rounds of folding.
ghost use Rattle.std.specs.Prelude.{◌≡◌};
ghost use Rattle.cc_passes.specs.Codes.{are_same};
ghost use Rattle.cc_passes.specs.Phases as phases;

use cc_ast::program::{Heads, Program, Scope};
use cc_core::programs::heads_of;
use cc_core::rules::Rules;
use cc_equal::scope::same_scopes;
use cc_fold::built::Plan;
use std::alloc::{AllocError, Global};

/// The most rounds of folding.
const MOST_ROUNDS: u32 = 12;

/// Folding, repeated until a round changes nothing, at most 12 times. A step is the number of its
/// round, counted from 0.
#[derive(Drop)]
pub struct Folding;

/// Whether a round changed nothing.
fn is_unchanged(before: &Program, after: &Program) -> bool
    ensures { result ≡ are_same before.now.scopes after.now.scopes }
{
    same_scopes(&before.scopes, &after.scopes)
}

fn next_round(step: u32, same: bool) -> Option<u32>
    ensures { result ≡ phases.next_round step same }
{
    if step < MOST_ROUNDS - 1 && !same {
        Some(step + 1)
    } else {
        None
    }
}

impl Rules for Folding {
    ghost use Rattle.cc_passes.specs.Phases.{folding};
    ghost use Rattle.cc_passes.specs.Lawful.{folding_lawful, folding_visits_all};

    type Plan = Plan;

    ghost work = { λ _. folding };

    fn local(&self, step: u32) -> bool {
        let _ = step;
        true
    }

    fn plan(&self, alloc: Global, step: u32, base: &Program) -> Result<Plan, AllocError> {
        let _ = step;
        cc_fold::plan(alloc, base)
    }

    fn heads(&self, alloc: Global, plan: &Plan, base: &Program) -> Result<Heads, AllocError> {
        let _ = alloc;
        let _ = plan;
        heads_of(base)
    }

    fn rewrite(
        &self,
        alloc: Global,
        plan: &Plan,
        slot: u32,
        scope: &Scope,
    ) -> Result<Scope, AllocError> {
        cc_fold::rewrite(alloc, plan, slot, scope)
    }

    fn next(&self, step: u32, before: &Program, after: &Program) -> Option<u32> {
        next_round(step, is_unchanged(before, after))
    }

    ghost lawful = { λ _. folding_lawful };

    ghost visits_all = { λ _. folding_visits_all };
}
