// Two phases.
ghost use Rattle.std.specs.Prelude.{◌≡◌, Some, IfOk};

use cc_ast::copy::copy_scope;
use cc_ast::program::{Heads, Program, Scope};
use cc_core::programs::heads_of;
use cc_core::rules::Rules;
use std::alloc::{AllocError, Global};

/// A local step that clears the doc of each scope, and then a step of the whole program that
/// changes nothing.
#[derive(Drop)]
pub struct Clear;

/// The plan of a step.
#[derive(Drop)]
pub struct ClearPlan {
    pub step: u32,
}

impl Rules for Clear {
    ghost use Rattle.cc_clear.specs.Clear.{clear, clear_lawful, clear_visits_all};

    type Plan = ClearPlan;

    ghost work = { λ _. clear };

    fn local(&self, step: u32) -> bool {
        step == 0
    }

    fn plan(&self, alloc: Global, step: u32, base: &Program) -> Result<ClearPlan, AllocError> {
        let _ = alloc;
        let _ = base;
        Ok(ClearPlan { step })
    }

    fn heads(&self, alloc: Global, plan: &ClearPlan, base: &Program) -> Result<Heads, AllocError> {
        let _ = alloc;
        let _ = plan;
        heads_of(base)
    }

    fn rewrite(
        &self,
        alloc: Global,
        plan: &ClearPlan,
        slot: u32,
        scope: &Scope,
    ) -> Result<Scope, AllocError> {
        let _ = alloc;
        let _ = slot;
        let mut copy = copy_scope(scope)?;
        if plan.step == 0 {
            copy.doc = 0;
        }
        Ok(copy)
    }

    fn next(&self, step: u32, before: &Program, after: &Program) -> Option<u32> {
        let _ = before;
        let _ = after;
        if step == 0 { Some(1) } else { None }
    }

    ghost lawful = { λ _. clear_lawful };

    ghost visits_all = { λ _. clear_visits_all };
}
