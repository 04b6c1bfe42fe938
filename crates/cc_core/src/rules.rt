// The phases and their law.
ghost use Rattle.std.specs.Prelude.{◌≡◌, ℕ, List, Some, None, IfOk, slice_get, length};
ghost use Rattle.cc_core.specs.Work.{Work, Lawful, VisitsAll};

use cc_ast::program::{Heads, Program, Scope};
use std::alloc::{AllocError, Global};

/// A list of phases. A step is the number of a phase in the order in which they are done; the
/// first is 0. A step makes a plan of a whole program, and rewrites each scope by the plan alone.
pub trait Rules: Send + Sync + Drop {
    type Plan: Send + Sync + Drop;

    /// What the phases mean.
    ghost work: { Self → Work Self.Plan };

    /// Whether the step's rewrites may land one at a time. If not, all scopes and the tables
    /// beside them are exchanged together.
    fn local(&self, step: u32) -> bool
        ensures { result ≡ (work self.now).local step };

    /// The step's plan for a program.
    fn plan(&self, alloc: Global, step: u32, base: &Program) -> Result<Self::Plan, AllocError>
        requires { (work self.now).fits step base.now }
        ensures { IfOk result (λ p. p ≡ (work self.now).plan step base.now) };

    /// The tables of the program after a step of the whole program.
    fn heads(&self, alloc: Global, plan: &Self::Plan, base: &Program) -> Result<Heads, AllocError>
        requires { (step : ℕ) × ((work self.now).fits step base.now × (plan.now ≡ (work self.now).plan step base.now)) }
        ensures { IfOk result (λ h. h ≡ (work self.now).heads plan.now base.now) };

    /// The rewrite of a scope, where `slot` is its number in the program of the plan.
    fn rewrite(
        &self,
        alloc: Global,
        plan: &Self::Plan,
        slot: u32,
        scope: &Scope,
    ) -> Result<Scope, AllocError>
        requires { (step : ℕ) × ((base : _) × ((work self.now).fits step base × (plan.now ≡ (work self.now).plan step base) × (slice_get base.scopes slot ≡ Some scope.now))) }
        ensures { IfOk result (λ s. (work self.now).rewrite plan.now slot scope.now ≡ Some s) };

    /// The step after a step, which made `after` of `before`.
    fn next(&self, step: u32, before: &Program, after: &Program) -> Option<u32>
        ensures { result ≡ (work self.now).next step before.now after.now };

    /// The phases keep their law.
    ghost lawful: { (rules : Self) → Lawful (work rules) };

    /// Each step visits every scope.
    ghost visits_all: { (rules : Self) → VisitsAll (work rules) };
}
