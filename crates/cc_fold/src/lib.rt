//! Folding: operators on literals become the literal that they give, and `&&`, `||` and `?:` with a
//! literal on the left become the operand that they choose. A literal under a price mark counts as a
//! literal, and its price goes to what comes out. `rewrite` answers exactly the scope of
//! `specs/Fold.antt`.
#![tactic(auto)]

ghost use Rattle.std.specs.Prelude.{◌≡◌, IfOk};
ghost use Rattle.cc_fold.specs.Built.{built_globals, built_in};
ghost use Rattle.cc_fold.specs.Fold.{fold_scope};

pub mod built;
mod choice;
mod expression;
pub mod keeps;
pub mod laws;
mod literal;
mod make;
mod operators;
mod parts;
mod place;
mod price;
mod statement;

use crate::built::{Plan, built_of};
use crate::statement::fold_stmts;
use cc_ast::program::{Program, Scope};
use cc_ast::shared::Shared;
use std::alloc::{AllocError, Global};

/// The plan of folding for a program.
pub fn plan(alloc: Global, program: &Program) -> Result<Plan, AllocError>
    ensures { IfOk result (λ p. p ≡ built_globals program.now) }
{
    built_of(alloc, program)
}

/// The scope folded by the plan. Folding asks nothing of the scope's number.
#[tactic(auto, using(crate::proofs::Scopes::scope_folded))]
pub fn rewrite(alloc: Global, plan: &Plan, _slot: u32, scope: &Scope) -> Result<Scope, AllocError>
    ensures { IfOk result (λ s. s ≡ fold_scope (built_in plan.now) scope.now) }
{
    let body = fold_stmts(alloc, plan, scope.body.get())?;
    let body = Shared::new(alloc, body)?;
    Ok(Scope {
        params: scope.params,
        names: scope.names,
        own: scope.own,
        body,
        parent: scope.parent,
        doc: scope.doc,
    })
}
