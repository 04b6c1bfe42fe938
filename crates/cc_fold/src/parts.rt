// The parts of statements that hold expressions, folded.
ghost use Rattle.std.specs.Prelude.{◌≡◌, IfOk, map};
ghost use Rattle.cc_ast.specs.Bridge.{option_term, term};
ghost use Rattle.cc_ast.specs.StmtBridge.{declarator, for_init, for_target};
ghost use Rattle.cc_tied.specs.Rewrites.{init_of};
ghost use Rattle.cc_fold.specs.Built.{built_in};
ghost use Rattle.cc_fold.specs.Walk.{fold_declarator, fold_init, fold_names, fold_option, fold_value};

use crate::built::Plan;
use crate::expression::{fold_expr, fold_target};
use crate::place::Place;
use cc_ast::tree::{Declarator, Expr, ForInit, ForTarget};
use sqlite_items::{Boxed, Items};
use std::alloc::{AllocError, Global};

/// An expression that stands by itself, folded.
#[tactic(auto, using(crate::proofs::StmtEquations::value_at))]
pub fn fold_value(alloc: Global, plan: &Plan, e: &Expr) -> Result<Boxed<Expr>, AllocError>
    ensures { IfOk result (λ r. term r ≡ fold_value (built_in plan.now) (term e.now)) }
{
    fold_expr(alloc, plan, false, Place::Value, e)
}

/// The same where there is one.
#[tactic(auto, using(crate::proofs::StmtEquations::option_steps), unfolding(cc_ast::specs::Bridge::option_term))]
pub fn fold_option(
    alloc: Global,
    plan: &Plan,
    e: &Option<Boxed<Expr>>,
) -> Result<Option<Boxed<Expr>>, AllocError>
    ensures { IfOk result (λ r. option_term r ≡ fold_option (built_in plan.now) (option_term e.now)) }
{
    match e {
        None => Ok(None),
        Some(e) => Ok(Some(fold_value(alloc, plan, e.get())?)),
    }
}

/// A declarator with its value folded.
#[tactic(auto, using(crate::proofs::StmtEquations::declarator_at), unfolding(cc_ast::specs::StmtBridge::declarator))]
fn fold_declarator(alloc: Global, plan: &Plan, d: &Declarator) -> Result<Declarator, AllocError>
    ensures { IfOk result (λ r. declarator r ≡ fold_declarator (built_in plan.now) (declarator d.now)) }
{
    let value = fold_option(alloc, plan, &d.value)?;
    Ok(Declarator {
        site: d.site,
        variable: d.variable,
        value,
    })
}

/// The declarators of a `var`, folded.
pub fn fold_declarators(
    alloc: Global,
    plan: &Plan,
    declarators: &Items<Declarator>,
) -> Result<Items<Declarator>, AllocError>
    ensures { IfOk result (λ r. map declarator r ≡ map (fold_declarator (built_in plan.now)) (map declarator declarators.now)) }
{
    let mut folded = Items::new(alloc);
    for d in declarators.as_slice() {
        folded.push(fold_declarator(alloc, plan, d)?)?;
    }
    Ok(folded)
}

// A `for` without declarators begins with nothing.
#[tactic(auto, using(crate::proofs::StmtEquations::head_none, crate::proofs::StmtEquations::head_some), unfolding(cc_ast::specs::StmtBridge::for_init))]
fn declared(declarators: Items<Declarator>) -> ForInit
    ensures { for_init result ≡ init_of (map declarator declarators) }
{
    if declarators.is_empty() {
        ForInit::Nothing
    } else {
        ForInit::Declared(declarators)
    }
}

/// What a `for` begins with, folded.
#[tactic(auto, using(crate::proofs::StmtEquations::init_steps), unfolding(cc_ast::specs::StmtBridge::for_init))]
pub fn fold_init(alloc: Global, plan: &Plan, init: &ForInit) -> Result<ForInit, AllocError>
    ensures { IfOk result (λ r. for_init r ≡ fold_init (built_in plan.now) (for_init init.now)) }
{
    match init {
        ForInit::Nothing => Ok(ForInit::Nothing),
        ForInit::Value(e) => Ok(ForInit::Value(fold_value(alloc, plan, e.get())?)),
        ForInit::Declared(declarators) => {
            Ok(declared(fold_declarators(alloc, plan, declarators)?))
        }
    }
}

/// What a `for-in` writes each name to, folded.
#[tactic(auto, using(crate::proofs::StmtEquations::names_steps), unfolding(cc_ast::specs::StmtBridge::for_target))]
pub fn fold_names(alloc: Global, plan: &Plan, names: &ForTarget) -> Result<ForTarget, AllocError>
    ensures { IfOk result (λ r. for_target r ≡ fold_names (built_in plan.now) (for_target names.now)) }
{
    match names {
        ForTarget::Target(t) => Ok(ForTarget::Target(fold_target(alloc, plan, t.get())?)),
        ForTarget::Declared(d) => {
            let d = fold_declarator(alloc, plan, d.get())?;
            Ok(ForTarget::Declared(Boxed::new(alloc, d)?))
        }
    }
}
