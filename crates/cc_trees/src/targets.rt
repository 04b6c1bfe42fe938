// What is written to.

ghost use Rattle.std.specs.Prelude.{◌≡◌, IsTrue, IfOk, IfSome, Some, is_some};
ghost use Rattle.cc_grammar.specs.RawTree as raw;
ghost use Rattle.cc_grammar.specs.Signs as signs;
ghost use Rattle.cc_raw.specs.Bridge.{raw_expr, raw_target};

use crate::trees::{assign, step};
use cc_ast::operator::BinOp;
use cc_ast::place::Place;
use cc_raw::tree::{RawExpr, RawTarget};
use sqlite_items::Boxed;
use std::alloc::{AllocError, Global};

/// Whether an expression can be written to.
#[tactic(auto, using(cc_raw::specs::Terms::raw_steps))]
pub fn is_target(e: &RawExpr) -> bool
    ensures { result ≡ is_some (signs.target_of (raw_expr e.now)) }
{
    match e {
        RawExpr::Var(_, _) | RawExpr::Member(_, _, _, _) | RawExpr::Index(_, _, _) => true,
        RawExpr::Cast(_, inner) => is_target(inner.get()),
        _ => false,
    }
}

/// Whether an expression is a variable.
#[tactic(auto, using(cc_raw::specs::Terms::raw_steps))]
pub fn is_variable(e: &RawExpr) -> bool
    ensures { result ≡ signs.is_variable (raw_expr e.now) }
{
    match e {
        RawExpr::Var(_, _) => true,
        RawExpr::Cast(_, inner) => is_variable(inner.get()),
        _ => false,
    }
}

/// The target that an expression is.
#[tactic(auto, using(cc_raw::specs::Terms::raw_steps))]
pub fn into_target(e: Boxed<RawExpr>) -> RawTarget
    requires { IsTrue (is_some (signs.target_of (raw_expr e))) }
    ensures { signs.target_of (raw_expr e) ≡ Some (raw_target result) }
{
    match e.into_inner() {
        RawExpr::Var(place, name) => RawTarget::Variable(place, name),
        RawExpr::Member(place, e, name_place, name) => {
            RawTarget::Dotted(place, e, name_place, name)
        }
        RawExpr::Index(place, e, key) => RawTarget::Bracketed(place, e, key),
        RawExpr::Cast(_, inner) => into_target(inner),
        _ => unreachable!(),
    }
}

/// The target that an expression is, in a box.
pub fn boxed_target(alloc: Global, e: Boxed<RawExpr>) -> Result<Boxed<RawTarget>, AllocError>
    requires { IsTrue (is_some (signs.target_of (raw_expr e))) }
    ensures { IfOk result (λ target. signs.target_of (raw_expr e) ≡ Some (raw_target target)) }
{
    Boxed::new(alloc, into_target(e))
}

/// A step of an expression that can be written to.
pub fn stepped(
    alloc: Global,
    place: Place,
    up: bool,
    prefix: bool,
    e: Boxed<RawExpr>,
) -> Result<Boxed<RawExpr>, AllocError>
    requires { IsTrue (is_some (signs.target_of (raw_expr e))) }
    ensures { IfOk result (λ r. IfSome (signs.target_of (raw_expr e)) (λ target. raw_expr r ≡ raw.step place up prefix target)) }
{
    let target = boxed_target(alloc, e)?;
    step(alloc, place, up, prefix, target)
}

/// An assignment to an expression that can be written to.
pub fn assigned(
    alloc: Global,
    place: Place,
    operator: Option<BinOp>,
    e: Boxed<RawExpr>,
    value: Boxed<RawExpr>,
) -> Result<Boxed<RawExpr>, AllocError>
    requires { IsTrue (is_some (signs.target_of (raw_expr e))) }
    ensures { IfOk result (λ r. IfSome (signs.target_of (raw_expr e)) (λ target. raw_expr r ≡ raw.assign place operator target (raw_expr value))) }
{
    let target = boxed_target(alloc, e)?;
    assign(alloc, place, operator, target, value)
}
