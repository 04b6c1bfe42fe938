// Where an expression stands, and what it is there.
ghost use Rattle.std.specs.Prelude.{◌≡◌};
ghost use Rattle.cc_ast.specs.Bridge.{term};
ghost use Rattle.cc_tied.specs.Placed.{operand};
ghost use Rattle.cc_fold.specs.Built.{built_in};
ghost use Rattle.cc_fold.specs.Places.{displaces, place_of, shape_of};

use crate::built::{Plan, is_built};
use cc_ast::operator::UnOp;
use cc_ast::tree::{Expr, Ref};

/// Where an expression stands: as a value, as the right side of an assignment, as a callee, as the
/// operand of `delete`, or before a dot or a bracket.
#[derive(Clone, Copy)]
pub enum Place {
    Value,
    Assigned,
    Callee,
    Deleted,
    Object,
}

/// What an expression is under its casts and price marks, as far as its place asks.
#[derive(Clone, Copy)]
pub enum Shape {
    Access,
    Variable(Ref),
    Function,
    Other,
}

/// Where the operand of a unary operator stands.
#[tactic(auto, using(crate::proofs::Shapes::operand_other), unfolding(cc_tied::specs::Placed::operand))]
pub fn operand_place(op: UnOp) -> Place
    ensures { place_of result ≡ operand op }
{
    match op {
        UnOp::Delete => Place::Deleted,
        _ => Place::Value,
    }
}

#[tactic(auto, using(cc_ast::specs::Terms::steps), unfolding(crate::specs::Places::shape_of))]
pub fn shape_of(e: &Expr) -> Shape
    ensures { result ≡ shape_of (term e.now) }
{
    match e {
        Expr::Var(_, variable) => Shape::Variable(*variable),
        Expr::Fun(_, _) => Shape::Function,
        Expr::Member(_, _, _) => Shape::Access,
        Expr::Index(_, _, _) => Shape::Access,
        Expr::Cast(_, _, inner) => shape_of(inner.get()),
        Expr::Tick(_, _, inner) => shape_of(inner.get()),
        _ => Shape::Other,
    }
}

/// Whether an expression of this shape would do something else at the place of one that is neither an
/// access, nor a variable, nor a function; `in_target` tells whether the place is within the target of
/// an assignment.
#[tactic(auto, unfolding(crate::specs::Places::displaces))]
pub fn displaces(plan: &Plan, in_target: bool, place: Place, shape: Shape) -> bool
    ensures { result ≡ displaces (built_in plan.now) in_target (place_of place) shape }
{
    match shape {
        Shape::Access => match place {
            Place::Value => false,
            Place::Assigned => false,
            Place::Callee => true,
            Place::Deleted => true,
            Place::Object => in_target,
        },
        Shape::Variable(variable) => match place {
            Place::Value => false,
            Place::Assigned => false,
            Place::Callee => is_built(plan, variable),
            Place::Deleted => true,
            Place::Object => is_built(plan, variable) || in_target,
        },
        Shape::Function => match place {
            Place::Value => false,
            Place::Assigned => true,
            Place::Callee => false,
            Place::Deleted => false,
            Place::Object => false,
        },
        Shape::Other => false,
    }
}
