// What an expression is in the form that is spelled so far.
ghost use Rattle.cc_ast.specs.Bridge.{term};
ghost use Rattle.cc_driver.specs.Shapes.{IsShape};

use cc_ast::tree::{Expr, Ref};
use cc_ast::units::Units;
use sqlite_items::Items;

/// The operands and calls of the form, and all other expressions.
pub enum Shape<'a> {
    Global(u32),
    Text(&'a Units),
    Whole(i64),
    Call(&'a Expr, &'a Items<Expr>),
    Other,
}

#[tactic(auto, using(cc_ast::specs::Terms::steps))]
pub fn shape_of(e: &Expr) -> Shape<'_>
    ensures { IsShape result (term e.now) }
{
    match e {
        Expr::Var(_, variable) => match variable {
            Ref::Global(g) => Shape::Global(*g),
            Ref::Frame(_, _) => Shape::Other,
        },
        Expr::Text(_, text) => Shape::Text(text),
        Expr::Call(_, f, arguments) => Shape::Call(f.get(), arguments),
        Expr::Undefined(_) => Shape::Other,
        Expr::Null(_) => Shape::Other,
        Expr::Truth(_, _) => Shape::Other,
        Expr::Whole(_, number) => Shape::Whole(*number),
        Expr::This(_) => Shape::Other,
        Expr::Fun(_, _) => Shape::Other,
        Expr::List(_, _) => Shape::Other,
        Expr::Object(_, _) => Shape::Other,
        Expr::Unary(_, _, _) => Shape::Other,
        Expr::Binary(_, _, _, _) => Shape::Other,
        Expr::And(_, _, _) => Shape::Other,
        Expr::Or(_, _, _) => Shape::Other,
        Expr::Cond(_, _, _, _) => Shape::Other,
        Expr::Assign(_, _, _, _) => Shape::Other,
        Expr::Step(_, _, _, _) => Shape::Other,
        Expr::Member(_, _, _) => Shape::Other,
        Expr::Index(_, _, _) => Shape::Other,
        Expr::New(_, _, _) => Shape::Other,
        Expr::Comma(_, _, _) => Shape::Other,
        Expr::Cast(_, _, _) => Shape::Other,
        Expr::Tick(_, _, _) => Shape::Other,
    }
}
