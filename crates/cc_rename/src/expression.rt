// What expressions have that takes part in naming.
ghost use Rattle.std.specs.Prelude.{◌≡◌, ◌++◌, OnOk};
ghost use Rattle.cc_ast.specs.Bridge.{target, term, terms, term_fields, option_term};
ghost use Rattle.cc_rename.specs.Steps.{met_expr, met_target, met_exprs, met_fields, met_option};

use crate::met::Met;
use cc_ast::tree::{Expr, Key, Target};
use sqlite_items::Items;
use std::alloc::AllocError;

/// Adds what an expression has, behind so many `catch` clauses.
#[cycle(expression)]
#[tactic(auto, using(cc_ast::specs::Terms::steps, crate::proofs::Walk::walk))]
pub(crate) fn meet_expr(met: &mut Items<Met>, catches: usize, e: &Expr) -> Result<(), AllocError>
    ensures { OnOk result (met.new ≡ met.old ++ met_expr catches (term e.now)) }
{
    match e {
        Expr::Undefined(..)
        | Expr::Null(..)
        | Expr::Truth(..)
        | Expr::Whole(..)
        | Expr::Text(..)
        | Expr::This(..) => Ok(()),
        Expr::Var(_, r) => met.push(Met::Variable(catches, *r)),
        Expr::Fun(_, f) => met.push(Met::Function(catches, *f)),
        Expr::List(_, es) => meet_exprs(met, catches, es),
        Expr::Object(_, fs) => meet_fields(met, catches, fs),
        Expr::Unary(_, _, a) | Expr::Member(_, a, _) => meet_expr(met, catches, a.get()),
        Expr::Cast(_, _, a) => meet_expr(met, catches, a.get()),
        Expr::Tick(_, _, a) => meet_expr(met, catches, a.get()),
        Expr::Binary(_, _, a, b) => {
            meet_expr(met, catches, a.get())?;
            meet_expr(met, catches, b.get())
        }
        Expr::And(_, a, b) => {
            meet_expr(met, catches, a.get())?;
            meet_expr(met, catches, b.get())
        }
        Expr::Or(_, a, b) => {
            meet_expr(met, catches, a.get())?;
            meet_expr(met, catches, b.get())
        }
        Expr::Index(_, a, b) => {
            meet_expr(met, catches, a.get())?;
            meet_expr(met, catches, b.get())
        }
        Expr::Comma(_, a, b) => {
            meet_expr(met, catches, a.get())?;
            meet_expr(met, catches, b.get())
        }
        Expr::Cond(_, t, a, b) => {
            meet_expr(met, catches, t.get())?;
            meet_expr(met, catches, a.get())?;
            meet_expr(met, catches, b.get())
        }
        Expr::Assign(_, _, t, a) => {
            meet_target(met, catches, t.get())?;
            meet_expr(met, catches, a.get())
        }
        Expr::Step(_, _, _, t) => meet_target(met, catches, t.get()),
        Expr::Call(_, f, es) => {
            meet_expr(met, catches, f.get())?;
            meet_exprs(met, catches, es)
        }
        Expr::New(_, f, es) => {
            meet_expr(met, catches, f.get())?;
            meet_exprs(met, catches, es)
        }
    }
}

/// Adds what a target has.
#[cycle(expression)]
#[tactic(auto, using(cc_ast::specs::Terms::steps, crate::proofs::Walk::walk))]
pub(crate) fn meet_target(
    met: &mut Items<Met>,
    catches: usize,
    t: &Target,
) -> Result<(), AllocError>
    ensures { OnOk result (met.new ≡ met.old ++ met_target catches (target t.now)) }
{
    match t {
        Target::Variable(_, r) => met.push(Met::Variable(catches, *r)),
        Target::Dotted(_, a, _) => meet_expr(met, catches, a.get()),
        Target::Bracketed(_, a, b) => {
            meet_expr(met, catches, a.get())?;
            meet_expr(met, catches, b.get())
        }
    }
}

#[cycle(expression)]
fn meet_exprs(met: &mut Items<Met>, catches: usize, es: &Items<Expr>) -> Result<(), AllocError>
    ensures { OnOk result (met.new ≡ met.old ++ met_exprs catches (terms es.now)) }
{
    for e in es.as_slice() {
        meet_expr(met, catches, e)?;
    }
    Ok(())
}

#[cycle(expression)]
fn meet_fields(
    met: &mut Items<Met>,
    catches: usize,
    fs: &Items<(Key, Expr)>,
) -> Result<(), AllocError>
    ensures { OnOk result (met.new ≡ met.old ++ met_fields catches (term_fields fs.now)) }
{
    for field in fs.as_slice() {
        meet_expr(met, catches, &field.1)?;
    }
    Ok(())
}
