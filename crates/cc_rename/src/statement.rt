// What statements have that takes part in naming.
ghost use Rattle.std.specs.Prelude.{◌≡◌, ◌++◌, OnOk};
ghost use Rattle.cc_ast.specs.StmtBridge.{term_cases, term_stmt, term_stmts};
ghost use Rattle.cc_rename.specs.Steps.{catch_of, finally_of, met_stmt, met_stmts, met_catch, met_finally, met_cases};

use crate::expression::meet_expr;
use crate::met::Met;
use crate::parts::{meet_heading, meet_init, meet_option, meet_vars};
use cc_ast::tree::{Case, Stmt};
use sqlite_items::Items;
use std::alloc::AllocError;

/// Adds what a statement has, behind so many `catch` clauses.
#[cycle(statement)]
#[tactic(auto, using(cc_ast::specs::StmtTerms::stmt_steps, crate::proofs::Walk::stmt_walk))]
fn meet_stmt(met: &mut Items<Met>, catches: usize, s: &Stmt) -> Result<(), AllocError>
    ensures { OnOk result (met.new ≡ met.old ++ met_stmt catches (term_stmt s.now)) }
{
    match s {
        Stmt::Break(..) => Ok(()),
        Stmt::Continue(..) => Ok(()),
        Stmt::Tick(..) => Ok(()),
        Stmt::Simple(_, e) => meet_expr(met, catches, e.get()),
        Stmt::Throw(_, e) => meet_expr(met, catches, e.get()),
        Stmt::Return(_, e) => meet_option(met, catches, e),
        Stmt::Var(_, ds) => meet_vars(met, catches, ds),
        Stmt::Fun(_, r, f) => {
            met.push(Met::Variable(catches, *r))?;
            met.push(Met::Function(catches, *f))
        }
        Stmt::If(_, t, a, b) => {
            meet_expr(met, catches, t.get())?;
            meet_stmts(met, catches, a)?;
            meet_stmts(met, catches, b)
        }
        Stmt::While(_, t, b) => {
            meet_expr(met, catches, t.get())?;
            meet_stmts(met, catches, b)
        }
        Stmt::DoWhile(_, b, t) => {
            meet_stmts(met, catches, b)?;
            meet_expr(met, catches, t.get())
        }
        Stmt::For(_, init, t, step, b) => {
            meet_init(met, catches, init)?;
            meet_option(met, catches, t)?;
            meet_option(met, catches, step)?;
            meet_stmts(met, catches, b)
        }
        Stmt::ForIn(_, names, e, b) => {
            meet_heading(met, catches, names)?;
            meet_expr(met, catches, e.get())?;
            meet_stmts(met, catches, b)
        }
        Stmt::Label(_, _, b) => meet_stmts(met, catches, b),
        Stmt::Switch(_, e, cs) => {
            meet_expr(met, catches, e.get())?;
            meet_cases(met, catches, cs)
        }
        Stmt::Try(..) => meet_try(met, catches, s),
    }
}

#[cycle(statement)]
fn meet_try(met: &mut Items<Met>, catches: usize, s: &Stmt) -> Result<(), AllocError>
    requires { (i : _) × ((b : _) × ((k : _) × ((f : _) × (s.now ≡ Stmt.Try i b k f)))) }
    ensures { OnOk result (met.new ≡ met.old ++ met_stmt catches (term_stmt s.now)) }
{
    let Stmt::Try(_, b, _, _) = s else {
        unreachable!()
    };
    meet_stmts(met, catches, b)?;
    meet_catch(met, catches, s)?;
    meet_finally(met, catches, s)
}

/// Adds what a list of statements has.
#[cycle(statement)]
pub(crate) fn meet_stmts(
    met: &mut Items<Met>,
    catches: usize,
    ss: &Items<Stmt>,
) -> Result<(), AllocError>
    ensures { OnOk result (met.new ≡ met.old ++ met_stmts catches (term_stmts ss.now)) }
{
    for s in ss.as_slice() {
        meet_stmt(met, catches, s)?;
    }
    Ok(())
}

#[cycle(statement)]
fn meet_catch(met: &mut Items<Met>, catches: usize, s: &Stmt) -> Result<(), AllocError>
    requires { (i : _) × ((b : _) × ((k : _) × ((f : _) × (s.now ≡ Stmt.Try i b k f)))) }
    ensures { OnOk result (met.new ≡ met.old ++ met_catch catches (catch_of (term_stmt s.now))) }
{
    let Stmt::Try(_, _, clause, _) = s else {
        unreachable!()
    };
    let Some(body) = clause else {
        return Ok(());
    };
    let Some(inside) = catches.checked_add(1) else {
        return Err(AllocError);
    };
    met.push(Met::Clause(catches))?;
    meet_stmts(met, inside, body)
}

#[cycle(statement)]
fn meet_finally(met: &mut Items<Met>, catches: usize, s: &Stmt) -> Result<(), AllocError>
    requires { (i : _) × ((b : _) × ((k : _) × ((f : _) × (s.now ≡ Stmt.Try i b k f)))) }
    ensures { OnOk result (met.new ≡ met.old ++ met_finally catches (finally_of (term_stmt s.now))) }
{
    let Stmt::Try(_, _, _, clause) = s else {
        unreachable!()
    };
    match clause {
        None => Ok(()),
        Some(body) => meet_stmts(met, catches, body),
    }
}

#[cycle(statement)]
fn meet_cases(met: &mut Items<Met>, catches: usize, cs: &Items<Case>) -> Result<(), AllocError>
    ensures { OnOk result (met.new ≡ met.old ++ met_cases catches (term_cases cs.now)) }
{
    for case in cs.as_slice() {
        meet_option(met, catches, &case.test)?;
        meet_stmts(met, catches, &case.body)?;
    }
    Ok(())
}
