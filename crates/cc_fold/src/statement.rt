// Statements, folded. A function for one kind of statement takes it whole, and asks that it is of this
// kind.
ghost use Rattle.std.specs.Prelude.{◌≡◌, IfOk, map};
ghost use Rattle.cc_ast.specs.Bridge.{option_term, term};
ghost use Rattle.cc_ast.specs.StmtBridge.{for_init, for_target, maybe_stmts, term_case, term_stmt, term_stmts};
ghost use Rattle.cc_ast.specs.Syntax as plain;
ghost use Rattle.cc_fold.specs.Built.{built_in};
ghost use Rattle.cc_fold.specs.Walk.{fold_case, fold_init, fold_maybe, fold_names, fold_option, fold_stmt, fold_value};

use crate::built::Plan;
use crate::parts::{fold_declarators, fold_init, fold_names, fold_option, fold_value};
use cc_ast::copy::{CopyOf, copy_option};
use cc_ast::tree::{Case, Expr, ForInit, ForTarget, Stmt};
use sqlite_items::{Boxed, Items};
use std::alloc::{AllocError, Global};

/// The statement folded.
#[cycle(statement)]
#[tactic(auto, using(cc_ast::specs::StmtTerms::stmt_steps, crate::proofs::StmtEquations::walk))]
fn fold_stmt(alloc: Global, plan: &Plan, s: &Stmt) -> Result<Stmt, AllocError>
    ensures { IfOk result (λ r. term_stmt r ≡ fold_stmt (built_in plan.now) (term_stmt s.now)) }
{
    match s {
        Stmt::Simple(..) => simple_stmt(alloc, plan, s),
        Stmt::Var(..) => var_stmt(alloc, plan, s),
        Stmt::Fun(i, r, f) => Ok(Stmt::Fun(*i, *r, *f)),
        Stmt::If(..) => if_stmt(alloc, plan, s),
        Stmt::While(..) => while_stmt(alloc, plan, s),
        Stmt::DoWhile(..) => do_while_stmt(alloc, plan, s),
        Stmt::For(..) => for_stmt(alloc, plan, s),
        Stmt::ForIn(..) => for_in_stmt(alloc, plan, s),
        Stmt::Return(..) => return_stmt(alloc, plan, s),
        Stmt::Throw(..) => throw_stmt(alloc, plan, s),
        Stmt::Break(..) => break_stmt(alloc, s),
        Stmt::Continue(..) => continue_stmt(alloc, s),
        Stmt::Label(..) => label_stmt(alloc, plan, s),
        Stmt::Switch(..) => switch_stmt(alloc, plan, s),
        Stmt::Try(..) => try_stmt(alloc, plan, s),
        Stmt::Tick(i, price) => Ok(Stmt::Tick(*i, *price)),
    }
}

#[tactic(auto, using(cc_ast::specs::StmtTerms::stmt_steps, crate::proofs::StmtEquations::walk))]
fn simple_stmt(alloc: Global, plan: &Plan, s: &Stmt) -> Result<Stmt, AllocError>
    requires { (i : _) × ((e : _) × (s.now ≡ Stmt.Simple i e)) }
    ensures { IfOk result (λ r. term_stmt r ≡ fold_stmt (built_in plan.now) (term_stmt s.now)) }
{
    let Stmt::Simple(i, e) = s else {
        unreachable!()
    };
    let e = fold_value(alloc, plan, e.get())?;
    Ok(Stmt::Simple(*i, e))
}

#[tactic(auto, using(cc_ast::specs::StmtTerms::stmt_steps, crate::proofs::StmtEquations::walk))]
fn var_stmt(alloc: Global, plan: &Plan, s: &Stmt) -> Result<Stmt, AllocError>
    requires { (i : _) × ((declarators : _) × (s.now ≡ Stmt.Var i declarators)) }
    ensures { IfOk result (λ r. term_stmt r ≡ fold_stmt (built_in plan.now) (term_stmt s.now)) }
{
    let Stmt::Var(i, declarators) = s else {
        unreachable!()
    };
    let declarators = fold_declarators(alloc, plan, declarators)?;
    Ok(Stmt::Var(*i, declarators))
}

#[cycle(statement)]
#[tactic(auto, using(cc_ast::specs::StmtTerms::stmt_steps, crate::proofs::StmtEquations::walk))]
fn if_stmt(alloc: Global, plan: &Plan, s: &Stmt) -> Result<Stmt, AllocError>
    requires { (i : _) × ((t : _) × ((a : _) × ((b : _) × (s.now ≡ Stmt.If i t a b)))) }
    ensures { IfOk result (λ r. term_stmt r ≡ fold_stmt (built_in plan.now) (term_stmt s.now)) }
{
    let Stmt::If(i, t, a, b) = s else {
        unreachable!()
    };
    let a = fold_stmts(alloc, plan, a)?;
    let b = fold_stmts(alloc, plan, b)?;
    make_if(alloc, plan, *i, t.get(), a, b)
}

#[cycle(statement)]
#[tactic(auto, using(cc_ast::specs::StmtTerms::stmt_steps, crate::proofs::StmtEquations::walk))]
fn while_stmt(alloc: Global, plan: &Plan, s: &Stmt) -> Result<Stmt, AllocError>
    requires { (i : _) × ((t : _) × ((b : _) × (s.now ≡ Stmt.While i t b))) }
    ensures { IfOk result (λ r. term_stmt r ≡ fold_stmt (built_in plan.now) (term_stmt s.now)) }
{
    let Stmt::While(i, t, b) = s else {
        unreachable!()
    };
    let t = fold_value(alloc, plan, t.get())?;
    let b = fold_stmts(alloc, plan, b)?;
    Ok(Stmt::While(*i, t, b))
}

#[cycle(statement)]
#[tactic(auto, using(cc_ast::specs::StmtTerms::stmt_steps, crate::proofs::StmtEquations::walk))]
fn do_while_stmt(alloc: Global, plan: &Plan, s: &Stmt) -> Result<Stmt, AllocError>
    requires { (i : _) × ((b : _) × ((t : _) × (s.now ≡ Stmt.DoWhile i b t))) }
    ensures { IfOk result (λ r. term_stmt r ≡ fold_stmt (built_in plan.now) (term_stmt s.now)) }
{
    let Stmt::DoWhile(i, b, t) = s else {
        unreachable!()
    };
    let b = fold_stmts(alloc, plan, b)?;
    let t = fold_value(alloc, plan, t.get())?;
    Ok(Stmt::DoWhile(*i, b, t))
}

#[cycle(statement)]
#[tactic(auto, using(cc_ast::specs::StmtTerms::stmt_steps, crate::proofs::StmtEquations::walk))]
fn for_stmt(alloc: Global, plan: &Plan, s: &Stmt) -> Result<Stmt, AllocError>
    requires { (i : _) × ((init : _) × ((t : _) × ((step : _) × ((b : _) × (s.now ≡ Stmt.For i init t step b))))) }
    ensures { IfOk result (λ r. term_stmt r ≡ fold_stmt (built_in plan.now) (term_stmt s.now)) }
{
    let Stmt::For(i, init, t, step, b) = s else {
        unreachable!()
    };
    let b = fold_stmts(alloc, plan, b)?;
    make_for(alloc, plan, *i, init, t, step, b)
}

#[cycle(statement)]
#[tactic(auto, using(cc_ast::specs::StmtTerms::stmt_steps, crate::proofs::StmtEquations::walk))]
fn for_in_stmt(alloc: Global, plan: &Plan, s: &Stmt) -> Result<Stmt, AllocError>
    requires { (i : _) × ((names : _) × ((e : _) × ((b : _) × (s.now ≡ Stmt.ForIn i names e b)))) }
    ensures { IfOk result (λ r. term_stmt r ≡ fold_stmt (built_in plan.now) (term_stmt s.now)) }
{
    let Stmt::ForIn(i, names, e, b) = s else {
        unreachable!()
    };
    let b = fold_stmts(alloc, plan, b)?;
    make_for_in(alloc, plan, *i, names, e.get(), b)
}

#[tactic(auto, using(cc_ast::specs::StmtTerms::stmt_steps, crate::proofs::StmtEquations::walk))]
fn return_stmt(alloc: Global, plan: &Plan, s: &Stmt) -> Result<Stmt, AllocError>
    requires { (i : _) × ((e : _) × (s.now ≡ Stmt.Return i e)) }
    ensures { IfOk result (λ r. term_stmt r ≡ fold_stmt (built_in plan.now) (term_stmt s.now)) }
{
    let Stmt::Return(i, e) = s else {
        unreachable!()
    };
    let e = fold_option(alloc, plan, e)?;
    Ok(Stmt::Return(*i, e))
}

#[tactic(auto, using(cc_ast::specs::StmtTerms::stmt_steps, crate::proofs::StmtEquations::walk))]
fn throw_stmt(alloc: Global, plan: &Plan, s: &Stmt) -> Result<Stmt, AllocError>
    requires { (i : _) × ((e : _) × (s.now ≡ Stmt.Throw i e)) }
    ensures { IfOk result (λ r. term_stmt r ≡ fold_stmt (built_in plan.now) (term_stmt s.now)) }
{
    let Stmt::Throw(i, e) = s else { unreachable!() };
    let e = fold_value(alloc, plan, e.get())?;
    Ok(Stmt::Throw(*i, e))
}

#[tactic(auto, using(cc_ast::specs::StmtTerms::stmt_steps, crate::proofs::StmtEquations::walk))]
fn break_stmt(alloc: Global, s: &Stmt) -> Result<Stmt, AllocError>
    requires { (i : _) × ((l : _) × (s.now ≡ Stmt.Break i l)) }
    ensures { IfOk result (λ r. r ≡ s.now) }
{
    let Stmt::Break(i, l) = s else { unreachable!() };
    let l = copy_option(alloc, l)?;
    Ok(Stmt::Break(*i, l))
}

#[tactic(auto, using(cc_ast::specs::StmtTerms::stmt_steps, crate::proofs::StmtEquations::walk))]
fn continue_stmt(alloc: Global, s: &Stmt) -> Result<Stmt, AllocError>
    requires { (i : _) × ((l : _) × (s.now ≡ Stmt.Continue i l)) }
    ensures { IfOk result (λ r. r ≡ s.now) }
{
    let Stmt::Continue(i, l) = s else {
        unreachable!()
    };
    let l = copy_option(alloc, l)?;
    Ok(Stmt::Continue(*i, l))
}

#[cycle(statement)]
#[tactic(auto, using(cc_ast::specs::StmtTerms::stmt_steps, crate::proofs::StmtEquations::walk))]
fn label_stmt(alloc: Global, plan: &Plan, s: &Stmt) -> Result<Stmt, AllocError>
    requires { (i : _) × ((l : _) × ((b : _) × (s.now ≡ Stmt.Label i l b))) }
    ensures { IfOk result (λ r. term_stmt r ≡ fold_stmt (built_in plan.now) (term_stmt s.now)) }
{
    let Stmt::Label(i, l, b) = s else {
        unreachable!()
    };
    let l = l.copy_of(alloc)?;
    let b = fold_stmts(alloc, plan, b)?;
    Ok(Stmt::Label(*i, l, b))
}

#[cycle(statement)]
#[tactic(auto, using(cc_ast::specs::StmtTerms::stmt_steps, crate::proofs::StmtEquations::walk))]
fn switch_stmt(alloc: Global, plan: &Plan, s: &Stmt) -> Result<Stmt, AllocError>
    requires { (i : _) × ((e : _) × ((cases : _) × (s.now ≡ Stmt.Switch i e cases))) }
    ensures { IfOk result (λ r. term_stmt r ≡ fold_stmt (built_in plan.now) (term_stmt s.now)) }
{
    let Stmt::Switch(i, e, cases) = s else {
        unreachable!()
    };
    let e = fold_value(alloc, plan, e.get())?;
    let cases = fold_cases(alloc, plan, cases)?;
    Ok(Stmt::Switch(*i, e, cases))
}

#[cycle(statement)]
#[tactic(auto, using(cc_ast::specs::StmtTerms::stmt_steps, crate::proofs::StmtEquations::walk))]
fn try_stmt(alloc: Global, plan: &Plan, s: &Stmt) -> Result<Stmt, AllocError>
    requires { (i : _) × ((b : _) × ((c : _) × ((f : _) × (s.now ≡ Stmt.Try i b c f)))) }
    ensures { IfOk result (λ r. term_stmt r ≡ fold_stmt (built_in plan.now) (term_stmt s.now)) }
{
    let catch = fold_catch(alloc, plan, s)?;
    let finally = fold_finally(alloc, plan, s)?;
    try_beside(alloc, plan, s, catch, finally)
}

// The body of the `catch`, folded.
#[cycle(statement)]
#[tactic(auto, using(cc_ast::specs::StmtTerms::stmt_steps, crate::proofs::StmtEquations::walk))]
fn fold_catch(alloc: Global, plan: &Plan, s: &Stmt) -> Result<Option<Items<Stmt>>, AllocError>
    requires { (i : _) × ((b : _) × ((c : _) × ((f : _) × (s.now ≡ Stmt.Try i b c f)))) }
    ensures { (i : _) (b : _) (c : _) (f : _) → s.now ≡ Stmt.Try i b c f → IfOk result (λ r. maybe_stmts r ≡ fold_maybe (built_in plan.now) (maybe_stmts c)) }
{
    let Stmt::Try(_, _, body, _) = s else {
        unreachable!()
    };
    match body {
        None => Ok(None),
        Some(body) => Ok(Some(fold_stmts(alloc, plan, body)?)),
    }
}

// The body of the `finally`, folded.
#[cycle(statement)]
#[tactic(auto, using(cc_ast::specs::StmtTerms::stmt_steps, crate::proofs::StmtEquations::walk))]
fn fold_finally(alloc: Global, plan: &Plan, s: &Stmt) -> Result<Option<Items<Stmt>>, AllocError>
    requires { (i : _) × ((b : _) × ((c : _) × ((f : _) × (s.now ≡ Stmt.Try i b c f)))) }
    ensures { (i : _) (b : _) (c : _) (f : _) → s.now ≡ Stmt.Try i b c f → IfOk result (λ r. maybe_stmts r ≡ fold_maybe (built_in plan.now) (maybe_stmts f)) }
{
    let Stmt::Try(_, _, _, body) = s else {
        unreachable!()
    };
    match body {
        None => Ok(None),
        Some(body) => Ok(Some(fold_stmts(alloc, plan, body)?)),
    }
}

// A `try` whose other two bodies are folded.
#[cycle(statement)]
#[tactic(auto, using(cc_ast::specs::StmtTerms::stmt_steps, crate::proofs::StmtEquations::walk))]
fn try_beside(
    alloc: Global,
    plan: &Plan,
    s: &Stmt,
    catch: Option<Items<Stmt>>,
    finally: Option<Items<Stmt>>,
) -> Result<Stmt, AllocError>
    requires { (i : _) × ((b : _) × ((c : _) × ((f : _) × ((s.now ≡ Stmt.Try i b c f) × (maybe_stmts catch ≡ fold_maybe (built_in plan.now) (maybe_stmts c)) × (maybe_stmts finally ≡ fold_maybe (built_in plan.now) (maybe_stmts f)))))) }
    ensures { IfOk result (λ r. term_stmt r ≡ fold_stmt (built_in plan.now) (term_stmt s.now)) }
{
    let Stmt::Try(i, b, _, _) = s else {
        unreachable!()
    };
    let b = fold_stmts(alloc, plan, b)?;
    Ok(Stmt::Try(*i, b, catch, finally))
}

/// A list of statements folded.
#[cycle(statement)]
pub fn fold_stmts(
    alloc: Global,
    plan: &Plan,
    items: &Items<Stmt>,
) -> Result<Items<Stmt>, AllocError>
    ensures { IfOk result (λ r. map term_stmt r ≡ map (fold_stmt (built_in plan.now)) (map term_stmt items.now)) }
{
    let mut folded = Items::new(alloc);
    for s in items.as_slice() {
        folded.push(fold_stmt(alloc, plan, s)?)?;
    }
    Ok(folded)
}

#[cycle(statement)]
fn fold_cases(alloc: Global, plan: &Plan, items: &Items<Case>) -> Result<Items<Case>, AllocError>
    ensures { IfOk result (λ r. map term_case r ≡ map (fold_case (built_in plan.now)) (map term_case items.now)) }
{
    let mut folded = Items::new(alloc);
    for case in items.as_slice() {
        folded.push(fold_case(alloc, plan, case)?)?;
    }
    Ok(folded)
}

#[cycle(statement)]
#[tactic(auto, using(crate::proofs::StmtEquations::walk))]
fn fold_case(alloc: Global, plan: &Plan, case: &Case) -> Result<Case, AllocError>
    ensures { IfOk result (λ r. term_case r ≡ fold_case (built_in plan.now) (term_case case.now)) }
{
    let test = fold_option(alloc, plan, &case.test)?;
    let body = fold_stmts(alloc, plan, &case.body)?;
    Ok(Case { test, body })
}

#[tactic(auto, using(cc_ast::specs::StmtTerms::stmt_steps))]
fn make_if(
    alloc: Global,
    plan: &Plan,
    i: u32,
    t: &Expr,
    a: Items<Stmt>,
    b: Items<Stmt>,
) -> Result<Stmt, AllocError>
    ensures { IfOk result (λ s. term_stmt s ≡ plain.if i (fold_value (built_in plan.now) (term t.now)) (term_stmts a) (term_stmts b)) }
{
    let t = fold_value(alloc, plan, t)?;
    Ok(Stmt::If(i, t, a, b))
}

#[tactic(auto, using(cc_ast::specs::StmtTerms::stmt_steps))]
fn make_for(
    alloc: Global,
    plan: &Plan,
    i: u32,
    init: &ForInit,
    t: &Option<Boxed<Expr>>,
    step: &Option<Boxed<Expr>>,
    b: Items<Stmt>,
) -> Result<Stmt, AllocError>
    ensures { IfOk result (λ s. term_stmt s ≡ plain.for i (fold_init (built_in plan.now) (for_init init.now)) (fold_option (built_in plan.now) (option_term t.now)) (fold_option (built_in plan.now) (option_term step.now)) (term_stmts b)) }
{
    let t = fold_option(alloc, plan, t)?;
    let step = fold_option(alloc, plan, step)?;
    make_for_beside(alloc, plan, i, init, t, step, b)
}

#[tactic(auto, using(cc_ast::specs::StmtTerms::stmt_steps))]
fn make_for_beside(
    alloc: Global,
    plan: &Plan,
    i: u32,
    init: &ForInit,
    t: Option<Boxed<Expr>>,
    step: Option<Boxed<Expr>>,
    b: Items<Stmt>,
) -> Result<Stmt, AllocError>
    ensures { IfOk result (λ s. term_stmt s ≡ plain.for i (fold_init (built_in plan.now) (for_init init.now)) (option_term t) (option_term step) (term_stmts b)) }
{
    let init = fold_init(alloc, plan, init)?;
    Ok(Stmt::For(i, init, t, step, b))
}

#[tactic(auto, using(cc_ast::specs::StmtTerms::stmt_steps))]
fn make_for_in(
    alloc: Global,
    plan: &Plan,
    i: u32,
    names: &ForTarget,
    e: &Expr,
    b: Items<Stmt>,
) -> Result<Stmt, AllocError>
    ensures { IfOk result (λ s. term_stmt s ≡ plain.for_in i (fold_names (built_in plan.now) (for_target names.now)) (fold_value (built_in plan.now) (term e.now)) (term_stmts b)) }
{
    let names = fold_names(alloc, plan, names)?;
    let e = fold_value(alloc, plan, e)?;
    Ok(Stmt::ForIn(i, names, e, b))
}
