// Whether folding keeps each node of a statement. A function for one kind of statement takes it whole, and
// asks that it is of this kind.
ghost use Rattle.std.specs.Prelude.{◌≡◌};
ghost use Rattle.cc_ast.specs.StmtBridge.{term_case, term_cases, term_stmt, term_stmts};
ghost use Rattle.cc_fold.specs.Keeps.{keeps_case, keeps_cases, keeps_stmt, keeps_stmts};

use crate::keeps::expression::keeps_expr;
use crate::keeps::parts::{keeps_declarators, keeps_init, keeps_names, keeps_option};
use cc_ast::tree::{Case, Stmt};
use sqlite_items::Items;

#[cycle(statement)]
#[tactic(auto, using(cc_ast::specs::StmtTerms::stmt_steps, crate::proofs::KeepStmts::walk))]
fn keeps_stmt(s: &Stmt) -> bool
    ensures { result ≡ keeps_stmt (term_stmt s.now) }
{
    match s {
        Stmt::Simple(..) => keeps_simple(s),
        Stmt::Var(..) => keeps_var(s),
        Stmt::Fun(..) => true,
        Stmt::If(..) => keeps_if(s),
        Stmt::While(..) => keeps_while(s),
        Stmt::DoWhile(..) => keeps_do_while(s),
        Stmt::For(..) => keeps_for(s),
        Stmt::ForIn(..) => keeps_for_in(s),
        Stmt::Return(..) => keeps_return(s),
        Stmt::Throw(..) => keeps_throw(s),
        Stmt::Break(..) => true,
        Stmt::Continue(..) => true,
        Stmt::Label(..) => keeps_label(s),
        Stmt::Switch(..) => keeps_switch(s),
        Stmt::Try(..) => keeps_try(s),
        Stmt::Tick(..) => true,
    }
}

#[tactic(auto, using(cc_ast::specs::StmtTerms::stmt_steps, crate::proofs::KeepStmts::walk))]
fn keeps_simple(s: &Stmt) -> bool
    requires { (i : _) × ((e : _) × (s.now ≡ Stmt.Simple i e)) }
    ensures { result ≡ keeps_stmt (term_stmt s.now) }
{
    let Stmt::Simple(_, e) = s else {
        unreachable!()
    };
    keeps_expr(e.get())
}

#[tactic(auto, using(cc_ast::specs::StmtTerms::stmt_steps, crate::proofs::KeepStmts::walk))]
fn keeps_var(s: &Stmt) -> bool
    requires { (i : _) × ((declarators : _) × (s.now ≡ Stmt.Var i declarators)) }
    ensures { result ≡ keeps_stmt (term_stmt s.now) }
{
    let Stmt::Var(_, declarators) = s else {
        unreachable!()
    };
    keeps_declarators(declarators)
}

#[cycle(statement)]
#[tactic(auto, using(cc_ast::specs::StmtTerms::stmt_steps, crate::proofs::KeepStmts::walk))]
fn keeps_if(s: &Stmt) -> bool
    requires { (i : _) × ((t : _) × ((a : _) × ((b : _) × (s.now ≡ Stmt.If i t a b)))) }
    ensures { result ≡ keeps_stmt (term_stmt s.now) }
{
    let Stmt::If(_, t, a, b) = s else {
        unreachable!()
    };
    keeps_expr(t.get()) && keeps_stmts(a) && keeps_stmts(b)
}

#[cycle(statement)]
#[tactic(auto, using(cc_ast::specs::StmtTerms::stmt_steps, crate::proofs::KeepStmts::walk))]
fn keeps_while(s: &Stmt) -> bool
    requires { (i : _) × ((t : _) × ((b : _) × (s.now ≡ Stmt.While i t b))) }
    ensures { result ≡ keeps_stmt (term_stmt s.now) }
{
    let Stmt::While(_, t, b) = s else {
        unreachable!()
    };
    keeps_expr(t.get()) && keeps_stmts(b)
}

#[cycle(statement)]
#[tactic(auto, using(cc_ast::specs::StmtTerms::stmt_steps, crate::proofs::KeepStmts::walk))]
fn keeps_do_while(s: &Stmt) -> bool
    requires { (i : _) × ((b : _) × ((t : _) × (s.now ≡ Stmt.DoWhile i b t))) }
    ensures { result ≡ keeps_stmt (term_stmt s.now) }
{
    let Stmt::DoWhile(_, b, t) = s else {
        unreachable!()
    };
    keeps_stmts(b) && keeps_expr(t.get())
}

#[cycle(statement)]
#[tactic(auto, using(cc_ast::specs::StmtTerms::stmt_steps, crate::proofs::KeepStmts::walk))]
fn keeps_for(s: &Stmt) -> bool
    requires { (i : _) × ((init : _) × ((t : _) × ((step : _) × ((b : _) × (s.now ≡ Stmt.For i init t step b))))) }
    ensures { result ≡ keeps_stmt (term_stmt s.now) }
{
    let Stmt::For(_, init, t, step, b) = s else {
        unreachable!()
    };
    keeps_init(init) && keeps_option(t) && keeps_option(step) && keeps_stmts(b)
}

#[cycle(statement)]
#[tactic(auto, using(cc_ast::specs::StmtTerms::stmt_steps, crate::proofs::KeepStmts::walk))]
fn keeps_for_in(s: &Stmt) -> bool
    requires { (i : _) × ((names : _) × ((e : _) × ((b : _) × (s.now ≡ Stmt.ForIn i names e b)))) }
    ensures { result ≡ keeps_stmt (term_stmt s.now) }
{
    let Stmt::ForIn(_, names, e, b) = s else {
        unreachable!()
    };
    keeps_names(names) && keeps_expr(e.get()) && keeps_stmts(b)
}

#[tactic(auto, using(cc_ast::specs::StmtTerms::stmt_steps, crate::proofs::KeepStmts::walk))]
fn keeps_return(s: &Stmt) -> bool
    requires { (i : _) × ((e : _) × (s.now ≡ Stmt.Return i e)) }
    ensures { result ≡ keeps_stmt (term_stmt s.now) }
{
    let Stmt::Return(_, e) = s else {
        unreachable!()
    };
    keeps_option(e)
}

#[tactic(auto, using(cc_ast::specs::StmtTerms::stmt_steps, crate::proofs::KeepStmts::walk))]
fn keeps_throw(s: &Stmt) -> bool
    requires { (i : _) × ((e : _) × (s.now ≡ Stmt.Throw i e)) }
    ensures { result ≡ keeps_stmt (term_stmt s.now) }
{
    let Stmt::Throw(_, e) = s else { unreachable!() };
    keeps_expr(e.get())
}

#[cycle(statement)]
#[tactic(auto, using(cc_ast::specs::StmtTerms::stmt_steps, crate::proofs::KeepStmts::walk))]
fn keeps_label(s: &Stmt) -> bool
    requires { (i : _) × ((l : _) × ((b : _) × (s.now ≡ Stmt.Label i l b))) }
    ensures { result ≡ keeps_stmt (term_stmt s.now) }
{
    let Stmt::Label(_, _, b) = s else {
        unreachable!()
    };
    keeps_stmts(b)
}

#[cycle(statement)]
#[tactic(auto, using(cc_ast::specs::StmtTerms::stmt_steps, crate::proofs::KeepStmts::walk))]
fn keeps_switch(s: &Stmt) -> bool
    requires { (i : _) × ((e : _) × ((cases : _) × (s.now ≡ Stmt.Switch i e cases))) }
    ensures { result ≡ keeps_stmt (term_stmt s.now) }
{
    let Stmt::Switch(_, e, cases) = s else {
        unreachable!()
    };
    keeps_expr(e.get()) && keeps_cases(cases)
}

#[cycle(statement)]
#[tactic(auto, using(cc_ast::specs::StmtTerms::stmt_steps, crate::proofs::KeepStmts::walk))]
fn keeps_try(s: &Stmt) -> bool
    requires { (i : _) × ((b : _) × ((c : _) × ((f : _) × (s.now ≡ Stmt.Try i b c f)))) }
    ensures { result ≡ keeps_stmt (term_stmt s.now) }
{
    let Stmt::Try(_, b, catch, finally) = s else {
        unreachable!()
    };
    if !keeps_stmts(b) {
        return false;
    }
    match catch {
        None => match finally {
            None => true,
            Some(body) => keeps_stmts(body),
        },
        Some(body) => match finally {
            None => keeps_stmts(body),
            Some(last) => keeps_stmts(body) && keeps_stmts(last),
        },
    }
}

/// The same of a list of statements.
#[cycle(statement)]
pub fn keeps_stmts(items: &Items<Stmt>) -> bool
    ensures { result ≡ keeps_stmts (term_stmts items.now) }
{
    for s in items.as_slice() {
        if !keeps_stmt(s) {
            return false;
        }
    }
    true
}

#[cycle(statement)]
fn keeps_cases(items: &Items<Case>) -> bool
    ensures { result ≡ keeps_cases (term_cases items.now) }
{
    for case in items.as_slice() {
        if !keeps_case(case) {
            return false;
        }
    }
    true
}

#[cycle(statement)]
#[tactic(auto, using(crate::proofs::Clauses::case_at))]
fn keeps_case(case: &Case) -> bool
    ensures { result ≡ keeps_case (term_case case.now) }
{
    keeps_option(&case.test) && keeps_stmts(&case.body)
}
