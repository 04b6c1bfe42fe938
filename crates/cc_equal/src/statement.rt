// Whether statements are the same. The contract of a function for one variant speaks of the trees whose
// second one is of this variant.
ghost use Rattle.std.specs.Prelude.{◌≡◌, ◌↔◌, IsTrue};

use crate::declared::{same_declarators, same_for_target, same_init, same_jump_label, same_option};
use crate::expression::same_boxed;
use crate::parts::same_units;
use cc_ast::tree::{Case, Stmt};
use sqlite_items::Items;

#[cycle(statement)]
fn same_stmt(a: &Stmt, b: &Stmt) -> bool
    ensures { IsTrue result ↔ (a.now ≡ b.now) }
{
    match b {
        Stmt::Simple(..) => same_simple(a, b),
        Stmt::Var(..) => same_var(a, b),
        Stmt::Fun(..) => same_fun(a, b),
        Stmt::If(..) => same_if(a, b),
        Stmt::While(..) => same_while(a, b),
        Stmt::DoWhile(..) => same_do_while(a, b),
        Stmt::For(..) => same_for(a, b),
        Stmt::ForIn(..) => same_for_in(a, b),
        Stmt::Return(..) => same_return(a, b),
        Stmt::Throw(..) => same_throw(a, b),
        Stmt::Break(..) => same_break(a, b),
        Stmt::Continue(..) => same_continue(a, b),
        Stmt::Label(..) => same_label(a, b),
        Stmt::Switch(..) => same_switch(a, b),
        Stmt::Try(..) => same_try(a, b),
        Stmt::Tick(..) => same_tick(a, b),
    }
}

fn same_simple(a: &Stmt, b: &Stmt) -> bool
    ensures { (s : _) (x : _) → b.now ≡ Stmt.Simple s x → (IsTrue result ↔ (a.now ≡ b.now)) }
{
    let Stmt::Simple(s, x) = a else {
        return false;
    };
    let Stmt::Simple(t, u) = b else {
        return false;
    };
    *s == *t && same_boxed(x, u)
}

fn same_var(a: &Stmt, b: &Stmt) -> bool
    ensures { (s : _) (x : _) → b.now ≡ Stmt.Var s x → (IsTrue result ↔ (a.now ≡ b.now)) }
{
    let Stmt::Var(s, x) = a else {
        return false;
    };
    let Stmt::Var(t, u) = b else {
        return false;
    };
    *s == *t && same_declarators(x, u)
}

fn same_fun(a: &Stmt, b: &Stmt) -> bool
    ensures { (s : _) (x : _) (y : _) → b.now ≡ Stmt.Fun s x y → (IsTrue result ↔ (a.now ≡ b.now)) }
{
    let Stmt::Fun(s, x, y) = a else {
        return false;
    };
    let Stmt::Fun(t, u, v) = b else {
        return false;
    };
    *s == *t && *x == *u && *y == *v
}

#[cycle(statement)]
fn same_if(a: &Stmt, b: &Stmt) -> bool
    ensures { (s : _) (x : _) (y : _) (z : _) → b.now ≡ Stmt.If s x y z → (IsTrue result ↔ (a.now ≡ b.now)) }
{
    let Stmt::If(s, x, y, z) = a else {
        return false;
    };
    let Stmt::If(t, u, v, w) = b else {
        return false;
    };
    *s == *t && same_boxed(x, u) && same_stmts(y, v) && same_stmts(z, w)
}

#[cycle(statement)]
fn same_while(a: &Stmt, b: &Stmt) -> bool
    ensures { (s : _) (x : _) (y : _) → b.now ≡ Stmt.While s x y → (IsTrue result ↔ (a.now ≡ b.now)) }
{
    let Stmt::While(s, x, y) = a else {
        return false;
    };
    let Stmt::While(t, u, v) = b else {
        return false;
    };
    *s == *t && same_boxed(x, u) && same_stmts(y, v)
}

#[cycle(statement)]
fn same_do_while(a: &Stmt, b: &Stmt) -> bool
    ensures { (s : _) (x : _) (y : _) → b.now ≡ Stmt.DoWhile s x y → (IsTrue result ↔ (a.now ≡ b.now)) }
{
    let Stmt::DoWhile(s, x, y) = a else {
        return false;
    };
    let Stmt::DoWhile(t, u, v) = b else {
        return false;
    };
    *s == *t && same_stmts(x, u) && same_boxed(y, v)
}

#[cycle(statement)]
fn same_for(a: &Stmt, b: &Stmt) -> bool
    ensures { (s : _) (x : _) (y : _) (z : _) (p : _) → b.now ≡ Stmt.For s x y z p → (IsTrue result ↔ (a.now ≡ b.now)) }
{
    let Stmt::For(s, x, y, z, p) = a else {
        return false;
    };
    let Stmt::For(t, u, v, w, m) = b else {
        return false;
    };
    *s == *t && same_init(x, u) && same_option(y, v) && same_option(z, w) && same_stmts(p, m)
}

#[cycle(statement)]
fn same_for_in(a: &Stmt, b: &Stmt) -> bool
    ensures { (s : _) (x : _) (y : _) (z : _) → b.now ≡ Stmt.ForIn s x y z → (IsTrue result ↔ (a.now ≡ b.now)) }
{
    let Stmt::ForIn(s, x, y, z) = a else {
        return false;
    };
    let Stmt::ForIn(t, u, v, w) = b else {
        return false;
    };
    *s == *t && same_for_target(x, u) && same_boxed(y, v) && same_stmts(z, w)
}

fn same_return(a: &Stmt, b: &Stmt) -> bool
    ensures { (s : _) (x : _) → b.now ≡ Stmt.Return s x → (IsTrue result ↔ (a.now ≡ b.now)) }
{
    let Stmt::Return(s, x) = a else {
        return false;
    };
    let Stmt::Return(t, u) = b else {
        return false;
    };
    *s == *t && same_option(x, u)
}

fn same_throw(a: &Stmt, b: &Stmt) -> bool
    ensures { (s : _) (x : _) → b.now ≡ Stmt.Throw s x → (IsTrue result ↔ (a.now ≡ b.now)) }
{
    let Stmt::Throw(s, x) = a else {
        return false;
    };
    let Stmt::Throw(t, u) = b else {
        return false;
    };
    *s == *t && same_boxed(x, u)
}

fn same_break(a: &Stmt, b: &Stmt) -> bool
    ensures { (s : _) (x : _) → b.now ≡ Stmt.Break s x → (IsTrue result ↔ (a.now ≡ b.now)) }
{
    let Stmt::Break(s, x) = a else {
        return false;
    };
    let Stmt::Break(t, u) = b else {
        return false;
    };
    *s == *t && same_jump_label(x, u)
}

fn same_continue(a: &Stmt, b: &Stmt) -> bool
    ensures { (s : _) (x : _) → b.now ≡ Stmt.Continue s x → (IsTrue result ↔ (a.now ≡ b.now)) }
{
    let Stmt::Continue(s, x) = a else {
        return false;
    };
    let Stmt::Continue(t, u) = b else {
        return false;
    };
    *s == *t && same_jump_label(x, u)
}

#[cycle(statement)]
fn same_label(a: &Stmt, b: &Stmt) -> bool
    ensures { (s : _) (x : _) (y : _) → b.now ≡ Stmt.Label s x y → (IsTrue result ↔ (a.now ≡ b.now)) }
{
    let Stmt::Label(s, x, y) = a else {
        return false;
    };
    let Stmt::Label(t, u, v) = b else {
        return false;
    };
    *s == *t && same_units(x, u) && same_stmts(y, v)
}

#[cycle(statement)]
fn same_switch(a: &Stmt, b: &Stmt) -> bool
    ensures { (s : _) (x : _) (y : _) → b.now ≡ Stmt.Switch s x y → (IsTrue result ↔ (a.now ≡ b.now)) }
{
    let Stmt::Switch(s, x, y) = a else {
        return false;
    };
    let Stmt::Switch(t, u, v) = b else {
        return false;
    };
    *s == *t && same_boxed(x, u) && same_cases(y, v)
}

#[cycle(statement)]
fn same_try(a: &Stmt, b: &Stmt) -> bool
    ensures { (s : _) (x : _) (y : _) (z : _) → b.now ≡ Stmt.Try s x y z → (IsTrue result ↔ (a.now ≡ b.now)) }
{
    let Stmt::Try(s, x, catch, finally) = a else {
        return false;
    };
    let Stmt::Try(t, u, other_catch, other_finally) = b else {
        return false;
    };
    let catches = match catch {
        None => other_catch.is_none(),
        Some(body) => is_body(body, other_catch),
    };
    let ends = match finally {
        None => other_finally.is_none(),
        Some(body) => is_body(body, other_finally),
    };
    *s == *t && same_stmts(x, u) && catches && ends
}

// Whether there is a body, and this one.
#[cycle(statement)]
fn is_body(body: &Items<Stmt>, other: &Option<Items<Stmt>>) -> bool
    ensures { IsTrue result ↔ (Some body.now ≡ other.now) }
{
    match other {
        None => false,
        Some(other) => same_stmts(body, other),
    }
}

fn same_tick(a: &Stmt, b: &Stmt) -> bool
    ensures { (s : _) (x : _) → b.now ≡ Stmt.Tick s x → (IsTrue result ↔ (a.now ≡ b.now)) }
{
    let Stmt::Tick(s, x) = a else {
        return false;
    };
    let Stmt::Tick(t, u) = b else {
        return false;
    };
    *s == *t && *x == *u
}

#[cycle(statement)]
pub(crate) fn same_stmts(a: &Items<Stmt>, b: &Items<Stmt>) -> bool
    ensures { IsTrue result ↔ (a.now ≡ b.now) }
{
    let others = b.as_slice();
    if a.len() != others.len() {
        return false;
    }
    let mut i = 0;
    for e in a.as_slice() {
        if !same_stmt(e, &others[i]) {
            return false;
        }
        i += 1;
    }
    true
}

#[cycle(statement)]
fn same_case(a: &Case, b: &Case) -> bool
    ensures { IsTrue result ↔ (a.now ≡ b.now) }
{
    same_option(&a.test, &b.test) && same_stmts(&a.body, &b.body)
}

#[cycle(statement)]
fn same_cases(a: &Items<Case>, b: &Items<Case>) -> bool
    ensures { IsTrue result ↔ (a.now ≡ b.now) }
{
    let others = b.as_slice();
    if a.len() != others.len() {
        return false;
    }
    let mut i = 0;
    for e in a.as_slice() {
        if !same_case(e, &others[i]) {
            return false;
        }
        i += 1;
    }
    true
}
