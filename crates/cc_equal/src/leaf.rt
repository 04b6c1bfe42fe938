// Whether an expression is the same as a leaf: the contract of each function speaks of the trees whose
// second one is of its variant.
ghost use Rattle.std.specs.Prelude.{◌≡◌, ◌↔◌, IsTrue};

use crate::parts::same_units;
use cc_ast::tree::Expr;

pub(crate) fn same_undefined(a: &Expr, b: &Expr) -> bool
    ensures { (s : _) → b.now ≡ Expr.Undefined s → (IsTrue result ↔ (a.now ≡ b.now)) }
{
    let Expr::Undefined(s) = a else {
        return false;
    };
    let Expr::Undefined(t) = b else {
        return false;
    };
    *s == *t
}

pub(crate) fn same_null(a: &Expr, b: &Expr) -> bool
    ensures { (s : _) → b.now ≡ Expr.Null s → (IsTrue result ↔ (a.now ≡ b.now)) }
{
    let Expr::Null(s) = a else {
        return false;
    };
    let Expr::Null(t) = b else {
        return false;
    };
    *s == *t
}

pub(crate) fn same_truth(a: &Expr, b: &Expr) -> bool
    ensures { (s : _) (x : _) → b.now ≡ Expr.Truth s x → (IsTrue result ↔ (a.now ≡ b.now)) }
{
    let Expr::Truth(s, x) = a else {
        return false;
    };
    let Expr::Truth(t, u) = b else {
        return false;
    };
    *s == *t && *x == *u
}

pub(crate) fn same_whole(a: &Expr, b: &Expr) -> bool
    ensures { (s : _) (x : _) → b.now ≡ Expr.Whole s x → (IsTrue result ↔ (a.now ≡ b.now)) }
{
    let Expr::Whole(s, x) = a else {
        return false;
    };
    let Expr::Whole(t, u) = b else {
        return false;
    };
    *s == *t && *x == *u
}

pub(crate) fn same_text(a: &Expr, b: &Expr) -> bool
    ensures { (s : _) (x : _) → b.now ≡ Expr.Text s x → (IsTrue result ↔ (a.now ≡ b.now)) }
{
    let Expr::Text(s, x) = a else {
        return false;
    };
    let Expr::Text(t, u) = b else {
        return false;
    };
    *s == *t && same_units(x, u)
}

pub(crate) fn same_var(a: &Expr, b: &Expr) -> bool
    ensures { (s : _) (x : _) → b.now ≡ Expr.Var s x → (IsTrue result ↔ (a.now ≡ b.now)) }
{
    let Expr::Var(s, x) = a else {
        return false;
    };
    let Expr::Var(t, u) = b else {
        return false;
    };
    *s == *t && *x == *u
}

pub(crate) fn same_this(a: &Expr, b: &Expr) -> bool
    ensures { (s : _) → b.now ≡ Expr.This s → (IsTrue result ↔ (a.now ≡ b.now)) }
{
    let Expr::This(s) = a else {
        return false;
    };
    let Expr::This(t) = b else {
        return false;
    };
    *s == *t
}

pub(crate) fn same_fun(a: &Expr, b: &Expr) -> bool
    ensures { (s : _) (x : _) → b.now ≡ Expr.Fun s x → (IsTrue result ↔ (a.now ≡ b.now)) }
{
    let Expr::Fun(s, x) = a else {
        return false;
    };
    let Expr::Fun(t, u) = b else {
        return false;
    };
    *s == *t && *x == *u
}
