// Whether expressions are the same. The contract of a function for one variant speaks of the trees whose
// second one is of this variant.
ghost use Rattle.std.specs.Prelude.{◌≡◌, ◌↔◌, IsTrue};

use crate::leaf::{
    same_fun, same_null, same_text, same_this, same_truth, same_undefined, same_var, same_whole,
};
use crate::parts::{same_key, same_operator};
use cc_ast::tree::{Expr, Key, Target};
use sqlite_items::{Boxed, Items};

#[cycle(expression)]
fn same_expr(a: &Expr, b: &Expr) -> bool
    ensures { IsTrue result ↔ (a.now ≡ b.now) }
{
    match b {
        Expr::Undefined(..) => same_undefined(a, b),
        Expr::Null(..) => same_null(a, b),
        Expr::Truth(..) => same_truth(a, b),
        Expr::Whole(..) => same_whole(a, b),
        Expr::Text(..) => same_text(a, b),
        Expr::Var(..) => same_var(a, b),
        Expr::This(..) => same_this(a, b),
        Expr::Fun(..) => same_fun(a, b),
        Expr::List(..) => same_list(a, b),
        Expr::Object(..) => same_object(a, b),
        Expr::Unary(..) => same_unary(a, b),
        Expr::Binary(..) => same_binary(a, b),
        Expr::And(..) => same_and(a, b),
        Expr::Or(..) => same_or(a, b),
        Expr::Cond(..) => same_cond(a, b),
        Expr::Assign(..) => same_assign(a, b),
        Expr::Step(..) => same_step(a, b),
        Expr::Member(..) => same_member(a, b),
        Expr::Index(..) => same_index(a, b),
        Expr::Call(..) => same_call(a, b),
        Expr::New(..) => same_new(a, b),
        Expr::Comma(..) => same_comma(a, b),
        Expr::Cast(..) => same_cast(a, b),
        Expr::Tick(..) => same_tick(a, b),
    }
}

#[cycle(expression)]
pub(crate) fn same_boxed(a: &Boxed<Expr>, b: &Boxed<Expr>) -> bool
    ensures { IsTrue result ↔ (a.now ≡ b.now) }
{
    same_expr(a.get(), b.get())
}

#[cycle(expression)]
fn same_list(a: &Expr, b: &Expr) -> bool
    ensures { (s : _) (x : _) → b.now ≡ Expr.List s x → (IsTrue result ↔ (a.now ≡ b.now)) }
{
    let Expr::List(s, x) = a else {
        return false;
    };
    let Expr::List(t, u) = b else {
        return false;
    };
    *s == *t && same_exprs(x, u)
}

#[cycle(expression)]
fn same_object(a: &Expr, b: &Expr) -> bool
    ensures { (s : _) (x : _) → b.now ≡ Expr.Object s x → (IsTrue result ↔ (a.now ≡ b.now)) }
{
    let Expr::Object(s, x) = a else {
        return false;
    };
    let Expr::Object(t, u) = b else {
        return false;
    };
    *s == *t && same_fields(x, u)
}

#[cycle(expression)]
fn same_unary(a: &Expr, b: &Expr) -> bool
    ensures { (s : _) (x : _) (y : _) → b.now ≡ Expr.Unary s x y → (IsTrue result ↔ (a.now ≡ b.now)) }
{
    let Expr::Unary(s, x, y) = a else {
        return false;
    };
    let Expr::Unary(t, u, v) = b else {
        return false;
    };
    *s == *t && *x == *u && same_boxed(y, v)
}

#[cycle(expression)]
fn same_binary(a: &Expr, b: &Expr) -> bool
    ensures { (s : _) (x : _) (y : _) (z : _) → b.now ≡ Expr.Binary s x y z → (IsTrue result ↔ (a.now ≡ b.now)) }
{
    let Expr::Binary(s, x, y, z) = a else {
        return false;
    };
    let Expr::Binary(t, u, v, w) = b else {
        return false;
    };
    *s == *t && *x == *u && same_boxed(y, v) && same_boxed(z, w)
}

#[cycle(expression)]
fn same_and(a: &Expr, b: &Expr) -> bool
    ensures { (s : _) (x : _) (y : _) → b.now ≡ Expr.And s x y → (IsTrue result ↔ (a.now ≡ b.now)) }
{
    let Expr::And(s, x, y) = a else {
        return false;
    };
    let Expr::And(t, u, v) = b else {
        return false;
    };
    *s == *t && same_boxed(x, u) && same_boxed(y, v)
}

#[cycle(expression)]
fn same_or(a: &Expr, b: &Expr) -> bool
    ensures { (s : _) (x : _) (y : _) → b.now ≡ Expr.Or s x y → (IsTrue result ↔ (a.now ≡ b.now)) }
{
    let Expr::Or(s, x, y) = a else {
        return false;
    };
    let Expr::Or(t, u, v) = b else {
        return false;
    };
    *s == *t && same_boxed(x, u) && same_boxed(y, v)
}

#[cycle(expression)]
fn same_cond(a: &Expr, b: &Expr) -> bool
    ensures { (s : _) (x : _) (y : _) (z : _) → b.now ≡ Expr.Cond s x y z → (IsTrue result ↔ (a.now ≡ b.now)) }
{
    let Expr::Cond(s, x, y, z) = a else {
        return false;
    };
    let Expr::Cond(t, u, v, w) = b else {
        return false;
    };
    *s == *t && same_boxed(x, u) && same_boxed(y, v) && same_boxed(z, w)
}

#[cycle(expression)]
fn same_assign(a: &Expr, b: &Expr) -> bool
    ensures { (s : _) (x : _) (y : _) (z : _) → b.now ≡ Expr.Assign s x y z → (IsTrue result ↔ (a.now ≡ b.now)) }
{
    let Expr::Assign(s, x, y, z) = a else {
        return false;
    };
    let Expr::Assign(t, u, v, w) = b else {
        return false;
    };
    *s == *t && same_operator(*x, *u) && same_boxed_target(y, v) && same_boxed(z, w)
}

#[cycle(expression)]
fn same_step(a: &Expr, b: &Expr) -> bool
    ensures { (s : _) (x : _) (y : _) (z : _) → b.now ≡ Expr.Step s x y z → (IsTrue result ↔ (a.now ≡ b.now)) }
{
    let Expr::Step(s, x, y, z) = a else {
        return false;
    };
    let Expr::Step(t, u, v, w) = b else {
        return false;
    };
    *s == *t && *x == *u && *y == *v && same_boxed_target(z, w)
}

#[cycle(expression)]
fn same_member(a: &Expr, b: &Expr) -> bool
    ensures { (s : _) (x : _) (y : _) → b.now ≡ Expr.Member s x y → (IsTrue result ↔ (a.now ≡ b.now)) }
{
    let Expr::Member(s, x, y) = a else {
        return false;
    };
    let Expr::Member(t, u, v) = b else {
        return false;
    };
    *s == *t && same_boxed(x, u) && *y == *v
}

#[cycle(expression)]
fn same_index(a: &Expr, b: &Expr) -> bool
    ensures { (s : _) (x : _) (y : _) → b.now ≡ Expr.Index s x y → (IsTrue result ↔ (a.now ≡ b.now)) }
{
    let Expr::Index(s, x, y) = a else {
        return false;
    };
    let Expr::Index(t, u, v) = b else {
        return false;
    };
    *s == *t && same_boxed(x, u) && same_boxed(y, v)
}

#[cycle(expression)]
fn same_call(a: &Expr, b: &Expr) -> bool
    ensures { (s : _) (x : _) (y : _) → b.now ≡ Expr.Call s x y → (IsTrue result ↔ (a.now ≡ b.now)) }
{
    let Expr::Call(s, x, y) = a else {
        return false;
    };
    let Expr::Call(t, u, v) = b else {
        return false;
    };
    *s == *t && same_boxed(x, u) && same_exprs(y, v)
}

#[cycle(expression)]
fn same_new(a: &Expr, b: &Expr) -> bool
    ensures { (s : _) (x : _) (y : _) → b.now ≡ Expr.New s x y → (IsTrue result ↔ (a.now ≡ b.now)) }
{
    let Expr::New(s, x, y) = a else {
        return false;
    };
    let Expr::New(t, u, v) = b else {
        return false;
    };
    *s == *t && same_boxed(x, u) && same_exprs(y, v)
}

#[cycle(expression)]
fn same_comma(a: &Expr, b: &Expr) -> bool
    ensures { (s : _) (x : _) (y : _) → b.now ≡ Expr.Comma s x y → (IsTrue result ↔ (a.now ≡ b.now)) }
{
    let Expr::Comma(s, x, y) = a else {
        return false;
    };
    let Expr::Comma(t, u, v) = b else {
        return false;
    };
    *s == *t && same_boxed(x, u) && same_boxed(y, v)
}

#[cycle(expression)]
fn same_cast(a: &Expr, b: &Expr) -> bool
    ensures { (s : _) (x : _) (y : _) → b.now ≡ Expr.Cast s x y → (IsTrue result ↔ (a.now ≡ b.now)) }
{
    let Expr::Cast(s, x, y) = a else {
        return false;
    };
    let Expr::Cast(t, u, v) = b else {
        return false;
    };
    *s == *t && *x == *u && same_boxed(y, v)
}

#[cycle(expression)]
fn same_tick(a: &Expr, b: &Expr) -> bool
    ensures { (s : _) (x : _) (y : _) → b.now ≡ Expr.Tick s x y → (IsTrue result ↔ (a.now ≡ b.now)) }
{
    let Expr::Tick(s, x, y) = a else {
        return false;
    };
    let Expr::Tick(t, u, v) = b else {
        return false;
    };
    *s == *t && *x == *u && same_boxed(y, v)
}

#[cycle(expression)]
fn same_target(a: &Target, b: &Target) -> bool
    ensures { IsTrue result ↔ (a.now ≡ b.now) }
{
    match b {
        Target::Variable(..) => same_variable(a, b),
        Target::Dotted(..) => same_dotted(a, b),
        Target::Bracketed(..) => same_bracketed(a, b),
    }
}

#[cycle(expression)]
pub(crate) fn same_boxed_target(a: &Boxed<Target>, b: &Boxed<Target>) -> bool
    ensures { IsTrue result ↔ (a.now ≡ b.now) }
{
    same_target(a.get(), b.get())
}

fn same_variable(a: &Target, b: &Target) -> bool
    ensures { (s : _) (x : _) → b.now ≡ Target.Variable s x → (IsTrue result ↔ (a.now ≡ b.now)) }
{
    let Target::Variable(s, x) = a else {
        return false;
    };
    let Target::Variable(t, u) = b else {
        return false;
    };
    *s == *t && *x == *u
}

#[cycle(expression)]
fn same_dotted(a: &Target, b: &Target) -> bool
    ensures { (s : _) (x : _) (y : _) → b.now ≡ Target.Dotted s x y → (IsTrue result ↔ (a.now ≡ b.now)) }
{
    let Target::Dotted(s, x, y) = a else {
        return false;
    };
    let Target::Dotted(t, u, v) = b else {
        return false;
    };
    *s == *t && same_boxed(x, u) && *y == *v
}

#[cycle(expression)]
fn same_bracketed(a: &Target, b: &Target) -> bool
    ensures { (s : _) (x : _) (y : _) → b.now ≡ Target.Bracketed s x y → (IsTrue result ↔ (a.now ≡ b.now)) }
{
    let Target::Bracketed(s, x, y) = a else {
        return false;
    };
    let Target::Bracketed(t, u, v) = b else {
        return false;
    };
    *s == *t && same_boxed(x, u) && same_boxed(y, v)
}

#[cycle(expression)]
fn same_exprs(a: &Items<Expr>, b: &Items<Expr>) -> bool
    ensures { IsTrue result ↔ (a.now ≡ b.now) }
{
    let others = b.as_slice();
    if a.len() != others.len() {
        return false;
    }
    let mut i = 0;
    for e in a.as_slice() {
        if !same_expr(e, &others[i]) {
            return false;
        }
        i += 1;
    }
    true
}

#[cycle(expression)]
fn same_fields(a: &Items<(Key, Expr)>, b: &Items<(Key, Expr)>) -> bool
    ensures { IsTrue result ↔ (a.now ≡ b.now) }
{
    let others = b.as_slice();
    if a.len() != others.len() {
        return false;
    }
    let mut i = 0;
    for field in a.as_slice() {
        if !same_key(&field.0, &others[i].0) || !same_expr(&field.1, &others[i].1) {
            return false;
        }
        i += 1;
    }
    true
}
