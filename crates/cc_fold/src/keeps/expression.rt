// Whether folding keeps each node of an expression. A function for one kind of node takes the node whole,
// and asks that it is of this kind.
ghost use Rattle.std.specs.Prelude.{◌≡◌, not};
ghost use Rattle.cc_ast.specs.Bridge.{target, term, term_fields, terms};
ghost use Rattle.cc_fold.specs.Keeps.{binary_stays, is_literal, keeps_all, keeps_expr, keeps_fields, keeps_target, unary_stays};

use crate::operators::is_literal;
use cc_ast::operator::{BinOp, UnOp};
use cc_ast::tree::{Expr, Key, Target};
use sqlite_items::Items;

#[cycle(expression)]
#[tactic(auto, using(cc_ast::specs::Terms::steps, crate::proofs::KeepExprs::walk))]
pub fn keeps_expr(e: &Expr) -> bool
    ensures { result ≡ keeps_expr (term e.now) }
{
    match e {
        Expr::Undefined(..) => true,
        Expr::Null(..) => true,
        Expr::Truth(..) => true,
        Expr::Whole(..) => true,
        Expr::Text(..) => true,
        Expr::Var(..) => true,
        Expr::This(..) => true,
        Expr::Fun(..) => true,
        Expr::List(..) => keeps_list(e),
        Expr::Object(..) => keeps_object(e),
        Expr::Unary(..) => keeps_unary(e),
        Expr::Binary(..) => keeps_binary(e),
        Expr::And(..) => keeps_and(e),
        Expr::Or(..) => keeps_or(e),
        Expr::Cond(..) => keeps_cond(e),
        Expr::Assign(..) => keeps_assign(e),
        Expr::Step(..) => keeps_step(e),
        Expr::Member(..) => keeps_member(e),
        Expr::Index(..) => keeps_index(e),
        Expr::Call(..) => keeps_call(e),
        Expr::New(..) => keeps_new(e),
        Expr::Comma(..) => keeps_comma(e),
        Expr::Cast(..) => keeps_cast(e),
        Expr::Tick(..) => keeps_tick(e),
    }
}

#[cycle(expression)]
#[tactic(auto, using(cc_ast::specs::Terms::steps, crate::proofs::KeepExprs::walk))]
fn keeps_list(e: &Expr) -> bool
    requires { (s : _) × ((items : _) × (e.now ≡ Expr.List s items)) }
    ensures { result ≡ keeps_expr (term e.now) }
{
    let Expr::List(_, items) = e else {
        unreachable!()
    };
    keeps_exprs(items)
}

#[cycle(expression)]
#[tactic(auto, using(cc_ast::specs::Terms::steps, crate::proofs::KeepExprs::walk))]
fn keeps_object(e: &Expr) -> bool
    requires { (s : _) × ((pairs : _) × (e.now ≡ Expr.Object s pairs)) }
    ensures { result ≡ keeps_expr (term e.now) }
{
    let Expr::Object(_, pairs) = e else {
        unreachable!()
    };
    keeps_pairs(pairs)
}

#[cycle(expression)]
#[tactic(auto, using(cc_ast::specs::Terms::steps, crate::proofs::KeepExprs::walk))]
fn keeps_unary(e: &Expr) -> bool
    requires { (s : _) × ((op : _) × ((a : _) × (e.now ≡ Expr.Unary s op a))) }
    ensures { result ≡ keeps_expr (term e.now) }
{
    let Expr::Unary(_, op, a) = e else {
        unreachable!()
    };
    unary_stays(*op, a.get()) && keeps_expr(a.get())
}

#[cycle(expression)]
#[tactic(auto, using(cc_ast::specs::Terms::steps, crate::proofs::KeepExprs::walk))]
fn keeps_binary(e: &Expr) -> bool
    requires { (s : _) × ((op : _) × ((a : _) × ((b : _) × (e.now ≡ Expr.Binary s op a b)))) }
    ensures { result ≡ keeps_expr (term e.now) }
{
    let Expr::Binary(_, op, a, b) = e else {
        unreachable!()
    };
    binary_stays(*op, a.get(), b.get()) && keeps_expr(a.get()) && keeps_expr(b.get())
}

#[cycle(expression)]
#[tactic(auto, using(cc_ast::specs::Terms::steps, crate::proofs::KeepExprs::walk))]
fn keeps_and(e: &Expr) -> bool
    requires { (s : _) × ((a : _) × ((b : _) × (e.now ≡ Expr.And s a b))) }
    ensures { result ≡ keeps_expr (term e.now) }
{
    let Expr::And(_, a, b) = e else {
        unreachable!()
    };
    no_literal(a.get()) && keeps_expr(a.get()) && keeps_expr(b.get())
}

#[cycle(expression)]
#[tactic(auto, using(cc_ast::specs::Terms::steps, crate::proofs::KeepExprs::walk))]
fn keeps_or(e: &Expr) -> bool
    requires { (s : _) × ((a : _) × ((b : _) × (e.now ≡ Expr.Or s a b))) }
    ensures { result ≡ keeps_expr (term e.now) }
{
    let Expr::Or(_, a, b) = e else { unreachable!() };
    no_literal(a.get()) && keeps_expr(a.get()) && keeps_expr(b.get())
}

#[cycle(expression)]
#[tactic(auto, using(cc_ast::specs::Terms::steps, crate::proofs::KeepExprs::walk))]
fn keeps_cond(e: &Expr) -> bool
    requires { (s : _) × ((t : _) × ((a : _) × ((b : _) × (e.now ≡ Expr.Cond s t a b)))) }
    ensures { result ≡ keeps_expr (term e.now) }
{
    let Expr::Cond(_, t, a, b) = e else {
        unreachable!()
    };
    no_literal(t.get()) && keeps_expr(t.get()) && keeps_expr(a.get()) && keeps_expr(b.get())
}

#[cycle(expression)]
#[tactic(auto, using(cc_ast::specs::Terms::steps, crate::proofs::KeepExprs::walk))]
fn keeps_assign(e: &Expr) -> bool
    requires { (s : _) × ((op : _) × ((t : _) × ((a : _) × (e.now ≡ Expr.Assign s op t a)))) }
    ensures { result ≡ keeps_expr (term e.now) }
{
    let Expr::Assign(_, _, t, a) = e else {
        unreachable!()
    };
    keeps_target(t.get()) && keeps_expr(a.get())
}

#[cycle(expression)]
#[tactic(auto, using(cc_ast::specs::Terms::steps, crate::proofs::KeepExprs::walk))]
fn keeps_step(e: &Expr) -> bool
    requires { (s : _) × ((up : _) × ((prefix : _) × ((t : _) × (e.now ≡ Expr.Step s up prefix t)))) }
    ensures { result ≡ keeps_expr (term e.now) }
{
    let Expr::Step(_, _, _, t) = e else {
        unreachable!()
    };
    keeps_target(t.get())
}

#[cycle(expression)]
#[tactic(auto, using(cc_ast::specs::Terms::steps, crate::proofs::KeepExprs::walk))]
fn keeps_member(e: &Expr) -> bool
    requires { (s : _) × ((a : _) × ((prop : _) × (e.now ≡ Expr.Member s a prop))) }
    ensures { result ≡ keeps_expr (term e.now) }
{
    let Expr::Member(_, a, _) = e else {
        unreachable!()
    };
    keeps_expr(a.get())
}

#[cycle(expression)]
#[tactic(auto, using(cc_ast::specs::Terms::steps, crate::proofs::KeepExprs::walk))]
fn keeps_index(e: &Expr) -> bool
    requires { (s : _) × ((a : _) × ((b : _) × (e.now ≡ Expr.Index s a b))) }
    ensures { result ≡ keeps_expr (term e.now) }
{
    let Expr::Index(_, a, b) = e else {
        unreachable!()
    };
    keeps_expr(a.get()) && keeps_expr(b.get())
}

#[cycle(expression)]
#[tactic(auto, using(cc_ast::specs::Terms::steps, crate::proofs::KeepExprs::walk))]
fn keeps_call(e: &Expr) -> bool
    requires { (s : _) × ((f : _) × ((arguments : _) × (e.now ≡ Expr.Call s f arguments))) }
    ensures { result ≡ keeps_expr (term e.now) }
{
    let Expr::Call(_, f, arguments) = e else {
        unreachable!()
    };
    keeps_expr(f.get()) && keeps_exprs(arguments)
}

#[cycle(expression)]
#[tactic(auto, using(cc_ast::specs::Terms::steps, crate::proofs::KeepExprs::walk))]
fn keeps_new(e: &Expr) -> bool
    requires { (s : _) × ((f : _) × ((arguments : _) × (e.now ≡ Expr.New s f arguments))) }
    ensures { result ≡ keeps_expr (term e.now) }
{
    let Expr::New(_, f, arguments) = e else {
        unreachable!()
    };
    keeps_expr(f.get()) && keeps_exprs(arguments)
}

#[cycle(expression)]
#[tactic(auto, using(cc_ast::specs::Terms::steps, crate::proofs::KeepExprs::walk))]
fn keeps_comma(e: &Expr) -> bool
    requires { (s : _) × ((a : _) × ((b : _) × (e.now ≡ Expr.Comma s a b))) }
    ensures { result ≡ keeps_expr (term e.now) }
{
    let Expr::Comma(_, a, b) = e else {
        unreachable!()
    };
    keeps_expr(a.get()) && keeps_expr(b.get())
}

#[cycle(expression)]
#[tactic(auto, using(cc_ast::specs::Terms::steps, crate::proofs::KeepExprs::walk))]
fn keeps_cast(e: &Expr) -> bool
    requires { (s : _) × ((doc : _) × ((a : _) × (e.now ≡ Expr.Cast s doc a))) }
    ensures { result ≡ keeps_expr (term e.now) }
{
    let Expr::Cast(_, _, a) = e else {
        unreachable!()
    };
    keeps_expr(a.get())
}

#[cycle(expression)]
#[tactic(auto, using(cc_ast::specs::Terms::steps, crate::proofs::KeepExprs::walk))]
fn keeps_tick(e: &Expr) -> bool
    requires { (s : _) × ((price : _) × ((a : _) × (e.now ≡ Expr.Tick s price a))) }
    ensures { result ≡ keeps_expr (term e.now) }
{
    let Expr::Tick(_, _, a) = e else {
        unreachable!()
    };
    keeps_expr(a.get())
}

#[tactic(auto, unfolding(crate::specs::Keeps::is_literal))]
fn no_literal(e: &Expr) -> bool
    ensures { result ≡ not (is_literal (term e.now)) }
{
    !is_literal(e)
}

// `void` and `delete` stay, and every other operator whose operand is no literal.
#[tactic(auto, using(crate::proofs::KeepExprs::unary_other), unfolding(crate::specs::Keeps::unary_stays, crate::specs::Keeps::is_literal))]
fn unary_stays(op: UnOp, a: &Expr) -> bool
    ensures { result ≡ unary_stays op (term a.now) }
{
    match op {
        UnOp::Void => true,
        UnOp::Delete => true,
        _ => !is_literal(a),
    }
}

// `instanceof` and `in` stay, and every other operator with an operand that is no literal.
#[tactic(auto, using(crate::proofs::KeepExprs::binary_other), unfolding(crate::specs::Keeps::binary_stays, crate::specs::Keeps::is_literal))]
fn binary_stays(op: BinOp, a: &Expr, b: &Expr) -> bool
    ensures { result ≡ binary_stays op (term a.now) (term b.now) }
{
    match op {
        BinOp::Instance => true,
        BinOp::Has => true,
        _ => !(is_literal(a) && is_literal(b)),
    }
}

/// The same of what is written to.
#[cycle(expression)]
#[tactic(auto, using(cc_ast::specs::Terms::steps, crate::proofs::KeepExprs::walk))]
pub fn keeps_target(t: &Target) -> bool
    ensures { result ≡ keeps_target (target t.now) }
{
    match t {
        Target::Variable(..) => true,
        Target::Dotted(_, a, _) => keeps_expr(a.get()),
        Target::Bracketed(_, a, b) => keeps_expr(a.get()) && keeps_expr(b.get()),
    }
}

#[cycle(expression)]
fn keeps_exprs(items: &Items<Expr>) -> bool
    ensures { result ≡ keeps_all (terms items.now) }
{
    for e in items.as_slice() {
        if !keeps_expr(e) {
            return false;
        }
    }
    true
}

#[cycle(expression)]
fn keeps_pairs(items: &Items<(Key, Expr)>) -> bool
    ensures { result ≡ keeps_fields (term_fields items.now) }
{
    for pair in items.as_slice() {
        if !keeps_expr(&pair.1) {
            return false;
        }
    }
    true
}
