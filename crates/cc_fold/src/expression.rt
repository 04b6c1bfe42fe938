// Expressions, folded from the leaves up. A function for one kind of node takes the node whole, and asks
// that it is of this kind.
ghost use Rattle.std.specs.Prelude.{◌≡◌, [], ◌∷◌, ◌++◌, IfOk, IsTrue, OnOk, map, true};
ghost use Rattle.cc_ast.specs.Bridge.{field, target, term};
ghost use Rattle.cc_fold.specs.Built.{built_in};
ghost use Rattle.cc_fold.specs.Leaves.{is_leaf};
ghost use Rattle.cc_fold.specs.Places.{place_of};
ghost use Rattle.cc_fold.specs.Walk.{fold_expr, fold_field, fold_target};

use crate::built::Plan;
use crate::choice::{fold_and, fold_cond, fold_or};
use crate::make;
use crate::operators::{fold_binary, fold_unary};
use crate::place::{Place, operand_place};
use cc_ast::copy::CopyOf;
use cc_ast::tree::{Expr, Key, Target};
use cc_ast::units::Units;
use sqlite_items::{Boxed, Items};
use std::alloc::{AllocError, Global};

/// The expression folded at its place; `in_target` tells whether it is within the target of an
/// assignment.
#[cycle(expression)]
#[tactic(auto, using(cc_ast::specs::Terms::steps, crate::proofs::Equations::walk))]
pub fn fold_expr(
    alloc: Global,
    plan: &Plan,
    in_target: bool,
    place: Place,
    e: &Expr,
) -> Result<Boxed<Expr>, AllocError>
    ensures { IfOk result (λ r. term r ≡ fold_expr (built_in plan.now) in_target (place_of place) (term e.now)) }
{
    match e {
        Expr::List(..) => list_node(alloc, plan, in_target, e),
        Expr::Object(..) => object_node(alloc, plan, in_target, e),
        Expr::Unary(..) => unary_node(alloc, plan, in_target, e),
        Expr::Binary(..) => binary_node(alloc, plan, in_target, e),
        Expr::And(..) => and_node(alloc, plan, in_target, place, e),
        Expr::Or(..) => or_node(alloc, plan, in_target, place, e),
        Expr::Cond(..) => cond_node(alloc, plan, in_target, place, e),
        Expr::Assign(..) => assign_node(alloc, plan, in_target, e),
        Expr::Step(..) => step_node(alloc, plan, in_target, e),
        Expr::Member(..) => member_node(alloc, plan, in_target, e),
        Expr::Index(..) => index_node(alloc, plan, in_target, e),
        Expr::Call(..) => call_node(alloc, plan, in_target, e),
        Expr::New(..) => new_node(alloc, plan, in_target, e),
        Expr::Comma(..) => comma_node(alloc, plan, in_target, e),
        Expr::Cast(..) => cast_node(alloc, plan, in_target, place, e),
        Expr::Tick(..) => tick_node(alloc, plan, in_target, place, e),
        _ => copied_leaf(alloc, e),
    }
}

// A leaf stays as it is.
#[tactic(auto, using(cc_ast::specs::Terms::steps, crate::proofs::Layers::no_leaf), unfolding(crate::specs::Leaves::is_leaf))]
fn copied_leaf(alloc: Global, e: &Expr) -> Result<Boxed<Expr>, AllocError>
    requires { IsTrue (is_leaf (term e.now)) }
    ensures { IfOk result (λ r. r ≡ e.now) }
{
    match e {
        Expr::Undefined(s) => Boxed::new(alloc, Expr::Undefined(*s)),
        Expr::Null(s) => Boxed::new(alloc, Expr::Null(*s)),
        Expr::Truth(s, b) => Boxed::new(alloc, Expr::Truth(*s, *b)),
        Expr::Whole(s, n) => Boxed::new(alloc, Expr::Whole(*s, *n)),
        Expr::Text(s, units) => copied_text(alloc, *s, units),
        Expr::Var(s, r) => Boxed::new(alloc, Expr::Var(*s, *r)),
        Expr::This(s) => Boxed::new(alloc, Expr::This(*s)),
        Expr::Fun(s, f) => Boxed::new(alloc, Expr::Fun(*s, *f)),
        _ => unreachable!(),
    }
}

fn copied_text(alloc: Global, site: u32, units: &Units) -> Result<Boxed<Expr>, AllocError>
    ensures { IfOk result (λ r. r ≡ Expr.Text site units.now) }
{
    let units = units.copy_of(alloc)?;
    make::text(alloc, site, units)
}

#[cycle(expression)]
#[tactic(auto, using(cc_ast::specs::Terms::steps, crate::proofs::Equations::walk))]
fn list_node(
    alloc: Global,
    plan: &Plan,
    in_target: bool,
    e: &Expr,
) -> Result<Boxed<Expr>, AllocError>
    requires { (s : _) × ((items : _) × (e.now ≡ Expr.List s items)) }
    ensures { (q : _) → IfOk result (λ r. term r ≡ fold_expr (built_in plan.now) in_target q (term e.now)) }
{
    let Expr::List(s, items) = e else {
        unreachable!()
    };
    let items = fold_exprs(alloc, plan, in_target, items)?;
    Boxed::new(alloc, Expr::List(*s, items))
}

#[cycle(expression)]
#[tactic(auto, using(cc_ast::specs::Terms::steps, crate::proofs::Equations::walk))]
fn object_node(
    alloc: Global,
    plan: &Plan,
    in_target: bool,
    e: &Expr,
) -> Result<Boxed<Expr>, AllocError>
    requires { (s : _) × ((pairs : _) × (e.now ≡ Expr.Object s pairs)) }
    ensures { (q : _) → IfOk result (λ r. term r ≡ fold_expr (built_in plan.now) in_target q (term e.now)) }
{
    let Expr::Object(s, pairs) = e else {
        unreachable!()
    };
    let pairs = fold_pairs(alloc, plan, in_target, pairs)?;
    Boxed::new(alloc, Expr::Object(*s, pairs))
}

#[cycle(expression)]
#[tactic(auto, using(cc_ast::specs::Terms::steps, crate::proofs::Equations::walk))]
fn unary_node(
    alloc: Global,
    plan: &Plan,
    in_target: bool,
    e: &Expr,
) -> Result<Boxed<Expr>, AllocError>
    requires { (s : _) × ((op : _) × ((a : _) × (e.now ≡ Expr.Unary s op a))) }
    ensures { (q : _) → IfOk result (λ r. term r ≡ fold_expr (built_in plan.now) in_target q (term e.now)) }
{
    let Expr::Unary(s, op, a) = e else {
        unreachable!()
    };
    let a = fold_expr(alloc, plan, in_target, operand_place(*op), a.get())?;
    fold_unary(alloc, *s, *op, a)
}

#[cycle(expression)]
#[tactic(auto, using(cc_ast::specs::Terms::steps, crate::proofs::Equations::walk))]
fn binary_node(
    alloc: Global,
    plan: &Plan,
    in_target: bool,
    e: &Expr,
) -> Result<Boxed<Expr>, AllocError>
    requires { (s : _) × ((op : _) × ((a : _) × ((b : _) × (e.now ≡ Expr.Binary s op a b)))) }
    ensures { (q : _) → IfOk result (λ r. term r ≡ fold_expr (built_in plan.now) in_target q (term e.now)) }
{
    let Expr::Binary(s, op, a, b) = e else {
        unreachable!()
    };
    let a = fold_expr(alloc, plan, in_target, Place::Value, a.get())?;
    let b = fold_expr(alloc, plan, in_target, Place::Value, b.get())?;
    fold_binary(alloc, *s, *op, a, b)
}

#[cycle(expression)]
#[tactic(auto, using(cc_ast::specs::Terms::steps, crate::proofs::Equations::walk))]
fn and_node(
    alloc: Global,
    plan: &Plan,
    in_target: bool,
    place: Place,
    e: &Expr,
) -> Result<Boxed<Expr>, AllocError>
    requires { (s : _) × ((a : _) × ((b : _) × (e.now ≡ Expr.And s a b))) }
    ensures { IfOk result (λ r. term r ≡ fold_expr (built_in plan.now) in_target (place_of place) (term e.now)) }
{
    let Expr::And(s, a, b) = e else {
        unreachable!()
    };
    let a = fold_expr(alloc, plan, in_target, Place::Value, a.get())?;
    let b = fold_expr(alloc, plan, in_target, Place::Value, b.get())?;
    fold_and(alloc, plan, in_target, place, *s, a, b)
}

#[cycle(expression)]
#[tactic(auto, using(cc_ast::specs::Terms::steps, crate::proofs::Equations::walk))]
fn or_node(
    alloc: Global,
    plan: &Plan,
    in_target: bool,
    place: Place,
    e: &Expr,
) -> Result<Boxed<Expr>, AllocError>
    requires { (s : _) × ((a : _) × ((b : _) × (e.now ≡ Expr.Or s a b))) }
    ensures { IfOk result (λ r. term r ≡ fold_expr (built_in plan.now) in_target (place_of place) (term e.now)) }
{
    let Expr::Or(s, a, b) = e else { unreachable!() };
    let a = fold_expr(alloc, plan, in_target, Place::Value, a.get())?;
    let b = fold_expr(alloc, plan, in_target, Place::Value, b.get())?;
    fold_or(alloc, plan, in_target, place, *s, a, b)
}

#[cycle(expression)]
#[tactic(auto, using(cc_ast::specs::Terms::steps, crate::proofs::Equations::walk))]
fn cond_node(
    alloc: Global,
    plan: &Plan,
    in_target: bool,
    place: Place,
    e: &Expr,
) -> Result<Boxed<Expr>, AllocError>
    requires { (s : _) × ((t : _) × ((a : _) × ((b : _) × (e.now ≡ Expr.Cond s t a b)))) }
    ensures { IfOk result (λ r. term r ≡ fold_expr (built_in plan.now) in_target (place_of place) (term e.now)) }
{
    let Expr::Cond(_, t, _, _) = e else {
        unreachable!()
    };
    let t = fold_expr(alloc, plan, in_target, Place::Value, t.get())?;
    cond_beside(alloc, plan, in_target, place, e, t)
}

#[cycle(expression)]
#[tactic(auto, using(cc_ast::specs::Terms::steps, crate::proofs::Equations::walk))]
fn assign_node(
    alloc: Global,
    plan: &Plan,
    in_target: bool,
    e: &Expr,
) -> Result<Boxed<Expr>, AllocError>
    requires { (s : _) × ((op : _) × ((t : _) × ((a : _) × (e.now ≡ Expr.Assign s op t a)))) }
    ensures { (q : _) → IfOk result (λ r. term r ≡ fold_expr (built_in plan.now) in_target q (term e.now)) }
{
    let Expr::Assign(s, op, t, a) = e else {
        unreachable!()
    };
    let t = fold_target(alloc, plan, t.get())?;
    let a = fold_expr(alloc, plan, in_target, Place::Assigned, a.get())?;
    Boxed::new(alloc, Expr::Assign(*s, *op, t, a))
}

#[cycle(expression)]
#[tactic(auto, using(cc_ast::specs::Terms::steps, crate::proofs::Equations::walk))]
fn step_node(
    alloc: Global,
    plan: &Plan,
    in_target: bool,
    e: &Expr,
) -> Result<Boxed<Expr>, AllocError>
    requires { (s : _) × ((up : _) × ((prefix : _) × ((t : _) × (e.now ≡ Expr.Step s up prefix t)))) }
    ensures { (q : _) → IfOk result (λ r. term r ≡ fold_expr (built_in plan.now) in_target q (term e.now)) }
{
    let Expr::Step(s, up, prefix, t) = e else {
        unreachable!()
    };
    let t = fold_target(alloc, plan, t.get())?;
    Boxed::new(alloc, Expr::Step(*s, *up, *prefix, t))
}

#[cycle(expression)]
#[tactic(auto, using(cc_ast::specs::Terms::steps, crate::proofs::Equations::walk))]
fn member_node(
    alloc: Global,
    plan: &Plan,
    in_target: bool,
    e: &Expr,
) -> Result<Boxed<Expr>, AllocError>
    requires { (s : _) × ((a : _) × ((prop : _) × (e.now ≡ Expr.Member s a prop))) }
    ensures { (q : _) → IfOk result (λ r. term r ≡ fold_expr (built_in plan.now) in_target q (term e.now)) }
{
    let Expr::Member(s, a, prop) = e else {
        unreachable!()
    };
    let a = fold_expr(alloc, plan, in_target, Place::Object, a.get())?;
    Boxed::new(alloc, Expr::Member(*s, a, *prop))
}

#[cycle(expression)]
#[tactic(auto, using(cc_ast::specs::Terms::steps, crate::proofs::Equations::walk))]
fn index_node(
    alloc: Global,
    plan: &Plan,
    in_target: bool,
    e: &Expr,
) -> Result<Boxed<Expr>, AllocError>
    requires { (s : _) × ((a : _) × ((b : _) × (e.now ≡ Expr.Index s a b))) }
    ensures { (q : _) → IfOk result (λ r. term r ≡ fold_expr (built_in plan.now) in_target q (term e.now)) }
{
    let Expr::Index(s, a, b) = e else {
        unreachable!()
    };
    let a = fold_expr(alloc, plan, in_target, Place::Object, a.get())?;
    let b = fold_expr(alloc, plan, in_target, Place::Value, b.get())?;
    Boxed::new(alloc, Expr::Index(*s, a, b))
}

#[cycle(expression)]
#[tactic(auto, using(cc_ast::specs::Terms::steps, crate::proofs::Equations::walk))]
fn call_node(
    alloc: Global,
    plan: &Plan,
    in_target: bool,
    e: &Expr,
) -> Result<Boxed<Expr>, AllocError>
    requires { (s : _) × ((f : _) × ((arguments : _) × (e.now ≡ Expr.Call s f arguments))) }
    ensures { (q : _) → IfOk result (λ r. term r ≡ fold_expr (built_in plan.now) in_target q (term e.now)) }
{
    let Expr::Call(s, f, arguments) = e else {
        unreachable!()
    };
    let f = fold_expr(alloc, plan, in_target, Place::Callee, f.get())?;
    let arguments = fold_exprs(alloc, plan, in_target, arguments)?;
    Boxed::new(alloc, Expr::Call(*s, f, arguments))
}

#[cycle(expression)]
#[tactic(auto, using(cc_ast::specs::Terms::steps, crate::proofs::Equations::walk))]
fn new_node(
    alloc: Global,
    plan: &Plan,
    in_target: bool,
    e: &Expr,
) -> Result<Boxed<Expr>, AllocError>
    requires { (s : _) × ((f : _) × ((arguments : _) × (e.now ≡ Expr.New s f arguments))) }
    ensures { (q : _) → IfOk result (λ r. term r ≡ fold_expr (built_in plan.now) in_target q (term e.now)) }
{
    let Expr::New(s, f, arguments) = e else {
        unreachable!()
    };
    let f = fold_expr(alloc, plan, in_target, Place::Callee, f.get())?;
    let arguments = fold_exprs(alloc, plan, in_target, arguments)?;
    Boxed::new(alloc, Expr::New(*s, f, arguments))
}

#[cycle(expression)]
#[tactic(auto, using(cc_ast::specs::Terms::steps, crate::proofs::Equations::walk))]
fn comma_node(
    alloc: Global,
    plan: &Plan,
    in_target: bool,
    e: &Expr,
) -> Result<Boxed<Expr>, AllocError>
    requires { (s : _) × ((a : _) × ((b : _) × (e.now ≡ Expr.Comma s a b))) }
    ensures { (q : _) → IfOk result (λ r. term r ≡ fold_expr (built_in plan.now) in_target q (term e.now)) }
{
    let Expr::Comma(s, a, b) = e else {
        unreachable!()
    };
    let a = fold_expr(alloc, plan, in_target, Place::Value, a.get())?;
    let b = fold_expr(alloc, plan, in_target, Place::Value, b.get())?;
    Boxed::new(alloc, Expr::Comma(*s, a, b))
}

#[cycle(expression)]
#[tactic(auto, using(cc_ast::specs::Terms::steps, crate::proofs::Equations::walk))]
fn cast_node(
    alloc: Global,
    plan: &Plan,
    in_target: bool,
    place: Place,
    e: &Expr,
) -> Result<Boxed<Expr>, AllocError>
    requires { (s : _) × ((doc : _) × ((a : _) × (e.now ≡ Expr.Cast s doc a))) }
    ensures { IfOk result (λ r. term r ≡ fold_expr (built_in plan.now) in_target (place_of place) (term e.now)) }
{
    let Expr::Cast(s, doc, a) = e else {
        unreachable!()
    };
    let a = fold_expr(alloc, plan, in_target, place, a.get())?;
    Boxed::new(alloc, Expr::Cast(*s, *doc, a))
}

#[cycle(expression)]
#[tactic(auto, using(cc_ast::specs::Terms::steps, crate::proofs::Equations::walk))]
fn tick_node(
    alloc: Global,
    plan: &Plan,
    in_target: bool,
    place: Place,
    e: &Expr,
) -> Result<Boxed<Expr>, AllocError>
    requires { (s : _) × ((price : _) × ((a : _) × (e.now ≡ Expr.Tick s price a))) }
    ensures { IfOk result (λ r. term r ≡ fold_expr (built_in plan.now) in_target (place_of place) (term e.now)) }
{
    let Expr::Tick(s, price, a) = e else {
        unreachable!()
    };
    let a = fold_expr(alloc, plan, in_target, place, a.get())?;
    Boxed::new(alloc, Expr::Tick(*s, *price, a))
}

// A `?:` whose test is folded.
#[cycle(expression)]
#[tactic(auto, using(cc_ast::specs::Terms::steps, crate::proofs::Equations::walk))]
fn cond_beside(
    alloc: Global,
    plan: &Plan,
    in_target: bool,
    place: Place,
    e: &Expr,
    test: Boxed<Expr>,
) -> Result<Boxed<Expr>, AllocError>
    requires { (s : _) × ((t : _) × ((a : _) × ((b : _) × ((e.now ≡ Expr.Cond s t a b) × (term test ≡ fold_expr (built_in plan.now) in_target (place_of Place.Value) (term t)))))) }
    ensures { IfOk result (λ r. term r ≡ fold_expr (built_in plan.now) in_target (place_of place) (term e.now)) }
{
    let Expr::Cond(s, _, a, b) = e else {
        unreachable!()
    };
    let a = fold_expr(alloc, plan, in_target, Place::Value, a.get())?;
    let b = fold_expr(alloc, plan, in_target, Place::Value, b.get())?;
    fold_cond(alloc, plan, in_target, place, *s, test, a, b)
}

/// What is written to, folded.
#[cycle(expression)]
#[tactic(auto, using(cc_ast::specs::Terms::steps, crate::proofs::Equations::walk))]
pub fn fold_target(alloc: Global, plan: &Plan, t: &Target) -> Result<Boxed<Target>, AllocError>
    ensures { IfOk result (λ r. target r ≡ fold_target (built_in plan.now) (target t.now)) }
{
    match t {
        Target::Variable(s, r) => Boxed::new(alloc, Target::Variable(*s, *r)),
        Target::Dotted(..) => dotted_target(alloc, plan, t),
        Target::Bracketed(..) => bracketed_target(alloc, plan, t),
    }
}

#[cycle(expression)]
#[tactic(auto, using(cc_ast::specs::Terms::steps, crate::proofs::Equations::walk))]
fn dotted_target(alloc: Global, plan: &Plan, t: &Target) -> Result<Boxed<Target>, AllocError>
    requires { (s : _) × ((a : _) × ((prop : _) × (t.now ≡ Target.Dotted s a prop))) }
    ensures { IfOk result (λ r. target r ≡ fold_target (built_in plan.now) (target t.now)) }
{
    let Target::Dotted(s, a, prop) = t else {
        unreachable!()
    };
    let a = fold_expr(alloc, plan, true, Place::Object, a.get())?;
    Boxed::new(alloc, Target::Dotted(*s, a, *prop))
}

#[cycle(expression)]
#[tactic(auto, using(cc_ast::specs::Terms::steps, crate::proofs::Equations::walk))]
fn bracketed_target(alloc: Global, plan: &Plan, t: &Target) -> Result<Boxed<Target>, AllocError>
    requires { (s : _) × ((a : _) × ((b : _) × (t.now ≡ Target.Bracketed s a b))) }
    ensures { IfOk result (λ r. target r ≡ fold_target (built_in plan.now) (target t.now)) }
{
    let Target::Bracketed(s, a, b) = t else {
        unreachable!()
    };
    let a = fold_expr(alloc, plan, true, Place::Object, a.get())?;
    let b = fold_expr(alloc, plan, true, Place::Value, b.get())?;
    Boxed::new(alloc, Target::Bracketed(*s, a, b))
}

#[cycle(expression)]
fn fold_exprs(
    alloc: Global,
    plan: &Plan,
    in_target: bool,
    items: &Items<Expr>,
) -> Result<Items<Expr>, AllocError>
    ensures { IfOk result (λ r. map term r ≡ map (fold_expr (built_in plan.now) in_target (place_of Place.Value)) (map term items.now)) }
{
    let mut folded = Items::new(alloc);
    for e in items.as_slice() {
        let made = fold_expr(alloc, plan, in_target, Place::Value, e)?;
        folded.push(made.into_inner())?;
    }
    Ok(folded)
}

#[cycle(expression)]
fn fold_pairs(
    alloc: Global,
    plan: &Plan,
    in_target: bool,
    items: &Items<(Key, Expr)>,
) -> Result<Items<(Key, Expr)>, AllocError>
    ensures { IfOk result (λ r. map field r ≡ map (fold_field (built_in plan.now) in_target) (map field items.now)) }
{
    let mut folded = Items::new(alloc);
    for pair in items.as_slice() {
        let made = fold_expr(alloc, plan, in_target, Place::Value, &pair.1)?;
        push_pair(alloc, &mut folded, &pair.0, made)?;
    }
    Ok(folded)
}

fn push_pair(
    alloc: Global,
    pairs: &mut Items<(Key, Expr)>,
    key: &Key,
    made: Boxed<Expr>,
) -> Result<(), AllocError>
    ensures { OnOk result (pairs.new ≡ pairs.old ++ (key.now, made) ∷ []) }
{
    let key = key.copy_of(alloc)?;
    pairs.push((key, made.into_inner()))
}
