// Choices by a literal on the left. Each stands at a place, whose guard may keep the old node.
ghost use Rattle.std.specs.Option.{option_map};
ghost use Rattle.std.specs.Prelude.{◌≡◌, ◌+◌, ◌^◌, ◌&&◌, IfOk, Some, nat_lt, not};
ghost use Rattle.cc_ast.specs.Bridge.{term};
ghost use Rattle.cc_ast.specs.Syntax.{and, or, cond, lit};
ghost use Rattle.cc_ast.specs.Syntax as tree;
ghost use Rattle.cc_meaning.specs.Operators.{truthy_prim};
ghost use Rattle.cc_tied.specs.Placed.{guard};
ghost use Rattle.cc_fold.specs.Built.{built_in};
ghost use Rattle.cc_fold.specs.Fold.{fold_and, fold_cond, fold_or, literal, literal_at, price_of};
ghost use Rattle.cc_fold.specs.Literals.{tested};
ghost use Rattle.cc_fold.specs.Places.{displaces, place_of, shape_of};

use crate::built::Plan;
use crate::literal::read::GREATEST_WHOLE;
use crate::make;
use crate::place::{Place, displaces, shape_of};
use crate::price::{charge, fits, price, unmarked};
use cc_ast::tree::Expr;
use cc_ast::units::Units;
use sqlite_items::Boxed;
use std::alloc::{AllocError, Global};

/// What a test of a literal comes to, and the price before the literal.
#[derive(Clone, Copy)]
pub struct Test {
    pub price: u64,
    pub is_true: bool,
}

/// The test of an expression, where it is a literal. No text is copied for it.
#[tactic(auto, unfolding(crate::specs::Fold::literal))]
pub fn test_of(e: &Expr) -> Option<Test>
    ensures { result ≡ option_map tested (literal (term e.now)) }
{
    test_under(price(e), unmarked(e))
}

// The same under a mark with this price.
#[tactic(auto, using(cc_ast::specs::Terms::steps, crate::proofs::Tests::tests))]
fn test_under(price: u64, e: &Expr) -> Option<Test>
    ensures { result ≡ option_map tested (literal_at price (term e.now)) }
{
    match e {
        Expr::Undefined(_) => known(price, false),
        Expr::Null(_) => known(price, false),
        Expr::Truth(_, b) => known(price, *b),
        Expr::Whole(_, z) => whole_test(price, *z),
        Expr::Text(_, units) => known(price, is_text_true(units)),
        _ => None,
    }
}

// A whole number past 2^53-1 counts as no literal.
fn whole_test(price: u64, z: i64) -> Option<Test>
    ensures { result ≡ option_map tested (literal_at price (lit 0 (tree.whole z))) }
{
    if z.unsigned_abs() <= GREATEST_WHOLE {
        known(price, is_whole_true(z))
    } else {
        None
    }
}

fn is_whole_true(z: i64) -> bool
    ensures { result ≡ truthy_prim (tree.whole z) }
{
    z != 0
}

fn is_text_true(text: &Units) -> bool
    ensures { result ≡ truthy_prim (tree.text text.now) }
{
    !text.list.as_slice().is_empty()
}

fn known(price: u64, is_true: bool) -> Option<Test>
    ensures { result ≡ Some (record { price = price; is_true = is_true }) }
{
    Some(Test { price, is_true })
}

// Whether the operand may stand at the place with this price before it.
fn may_stand(plan: &Plan, in_target: bool, place: Place, price: u64, operand: &Expr) -> bool
    ensures { result ≡ (nat_lt (price + price_of (term operand.now)) (2 ^ 64) && not (displaces (built_in plan.now) in_target (place_of place) (shape_of (term operand.now)))) }
{
    fits(price, operand) && !displaces(plan, in_target, place, shape_of(operand))
}

/// `&&` of operands that are folded.
#[tactic(auto, using(cc_ast::specs::Terms::steps, crate::proofs::Choices::and_choices))]
pub fn fold_and(
    alloc: Global,
    plan: &Plan,
    in_target: bool,
    place: Place,
    site: u32,
    left: Boxed<Expr>,
    right: Boxed<Expr>,
) -> Result<Boxed<Expr>, AllocError>
    ensures { IfOk result (λ r. term r ≡ guard (built_in plan.now) in_target (place_of place) (and site (term left) (term right)) (fold_and site (literal (term left)) (term left) (term right))) }
{
    let Some(test) = test_of(left.get()) else {
        return make::and(alloc, site, left, right);
    };
    if !test.is_true {
        Ok(left)
    } else if may_stand(plan, in_target, place, test.price, right.get()) {
        charge(alloc, site, test.price, right)
    } else {
        make::and(alloc, site, left, right)
    }
}

/// `||` of operands that are folded.
#[tactic(auto, using(cc_ast::specs::Terms::steps, crate::proofs::Choices::or_choices))]
pub fn fold_or(
    alloc: Global,
    plan: &Plan,
    in_target: bool,
    place: Place,
    site: u32,
    left: Boxed<Expr>,
    right: Boxed<Expr>,
) -> Result<Boxed<Expr>, AllocError>
    ensures { IfOk result (λ r. term r ≡ guard (built_in plan.now) in_target (place_of place) (or site (term left) (term right)) (fold_or site (literal (term left)) (term left) (term right))) }
{
    let Some(test) = test_of(left.get()) else {
        return make::or(alloc, site, left, right);
    };
    if test.is_true {
        Ok(left)
    } else if may_stand(plan, in_target, place, test.price, right.get()) {
        charge(alloc, site, test.price, right)
    } else {
        make::or(alloc, site, left, right)
    }
}

/// `?:` of operands that are folded.
#[tactic(auto, using(cc_ast::specs::Terms::steps, crate::proofs::Choices::cond_choices))]
pub fn fold_cond(
    alloc: Global,
    plan: &Plan,
    in_target: bool,
    place: Place,
    site: u32,
    test: Boxed<Expr>,
    yes: Boxed<Expr>,
    no: Boxed<Expr>,
) -> Result<Boxed<Expr>, AllocError>
    ensures { IfOk result (λ r. term r ≡ guard (built_in plan.now) in_target (place_of place) (cond site (term test) (term yes) (term no)) (fold_cond site (literal (term test)) (term test) (term yes) (term no))) }
{
    let Some(known) = test_of(test.get()) else {
        return make::cond(alloc, site, test, yes, no);
    };
    if known.is_true {
        if may_stand(plan, in_target, place, known.price, yes.get()) {
            charge(alloc, site, known.price, yes)
        } else {
            make::cond(alloc, site, test, yes, no)
        }
    } else if may_stand(plan, in_target, place, known.price, no.get()) {
        charge(alloc, site, known.price, no)
    } else {
        make::cond(alloc, site, test, yes, no)
    }
}
