// Operators on literals.
ghost use Rattle.std.specs.Option.{option_map};
ghost use Rattle.std.specs.Prelude.{◌≡◌, ◌≢◌, ◌++◌, IfOk, Some, is_some};
ghost use Rattle.cc_ast.specs.Bridge.{term};
ghost use Rattle.cc_meaning.specs.Operators.{Outcome, gives};
ghost use Rattle.cc_value.specs.Bridge.{Answers, value_of};
ghost use Rattle.cc_fold.specs.Fold.{computed, computed_of_one, computed_of_two, fold_unary, fold_binary, literal};
ghost use Rattle.cc_fold.specs.Literals.{literal_of};

use crate::choice::test_of;
use crate::literal::Literal;
use crate::literal::read::{literal_expr, literal_in};
use crate::make;
use crate::price::charge;
use cc_ast::operator::{BinOp, UnOp};
use cc_ast::tree::Expr;
use cc_ast::units::Units;
use cc_value::operate::{binary, unary};
use cc_value::value::{OpFault, Value};
use sqlite_items::Boxed;
use std::alloc::{AllocError, Global};

// The literal of an operator's answer, at a price.
#[tactic(auto, using(crate::proofs::Outcomes::computed_broken))]
fn computed(
    alloc: Global,
    site: u32,
    price: u64,
    answer: Result<Value, OpFault>,
) -> Result<Option<Boxed<Expr>>, AllocError>
    ensures { IfOk result (λ e. (o : Outcome) → Answers answer o → option_map term e ≡ computed site price o) }
{
    match answer {
        Ok(value) => computed_value(alloc, site, price, value),
        Err(OpFault::Rule1) => Ok(None),
        Err(OpFault::Rule2) => Ok(None),
        Err(OpFault::Memory) => Err(AllocError),
    }
}

// The literal of a value, at a price; an object has none.
#[tactic(auto, using(crate::proofs::Outcomes::computed_given, crate::proofs::Outcomes::literal_price, crate::proofs::Outcomes::computed_object))]
fn computed_value(
    alloc: Global,
    site: u32,
    price: u64,
    value: Value,
) -> Result<Option<Boxed<Expr>>, AllocError>
    ensures { IfOk result (λ e. option_map term e ≡ computed site price (gives (value_of value))) }
{
    match literal_expr(alloc, site, value)? {
        Some(e) => Ok(Some(charge(alloc, site, price, e)?)),
        None => Ok(None),
    }
}

// What an operator gives on a literal.
#[tactic(auto, unfolding(crate::specs::Fold::computed_of_one))]
fn computed_of_one(
    alloc: Global,
    site: u32,
    op: UnOp,
    e: &Expr,
) -> Result<Option<Boxed<Expr>>, AllocError>
    requires { op ≢ UnOp.Delete }
    ensures { IfOk result (λ r. option_map term r ≡ computed_of_one site op (literal (term e.now))) }
{
    match literal_in(alloc, e)? {
        Some(a) => computed(alloc, site, a.price, unary(alloc, op, &a.value)),
        None => Ok(None),
    }
}

/// Whether the expression is a literal, seen without a copy.
pub fn is_literal(e: &Expr) -> bool
    ensures { result ≡ is_some (literal (term e.now)) }
{
    test_of(e).is_some()
}

// What an operator gives on two literals. Nothing is copied where one of the two is none.
#[tactic(auto, unfolding(crate::specs::Fold::computed_of_two))]
fn computed_of_two(
    alloc: Global,
    site: u32,
    op: BinOp,
    left: &Expr,
    right: &Expr,
) -> Result<Option<Boxed<Expr>>, AllocError>
    requires no_instance { op ≢ BinOp.Instance }
    requires no_has { op ≢ BinOp.Has }
    ensures { IfOk result (λ r. option_map term r ≡ computed_of_two site op (literal (term left.now)) (literal (term right.now))) }
{
    if !is_literal(left) || !is_literal(right) {
        return Ok(None);
    }
    match literal_in(alloc, left)? {
        Some(a) => computed_beside(alloc, site, op, &a, right),
        None => Ok(None),
    }
}

// The same where the left one is read.
#[tactic(auto, using(crate::proofs::Outcomes::computed_past), unfolding(crate::specs::Fold::computed_of_two))]
fn computed_beside(
    alloc: Global,
    site: u32,
    op: BinOp,
    a: &Literal,
    right: &Expr,
) -> Result<Option<Boxed<Expr>>, AllocError>
    requires no_instance { op ≢ BinOp.Instance }
    requires no_has { op ≢ BinOp.Has }
    ensures { IfOk result (λ r. option_map term r ≡ computed_of_two site op (Some (literal_of a.now)) (literal (term right.now))) }
{
    let Some(b) = literal_in(alloc, right)? else {
        return Ok(None);
    };
    match a.price.checked_add(b.price) {
        Some(price) => computed(alloc, site, price, binary(alloc, op, &a.value, &b.value)),
        None => Ok(None),
    }
}

/// A unary operator on an operand that is folded.
#[tactic(auto, using(cc_ast::specs::Terms::steps, crate::proofs::Outcomes::unary_void, crate::proofs::Outcomes::unary_delete, crate::proofs::Outcomes::unary_other))]
pub fn fold_unary(
    alloc: Global,
    site: u32,
    op: UnOp,
    e: Boxed<Expr>,
) -> Result<Boxed<Expr>, AllocError>
    ensures { IfOk result (λ r. term r ≡ fold_unary site op (term e)) }
{
    match op {
        UnOp::Void => make::unary(alloc, site, op, e),
        UnOp::Delete => make::unary(alloc, site, op, e),
        _ => match computed_of_one(alloc, site, op, e.get())? {
            Some(literal) => Ok(literal),
            None => make::unary(alloc, site, op, e),
        },
    }
}

/// A binary operator on operands that are folded.
#[tactic(auto, using(cc_ast::specs::Terms::steps, crate::proofs::Outcomes::binary_instance, crate::proofs::Outcomes::binary_has))]
pub fn fold_binary(
    alloc: Global,
    site: u32,
    op: BinOp,
    left: Boxed<Expr>,
    right: Boxed<Expr>,
) -> Result<Boxed<Expr>, AllocError>
    ensures { IfOk result (λ r. term r ≡ fold_binary site op (term left) (term right)) }
{
    match op {
        BinOp::Instance => make::binary(alloc, site, op, left, right),
        BinOp::Has => make::binary(alloc, site, op, left, right),
        BinOp::Add => fold_sum(alloc, site, left, right),
        _ => fold_others(alloc, site, op, left, right),
    }
}

// The operators of the table.
#[tactic(auto, using(cc_ast::specs::Terms::steps, crate::proofs::Outcomes::binary_other))]
fn fold_others(
    alloc: Global,
    site: u32,
    op: BinOp,
    left: Boxed<Expr>,
    right: Boxed<Expr>,
) -> Result<Boxed<Expr>, AllocError>
    requires no_instance { op ≢ BinOp.Instance }
    requires no_has { op ≢ BinOp.Has }
    ensures { IfOk result (λ r. term r ≡ fold_binary site op (term left) (term right)) }
{
    match computed_of_two(alloc, site, op, left.get(), right.get())? {
        Some(literal) => Ok(literal),
        None => make::binary(alloc, site, op, left, right),
    }
}

fn is_text(e: &Expr) -> bool {
    matches!(e, Expr::Text(..))
}

// `+`. Of two texts nothing is copied but the right one, so that a chain of texts is folded in the time
// of its length.
fn fold_sum(
    alloc: Global,
    site: u32,
    left: Boxed<Expr>,
    right: Boxed<Expr>,
) -> Result<Boxed<Expr>, AllocError>
    ensures { IfOk result (λ r. term r ≡ fold_binary site BinOp.Add (term left) (term right)) }
{
    if is_text(left.get()) && is_text(right.get()) {
        fold_texts(alloc, site, left, right)
    } else {
        fold_others(alloc, site, BinOp::Add, left, right)
    }
}

#[tactic(auto, using(cc_ast::specs::Terms::steps, crate::proofs::Outcomes::texts_joined))]
fn fold_texts(
    alloc: Global,
    site: u32,
    left: Boxed<Expr>,
    right: Boxed<Expr>,
) -> Result<Boxed<Expr>, AllocError>
    ensures { IfOk result (λ r. term r ≡ fold_binary site BinOp.Add (term left) (term right)) }
{
    let Expr::Text(_, more) = right.get() else {
        return fold_others(alloc, site, BinOp::Add, left, right);
    };
    match left.into_inner() {
        Expr::Text(_, text) => longer_text(alloc, site, text, more),
        left => fold_others(alloc, site, BinOp::Add, Boxed::new(alloc, left)?, right),
    }
}

// A text with more behind it.
fn longer_text(
    alloc: Global,
    site: u32,
    text: Units,
    more: &Units,
) -> Result<Boxed<Expr>, AllocError>
    ensures { IfOk result (λ r. r ≡ Expr.Text site (text ++ more.now)) }
{
    let Units { mut list } = text;
    list.extend_from_slice(more.list.as_slice())?;
    make::text(alloc, site, Units { list })
}
