// Values and lists of them.
ghost use Rattle.std.specs.Prelude.{◌≡◌, IfOk, Some, None, if◌then◌else◌};
ghost use Rattle.cc_ast.specs.Bridge.{term, terms};
ghost use Rattle.cc_driver.specs.Spelling.{join, spell_operand, spell_value, spell_values};
ghost use Rattle.cc_driver.specs.Shapes.{is_add, spell_added, spell_more};
ghost use Rattle.cc_ast.specs.Syntax as S;

use crate::spelling::Piece;
use crate::spelling::parts::{decimal_of, push_bytes, quote};
use crate::spelling::shape::{Shape, shape_of};
use cc_ast::operator::BinOp;
use cc_ast::tree::Expr;
use cc_ast::units::Units;
use sqlite_items::Items;
use std::alloc::{AllocError, Global};

/// Puts the value's pieces at the end, or answers false where it is outside the form.
#[tactic(auto, using(cc_ast::specs::Terms::steps, crate::proofs::SpellingLaws::spelling))]
pub fn push_value(
    alloc: Global,
    pieces: &mut Items<Piece>,
    value: &Expr,
) -> Result<bool, AllocError>
    ensures { IfOk result (λ fits. (if fits then Some pieces.new else None)
        ≡ join (Some pieces.old) (spell_value (term value.now))) }
{
    match value {
        Expr::Binary(_, op, left, right) => {
            if !is_sum(*op) || !push_value(alloc, pieces, left.get())? {
                return Ok(false);
            }
            push_added(alloc, pieces, right.get())
        }
        Expr::Var(_, _) => push_operand(alloc, pieces, value),
        Expr::Text(_, _) => push_operand(alloc, pieces, value),
        Expr::Whole(_, _) => push_operand(alloc, pieces, value),
        Expr::Undefined(_) => Ok(false),
        Expr::Null(_) => Ok(false),
        Expr::Truth(_, _) => Ok(false),
        Expr::This(_) => Ok(false),
        Expr::Fun(_, _) => Ok(false),
        Expr::List(_, _) => Ok(false),
        Expr::Object(_, _) => Ok(false),
        Expr::Unary(_, _, _) => Ok(false),
        Expr::And(_, _, _) => Ok(false),
        Expr::Or(_, _, _) => Ok(false),
        Expr::Cond(_, _, _, _) => Ok(false),
        Expr::Assign(_, _, _, _) => Ok(false),
        Expr::Step(_, _, _, _) => Ok(false),
        Expr::Member(_, _, _) => Ok(false),
        Expr::Index(_, _, _) => Ok(false),
        Expr::Call(_, _, _) => Ok(false),
        Expr::New(_, _, _) => Ok(false),
        Expr::Comma(_, _, _) => Ok(false),
        Expr::Cast(_, _, _) => Ok(false),
        Expr::Tick(_, _, _) => Ok(false),
    }
}

fn is_sum(op: BinOp) -> bool
    ensures { result ≡ is_add op }
{
    matches!(op, BinOp::Add)
}

/// The pieces of a `+` and of the operand behind it.
#[tactic(auto, using(crate::proofs::SpellingLaws::spelling))]
fn push_added(alloc: Global, pieces: &mut Items<Piece>, operand: &Expr) -> Result<bool, AllocError>
    ensures { IfOk result (λ fits. (if fits then Some pieces.new else None)
        ≡ join (Some pieces.old) (spell_added (term operand.now))) }
{
    push_bytes(alloc, pieces, b"+")?;
    push_operand(alloc, pieces, operand)
}

fn push_operand(
    alloc: Global,
    pieces: &mut Items<Piece>,
    operand: &Expr,
) -> Result<bool, AllocError>
    ensures { IfOk result (λ fits. (if fits then Some pieces.new else None)
        ≡ join (Some pieces.old) (spell_operand (term operand.now))) }
{
    match shape_of(operand) {
        Shape::Global(g) => {
            pieces.push(Piece::Global(g))?;
            Ok(true)
        }
        Shape::Text(text) => push_text(alloc, pieces, text),
        Shape::Whole(number) => push_number(alloc, pieces, number),
        Shape::Call(_, _) => Ok(false),
        Shape::Other => Ok(false),
    }
}

fn push_number(alloc: Global, pieces: &mut Items<Piece>, number: i64) -> Result<bool, AllocError>
    ensures { IfOk result (λ fits. (if fits then Some pieces.new else None)
        ≡ join (Some pieces.old) (spell_operand (S.lit 0 (S.whole number)))) }
{
    match decimal_of(alloc, number)? {
        None => Ok(false),
        Some(bytes) => {
            pieces.push(Piece::Bytes(bytes))?;
            Ok(true)
        }
    }
}

fn push_text(alloc: Global, pieces: &mut Items<Piece>, text: &Units) -> Result<bool, AllocError>
    ensures { IfOk result (λ fits. (if fits then Some pieces.new else None)
        ≡ join (Some pieces.old) (spell_operand (S.lit 0 (S.text text.now)))) }
{
    match quote(alloc, text)? {
        None => Ok(false),
        Some(bytes) => {
            pieces.push(Piece::Bytes(bytes))?;
            Ok(true)
        }
    }
}

/// Puts the pieces of values at the end, with commas between them, or answers false where one of
/// them is outside the form.
#[tactic(auto, using(crate::proofs::SpellingLaws::spelling))]
pub fn push_values(
    alloc: Global,
    pieces: &mut Items<Piece>,
    values: &[Expr],
) -> Result<bool, AllocError>
    ensures { IfOk result (λ fits. (if fits then Some pieces.new else None)
        ≡ join (Some pieces.old) (spell_values (terms values.now))) }
{
    match values {
        [] => Ok(true),
        [first, rest @ ..] => {
            if !push_value(alloc, pieces, first)? {
                return Ok(false);
            }
            push_more(alloc, pieces, rest)
        }
    }
}

/// The same for values that each follow a comma.
#[tactic(auto, using(crate::proofs::SpellingLaws::spelling))]
fn push_more(alloc: Global, pieces: &mut Items<Piece>, values: &[Expr]) -> Result<bool, AllocError>
    ensures { IfOk result (λ fits. (if fits then Some pieces.new else None)
        ≡ join (Some pieces.old) (spell_more (terms values.now))) }
{
    for value in values {
        push_bytes(alloc, pieces, b",")?;
        if !push_value(alloc, pieces, value)? {
            return Ok(false);
        }
    }
    Ok(true)
}
