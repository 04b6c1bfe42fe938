// Postfix and unary operators (ECMA-262 5.1, 11.3 and 11.4).

ghost use Rattle.std.specs.Prelude.{◌≡◌, ◌<◌, ◌≤◌, false, IfOk, Err};
ghost use Rattle.std.specs.Option.{option_map};
ghost use Rattle.cc_ast.specs.Syntax.{whole};
ghost use Rattle.cc_grammar.specs.Reading as reading;
ghost use Rattle.cc_grammar.specs.Reading.{look_token};
ghost use Rattle.cc_grammar.specs.Signs as signs;
ghost use Rattle.cc_grammar.specs.RawTree as raw;
ghost use Rattle.cc_raw.specs.Bridge.{raw_expr};
ghost use Rattle.cc_cursor.specs.Shown as shown;
ghost use Rattle.cc_cursor.specs.Meant as meant;
ghost use Rattle.cc_expr.specs.Expressions as spec;
ghost use Rattle.cc_cursor.specs.Reads.{Reads};
ghost use Rattle.cc_trees.specs.Nests.{NestsExpr};

use crate::grammar::Grammar;
use cc_ast::operator::UnOp;
use cc_ast::place::Place;
use cc_ast::reading::Construct;
use cc_cursor::ahead::keep_variables;
use cc_cursor::cursor::Cursor;
use cc_cursor::error::{Cause, Fault, ReadError};
use cc_cursor::limits::Limits;
use cc_cursor::refused::Due;
use cc_cursor::signs::{Prefix, step_of};
use cc_raw::tree::RawExpr;
use cc_trees::answers::sized;
use cc_trees::targets::{is_target, is_variable, stepped};
use cc_trees::trees;
use sqlite_items::Boxed;
use std::alloc::{AllocError, Global};

fn is_delete(prefix: Prefix) -> bool
    ensures { result ≡ reading.is_delete (meant.prefix prefix) }
{
    match prefix {
        Prefix::Unary(operator) => matches!(operator, UnOp::Delete),
        Prefix::Step(_) => false,
    }
}

// Minus before a whole literal that isn't 0 makes it negative.
#[tactic(auto, using(cc_raw::specs::Terms::raw_steps, crate::proofs::PrefixLemmas::whole_steps))]
fn minus_whole(
    alloc: Global,
    place: Place,
    at: Place,
    number: i64,
) -> Result<Boxed<RawExpr>, AllocError>
    ensures { IfOk result (λ r. raw_expr r ≡ signs.unary_tree UnOp.Minus place (raw.lit at (whole number))) }
{
    if number > 0 {
        return Boxed::new(alloc, RawExpr::Whole(place, -number));
    }
    let whole = Boxed::new(alloc, RawExpr::Whole(at, number))?;
    trees::unary(alloc, place, UnOp::Minus, whole)
}

#[tactic(auto, using(cc_raw::specs::Terms::raw_steps, cc_trees::proofs::TargetLemmas::minus_other))]
fn minus_tree(alloc: Global, place: Place, e: Boxed<RawExpr>) -> Result<Boxed<RawExpr>, AllocError>
    ensures { IfOk result (λ r. raw_expr r ≡ signs.unary_tree UnOp.Minus place (raw_expr e)) }
{
    match e.get() {
        RawExpr::Whole(at, number) => minus_whole(alloc, place, *at, *number),
        _ => trees::unary(alloc, place, UnOp::Minus, e),
    }
}

// `void 0` is undefined.
#[tactic(auto, using(cc_raw::specs::Terms::raw_steps, crate::proofs::PrefixLemmas::whole_steps))]
fn void_whole(
    alloc: Global,
    place: Place,
    at: Place,
    number: i64,
) -> Result<Boxed<RawExpr>, AllocError>
    ensures { IfOk result (λ r. raw_expr r ≡ signs.unary_tree UnOp.Void place (raw.lit at (whole number))) }
{
    if number == 0 {
        return Boxed::new(alloc, RawExpr::Undefined(place));
    }
    let whole = Boxed::new(alloc, RawExpr::Whole(at, number))?;
    trees::unary(alloc, place, UnOp::Void, whole)
}

#[tactic(auto, using(cc_raw::specs::Terms::raw_steps, cc_trees::proofs::TargetLemmas::void_other))]
fn void_tree(alloc: Global, place: Place, e: Boxed<RawExpr>) -> Result<Boxed<RawExpr>, AllocError>
    ensures { IfOk result (λ r. raw_expr r ≡ signs.unary_tree UnOp.Void place (raw_expr e)) }
{
    match e.get() {
        RawExpr::Whole(at, number) => void_whole(alloc, place, *at, *number),
        _ => trees::unary(alloc, place, UnOp::Void, e),
    }
}

#[tactic(auto, using(crate::proofs::PrefixLemmas::other_unary))]
fn unary_tree(
    alloc: Global,
    operator: UnOp,
    place: Place,
    e: Boxed<RawExpr>,
) -> Result<Boxed<RawExpr>, AllocError>
    ensures { IfOk result (λ r. raw_expr r ≡ signs.unary_tree operator place (raw_expr e)) }
{
    match operator {
        UnOp::Minus => minus_tree(alloc, place, e),
        UnOp::Void => void_tree(alloc, place, e),
        _ => trees::unary(alloc, place, operator, e),
    }
}

// None, where a step has no target, or a variable would be deleted.
fn prefix_tree(
    alloc: Global,
    prefix: Prefix,
    place: Place,
    e: Boxed<RawExpr>,
) -> Result<Option<Boxed<RawExpr>>, AllocError>
    ensures { IfOk result (λ r. option_map raw_expr r ≡ signs.prefix_tree (meant.prefix prefix) place (raw_expr e)) }
{
    match prefix {
        Prefix::Step(up) => {
            if !is_target(e.get()) {
                return Ok(None);
            }
            Ok(Some(stepped(alloc, place, up, true, e)?))
        }
        Prefix::Unary(UnOp::Delete) => {
            if is_variable(e.get()) {
                return Ok(None);
            }
            Ok(Some(trees::unary(alloc, place, UnOp::Delete, e)?))
        }
        Prefix::Unary(operator) => Ok(Some(unary_tree(alloc, operator, place, e)?)),
    }
}

// Why an operator can't have its operand, which stands before the cursor. The token at the cursor
// is one of a text, so it is no remedy.
fn wrong_prefix(cursor: &Cursor<'_>, limits: Limits, prefix: Prefix, place: Place) -> Fault
    ensures fault { spec.wrong_prefix limits (meant.prefix prefix) place cursor.now ≡ Err (shown.fault result, cursor.now) }
    ensures real { reading.is_remedy (look_token cursor.now).kind ≡ false }
{
    let _next = cursor.kind();
    match prefix {
        Prefix::Step(_) => cursor.fault(Due::Token),
        Prefix::Unary(_) => Fault {
            cause: Cause::Refused(Construct::DeleteName),
            place,
        },
    }
}

impl<F> Grammar<F> {
    /// An expression with a step behind it, where one stands on the same line.
    #[tactic(auto, unfolding(cc_grammar::specs::ReadingExpressions::postfix))]
    pub(crate) fn postfix(
        &self,
        cursor: &mut Cursor<'_>,
        e: Boxed<RawExpr>,
        height: usize,
    ) -> Result<(Boxed<RawExpr>, usize), ReadError>
        requires { height ≤ self.now.limits.depth }
        ensures reads { Reads shown.expr (spec.postfix self.now.limits (raw_expr e, height) cursor.old) result cursor.new }
        ensures low { IfOk result (λ x. x.1 ≤ self.now.limits.depth) }
    {
        let Some(up) = step_of(cursor.kind()) else {
            return Ok((e, height));
        };
        if cursor.is_after_line() || !is_target(e.get()) {
            return Ok((e, height));
        }
        if height >= usize::from(self.limits.depth) {
            return Err(ReadError::Fault(cursor.stop(Cause::Depth)));
        }
        let place = cursor.take();
        sized(stepped(self.alloc, place, up, false, e), height + 1)
    }
}

impl<
    F: Fn(Global, &mut Cursor<'_>, Limits, bool, u8) -> Result<(Boxed<RawExpr>, usize), ReadError>,
> Grammar<F> {
    #[tactic(auto, unfolding(cc_grammar::specs::ReadingExpressions::prefix_expr))]
    fn prefix_expr(
        &self,
        cursor: &mut Cursor<'_>,
        with_in: bool,
        prefix: Prefix,
    ) -> Result<(Boxed<RawExpr>, usize), ReadError>
        requires { NestsExpr self.now.limits (F.pre self.now.expr) (F.post self.now.expr) }
        ensures reads { Reads shown.expr (spec.prefix_expr self.now.limits with_in (meant.prefix prefix) cursor.old) result cursor.new }
        ensures low { IfOk result (λ x. x.1 ≤ self.now.limits.depth) }
    {
        let place = cursor.take();
        let (e, height) = self.inner_expr(cursor, with_in, 13)?;
        let _depth = self.limits.depth;
        match prefix_tree(self.alloc, prefix, place, e)? {
            Some(tree) => Ok((tree, height + 1)),
            None => Err(ReadError::Fault(wrong_prefix(cursor, self.limits, prefix, place))),
        }
    }

    fn deep_prefix(
        &self,
        cursor: &mut Cursor<'_>,
        with_in: bool,
        prefix: Prefix,
    ) -> Result<(Boxed<RawExpr>, usize), ReadError>
        requires { NestsExpr self.now.limits (F.pre self.now.expr) (F.post self.now.expr) }
        ensures reads { Reads shown.expr (spec.deep_prefix self.now.limits with_in (meant.prefix prefix) cursor.old) result cursor.new }
        ensures low { IfOk result (λ x. x.1 ≤ self.now.limits.depth) }
    {
        if self.limits.depth == 0 {
            return Err(ReadError::Fault(cursor.stop(Cause::Depth)));
        }
        self.prefix_expr(cursor, with_in, prefix)
    }

    /// An expression that begins with a unary operator or a step.
    #[tactic(auto, using(crate::proofs::PrefixLemmas::prefixed_plain, crate::proofs::PrefixLemmas::prefixed_kept, crate::proofs::PrefixLemmas::prefixed_refused))]
    pub(crate) fn prefixed(
        &self,
        cursor: &mut Cursor<'_>,
        with_in: bool,
        prefix: Prefix,
    ) -> Result<(Boxed<RawExpr>, usize), ReadError>
        requires { NestsExpr self.now.limits (F.pre self.now.expr) (F.post self.now.expr) }
        ensures reads { Reads shown.expr (spec.prefixed self.now.limits with_in (meant.prefix prefix) cursor.old) result cursor.new }
        ensures low { IfOk result (λ x. x.1 ≤ self.now.limits.depth) }
    {
        if is_delete(prefix) {
            keep_variables(cursor, self.limits.turns)?;
            return self.deep_prefix(cursor, with_in, prefix);
        }
        self.deep_prefix(cursor, with_in, prefix)
    }
}
