// Binary operators, and what binds less (ECMA-262 5.1, 11.5 to 11.14).

ghost use Rattle.std.specs.Prelude.{◌≡◌, ◌<◌, ◌≤◌, suc, IfOk};
ghost use Rattle.cc_raw.specs.Bridge.{raw_expr};
ghost use Rattle.cc_cursor.specs.Meant as meant;
ghost use Rattle.cc_cursor.specs.Shown as shown;
ghost use Rattle.cc_expr.specs.Expressions as spec;
ghost use Rattle.cc_cursor.specs.Reads.{Reads};
ghost use Rattle.cc_trees.specs.Nests.{NestsExpr};

use crate::grammar::Grammar;
use cc_cursor::cursor::Cursor;
use cc_cursor::error::{Cause, ReadError};
use cc_cursor::limits::Limits;
use cc_cursor::signs::{Infix, Prefix, assign_of, infix_of, level};
use cc_lexer::token::Mark;
use cc_raw::tree::RawExpr;
use cc_trees::answers::sized;
use cc_trees::targets::{assigned, is_target};
use cc_trees::trees;
use sqlite_items::Boxed;
use std::alloc::Global;

impl<
    F: Fn(Global, &mut Cursor<'_>, Limits, bool, u8) -> Result<(Boxed<RawExpr>, usize), ReadError>,
> Grammar<F> {
    /// What a binary operator makes of what stands before it, at the operator.
    fn binary(
        &self,
        cursor: &mut Cursor<'_>,
        with_in: bool,
        sign: Infix,
        e: Boxed<RawExpr>,
        height: usize,
    ) -> Result<(Boxed<RawExpr>, usize), ReadError>
        requires expr { NestsExpr self.now.limits (F.pre self.now.expr) (F.post self.now.expr) }
        requires height { height ≤ self.now.limits.depth }
        ensures reads { Reads shown.expr (spec.binary self.now.limits with_in (meant.binary sign) (raw_expr e, height) cursor.old) result cursor.new }
        ensures low { IfOk result (λ x. x.1 ≤ self.now.limits.depth) }
        ensures grows { IfOk result (λ x. height < x.1) }
    {
        if height >= usize::from(self.limits.depth) {
            return Err(ReadError::Fault(cursor.stop(Cause::Depth)));
        }
        let place = cursor.take();
        let (right, h) = self.inner_expr(cursor, with_in, level(sign) + 1)?;
        let made = trees::binary(self.alloc, sign, place, e, right);
        sized(made, height.max(h) + 1)
    }

    fn climb(
        &self,
        cursor: &mut Cursor<'_>,
        with_in: bool,
        least: u8,
        mut e: Boxed<RawExpr>,
        mut height: usize,
    ) -> Result<(Boxed<RawExpr>, usize), ReadError>
        requires expr { NestsExpr self.now.limits (F.pre self.now.expr) (F.post self.now.expr) }
        requires height { height ≤ self.now.limits.depth }
        ensures reads { Reads shown.expr (spec.climb self.now.limits with_in least (suc self.now.limits.depth) (raw_expr e, height) cursor.old) result cursor.new }
        ensures low { IfOk result (λ x. x.1 ≤ self.now.limits.depth) }
    {
        for _turn in 0..usize::from(self.limits.depth) + 1 {
            let Some(sign) = infix_of(with_in, cursor.kind()) else {
                return Ok((e, height));
            };
            if level(sign) < least {
                return Ok((e, height));
            }
            (e, height) = self.binary(cursor, with_in, sign, e, height)?;
        }
        unreachable!()
    }

    #[tactic(auto, unfolding(cc_grammar::specs::ReadingExpressions::assign))]
    fn assign(
        &self,
        cursor: &mut Cursor<'_>,
        with_in: bool,
        e: Boxed<RawExpr>,
        height: usize,
    ) -> Result<(Boxed<RawExpr>, usize), ReadError>
        requires expr { NestsExpr self.now.limits (F.pre self.now.expr) (F.post self.now.expr) }
        requires height { height ≤ self.now.limits.depth }
        ensures reads { Reads shown.expr (spec.assign self.now.limits with_in (raw_expr e, height) cursor.old) result cursor.new }
        ensures low { IfOk result (λ x. x.1 ≤ self.now.limits.depth) }
    {
        let Some(operator) = assign_of(cursor.kind()) else {
            return Ok((e, height));
        };
        if !is_target(e.get()) {
            return Ok((e, height));
        }
        if height >= usize::from(self.limits.depth) {
            return Err(ReadError::Fault(cursor.stop(Cause::Depth)));
        }
        let place = cursor.take();
        let (value, h) = self.inner_expr(cursor, with_in, 1)?;
        let made = assigned(self.alloc, place, operator, e, value);
        sized(made, height.max(h) + 1)
    }

    /// What a comma makes of what stands before it, at the comma.
    fn comma(
        &self,
        cursor: &mut Cursor<'_>,
        with_in: bool,
        e: Boxed<RawExpr>,
        height: usize,
    ) -> Result<(Boxed<RawExpr>, usize), ReadError>
        requires expr { NestsExpr self.now.limits (F.pre self.now.expr) (F.post self.now.expr) }
        requires height { height ≤ self.now.limits.depth }
        ensures reads { Reads shown.expr (spec.comma self.now.limits with_in (raw_expr e, height) cursor.old) result cursor.new }
        ensures low { IfOk result (λ x. x.1 ≤ self.now.limits.depth) }
        ensures grows { IfOk result (λ x. height < x.1) }
    {
        if height >= usize::from(self.limits.depth) {
            return Err(ReadError::Fault(cursor.stop(Cause::Depth)));
        }
        let place = cursor.take();
        let (right, h) = self.inner_expr(cursor, with_in, 1)?;
        sized(trees::comma(self.alloc, place, e, right), height.max(h) + 1)
    }

    fn commas(
        &self,
        cursor: &mut Cursor<'_>,
        with_in: bool,
        mut e: Boxed<RawExpr>,
        mut height: usize,
    ) -> Result<(Boxed<RawExpr>, usize), ReadError>
        requires expr { NestsExpr self.now.limits (F.pre self.now.expr) (F.post self.now.expr) }
        requires height { height ≤ self.now.limits.depth }
        ensures reads { Reads shown.expr (spec.commas self.now.limits with_in (suc self.now.limits.depth) (raw_expr e, height) cursor.old) result cursor.new }
        ensures low { IfOk result (λ x. x.1 ≤ self.now.limits.depth) }
    {
        for _turn in 0..usize::from(self.limits.depth) + 1 {
            if !cursor.sees(Mark::Comma) {
                return Ok((e, height));
            }
            (e, height) = self.comma(cursor, with_in, e, height)?;
        }
        unreachable!()
    }

    /// An expression of a level, by what it begins with, which is of level 13.
    #[tactic(auto, unfolding(cc_grammar::specs::ReadingExpressions::after_unary))]
    pub(crate) fn after_unary(
        &self,
        cursor: &mut Cursor<'_>,
        with_in: bool,
        level: u8,
        e: Boxed<RawExpr>,
        height: usize,
    ) -> Result<(Boxed<RawExpr>, usize), ReadError>
        requires expr { NestsExpr self.now.limits (F.pre self.now.expr) (F.post self.now.expr) }
        requires height { height ≤ self.now.limits.depth }
        ensures reads { Reads shown.expr (spec.after_unary self.now.limits with_in level (raw_expr e, height) cursor.old) result cursor.new }
        ensures low { IfOk result (λ x. x.1 ≤ self.now.limits.depth) }
    {
        let (e, height) = self.climb(cursor, with_in, level, e, height)?;
        if level >= 3 {
            return Ok((e, height));
        }
        let (e, height) = self.conditional(cursor, with_in, e, height)?;
        if level >= 2 {
            return Ok((e, height));
        }
        let (e, height) = self.assign(cursor, with_in, e, height)?;
        if level > 0 {
            return Ok((e, height));
        }
        self.commas(cursor, with_in, e, height)
    }

    /// An expression of a level, by the primary expression that it begins with.
    #[tactic(auto, unfolding(cc_grammar::specs::ReadingExpressions::after_head))]
    pub fn after_head(
        &self,
        cursor: &mut Cursor<'_>,
        with_in: bool,
        level: u8,
        e: Boxed<RawExpr>,
        height: usize,
    ) -> Result<(Boxed<RawExpr>, usize), ReadError>
        requires expr { NestsExpr self.now.limits (F.pre self.now.expr) (F.post self.now.expr) }
        requires height { height ≤ self.now.limits.depth }
        ensures reads { Reads shown.expr (spec.after_head self.now.limits with_in level (raw_expr e, height) cursor.old) result cursor.new }
        ensures low { IfOk result (λ x. x.1 ≤ self.now.limits.depth) }
    {
        let (e, height) = self.suffixes(cursor, true, e, height)?;
        let (e, height) = self.postfix(cursor, e, height)?;
        self.after_unary(cursor, with_in, level, e, height)
    }

    /// An expression of a level that begins with a unary operator or a step.
    pub(crate) fn signed(
        &self,
        cursor: &mut Cursor<'_>,
        with_in: bool,
        level: u8,
        prefix: Prefix,
    ) -> Result<(Boxed<RawExpr>, usize), ReadError>
        requires { NestsExpr self.now.limits (F.pre self.now.expr) (F.post self.now.expr) }
        ensures reads { Reads shown.expr (spec.signed self.now.limits with_in level (meant.prefix prefix) cursor.old) result cursor.new }
        ensures low { IfOk result (λ x. x.1 ≤ self.now.limits.depth) }
    {
        let (e, height) = self.prefixed(cursor, with_in, prefix)?;
        self.after_unary(cursor, with_in, level, e, height)
    }
}
