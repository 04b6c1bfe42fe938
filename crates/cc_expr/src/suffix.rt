// What goes on with a left-hand-side expression (ECMA-262 5.1, 11.2).

ghost use Rattle.std.specs.Prelude.{◌≡◌, ◌<◌, ◌≤◌, suc, IfOk};
ghost use Rattle.cc_raw.specs.Bridge.{raw_expr};
ghost use Rattle.cc_cursor.specs.Shown as shown;
ghost use Rattle.cc_expr.specs.Expressions as spec;
ghost use Rattle.cc_cursor.specs.Reads.{Reads};
ghost use Rattle.cc_trees.specs.Nests.{NestsExpr};

use crate::grammar::Grammar;
use cc_cursor::cursor::Cursor;
use cc_cursor::error::{Cause, ReadError};
use cc_cursor::keys::{owned_name, property_of};
use cc_cursor::limits::Limits;
use cc_cursor::refused::Due;
use cc_cursor::signs::{Suffix, suffix_of};
use cc_lexer::token::Mark;
use cc_raw::tree::RawExpr;
use cc_trees::answers::sized;
use cc_trees::trees;
use sqlite_items::Boxed;
use std::alloc::Global;

impl<F> Grammar<F> {
    #[tactic(auto, unfolding(cc_grammar::specs::ReadingExpressions::dotted))]
    fn dotted(
        &self,
        cursor: &mut Cursor<'_>,
        e: Boxed<RawExpr>,
        height: usize,
    ) -> Result<(Boxed<RawExpr>, usize), ReadError>
        requires { height < self.now.limits.depth }
        ensures reads { Reads shown.expr (spec.dotted self.now.limits (raw_expr e, height) cursor.old) result cursor.new }
        ensures low { IfOk result (λ x. x.1 ≤ self.now.limits.depth) }
        ensures grows { IfOk result (λ x. height < x.1) }
    {
        let place = cursor.take();
        let Some(name) = property_of(cursor.kind()) else {
            return Err(ReadError::Fault(cursor.fault(Due::Token)));
        };
        let name_place = cursor.take();
        let name = owned_name(self.alloc, name)?;
        let _depth = self.limits.depth;
        sized(
            trees::member(self.alloc, place, e, name_place, name),
            height + 1,
        )
    }
}

impl<
    F: Fn(Global, &mut Cursor<'_>, Limits, bool, u8) -> Result<(Boxed<RawExpr>, usize), ReadError>,
> Grammar<F> {
    #[tactic(auto, using(crate::proofs::Opened::bracketed_opened, std::proofs::lemmas::Grind::common_steps))]
    fn bracketed(
        &self,
        cursor: &mut Cursor<'_>,
        e: Boxed<RawExpr>,
        height: usize,
    ) -> Result<(Boxed<RawExpr>, usize), ReadError>
        requires expr { NestsExpr self.now.limits (F.pre self.now.expr) (F.post self.now.expr) }
        requires height { height < self.now.limits.depth }
        ensures reads { Reads shown.expr (spec.bracketed self.now.limits (raw_expr e, height) cursor.old) result cursor.new }
        ensures low { IfOk result (λ x. x.1 ≤ self.now.limits.depth) }
        ensures grows { IfOk result (λ x. height < x.1) }
    {
        let place = cursor.take();
        let (key, h) = self.closed_expr(cursor, 0, Mark::CloseBracket)?;
        let _depth = self.limits.depth;
        sized(trees::index(self.alloc, place, e, key), height.max(h) + 1)
    }

    #[tactic(auto, unfolding(cc_grammar::specs::ReadingExpressions::called))]
    fn called(
        &self,
        cursor: &mut Cursor<'_>,
        e: Boxed<RawExpr>,
        height: usize,
    ) -> Result<(Boxed<RawExpr>, usize), ReadError>
        requires expr { NestsExpr self.now.limits (F.pre self.now.expr) (F.post self.now.expr) }
        requires height { height < self.now.limits.depth }
        ensures reads { Reads shown.expr (spec.called self.now.limits (raw_expr e, height) cursor.old) result cursor.new }
        ensures low { IfOk result (λ x. x.1 ≤ self.now.limits.depth) }
        ensures grows { IfOk result (λ x. height < x.1) }
    {
        let place = cursor.take();
        let (arguments, h) = self.arguments_of(cursor)?;
        let _depth = self.limits.depth;
        sized(
            trees::call(self.alloc, place, e, arguments),
            height.max(h) + 1,
        )
    }

    fn suffixed(
        &self,
        cursor: &mut Cursor<'_>,
        suffix: Suffix,
        e: Boxed<RawExpr>,
        height: usize,
    ) -> Result<(Boxed<RawExpr>, usize), ReadError>
        requires expr { NestsExpr self.now.limits (F.pre self.now.expr) (F.post self.now.expr) }
        requires height { height < self.now.limits.depth }
        ensures reads { Reads shown.expr (spec.suffixed self.now.limits suffix (raw_expr e, height) cursor.old) result cursor.new }
        ensures low { IfOk result (λ x. x.1 ≤ self.now.limits.depth) }
        ensures grows { IfOk result (λ x. height < x.1) }
    {
        match suffix {
            Suffix::Dot => self.dotted(cursor, e, height),
            Suffix::Bracket => self.bracketed(cursor, e, height),
            Suffix::Call => self.called(cursor, e, height),
        }
    }

    fn deep_suffixed(
        &self,
        cursor: &mut Cursor<'_>,
        suffix: Suffix,
        e: Boxed<RawExpr>,
        height: usize,
    ) -> Result<(Boxed<RawExpr>, usize), ReadError>
        requires expr { NestsExpr self.now.limits (F.pre self.now.expr) (F.post self.now.expr) }
        requires height { height ≤ self.now.limits.depth }
        ensures reads { Reads shown.expr (spec.deep_suffixed self.now.limits suffix (raw_expr e, height) cursor.old) result cursor.new }
        ensures low { IfOk result (λ x. x.1 ≤ self.now.limits.depth) }
        ensures grows { IfOk result (λ x. height < x.1) }
    {
        if height >= usize::from(self.limits.depth) {
            return Err(ReadError::Fault(cursor.stop(Cause::Depth)));
        }
        self.suffixed(cursor, suffix, e, height)
    }

    /// An expression with all that goes on with it, calls only where the flag is true.
    pub(crate) fn suffixes(
        &self,
        cursor: &mut Cursor<'_>,
        calls: bool,
        mut e: Boxed<RawExpr>,
        mut height: usize,
    ) -> Result<(Boxed<RawExpr>, usize), ReadError>
        requires expr { NestsExpr self.now.limits (F.pre self.now.expr) (F.post self.now.expr) }
        requires height { height ≤ self.now.limits.depth }
        ensures reads { Reads shown.expr (spec.suffixes self.now.limits calls (suc self.now.limits.depth) (raw_expr e, height) cursor.old) result cursor.new }
        ensures low { IfOk result (λ x. x.1 ≤ self.now.limits.depth) }
    {
        for _turn in 0..usize::from(self.limits.depth) + 1 {
            let Some(suffix) = suffix_of(calls, cursor.kind()) else {
                return Ok((e, height));
            };
            (e, height) = self.deep_suffixed(cursor, suffix, e, height)?;
        }
        unreachable!()
    }
}
