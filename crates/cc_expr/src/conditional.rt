// The conditional operator (ECMA-262 5.1, 11.12).

ghost use Rattle.std.specs.Prelude.{◌≡◌, ◌<◌, ◌≤◌, IfOk};
ghost use Rattle.cc_raw.specs.Bridge.{raw_expr};
ghost use Rattle.cc_cursor.specs.Shown as shown;
ghost use Rattle.cc_cursor.specs.Reads.{Reads};
ghost use Rattle.cc_expr.specs.Parts as parts;
ghost use Rattle.cc_expr.specs.Expressions as spec;
ghost use Rattle.cc_trees.specs.Nests.{NestsExpr};

use crate::grammar::Grammar;
use cc_cursor::cursor::Cursor;
use cc_cursor::error::{Cause, ReadError};
use cc_cursor::limits::Limits;
use cc_lexer::token::Mark;
use cc_raw::tree::RawExpr;
use cc_trees::answers::sized;
use cc_trees::trees;
use sqlite_items::Boxed;
use std::alloc::Global;

/// What a conditional chooses from.
#[derive(Drop)]
pub(crate) struct Branches {
    pub(crate) then: Boxed<RawExpr>,
    pub(crate) otherwise: Boxed<RawExpr>,
}

impl<
    F: Fn(Global, &mut Cursor<'_>, Limits, bool, u8) -> Result<(Boxed<RawExpr>, usize), ReadError>,
> Grammar<F> {
    #[tactic(auto, using(crate::proofs::Opened::branches_opened, std::proofs::lemmas::Grind::common_steps))]
    fn branches(
        &self,
        cursor: &mut Cursor<'_>,
        with_in: bool,
    ) -> Result<(Branches, usize), ReadError>
        requires { NestsExpr self.now.limits (F.pre self.now.expr) (F.post self.now.expr) }
        ensures reads { Reads parts.sized_branches (spec.branches self.now.limits with_in cursor.old) result cursor.new }
        ensures low { IfOk result (λ x. x.1 < self.now.limits.depth) }
    {
        let (then, h) = self.closed_expr(cursor, 1, Mark::Colon)?;
        let (otherwise, i) = self.inner_expr(cursor, with_in, 1)?;
        Ok((Branches { then, otherwise }, h.max(i)))
    }

    // At the question mark.
    fn chosen(
        &self,
        cursor: &mut Cursor<'_>,
        with_in: bool,
        e: Boxed<RawExpr>,
        height: usize,
    ) -> Result<(Boxed<RawExpr>, usize), ReadError>
        requires expr { NestsExpr self.now.limits (F.pre self.now.expr) (F.post self.now.expr) }
        requires height { height < self.now.limits.depth }
        ensures reads { Reads shown.expr (spec.chosen self.now.limits with_in (raw_expr e, height) cursor.old) result cursor.new }
        ensures low { IfOk result (λ x. x.1 ≤ self.now.limits.depth) }
    {
        let place = cursor.take();
        let (branches, h) = self.branches(cursor, with_in)?;
        let Branches { then, otherwise } = branches;
        let _depth = self.limits.depth;
        let made = trees::conditional(self.alloc, place, e, then, otherwise);
        sized(made, height.max(h) + 1)
    }

    /// What is chosen by an expression, where a question mark stands behind it.
    #[tactic(auto, using(crate::proofs::ConditionalLemmas::conditional_steps, std::proofs::lemmas::Grind::common_steps))]
    pub(crate) fn conditional(
        &self,
        cursor: &mut Cursor<'_>,
        with_in: bool,
        e: Boxed<RawExpr>,
        height: usize,
    ) -> Result<(Boxed<RawExpr>, usize), ReadError>
        requires expr { NestsExpr self.now.limits (F.pre self.now.expr) (F.post self.now.expr) }
        requires height { height ≤ self.now.limits.depth }
        ensures reads { Reads shown.expr (spec.conditional self.now.limits with_in (raw_expr e, height) cursor.old) result cursor.new }
        ensures low { IfOk result (λ x. x.1 ≤ self.now.limits.depth) }
    {
        if !cursor.sees(Mark::Question) {
            return Ok((e, height));
        }
        if height >= usize::from(self.limits.depth) {
            return Err(ReadError::Fault(cursor.stop(Cause::Depth)));
        }
        self.chosen(cursor, with_in, e, height)
    }
}
