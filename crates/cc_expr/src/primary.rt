// Primary expressions (ECMA-262 5.1, 11.1), and `new`.

ghost use Rattle.std.specs.Prelude.{◌≡◌, ◌<◌, ◌≤◌, ◌-◌, IfOk};
ghost use Rattle.cc_cursor.specs.Shown as shown;
ghost use Rattle.cc_expr.specs.Expressions as spec;
ghost use Rattle.cc_cursor.specs.Reads.{Reads};
ghost use Rattle.cc_trees.specs.Nests.{NestsExpr};

use crate::grammar::Grammar;
use cc_cursor::cursor::Cursor;
use cc_cursor::error::ReadError;
use cc_cursor::limits::Limits;
use cc_lexer::token::Mark;
use cc_raw::tree::RawExpr;
use cc_trees::answers::sized;
use cc_trees::trees;
use sqlite_items::{Boxed, Items};
use std::alloc::Global;

impl<
    F: Fn(Global, &mut Cursor<'_>, Limits, bool, u8) -> Result<(Boxed<RawExpr>, usize), ReadError>,
> Grammar<F> {
    #[tactic(auto, using(crate::proofs::Opened::parentheses_opened, std::proofs::lemmas::Grind::common_steps))]
    pub(crate) fn parentheses(
        &self,
        cursor: &mut Cursor<'_>,
    ) -> Result<(Boxed<RawExpr>, usize), ReadError>
        requires { NestsExpr self.now.limits (F.pre self.now.expr) (F.post self.now.expr) }
        ensures reads { Reads shown.expr (spec.parentheses self.now.limits cursor.old) result cursor.new }
        ensures low { IfOk result (λ x. x.1 ≤ self.now.limits.depth) }
    {
        let noted = cursor.noted();
        let place = cursor.take();
        let (e, height) = self.closed_expr(cursor, 0, Mark::CloseParen)?;
        let _depth = self.limits.depth;
        sized(
            trees::parenthesised(self.alloc, noted, place, e),
            height + 1,
        )
    }

    /// The arguments of a `new`, where it has some.
    fn new_arguments(&self, cursor: &mut Cursor<'_>) -> Result<(Items<RawExpr>, usize), ReadError>
        requires { NestsExpr self.now.limits (F.pre self.now.expr) (F.post self.now.expr) }
        ensures reads { Reads shown.exprs (spec.new_arguments self.now.limits cursor.old) result cursor.new }
        ensures low { IfOk result (λ x. x.1 ≤ self.now.limits.depth - 1) }
    {
        if !cursor.sees(Mark::OpenParen) {
            return Ok((Items::new(self.alloc), 0));
        }
        cursor.take();
        self.arguments_of(cursor)
    }

    #[tactic(auto, using(crate::proofs::Opened::new_opened, std::proofs::lemmas::Grind::common_steps))]
    pub(crate) fn new_expr(
        &self,
        cursor: &mut Cursor<'_>,
        with_in: bool,
    ) -> Result<(Boxed<RawExpr>, usize), ReadError>
        requires { NestsExpr self.now.limits (F.pre self.now.expr) (F.post self.now.expr) }
        ensures reads { Reads shown.expr (spec.new_expr self.now.limits with_in cursor.old) result cursor.new }
        ensures low { IfOk result (λ x. x.1 ≤ self.now.limits.depth) }
    {
        let place = cursor.take();
        let (callee, height) = self.inner_expr(cursor, with_in, 17)?;
        let (arguments, h) = self.new_arguments(cursor)?;
        let _depth = self.limits.depth;
        sized(
            trees::new(self.alloc, place, callee, arguments),
            height.max(h) + 1,
        )
    }
}
