// Lists of expressions.

ghost use Rattle.std.specs.Prelude.{◌<◌, ◌≤◌, ◌-◌, map, IfOk};
ghost use Rattle.cc_raw.specs.Bridge.{raw_expr};
ghost use Rattle.cc_cursor.specs.Shown as shown;
ghost use Rattle.cc_cursor.specs.Reads as spec;
ghost use Rattle.cc_cursor.specs.Reads.{Reads, same};
ghost use Rattle.cc_expr.specs.Expressions.{continues, pushed};
ghost use Rattle.cc_trees.specs.Nests.{NestsExpr};

use crate::grammar::Grammar;
use cc_cursor::cursor::Cursor;
use cc_cursor::error::{Cause, ReadError};
use cc_cursor::limits::Limits;
use cc_lexer::token::Mark;
use cc_raw::tree::RawExpr;
use cc_trees::lists::push_boxed;
use sqlite_items::{Boxed, Items};
use std::alloc::Global;

/// Whether a list goes on behind one of its items: behind a comma it does, behind this mark, which
/// closes it, it doesn't.
pub(crate) fn continues(cursor: &mut Cursor<'_>, close: Mark) -> Result<bool, ReadError>
    ensures { Reads same (continues close cursor.old) result cursor.new }
{
    if cursor.sees(Mark::Comma) {
        cursor.take();
        return Ok(true);
    }
    cursor.expect(close)?;
    Ok(false)
}

impl<
    F: Fn(Global, &mut Cursor<'_>, Limits, bool, u8) -> Result<(Boxed<RawExpr>, usize), ReadError>,
> Grammar<F> {
    /// An expression behind others, how high it is, and whether the list goes on behind it.
    pub(crate) fn push_expr(
        &self,
        cursor: &mut Cursor<'_>,
        close: Mark,
        found: &mut Items<RawExpr>,
    ) -> Result<(usize, bool), ReadError>
        requires { NestsExpr self.now.limits (F.pre self.now.expr) (F.post self.now.expr) }
        ensures reads { Reads (λ x. ((map raw_expr found.new, x.0), x.1)) (pushed self.now.limits close (map raw_expr found.old) cursor.old) result cursor.new }
        ensures low { IfOk result (λ x. x.0 < self.now.limits.depth) }
    {
        let (e, height) = self.inner_expr(cursor, true, 1)?;
        let Ok(()) = push_boxed(self.alloc, found, e) else {
            return Err(ReadError::Memory);
        };
        let more = continues(cursor, close)?;
        Ok((height, more))
    }

    /// Arguments behind others, up to the parenthesis that closes them, and how high they are.
    fn arguments(
        &self,
        cursor: &mut Cursor<'_>,
        found: &mut Items<RawExpr>,
    ) -> Result<usize, ReadError>
        requires { NestsExpr self.now.limits (F.pre self.now.expr) (F.post self.now.expr) }
        ensures reads { Reads (λ h. (map raw_expr found.new, h)) (spec.arguments self.now.limits self.now.limits.turns (map raw_expr found.old) 0 cursor.old) result cursor.new }
        ensures low { IfOk result (λ h. h ≤ self.now.limits.depth - 1) }
    {
        let mut height = 0;
        for _turn in 0..self.limits.turns {
            let (h, more) = self.push_expr(cursor, Mark::CloseParen, found)?;
            height = height.max(h);
            if !more {
                return Ok(height);
            }
        }
        Err(ReadError::Fault(cursor.stop(Cause::Spent)))
    }

    /// The arguments of a call behind its opening parenthesis.
    #[tactic(auto, unfolding(cc_grammar::specs::ReadingExpressions::arguments_of))]
    pub(crate) fn arguments_of(
        &self,
        cursor: &mut Cursor<'_>,
    ) -> Result<(Items<RawExpr>, usize), ReadError>
        requires { NestsExpr self.now.limits (F.pre self.now.expr) (F.post self.now.expr) }
        ensures reads { Reads shown.exprs (spec.arguments_of self.now.limits cursor.old) result cursor.new }
        ensures low { IfOk result (λ x. x.1 ≤ self.now.limits.depth - 1) }
    {
        let mut found = Items::new(self.alloc);
        if cursor.sees(Mark::CloseParen) {
            cursor.take();
            return Ok((found, 0));
        }
        let height = self.arguments(cursor, &mut found)?;
        Ok((found, height))
    }
}
