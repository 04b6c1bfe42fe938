// What the readers of expressions share: the values that read what stands inside.

ghost use Rattle.std.specs.Prelude.{◌≡◌, ◌<◌, IfOk};
ghost use Rattle.cc_cursor.specs.Shown as shown;
ghost use Rattle.cc_cursor.specs.Reads as reads;
ghost use Rattle.cc_cursor.specs.Reads.{Reads};
ghost use Rattle.cc_trees.specs.Nests.{NestsExpr};
ghost use Rattle.cc_expr.specs.Expressions as spec;

use cc_cursor::cursor::Cursor;
use cc_cursor::error::ReadError;
use cc_cursor::limits::Limits;
use cc_lexer::token::Mark;
use cc_raw::tree::RawExpr;
use cc_trees::answers::closed;
use sqlite_items::Boxed;
use std::alloc::Global;

/// The reader of the expressions inside, as a value.
#[derive(Drop)]
pub struct Grammar<F> {
    pub alloc: Global,
    pub limits: Limits,
    pub expr: F,
}

/// The reader of functions too, which have statements inside.
#[derive(Drop)]
pub struct Expressions<F, H> {
    pub grammar: Grammar<F>,
    pub function: H,
}

impl<
    F: Fn(Global, &mut Cursor<'_>, Limits, bool, u8) -> Result<(Boxed<RawExpr>, usize), ReadError>,
> Grammar<F> {
    /// An expression of a level inside the tree that is read.
    pub(crate) fn inner_expr(
        &self,
        cursor: &mut Cursor<'_>,
        with_in: bool,
        level: u8,
    ) -> Result<(Boxed<RawExpr>, usize), ReadError>
        requires { NestsExpr self.now.limits (F.pre self.now.expr) (F.post self.now.expr) }
        ensures reads { Reads shown.expr ((reads.within self.now.limits).expr with_in level cursor.old) result cursor.new }
        ensures low { IfOk result (λ x. x.1 < self.now.limits.depth) }
    {
        (self.expr)(self.alloc, cursor, self.limits, with_in, level)
    }

    /// An expression of a level inside, before this mark.
    pub(crate) fn closed_expr(
        &self,
        cursor: &mut Cursor<'_>,
        level: u8,
        mark: Mark,
    ) -> Result<(Boxed<RawExpr>, usize), ReadError>
        requires { NestsExpr self.now.limits (F.pre self.now.expr) (F.post self.now.expr) }
        ensures reads { Reads shown.expr (spec.closed_expr self.now.limits level mark cursor.old) result cursor.new }
        ensures low { IfOk result (λ x. x.1 < self.now.limits.depth) }
    {
        let found = self.inner_expr(cursor, true, level)?;
        closed(cursor, mark, found)
    }
}
