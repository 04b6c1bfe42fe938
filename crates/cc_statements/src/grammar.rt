// What the readers of statements share: the values that read what stands inside, and the expressions
// that are as high as their statement.

ghost use Rattle.std.specs.Prelude.{◌≡◌, ◌<◌, ◌≤◌, true, IfOk};
ghost use Rattle.cc_raw.specs.Bridge.{raw_expr};
ghost use Rattle.cc_cursor.specs.Shown as shown;
ghost use Rattle.cc_cursor.specs.Reads as reads;
ghost use Rattle.cc_cursor.specs.Reads.{Reads};
ghost use Rattle.cc_trees.specs.Nests.{NestsExpr, NestsStmt, NestsWhole, NestsBegun};
ghost use Rattle.cc_statements.specs.ReadsStatements as spec;

use cc_cursor::context::Context;
use cc_cursor::cursor::Cursor;
use cc_cursor::error::ReadError;
use cc_cursor::limits::Limits;
use cc_lexer::token::Mark;
use cc_raw::tree::{RawExpr, RawStmt};
use cc_trees::answers::closed;
use sqlite_items::{Boxed, Items};
use std::alloc::Global;

/// The readers of what stands inside, as values.
#[derive(Drop)]
pub struct Grammar<F, G> {
    pub alloc: Global,
    pub limits: Limits,
    pub expr: F,
    pub stmt: G,
}

/// The readers of expressions that are as high as their statement too: one of a level, and one that
/// begins with a variable.
#[derive(Drop)]
pub struct Statements<F, G, W, B> {
    pub grammar: Grammar<F, G>,
    pub whole: W,
    pub begun: B,
}

impl<
    F: Fn(Global, &mut Cursor<'_>, Limits, bool, u8) -> Result<(Boxed<RawExpr>, usize), ReadError>,
    G,
> Grammar<F, G> {
    /// An expression of a level inside the tree that is read.
    pub(crate) fn inner_expr(
        &self,
        cursor: &mut Cursor<'_>,
        with_in: bool,
        level: u8,
    ) -> Result<(Boxed<RawExpr>, usize), ReadError>
        requires { NestsExpr self.now.limits (F.pre self.now.expr) (F.post self.now.expr) }
        ensures reads { Reads shown.expr ((reads.within self.now.limits).expr with_in level cursor.old) result cursor.new }
        ensures low { IfOk result (λ x. x.1 < self.now.limits.depth) }
    {
        (self.expr)(self.alloc, cursor, self.limits, with_in, level)
    }

    /// An expression inside, before this mark.
    pub(crate) fn closed_expr(
        &self,
        cursor: &mut Cursor<'_>,
        mark: Mark,
    ) -> Result<(Boxed<RawExpr>, usize), ReadError>
        requires { NestsExpr self.now.limits (F.pre self.now.expr) (F.post self.now.expr) }
        ensures reads { Reads shown.expr (spec.closed_expr self.now.limits 0 mark cursor.old) result cursor.new }
        ensures low { IfOk result (λ x. x.1 < self.now.limits.depth) }
    {
        let found = self.inner_expr(cursor, true, 0)?;
        closed(cursor, mark, found)
    }
}

impl<
    F,
    G: Fn(
        Global,
        &mut Cursor<'_>,
        Limits,
        Context<'_>,
    ) -> Result<(Items<RawStmt>, usize), ReadError>,
> Grammar<F, G> {
    /// A statement inside the tree that is read, as the list of statements that it is.
    pub(crate) fn inner_stmt(
        &self,
        cursor: &mut Cursor<'_>,
        context: Context<'_>,
    ) -> Result<(Items<RawStmt>, usize), ReadError>
        requires { NestsStmt self.now.limits (G.pre self.now.stmt) (G.post self.now.stmt) }
        ensures reads { Reads shown.stmts ((reads.within self.now.limits).stmt (shown.context context.entry) cursor.old) result cursor.new }
        ensures low { IfOk result (λ x. x.1 < self.now.limits.depth) }
    {
        (self.stmt)(self.alloc, cursor, self.limits, context)
    }
}

impl<
    F,
    G,
    W: Fn(Global, &mut Cursor<'_>, Limits, u8) -> Result<(Boxed<RawExpr>, usize), ReadError>,
    B,
> Statements<F, G, W, B> {
    /// An expression of a level that is as high as the statement.
    pub(crate) fn whole_expr(
        &self,
        cursor: &mut Cursor<'_>,
        level: u8,
    ) -> Result<(Boxed<RawExpr>, usize), ReadError>
        requires { NestsWhole self.now.grammar.limits (W.pre self.now.whole) (W.post self.now.whole) }
        ensures reads { Reads shown.expr (reads.expr_of self.now.grammar.limits true level cursor.old) result cursor.new }
        ensures low { IfOk result (λ x. x.1 ≤ self.now.grammar.limits.depth) }
    {
        (self.whole)(self.grammar.alloc, cursor, self.grammar.limits, level)
    }
}

impl<
    F,
    G,
    W,
    B: Fn(
        Global,
        &mut Cursor<'_>,
        Limits,
        Boxed<RawExpr>,
    ) -> Result<(Boxed<RawExpr>, usize), ReadError>,
> Statements<F, G, W, B> {
    /// The expression that this one, of height 0, begins.
    pub(crate) fn begun_expr(
        &self,
        cursor: &mut Cursor<'_>,
        e: Boxed<RawExpr>,
    ) -> Result<(Boxed<RawExpr>, usize), ReadError>
        requires { NestsBegun self.now.grammar.limits (B.pre self.now.begun) (B.post self.now.begun) }
        ensures reads { Reads shown.expr (spec.after_head self.now.grammar.limits true 0 (raw_expr e, 0) cursor.old) result cursor.new }
        ensures low { IfOk result (λ x. x.1 ≤ self.now.grammar.limits.depth) }
    {
        (self.begun)(self.grammar.alloc, cursor, self.grammar.limits, e)
    }
}
