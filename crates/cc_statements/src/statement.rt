// Statements, by what begins them.

ghost use Rattle.std.specs.Prelude.{◌≡◌, ◌≤◌, IfOk};
ghost use Rattle.cc_cursor.specs.Shown as shown;
ghost use Rattle.cc_statements.specs.ReadsStatements as spec;
ghost use Rattle.cc_statements.specs.StatementSteps as steps;
ghost use Rattle.cc_cursor.specs.Reads.{Reads};
ghost use Rattle.cc_trees.specs.Nests.{NestsExpr, NestsStmt, NestsWhole, NestsBegun};

use crate::grammar::Statements;
use cc_cursor::context::Context;
use cc_cursor::cursor::Cursor;
use cc_cursor::error::ReadError;
use cc_cursor::limits::Limits;
use cc_cursor::starts::{Start, start_of};
use cc_raw::tree::{RawExpr, RawStmt};
use sqlite_items::{Boxed, Items};
use std::alloc::Global;

impl<
    F: Fn(Global, &mut Cursor<'_>, Limits, bool, u8) -> Result<(Boxed<RawExpr>, usize), ReadError>,
    G: Fn(
        Global,
        &mut Cursor<'_>,
        Limits,
        Context<'_>,
    ) -> Result<(Items<RawStmt>, usize), ReadError>,
    W: Fn(Global, &mut Cursor<'_>, Limits, u8) -> Result<(Boxed<RawExpr>, usize), ReadError>,
    B: Fn(
        Global,
        &mut Cursor<'_>,
        Limits,
        Boxed<RawExpr>,
    ) -> Result<(Boxed<RawExpr>, usize), ReadError>,
> Statements<F, G, W, B> {
    /// A loop or a jump, by what begins it.
    fn moved(
        &self,
        cursor: &mut Cursor<'_>,
        context: Context<'_>,
        start: Start<'_>,
    ) -> Result<(Items<RawStmt>, usize), ReadError>
        requires expr { NestsExpr self.now.grammar.limits (F.pre self.now.grammar.expr) (F.post self.now.grammar.expr) }
        requires stmt { NestsStmt self.now.grammar.limits (G.pre self.now.grammar.stmt) (G.post self.now.grammar.stmt) }
        requires whole { NestsWhole self.now.grammar.limits (W.pre self.now.whole) (W.post self.now.whole) }
        ensures reads { Reads shown.stmts (steps.moved self.now.grammar.limits (shown.context context.entry) start.entry cursor.old) result cursor.new }
        ensures low { IfOk result (λ x. x.1 ≤ self.now.grammar.limits.depth) }
    {
        match start {
            Start::Do => self.grammar.do_while(cursor, context),
            Start::While => self.grammar.while_loop(cursor, context),
            Start::For => self.for_loop(cursor, context),
            Start::Continue => self.grammar.continue_jump(cursor, context),
            Start::Break => self.grammar.break_jump(cursor, context),
            Start::Return => self.returned(cursor, context),
            _ => self.throw(cursor),
        }
    }

    /// A statement that has others inside, or a jump, by what begins it.
    fn compound(
        &self,
        cursor: &mut Cursor<'_>,
        context: Context<'_>,
        start: Start<'_>,
    ) -> Result<(Items<RawStmt>, usize), ReadError>
        requires expr { NestsExpr self.now.grammar.limits (F.pre self.now.grammar.expr) (F.post self.now.grammar.expr) }
        requires stmt { NestsStmt self.now.grammar.limits (G.pre self.now.grammar.stmt) (G.post self.now.grammar.stmt) }
        requires whole { NestsWhole self.now.grammar.limits (W.pre self.now.whole) (W.post self.now.whole) }
        ensures reads { Reads shown.stmts (steps.compound self.now.grammar.limits (shown.context context.entry) start.entry cursor.old) result cursor.new }
        ensures low { IfOk result (λ x. x.1 ≤ self.now.grammar.limits.depth) }
    {
        match start {
            Start::Block => self.grammar.block(cursor, context),
            Start::If => self.grammar.choice(cursor, context),
            Start::Switch => self.grammar.switch(cursor, context),
            Start::Try => self.grammar.try_statement(cursor, context),
            _ => self.moved(cursor, context, start),
        }
    }

    /// A statement, as the list of statements that it is.
    pub fn stmt_of(
        &self,
        cursor: &mut Cursor<'_>,
        context: Context<'_>,
    ) -> Result<(Items<RawStmt>, usize), ReadError>
        requires expr { NestsExpr self.now.grammar.limits (F.pre self.now.grammar.expr) (F.post self.now.grammar.expr) }
        requires stmt { NestsStmt self.now.grammar.limits (G.pre self.now.grammar.stmt) (G.post self.now.grammar.stmt) }
        requires whole { NestsWhole self.now.grammar.limits (W.pre self.now.whole) (W.post self.now.whole) }
        requires begun { NestsBegun self.now.grammar.limits (B.pre self.now.begun) (B.post self.now.begun) }
        ensures reads { Reads shown.stmts (spec.stmt_of self.now.grammar.limits (shown.context context.entry) cursor.old) result cursor.new }
        ensures low { IfOk result (λ x. x.1 ≤ self.now.grammar.limits.depth) }
    {
        let start = start_of(cursor.kind());
        match start {
            Start::Vars => self.vars(cursor),
            Start::Empty => {
                cursor.take();
                Ok((Items::new(self.grammar.alloc), 0))
            }
            Start::Function => self.grammar.declaration(cursor, context),
            Start::Name(name) => self.begins_with_name(cursor, context, name),
            Start::Plain => self.plain(cursor),
            _ => self.compound(cursor, context, start),
        }
    }
}
