// Variables of `var` statements, and what a `for` begins with.

ghost use Rattle.std.specs.Prelude.{◌<◌, ◌≤◌, IfOk};
ghost use Rattle.cc_grammar.specs.Reading as reading;
ghost use Rattle.cc_trees.specs.StatementParts as parts;
ghost use Rattle.cc_cursor.specs.Shown as shown;
ghost use Rattle.cc_statements.specs.ReadsStatements as spec;
ghost use Rattle.cc_statements.specs.ForSteps as steps;
ghost use Rattle.cc_cursor.specs.Reads.{Reads};
ghost use Rattle.cc_trees.specs.Nests.{NestsExpr, NestsStmt, NestsWhole};

use crate::grammar::Statements;
use cc_ast::place::Place;
use cc_cursor::context::Context;
use cc_cursor::cursor::Cursor;
use cc_cursor::error::{Cause, ReadError};
use cc_cursor::limits::Limits;
use cc_cursor::names::variable;
use cc_lexer::token::Mark;
use cc_lexer::word::Word;
use cc_raw::tree::{RawDeclarator, RawExpr, RawStmt};
use cc_trees::answers::ended;
use cc_trees::lists::push;
use cc_trees::statement_trees as trees;
use sqlite_items::{Boxed, Items};
use std::alloc::Global;

impl<
    F: Fn(Global, &mut Cursor<'_>, Limits, bool, u8) -> Result<(Boxed<RawExpr>, usize), ReadError>,
    G,
    W: Fn(Global, &mut Cursor<'_>, Limits, u8) -> Result<(Boxed<RawExpr>, usize), ReadError>,
    B,
> Statements<F, G, W, B> {
    /// The value of a declarator: one level inside where no `in` may stand, as in a `for`.
    fn value(
        &self,
        cursor: &mut Cursor<'_>,
        with_in: bool,
    ) -> Result<(Boxed<RawExpr>, usize), ReadError>
        requires expr { NestsExpr self.now.grammar.limits (F.pre self.now.grammar.expr) (F.post self.now.grammar.expr) }
        requires whole { NestsWhole self.now.grammar.limits (W.pre self.now.whole) (W.post self.now.whole) }
        ensures reads { Reads shown.expr (spec.values self.now.grammar.limits with_in with_in 1 cursor.old) result cursor.new }
        ensures low { IfOk result (λ x. x.1 ≤ spec.bound self.now.grammar.limits with_in) }
    {
        if with_in {
            self.whole_expr(cursor, 1)
        } else {
            self.grammar.inner_expr(cursor, false, 1)
        }
    }

    #[tactic(auto, unfolding(cc_grammar::specs::ReadingStatements::declarator))]
    fn declarator(
        &self,
        cursor: &mut Cursor<'_>,
        with_in: bool,
    ) -> Result<(RawDeclarator, usize), ReadError>
        requires expr { NestsExpr self.now.grammar.limits (F.pre self.now.grammar.expr) (F.post self.now.grammar.expr) }
        requires whole { NestsWhole self.now.grammar.limits (W.pre self.now.whole) (W.post self.now.whole) }
        ensures reads { Reads parts.sized_declarator (spec.declarator self.now.grammar.limits with_in cursor.old) result cursor.new }
        ensures low { IfOk result (λ x. x.1 ≤ spec.bound self.now.grammar.limits with_in) }
    {
        let variable = variable(self.grammar.alloc, cursor)?;
        if !cursor.sees(Mark::Equal) {
            return Ok((trees::declarator(variable, None), 0));
        }
        cursor.take();
        let (e, height) = self.value(cursor, with_in)?;
        Ok((trees::declarator(variable, Some(e)), height))
    }

    /// Variables of a `var` behind others, in a `for` where no `in` may stand, and how high they are.
    fn declarators(
        &self,
        cursor: &mut Cursor<'_>,
        with_in: bool,
        found: &mut Items<RawDeclarator>,
    ) -> Result<usize, ReadError>
        requires expr { NestsExpr self.now.grammar.limits (F.pre self.now.grammar.expr) (F.post self.now.grammar.expr) }
        requires whole { NestsWhole self.now.grammar.limits (W.pre self.now.whole) (W.post self.now.whole) }
        ensures reads { Reads (λ h. (parts.declarators found.new, h)) (spec.declarators self.now.grammar.limits with_in self.now.grammar.limits.turns (parts.declarators found.old) 0 cursor.old) result cursor.new }
        ensures low { IfOk result (λ h. h ≤ spec.bound self.now.grammar.limits with_in) }
    {
        let mut height = 0;
        for _turn in 0..self.grammar.limits.turns {
            let (declarator, h) = self.declarator(cursor, with_in)?;
            push(self.grammar.alloc, found, declarator)?;
            height = height.max(h);
            if !cursor.sees(Mark::Comma) {
                return Ok(height);
            }
            cursor.take();
        }
        Err(ReadError::Fault(cursor.stop(Cause::Spent)))
    }

    /// A `var` statement.
    #[tactic(auto, unfolding(cc_grammar::specs::ReadingStatements::vars))]
    pub(crate) fn vars(&self, cursor: &mut Cursor<'_>) -> Result<(Items<RawStmt>, usize), ReadError>
        requires expr { NestsExpr self.now.grammar.limits (F.pre self.now.grammar.expr) (F.post self.now.grammar.expr) }
        requires whole { NestsWhole self.now.grammar.limits (W.pre self.now.whole) (W.post self.now.whole) }
        ensures reads { Reads shown.stmts (spec.vars self.now.grammar.limits cursor.old) result cursor.new }
        ensures low { IfOk result (λ x. x.1 ≤ self.now.grammar.limits.depth) }
    {
        let place = cursor.take();
        let mut declared = Items::new(self.grammar.alloc);
        let height = self.declarators(cursor, true, &mut declared)?;
        ended(
            cursor,
            trees::vars(self.grammar.alloc, place, declared),
            height,
        )
    }
}

impl<
    F: Fn(Global, &mut Cursor<'_>, Limits, bool, u8) -> Result<(Boxed<RawExpr>, usize), ReadError>,
    G: Fn(
        Global,
        &mut Cursor<'_>,
        Limits,
        Context<'_>,
    ) -> Result<(Items<RawStmt>, usize), ReadError>,
    W: Fn(Global, &mut Cursor<'_>, Limits, u8) -> Result<(Boxed<RawExpr>, usize), ReadError>,
    B,
> Statements<F, G, W, B> {
    /// A `for` or `for-in` at its `var`.
    fn for_declared(
        &self,
        cursor: &mut Cursor<'_>,
        context: Context<'_>,
        place: Place,
    ) -> Result<(Items<RawStmt>, usize), ReadError>
        requires expr { NestsExpr self.now.grammar.limits (F.pre self.now.grammar.expr) (F.post self.now.grammar.expr) }
        requires stmt { NestsStmt self.now.grammar.limits (G.pre self.now.grammar.stmt) (G.post self.now.grammar.stmt) }
        requires whole { NestsWhole self.now.grammar.limits (W.pre self.now.whole) (W.post self.now.whole) }
        requires some { 0 < self.now.grammar.limits.depth }
        ensures reads { Reads shown.stmts (steps.for_declared self.now.grammar.limits (shown.context context.entry) place cursor.old) result cursor.new }
        ensures low { IfOk result (λ x. x.1 ≤ self.now.grammar.limits.depth) }
    {
        cursor.take();
        let mut declared = Items::new(self.grammar.alloc);
        let height = self.declarators(cursor, false, &mut declared)?;
        self.grammar
            .for_vars(cursor, context, place, (declared, height))
    }

    /// A `for` or `for-in` behind its parenthesis.
    fn for_head(
        &self,
        cursor: &mut Cursor<'_>,
        context: Context<'_>,
        place: Place,
    ) -> Result<(Items<RawStmt>, usize), ReadError>
        requires expr { NestsExpr self.now.grammar.limits (F.pre self.now.grammar.expr) (F.post self.now.grammar.expr) }
        requires stmt { NestsStmt self.now.grammar.limits (G.pre self.now.grammar.stmt) (G.post self.now.grammar.stmt) }
        requires whole { NestsWhole self.now.grammar.limits (W.pre self.now.whole) (W.post self.now.whole) }
        requires some { 0 < self.now.grammar.limits.depth }
        ensures reads { Reads shown.stmts (steps.for_head self.now.grammar.limits (shown.context context.entry) place cursor.old) result cursor.new }
        ensures low { IfOk result (λ x. x.1 ≤ self.now.grammar.limits.depth) }
    {
        if cursor.sees_word(Word::Var) {
            return self.for_declared(cursor, context, place);
        }
        if cursor.sees(Mark::Semicolon) {
            return self
                .grammar
                .for_rest(cursor, context, place, (trees::no_init(), 0));
        }
        self.grammar.for_valued(cursor, context, place)
    }

    /// A `for` or `for-in`.
    #[tactic(auto, using(crate::proofs::Opened::for_opened, std::proofs::lemmas::Grind::common_steps))]
    pub(crate) fn for_loop(
        &self,
        cursor: &mut Cursor<'_>,
        context: Context<'_>,
    ) -> Result<(Items<RawStmt>, usize), ReadError>
        requires expr { NestsExpr self.now.grammar.limits (F.pre self.now.grammar.expr) (F.post self.now.grammar.expr) }
        requires stmt { NestsStmt self.now.grammar.limits (G.pre self.now.grammar.stmt) (G.post self.now.grammar.stmt) }
        requires whole { NestsWhole self.now.grammar.limits (W.pre self.now.whole) (W.post self.now.whole) }
        ensures reads { Reads shown.stmts (spec.started self.now.grammar.limits (shown.context context.entry) reading.is_for cursor.old) result cursor.new }
        ensures low { IfOk result (λ x. x.1 ≤ self.now.grammar.limits.depth) }
    {
        self.grammar.room(cursor, 0)?;
        let place = cursor.take();
        cursor.expect(Mark::OpenParen)?;
        self.for_head(cursor, context, place)
    }
}
