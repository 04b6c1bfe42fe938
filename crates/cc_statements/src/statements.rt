// Statements without loops.

ghost use Rattle.std.specs.Prelude.{◌≡◌, ◌<◌, ◌≤◌, IfOk};
ghost use Rattle.cc_grammar.specs.Reading as reading;
ghost use Rattle.cc_grammar.specs.Grammar as grammar;
ghost use Rattle.cc_trees.specs.StatementParts as parts;
ghost use Rattle.cc_cursor.specs.Shown as shown;
ghost use Rattle.cc_statements.specs.ReadsStatements as spec;
ghost use Rattle.cc_statements.specs.StatementSteps as steps;
ghost use Rattle.cc_cursor.specs.Reads.{Reads};
ghost use Rattle.cc_trees.specs.Nests.{NestsExpr, NestsStmt};

use crate::grammar::Grammar;
use cc_ast::place::Place;
use cc_ast::reading::Construct;
use cc_cursor::context::Context;
use cc_cursor::cursor::Cursor;
use cc_cursor::error::{Cause, ReadError};
use cc_cursor::limits::Limits;
use cc_cursor::names::variable;
use cc_lexer::token::Mark;
use cc_lexer::word::Word;
use cc_raw::tree::{RawExpr, RawStmt};
use cc_trees::answers::{ended, sized};
use cc_trees::function::Function;
use cc_trees::statement_trees as trees;
use sqlite_items::{Boxed, Items};
use std::alloc::Global;

impl<F, G> Grammar<F, G> {
    /// What an expression statement has behind its expression.
    pub(crate) fn simple(
        &self,
        cursor: &mut Cursor<'_>,
        place: Place,
        e: (Boxed<RawExpr>, usize),
    ) -> Result<(Items<RawStmt>, usize), ReadError>
        ensures reads { Reads shown.stmts (spec.simple self.now.limits place (shown.expr e) cursor.old) result cursor.new }
        ensures low { IfOk result (λ x. x.1 ≡ e.1) }
    {
        let (e, height) = e;
        ended(cursor, trees::simple(self.alloc, place, e), height)
    }
}

impl<
    F: Fn(Global, &mut Cursor<'_>, Limits, bool, u8) -> Result<(Boxed<RawExpr>, usize), ReadError>,
    G,
> Grammar<F, G> {
    /// An expression in parentheses.
    #[tactic(auto, unfolding(cc_grammar::specs::ReadingStatements::head))]
    pub(crate) fn head(&self, cursor: &mut Cursor<'_>) -> Result<(Boxed<RawExpr>, usize), ReadError>
        requires expr { NestsExpr self.now.limits (F.pre self.now.expr) (F.post self.now.expr) }
        ensures reads { Reads shown.expr (spec.head self.now.limits cursor.old) result cursor.new }
        ensures low { IfOk result (λ x. x.1 < self.now.limits.depth) }
    {
        cursor.expect(Mark::OpenParen)?;
        self.closed_expr(cursor, Mark::CloseParen)
    }
}

impl<
    F,
    G: Fn(
        Global,
        &mut Cursor<'_>,
        Limits,
        Context<'_>,
    ) -> Result<(Items<RawStmt>, usize), ReadError>,
> Grammar<F, G> {
    /// A block.
    #[tactic(auto, unfolding(cc_grammar::specs::ReadingStatements::block))]
    pub(crate) fn block(
        &self,
        cursor: &mut Cursor<'_>,
        context: Context<'_>,
    ) -> Result<(Items<RawStmt>, usize), ReadError>
        requires stmt { NestsStmt self.now.limits (G.pre self.now.stmt) (G.post self.now.stmt) }
        ensures reads { Reads shown.stmts (spec.started self.now.limits (shown.context context.entry) reading.is_block cursor.old) result cursor.new }
        ensures low { IfOk result (λ x. x.1 ≤ self.now.limits.depth) }
    {
        self.room(cursor, 0)?;
        cursor.take();
        let (body, height) = self.body(cursor, context.inside())?;
        Ok((body, height + 1))
    }

    /// The second branch of an `if`, where it has one.
    fn second_branch(
        &self,
        cursor: &mut Cursor<'_>,
        context: Context<'_>,
    ) -> Result<(Items<RawStmt>, usize), ReadError>
        requires stmt { NestsStmt self.now.limits (G.pre self.now.stmt) (G.post self.now.stmt) }
        requires some { 0 < self.now.limits.depth }
        ensures reads { Reads shown.stmts (steps.second_branch self.now.limits (shown.context context.entry) cursor.old) result cursor.new }
        ensures low { IfOk result (λ x. x.1 < self.now.limits.depth) }
    {
        if !cursor.sees_word(Word::Else) {
            return Ok((Items::new(self.alloc), 0));
        }
        cursor.take();
        self.inner_stmt(cursor, context.inside())
    }

    /// An `if` behind its first branch.
    #[tactic(auto, using(crate::proofs::Opened::otherwise_opened, std::proofs::lemmas::Grind::common_steps))]
    fn otherwise(
        &self,
        cursor: &mut Cursor<'_>,
        context: Context<'_>,
        place: Place,
        test: (Boxed<RawExpr>, usize),
        then: (Items<RawStmt>, usize),
    ) -> Result<(Items<RawStmt>, usize), ReadError>
        requires stmt { NestsStmt self.now.limits (G.pre self.now.stmt) (G.post self.now.stmt) }
        requires test { test.1 < self.now.limits.depth }
        requires then { then.1 < self.now.limits.depth }
        ensures reads { Reads shown.stmts (spec.otherwise self.now.limits (shown.context context.entry) place (shown.expr test) (shown.stmts then) cursor.old) result cursor.new }
        ensures low { IfOk result (λ x. x.1 ≤ self.now.limits.depth) }
    {
        let (test, h) = test;
        let (then, i) = then;
        let (otherwise, j) = self.second_branch(cursor, context)?;
        let _depth = self.limits.depth;
        sized(
            trees::choice(self.alloc, place, test, then, otherwise),
            h.max(i.max(j)) + 1,
        )
    }

    /// A function declaration.
    #[tactic(auto, unfolding(cc_grammar::specs::ReadingStatements::declaration))]
    pub(crate) fn declaration(
        &self,
        cursor: &mut Cursor<'_>,
        context: Context<'_>,
    ) -> Result<(Items<RawStmt>, usize), ReadError>
        requires stmt { NestsStmt self.now.limits (G.pre self.now.stmt) (G.post self.now.stmt) }
        ensures reads { Reads shown.stmts (spec.started self.now.limits (shown.context context.entry) reading.is_declaration cursor.old) result cursor.new }
        ensures low { IfOk result (λ x. x.1 ≤ self.now.limits.depth) }
    {
        if !context.declares {
            return Err(ReadError::Fault(cursor.stop(Cause::Refused(Construct::BlockFunction))));
        }
        self.room(cursor, 0)?;
        let place = cursor.take();
        let name = variable(self.alloc, cursor)?;
        let (function, height) = self.function(cursor)?;
        let Function { params, body } = function;
        sized(
            trees::declaration(self.alloc, place, name, params, body),
            height + 1,
        )
    }
}

impl<
    F: Fn(Global, &mut Cursor<'_>, Limits, bool, u8) -> Result<(Boxed<RawExpr>, usize), ReadError>,
    G: Fn(
        Global,
        &mut Cursor<'_>,
        Limits,
        Context<'_>,
    ) -> Result<(Items<RawStmt>, usize), ReadError>,
> Grammar<F, G> {
    /// An `if`.
    #[tactic(auto, unfolding(cc_grammar::specs::ReadingStatements::choice))]
    pub(crate) fn choice(
        &self,
        cursor: &mut Cursor<'_>,
        context: Context<'_>,
    ) -> Result<(Items<RawStmt>, usize), ReadError>
        requires expr { NestsExpr self.now.limits (F.pre self.now.expr) (F.post self.now.expr) }
        requires stmt { NestsStmt self.now.limits (G.pre self.now.stmt) (G.post self.now.stmt) }
        ensures reads { Reads shown.stmts (spec.started self.now.limits (shown.context context.entry) reading.is_if cursor.old) result cursor.new }
        ensures low { IfOk result (λ x. x.1 ≤ self.now.limits.depth) }
    {
        self.room(cursor, 0)?;
        let place = cursor.take();
        let test = self.head(cursor)?;
        let then = self.inner_stmt(cursor, context.inside())?;
        self.otherwise(cursor, context, place, test, then)
    }
}
