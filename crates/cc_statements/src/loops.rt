// Loops.

ghost use Rattle.std.specs.Prelude.{◌≡◌, ◌<◌, ◌≤◌, ◌-◌, IfOk};
ghost use Rattle.cc_grammar.specs.Reading as reading;
ghost use Rattle.cc_grammar.specs.Grammar as grammar;
ghost use Rattle.cc_grammar.specs.Reading.{look_token};
ghost use Rattle.cc_grammar.specs.Signs.{target_of};
ghost use Rattle.cc_grammar.specs.Symbols.{is_word};
ghost use Rattle.cc_raw.specs.Bridge.{raw_expr, raw_for_target};
ghost use Rattle.cc_trees.specs.StatementParts as parts;
ghost use Rattle.cc_cursor.specs.Shown as shown;
ghost use Rattle.cc_statements.specs.ReadsStatements as spec;
ghost use Rattle.cc_statements.specs.ForSteps as steps;
ghost use Rattle.cc_statements.specs.StatementSteps.{while_head};
ghost use Rattle.cc_cursor.specs.Reads.{Reads, within};
ghost use Rattle.cc_trees.specs.Nests.{NestsExpr, NestsStmt};

use crate::grammar::Grammar;
use cc_ast::place::Place;
use cc_cursor::context::Context;
use cc_cursor::cursor::Cursor;
use cc_cursor::error::ReadError;
use cc_cursor::labels::loop_labels;
use cc_cursor::limits::Limits;
use cc_lexer::token::Mark;
use cc_lexer::word::Word;
use cc_raw::tree::{RawDeclarator, RawExpr, RawForTarget, RawInit, RawStmt};
use cc_trees::answers::{closed, ended, sized};
use cc_trees::lists::boxed_only;
use cc_trees::statement_trees as trees;
use cc_trees::targets::{boxed_target, is_target};
use sqlite_items::{Boxed, Items};
use std::alloc::Global;

/// The test and the step of a `for`.
#[derive(Drop)]
pub(crate) struct Turning {
    pub(crate) test: Option<Boxed<RawExpr>>,
    pub(crate) step: Option<Boxed<RawExpr>>,
}

impl<
    F,
    G: Fn(
        Global,
        &mut Cursor<'_>,
        Limits,
        Context<'_>,
    ) -> Result<(Items<RawStmt>, usize), ReadError>,
> Grammar<F, G> {
    /// The statement of a loop.
    fn loop_body(
        &self,
        cursor: &mut Cursor<'_>,
        context: Context<'_>,
    ) -> Result<(Items<RawStmt>, usize), ReadError>
        requires stmt { NestsStmt self.now.limits (G.pre self.now.stmt) (G.post self.now.stmt) }
        ensures reads { Reads shown.stmts ((within self.now.limits).stmt (grammar.in_loop (shown.context context.entry)) cursor.old) result cursor.new }
        ensures low { IfOk result (λ x. x.1 < self.now.limits.depth) }
    {
        let labels = loop_labels(self.alloc, context)?;
        self.inner_stmt(cursor, context.in_loop(labels.as_slice()))
    }
}

impl<
    F: Fn(Global, &mut Cursor<'_>, Limits, bool, u8) -> Result<(Boxed<RawExpr>, usize), ReadError>,
    G,
> Grammar<F, G> {
    /// The `while` of a `do`, with its expression.
    fn while_head(&self, cursor: &mut Cursor<'_>) -> Result<(Boxed<RawExpr>, usize), ReadError>
        requires expr { NestsExpr self.now.limits (F.pre self.now.expr) (F.post self.now.expr) }
        ensures reads { Reads shown.expr (while_head self.now.limits cursor.old) result cursor.new }
        ensures low { IfOk result (λ x. x.1 < self.now.limits.depth) }
    {
        cursor.expect_word(Word::While)?;
        self.head(cursor)
    }

    /// Nothing before this mark, or an expression.
    #[tactic(auto, unfolding(cc_grammar::specs::ReadingStatements::optional))]
    fn optional(
        &self,
        cursor: &mut Cursor<'_>,
        mark: Mark,
    ) -> Result<(Option<Boxed<RawExpr>>, usize), ReadError>
        requires expr { NestsExpr self.now.limits (F.pre self.now.expr) (F.post self.now.expr) }
        ensures reads { Reads parts.sized_optional (spec.optional self.now.limits mark cursor.old) result cursor.new }
        ensures low { IfOk result (λ x. x.1 ≤ self.now.limits.depth - 1) }
    {
        if cursor.sees(mark) {
            return Ok((None, 0));
        }
        let (e, height) = self.inner_expr(cursor, true, 0)?;
        Ok((Some(e), height))
    }

    /// Nothing before this mark, or an expression, and the mark.
    fn closed_optional(
        &self,
        cursor: &mut Cursor<'_>,
        mark: Mark,
    ) -> Result<(Option<Boxed<RawExpr>>, usize), ReadError>
        requires expr { NestsExpr self.now.limits (F.pre self.now.expr) (F.post self.now.expr) }
        ensures reads { Reads parts.sized_optional (steps.closed_optional self.now.limits mark cursor.old) result cursor.new }
        ensures low { IfOk result (λ x. x.1 ≤ self.now.limits.depth - 1) }
    {
        let found = self.optional(cursor, mark)?;
        closed(cursor, mark, found)
    }

    /// The test and the step of a `for`.
    fn turning(&self, cursor: &mut Cursor<'_>) -> Result<(Turning, usize), ReadError>
        requires expr { NestsExpr self.now.limits (F.pre self.now.expr) (F.post self.now.expr) }
        ensures reads { Reads steps.sized_turning (steps.turning self.now.limits cursor.old) result cursor.new }
        ensures low { IfOk result (λ x. x.1 ≤ self.now.limits.depth - 1) }
    {
        cursor.expect(Mark::Semicolon)?;
        let (test, h) = self.closed_optional(cursor, Mark::Semicolon)?;
        let (step, i) = self.closed_optional(cursor, Mark::CloseParen)?;
        Ok((Turning { test, step }, h.max(i)))
    }
}

impl<
    F: Fn(Global, &mut Cursor<'_>, Limits, bool, u8) -> Result<(Boxed<RawExpr>, usize), ReadError>,
    G: Fn(
        Global,
        &mut Cursor<'_>,
        Limits,
        Context<'_>,
    ) -> Result<(Items<RawStmt>, usize), ReadError>,
> Grammar<F, G> {
    /// A `do`.
    #[tactic(auto, using(crate::proofs::Opened::do_opened, std::proofs::lemmas::Grind::common_steps))]
    pub(crate) fn do_while(
        &self,
        cursor: &mut Cursor<'_>,
        context: Context<'_>,
    ) -> Result<(Items<RawStmt>, usize), ReadError>
        requires expr { NestsExpr self.now.limits (F.pre self.now.expr) (F.post self.now.expr) }
        requires stmt { NestsStmt self.now.limits (G.pre self.now.stmt) (G.post self.now.stmt) }
        ensures reads { Reads shown.stmts (spec.started self.now.limits (shown.context context.entry) reading.is_do cursor.old) result cursor.new }
        ensures low { IfOk result (λ x. x.1 ≤ self.now.limits.depth) }
    {
        self.room(cursor, 0)?;
        let place = cursor.take();
        let (body, h) = self.loop_body(cursor, context)?;
        let (test, i) = self.while_head(cursor)?;
        let made = trees::do_while(self.alloc, place, body, test);
        ended(cursor, made, i.max(h) + 1)
    }

    /// A `while`.
    #[tactic(auto, using(crate::proofs::Opened::while_opened, std::proofs::lemmas::Grind::common_steps))]
    pub(crate) fn while_loop(
        &self,
        cursor: &mut Cursor<'_>,
        context: Context<'_>,
    ) -> Result<(Items<RawStmt>, usize), ReadError>
        requires expr { NestsExpr self.now.limits (F.pre self.now.expr) (F.post self.now.expr) }
        requires stmt { NestsStmt self.now.limits (G.pre self.now.stmt) (G.post self.now.stmt) }
        ensures reads { Reads shown.stmts (spec.started self.now.limits (shown.context context.entry) reading.is_while cursor.old) result cursor.new }
        ensures low { IfOk result (λ x. x.1 ≤ self.now.limits.depth) }
    {
        self.room(cursor, 0)?;
        let place = cursor.take();
        let (test, h) = self.head(cursor)?;
        let (body, i) = self.loop_body(cursor, context)?;
        sized(
            trees::while_loop(self.alloc, place, test, body),
            h.max(i) + 1,
        )
    }

    /// What a `for` has behind its beginning.
    fn for_behind(
        &self,
        cursor: &mut Cursor<'_>,
        context: Context<'_>,
    ) -> Result<((Turning, Items<RawStmt>), usize), ReadError>
        requires expr { NestsExpr self.now.limits (F.pre self.now.expr) (F.post self.now.expr) }
        requires stmt { NestsStmt self.now.limits (G.pre self.now.stmt) (G.post self.now.stmt) }
        ensures reads { Reads steps.sized_behind (steps.for_behind self.now.limits (shown.context context.entry) cursor.old) result cursor.new }
        ensures low { IfOk result (λ x. x.1 < self.now.limits.depth) }
    {
        let (turning, h) = self.turning(cursor)?;
        let (body, i) = self.loop_body(cursor, context)?;
        Ok(((turning, body), h.max(i)))
    }

    /// A `for` behind what it begins with.
    #[tactic(auto, using(crate::proofs::ForLemmas::rest_opened, std::proofs::lemmas::Grind::common_steps))]
    pub(crate) fn for_rest(
        &self,
        cursor: &mut Cursor<'_>,
        context: Context<'_>,
        place: Place,
        init: (RawInit, usize),
    ) -> Result<(Items<RawStmt>, usize), ReadError>
        requires expr { NestsExpr self.now.limits (F.pre self.now.expr) (F.post self.now.expr) }
        requires stmt { NestsStmt self.now.limits (G.pre self.now.stmt) (G.post self.now.stmt) }
        requires init { init.1 < self.now.limits.depth }
        ensures reads { Reads shown.stmts (spec.for_rest self.now.limits (shown.context context.entry) place (parts.sized_init init) cursor.old) result cursor.new }
        ensures low { IfOk result (λ x. x.1 ≤ self.now.limits.depth) }
    {
        let (init, h) = init;
        let ((turning, body), i) = self.for_behind(cursor, context)?;
        let Turning { test, step } = turning;
        let made = trees::for_loop(self.alloc, place, init, test, step, body);
        let _depth = self.limits.depth;
        sized(made, h.max(i) + 1)
    }

    /// What a `for-in` has behind its target.
    #[tactic(auto, using(crate::proofs::ForLemmas::in_rest_opened, std::proofs::lemmas::Grind::common_steps))]
    fn in_rest(
        &self,
        cursor: &mut Cursor<'_>,
        context: Context<'_>,
    ) -> Result<((Boxed<RawExpr>, Items<RawStmt>), usize), ReadError>
        requires expr { NestsExpr self.now.limits (F.pre self.now.expr) (F.post self.now.expr) }
        requires stmt { NestsStmt self.now.limits (G.pre self.now.stmt) (G.post self.now.stmt) }
        ensures reads { Reads steps.sized_in (steps.in_rest self.now.limits (shown.context context.entry) cursor.old) result cursor.new }
        ensures low { IfOk result (λ x. x.1 < self.now.limits.depth) }
    {
        let (e, h) = self.closed_expr(cursor, Mark::CloseParen)?;
        let (body, i) = self.loop_body(cursor, context)?;
        Ok(((e, body), h.max(i)))
    }

    /// A `for-in` behind its target.
    #[tactic(auto, using(crate::proofs::ForLemmas::in_opened, std::proofs::lemmas::Grind::common_steps))]
    fn for_in(
        &self,
        cursor: &mut Cursor<'_>,
        context: Context<'_>,
        place: Place,
        target: RawForTarget,
        height: usize,
    ) -> Result<(Items<RawStmt>, usize), ReadError>
        requires expr { NestsExpr self.now.limits (F.pre self.now.expr) (F.post self.now.expr) }
        requires stmt { NestsStmt self.now.limits (G.pre self.now.stmt) (G.post self.now.stmt) }
        requires height { height < self.now.limits.depth }
        ensures reads { Reads shown.stmts (spec.for_in self.now.limits (shown.context context.entry) place (raw_for_target target) height cursor.old) result cursor.new }
        ensures low { IfOk result (λ x. x.1 ≤ self.now.limits.depth) }
    {
        cursor.take();
        let ((e, body), h) = self.in_rest(cursor, context)?;
        let _depth = self.limits.depth;
        sized(
            trees::for_in(self.alloc, place, target, e, body),
            height.max(h) + 1,
        )
    }

    /// A `for` behind its variables.
    #[tactic(auto, using(crate::proofs::ForLemmas::for_steps))]
    pub(crate) fn for_vars(
        &self,
        cursor: &mut Cursor<'_>,
        context: Context<'_>,
        place: Place,
        declared: (Items<RawDeclarator>, usize),
    ) -> Result<(Items<RawStmt>, usize), ReadError>
        requires expr { NestsExpr self.now.limits (F.pre self.now.expr) (F.post self.now.expr) }
        requires stmt { NestsStmt self.now.limits (G.pre self.now.stmt) (G.post self.now.stmt) }
        requires declared { declared.1 < self.now.limits.depth }
        ensures reads { Reads shown.stmts (spec.for_vars self.now.limits (shown.context context.entry) place (parts.declarators declared.0) declared.1 (is_word Word.In (look_token cursor.old).kind) cursor.old) result cursor.new }
        ensures low { IfOk result (λ x. x.1 ≤ self.now.limits.depth) }
    {
        let (declared, height) = declared;
        if cursor.sees_word(Word::In) && declared.len() == 1 {
            let target = trees::in_declared(boxed_only(self.alloc, declared)?);
            return self.for_in(cursor, context, place, target, height);
        }
        self.for_rest(cursor, context, place, (trees::init_vars(declared), height))
    }

    /// A `for` behind the expression that it begins with.
    #[tactic(auto, using(crate::proofs::ForLemmas::for_steps))]
    fn for_value(
        &self,
        cursor: &mut Cursor<'_>,
        context: Context<'_>,
        place: Place,
        value: (Boxed<RawExpr>, usize),
    ) -> Result<(Items<RawStmt>, usize), ReadError>
        requires expr { NestsExpr self.now.limits (F.pre self.now.expr) (F.post self.now.expr) }
        requires stmt { NestsStmt self.now.limits (G.pre self.now.stmt) (G.post self.now.stmt) }
        requires value { value.1 < self.now.limits.depth }
        ensures reads { Reads shown.stmts (spec.for_value self.now.limits (shown.context context.entry) place (shown.expr value) (target_of (raw_expr value.0)) (is_word Word.In (look_token cursor.old).kind) cursor.old) result cursor.new }
        ensures low { IfOk result (λ x. x.1 ≤ self.now.limits.depth) }
    {
        let (e, height) = value;
        if cursor.sees_word(Word::In) && is_target(e.get()) {
            let target = trees::in_target(boxed_target(self.alloc, e)?);
            return self.for_in(cursor, context, place, target, height);
        }
        self.for_rest(cursor, context, place, (trees::init_value(e), height))
    }

    /// A `for` or `for-in` at the expression that it begins with.
    pub(crate) fn for_valued(
        &self,
        cursor: &mut Cursor<'_>,
        context: Context<'_>,
        place: Place,
    ) -> Result<(Items<RawStmt>, usize), ReadError>
        requires expr { NestsExpr self.now.limits (F.pre self.now.expr) (F.post self.now.expr) }
        requires stmt { NestsStmt self.now.limits (G.pre self.now.stmt) (G.post self.now.stmt) }
        ensures reads { Reads shown.stmts (steps.for_valued self.now.limits (shown.context context.entry) place cursor.old) result cursor.new }
        ensures low { IfOk result (λ x. x.1 ≤ self.now.limits.depth) }
    {
        let value = self.inner_expr(cursor, false, 0)?;
        self.for_value(cursor, context, place, value)
    }
}
