// `switch` and `try`.

ghost use Rattle.std.specs.Prelude.{◌≡◌, ◌<◌, ◌≤◌, ◌-◌, ◌||◌, [], false, IfOk, IfSome};
ghost use Rattle.cc_grammar.specs.Reading as reading;
ghost use Rattle.cc_grammar.specs.Grammar as grammar;
ghost use Rattle.std.specs.Option.{option_map};
ghost use Rattle.cc_statements.specs.ClauseSteps as clauses;
ghost use Rattle.cc_trees.specs.StatementParts as parts;
ghost use Rattle.cc_cursor.specs.Shown as shown;
ghost use Rattle.cc_statements.specs.ReadsStatements as spec;
ghost use Rattle.cc_statements.specs.StatementSteps as steps;
ghost use Rattle.cc_cursor.specs.Reads.{Reads};
ghost use Rattle.cc_trees.specs.Nests.{NestsExpr, NestsStmt};

use crate::grammar::Grammar;
use cc_ast::place::Place;
use cc_cursor::context::Context;
use cc_cursor::cursor::Cursor;
use cc_cursor::error::{Cause, ReadError};
use cc_cursor::lexeme::Kind;
use cc_cursor::limits::Limits;
use cc_cursor::names::variable;
use cc_cursor::refused::Due;
use cc_lexer::token::Mark;
use cc_lexer::word::Word;
use cc_raw::tree::{RawCase, RawCatch, RawExpr, RawStmt};
use cc_trees::answers::{closed, sized};
use cc_trees::lists::push;
use cc_trees::statement_trees as trees;
use sqlite_items::{Boxed, Items};
use std::alloc::Global;

/// What a token is in a `switch`.
#[derive(Clone, Copy)]
pub(crate) enum Clause {
    Nothing,
    Case,
    Default,
    Close,
}

fn clause_of(kind: Kind<'_>) -> Clause
    ensures { clauses.shown result ≡ reading.clause_of (shown.kind kind.entry) }
{
    match kind {
        Kind::Word(word) => match word {
            Word::Case => Clause::Case,
            Word::Default => Clause::Default,
            _ => Clause::Nothing,
        },
        Kind::Mark(mark) => match mark {
            Mark::CloseBrace => Clause::Close,
            _ => Clause::Nothing,
        },
        _ => Clause::Nothing,
    }
}

// Whether a `default` is seen, where it is seen before the clause or not.
fn sees_default(clause: Clause, seen: bool) -> bool
    ensures { result ≡ (clauses.is_default (clauses.shown clause) || seen) }
{
    match clause {
        Clause::Default => true,
        _ => seen,
    }
}

impl<
    F: Fn(Global, &mut Cursor<'_>, Limits, bool, u8) -> Result<(Boxed<RawExpr>, usize), ReadError>,
    G,
> Grammar<F, G> {
    /// The expression of a `switch`, and the brace before its clauses.
    fn switch_head(&self, cursor: &mut Cursor<'_>) -> Result<(Boxed<RawExpr>, usize), ReadError>
        requires { NestsExpr self.now.limits (F.pre self.now.expr) (F.post self.now.expr) }
        ensures reads { Reads shown.expr (clauses.switch_head self.now.limits cursor.old) result cursor.new }
        ensures low { IfOk result (λ x. x.1 < self.now.limits.depth) }
    {
        let e = self.head(cursor)?;
        closed(cursor, Mark::OpenBrace, e)
    }
}

impl<
    F: Fn(Global, &mut Cursor<'_>, Limits, bool, u8) -> Result<(Boxed<RawExpr>, usize), ReadError>,
    G: Fn(
        Global,
        &mut Cursor<'_>,
        Limits,
        Context<'_>,
    ) -> Result<(Items<RawStmt>, usize), ReadError>,
> Grammar<F, G> {
    #[tactic(auto, using(crate::proofs::ClauseLemmas::case_opened, std::proofs::lemmas::Grind::common_steps))]
    fn case_clause(
        &self,
        cursor: &mut Cursor<'_>,
        context: Context<'_>,
    ) -> Result<(RawCase, usize), ReadError>
        requires expr { NestsExpr self.now.limits (F.pre self.now.expr) (F.post self.now.expr) }
        requires stmt { NestsStmt self.now.limits (G.pre self.now.stmt) (G.post self.now.stmt) }
        ensures reads { Reads parts.sized_clause (clauses.case_clause self.now.limits (shown.context context.entry) cursor.old) result cursor.new }
        ensures low { IfOk result (λ x. x.1 ≤ self.now.limits.depth - 1) }
    {
        cursor.take();
        let (test, h) = self.closed_expr(cursor, Mark::Colon)?;
        let (body, i) = self.list(cursor, context)?;
        Ok((trees::clause(Some(test), body), h.max(i)))
    }

    /// A clause, or nothing behind the brace that ends them.
    fn clause(
        &self,
        cursor: &mut Cursor<'_>,
        context: Context<'_>,
        seen: bool,
        clause: Clause,
    ) -> Result<Option<(RawCase, usize)>, ReadError>
        requires expr { NestsExpr self.now.limits (F.pre self.now.expr) (F.post self.now.expr) }
        requires stmt { NestsStmt self.now.limits (G.pre self.now.stmt) (G.post self.now.stmt) }
        ensures reads { Reads (option_map parts.sized_clause) (clauses.clause self.now.limits (shown.context context.entry) seen (clauses.shown clause) cursor.old) result cursor.new }
        ensures low { IfOk result (λ x. IfSome x (λ y. y.1 ≤ self.now.limits.depth - 1)) }
    {
        match clause {
            Clause::Nothing => Err(ReadError::Fault(cursor.fault(Due::Token))),
            Clause::Case => Ok(Some(self.case_clause(cursor, context)?)),
            Clause::Default => {
                if seen {
                    return Err(ReadError::Fault(cursor.fault(Due::Token)));
                }
                Ok(Some(self.default_clause(cursor, context)?))
            }
            Clause::Close => {
                cursor.take();
                Ok(None)
            }
        }
    }

    /// Clauses behind others, up to the brace that ends them, and how high they are.
    fn clauses(
        &self,
        cursor: &mut Cursor<'_>,
        context: Context<'_>,
        found: &mut Items<RawCase>,
    ) -> Result<usize, ReadError>
        requires expr { NestsExpr self.now.limits (F.pre self.now.expr) (F.post self.now.expr) }
        requires stmt { NestsStmt self.now.limits (G.pre self.now.stmt) (G.post self.now.stmt) }
        ensures reads { Reads (λ h. (parts.clauses found.new, h)) (spec.clauses self.now.limits (shown.context context.entry) self.now.limits.turns false (parts.clauses found.old) 0 cursor.old) result cursor.new }
        ensures low { IfOk result (λ h. h ≤ self.now.limits.depth - 1) }
    {
        let mut height = 0;
        let mut seen = false;
        for _turn in 0..self.limits.turns {
            let clause = clause_of(cursor.kind());
            let Some((x, h)) = self.clause(cursor, context, seen, clause)? else {
                return Ok(height);
            };
            push(self.alloc, found, x)?;
            height = height.max(h);
            seen = sees_default(clause, seen);
        }
        Err(ReadError::Fault(cursor.stop(Cause::Spent)))
    }

    /// A `switch`.
    #[tactic(auto, using(crate::proofs::ClauseLemmas::switch_opened, std::proofs::lemmas::Grind::common_steps))]
    pub(crate) fn switch(
        &self,
        cursor: &mut Cursor<'_>,
        context: Context<'_>,
    ) -> Result<(Items<RawStmt>, usize), ReadError>
        requires expr { NestsExpr self.now.limits (F.pre self.now.expr) (F.post self.now.expr) }
        requires stmt { NestsStmt self.now.limits (G.pre self.now.stmt) (G.post self.now.stmt) }
        ensures reads { Reads shown.stmts (spec.started self.now.limits (shown.context context.entry) reading.is_switch cursor.old) result cursor.new }
        ensures low { IfOk result (λ x. x.1 ≤ self.now.limits.depth) }
    {
        self.room(cursor, 0)?;
        let place = cursor.take();
        let (e, h) = self.switch_head(cursor)?;
        let mut found = Items::new(self.alloc);
        let i = self.clauses(cursor, context.in_switch(), &mut found)?;
        sized(trees::switch(self.alloc, place, e, found), h.max(i) + 1)
    }
}

impl<
    F,
    G: Fn(
        Global,
        &mut Cursor<'_>,
        Limits,
        Context<'_>,
    ) -> Result<(Items<RawStmt>, usize), ReadError>,
> Grammar<F, G> {
    fn default_clause(
        &self,
        cursor: &mut Cursor<'_>,
        context: Context<'_>,
    ) -> Result<(RawCase, usize), ReadError>
        requires stmt { NestsStmt self.now.limits (G.pre self.now.stmt) (G.post self.now.stmt) }
        ensures reads { Reads parts.sized_clause (clauses.default_clause self.now.limits (shown.context context.entry) cursor.old) result cursor.new }
        ensures low { IfOk result (λ x. x.1 ≤ self.now.limits.depth - 1) }
    {
        cursor.take();
        cursor.expect(Mark::Colon)?;
        let (body, height) = self.list(cursor, context)?;
        Ok((trees::clause(None, body), height))
    }

    /// A block of a `try`.
    #[tactic(auto, unfolding(cc_grammar::specs::ReadingStatements::block_in))]
    fn block_in(
        &self,
        cursor: &mut Cursor<'_>,
        context: Context<'_>,
    ) -> Result<(Items<RawStmt>, usize), ReadError>
        requires stmt { NestsStmt self.now.limits (G.pre self.now.stmt) (G.post self.now.stmt) }
        ensures reads { Reads shown.stmts (spec.block_in self.now.limits (shown.context context.entry) cursor.old) result cursor.new }
        ensures low { IfOk result (λ x. x.1 < self.now.limits.depth) }
    {
        if !cursor.sees(Mark::OpenBrace) {
            return Err(ReadError::Fault(cursor.fault(Due::Token)));
        }
        self.inner_stmt(cursor, context.inside())
    }

    #[tactic(auto, unfolding(cc_grammar::specs::ReadingStatements::finally))]
    fn finally(
        &self,
        cursor: &mut Cursor<'_>,
        context: Context<'_>,
    ) -> Result<(Items<RawStmt>, usize), ReadError>
        requires stmt { NestsStmt self.now.limits (G.pre self.now.stmt) (G.post self.now.stmt) }
        ensures reads { Reads parts.sized_finally (spec.finally self.now.limits (shown.context context.entry) cursor.old) result cursor.new }
        ensures low { IfOk result (λ x. x.1 < self.now.limits.depth) }
    {
        cursor.take();
        self.block_in(cursor, context)
    }

    /// The `finally`, where there is one.
    fn maybe_finally(
        &self,
        cursor: &mut Cursor<'_>,
        context: Context<'_>,
    ) -> Result<(Option<Items<RawStmt>>, usize), ReadError>
        requires stmt { NestsStmt self.now.limits (G.pre self.now.stmt) (G.post self.now.stmt) }
        requires some { 0 < self.now.limits.depth }
        ensures reads { Reads steps.sized_finally (steps.maybe_finally self.now.limits (shown.context context.entry) cursor.old) result cursor.new }
        ensures low { IfOk result (λ x. x.1 < self.now.limits.depth) }
    {
        if !cursor.sees_word(Word::Finally) {
            return Ok((None, 0));
        }
        let (body, height) = self.finally(cursor, context)?;
        Ok((Some(body), height))
    }

    #[tactic(auto, unfolding(cc_grammar::specs::ReadingStatements::catch))]
    fn catch(
        &self,
        cursor: &mut Cursor<'_>,
        context: Context<'_>,
    ) -> Result<(RawCatch, usize), ReadError>
        requires stmt { NestsStmt self.now.limits (G.pre self.now.stmt) (G.post self.now.stmt) }
        ensures reads { Reads parts.sized_catch (spec.catch self.now.limits (shown.context context.entry) cursor.old) result cursor.new }
        ensures low { IfOk result (λ x. x.1 < self.now.limits.depth) }
    {
        cursor.take();
        cursor.expect(Mark::OpenParen)?;
        let variable = variable(self.alloc, cursor)?;
        let variable = closed(cursor, Mark::CloseParen, variable)?;
        let (body, height) = self.block_in(cursor, context)?;
        Ok((trees::catch(variable, body), height))
    }

    /// A `try` behind its `catch`.
    #[tactic(auto, using(crate::proofs::Opened::after_catch_opened, std::proofs::lemmas::Grind::common_steps))]
    fn after_catch(
        &self,
        cursor: &mut Cursor<'_>,
        context: Context<'_>,
        place: Place,
        body: (Items<RawStmt>, usize),
        caught: (RawCatch, usize),
    ) -> Result<(Items<RawStmt>, usize), ReadError>
        requires stmt { NestsStmt self.now.limits (G.pre self.now.stmt) (G.post self.now.stmt) }
        requires body { body.1 < self.now.limits.depth }
        requires caught { caught.1 < self.now.limits.depth }
        ensures reads { Reads shown.stmts (spec.after_catch self.now.limits (shown.context context.entry) place (shown.stmts body) (parts.sized_catch caught) cursor.old) result cursor.new }
        ensures low { IfOk result (λ x. x.1 ≤ self.now.limits.depth) }
    {
        let (body, h) = body;
        let (caught, i) = caught;
        let (finally, j) = self.maybe_finally(cursor, context)?;
        let made = trees::try_statement(self.alloc, place, body, Some(caught), finally);
        let _depth = self.limits.depth;
        sized(made, h.max(i.max(j)) + 1)
    }

    /// A `try` at its `catch`.
    fn caught(
        &self,
        cursor: &mut Cursor<'_>,
        context: Context<'_>,
        place: Place,
        body: (Items<RawStmt>, usize),
    ) -> Result<(Items<RawStmt>, usize), ReadError>
        requires stmt { NestsStmt self.now.limits (G.pre self.now.stmt) (G.post self.now.stmt) }
        requires body { body.1 < self.now.limits.depth }
        ensures reads { Reads shown.stmts (steps.caught self.now.limits (shown.context context.entry) place (shown.stmts body) cursor.old) result cursor.new }
        ensures low { IfOk result (λ x. x.1 ≤ self.now.limits.depth) }
    {
        let caught = self.catch(cursor, context)?;
        self.after_catch(cursor, context, place, body, caught)
    }

    /// A `try` with no `catch`, at its `finally`.
    fn uncaught(
        &self,
        cursor: &mut Cursor<'_>,
        context: Context<'_>,
        place: Place,
        body: (Items<RawStmt>, usize),
    ) -> Result<(Items<RawStmt>, usize), ReadError>
        requires stmt { NestsStmt self.now.limits (G.pre self.now.stmt) (G.post self.now.stmt) }
        requires body { body.1 < self.now.limits.depth }
        ensures reads { Reads shown.stmts (steps.uncaught self.now.limits (shown.context context.entry) place (shown.stmts body) cursor.old) result cursor.new }
        ensures low { IfOk result (λ x. x.1 ≤ self.now.limits.depth) }
    {
        let (body, h) = body;
        let (finally, i) = self.finally(cursor, context)?;
        let made = trees::try_statement(self.alloc, place, body, None, Some(finally));
        let _depth = self.limits.depth;
        sized(made, h.max(i) + 1)
    }

    /// A `try`.
    #[tactic(auto, using(crate::proofs::Opened::try_opened, std::proofs::lemmas::Grind::common_steps))]
    pub(crate) fn try_statement(
        &self,
        cursor: &mut Cursor<'_>,
        context: Context<'_>,
    ) -> Result<(Items<RawStmt>, usize), ReadError>
        requires stmt { NestsStmt self.now.limits (G.pre self.now.stmt) (G.post self.now.stmt) }
        ensures reads { Reads shown.stmts (spec.started self.now.limits (shown.context context.entry) reading.is_try cursor.old) result cursor.new }
        ensures low { IfOk result (λ x. x.1 ≤ self.now.limits.depth) }
    {
        self.room(cursor, 1)?;
        let place = cursor.take();
        let body = self.block_in(cursor, context)?;
        if cursor.sees_word(Word::Catch) {
            return self.caught(cursor, context, place, body);
        }
        if !cursor.sees_word(Word::Finally) {
            return Err(ReadError::Fault(cursor.fault(Due::Token)));
        }
        self.uncaught(cursor, context, place, body)
    }
}
