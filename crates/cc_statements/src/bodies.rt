// Lists of statements, and functions (ECMA-262 5.1, 13).

ghost use Rattle.std.specs.Prelude.{◌≡◌, ◌≤◌, ◌-◌, [], map, IfOk};
ghost use Rattle.cc_grammar.specs.Reading as reading;
ghost use Rattle.cc_raw.specs.Bridge.{raw_stmt};
ghost use Rattle.cc_trees.specs.StatementParts as parts;
ghost use Rattle.cc_cursor.specs.Shown as shown;
ghost use Rattle.cc_statements.specs.ReadsStatements as spec;
ghost use Rattle.cc_cursor.specs.Reads.{Reads};
ghost use Rattle.cc_trees.specs.Nests.{NestsStmt};

use crate::grammar::Grammar;
use cc_cursor::context::Context;
use cc_cursor::cursor::Cursor;
use cc_cursor::error::{Cause, ReadError};
use cc_cursor::lexeme::Kind;
use cc_cursor::limits::Limits;
use cc_cursor::names::params_of;
use cc_lexer::token::Mark;
use cc_lexer::word::Word;
use cc_raw::tree::RawStmt;
use cc_trees::answers::closed;
use cc_trees::function::Function;
use cc_trees::lists::append;
use sqlite_items::Items;
use std::alloc::Global;

/// Whether a token ends a list of statements.
fn ends_list(kind: Kind<'_>) -> bool
    ensures { result ≡ reading.ends_list (shown.kind kind.entry) }
{
    match kind {
        Kind::Mark(mark) => matches!(mark, Mark::CloseBrace),
        Kind::Word(word) => matches!(word, Word::Case | Word::Default),
        Kind::End => true,
        _ => false,
    }
}

impl<
    F,
    G: Fn(
        Global,
        &mut Cursor<'_>,
        Limits,
        Context<'_>,
    ) -> Result<(Items<RawStmt>, usize), ReadError>,
> Grammar<F, G> {
    /// Statements behind others, up to what ends their list, and how high they are.
    fn statements(
        &self,
        cursor: &mut Cursor<'_>,
        context: Context<'_>,
        found: &mut Items<RawStmt>,
    ) -> Result<usize, ReadError>
        requires { NestsStmt self.now.limits (G.pre self.now.stmt) (G.post self.now.stmt) }
        ensures reads { Reads (λ h. (map raw_stmt found.new, h)) (spec.list self.now.limits (shown.context context.entry) self.now.limits.turns (map raw_stmt found.old) 0 cursor.old) result cursor.new }
        ensures low { IfOk result (λ h. h ≤ self.now.limits.depth - 1) }
    {
        let mut height = 0;
        for _turn in 0..self.limits.turns {
            if ends_list(cursor.kind()) {
                return Ok(height);
            }
            let (stmts, h) = self.inner_stmt(cursor, context)?;
            append(found, stmts)?;
            height = height.max(h);
        }
        Err(ReadError::Fault(cursor.stop(Cause::Spent)))
    }

    /// Statements up to what ends their list.
    pub fn list(
        &self,
        cursor: &mut Cursor<'_>,
        context: Context<'_>,
    ) -> Result<(Items<RawStmt>, usize), ReadError>
        requires { NestsStmt self.now.limits (G.pre self.now.stmt) (G.post self.now.stmt) }
        ensures reads { Reads shown.stmts (spec.list self.now.limits (shown.context context.entry) self.now.limits.turns [] 0 cursor.old) result cursor.new }
        ensures low { IfOk result (λ x. x.1 ≤ self.now.limits.depth - 1) }
    {
        let mut found = Items::new(self.alloc);
        let height = self.statements(cursor, context, &mut found)?;
        Ok((found, height))
    }

    /// Statements up to a brace, and the brace.
    #[tactic(auto, unfolding(cc_grammar::specs::ReadingExpressions::body))]
    pub(crate) fn body(
        &self,
        cursor: &mut Cursor<'_>,
        context: Context<'_>,
    ) -> Result<(Items<RawStmt>, usize), ReadError>
        requires { NestsStmt self.now.limits (G.pre self.now.stmt) (G.post self.now.stmt) }
        ensures reads { Reads shown.stmts (spec.body self.now.limits (shown.context context.entry) cursor.old) result cursor.new }
        ensures low { IfOk result (λ x. x.1 ≤ self.now.limits.depth - 1) }
    {
        let found = self.list(cursor, context)?;
        closed(cursor, Mark::CloseBrace, found)
    }

    /// A function behind its name.
    #[tactic(auto, unfolding(cc_grammar::specs::ReadingExpressions::function))]
    pub fn function(&self, cursor: &mut Cursor<'_>) -> Result<(Function, usize), ReadError>
        requires { NestsStmt self.now.limits (G.pre self.now.stmt) (G.post self.now.stmt) }
        ensures reads { Reads parts.sized_function (spec.function self.now.limits cursor.old) result cursor.new }
        ensures low { IfOk result (λ x. x.1 ≤ self.now.limits.depth - 1) }
    {
        cursor.expect(Mark::OpenParen)?;
        let params = params_of(self.alloc, cursor, self.limits.turns)?;
        let params = closed(cursor, Mark::OpenBrace, params)?;
        let (body, height) = self.body(cursor, Context::of_function())?;
        Ok((Function { params, body }, height))
    }
}
