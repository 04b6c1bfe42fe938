// Array and object literals (ECMA-262 5.1, 11.1.4 and 11.1.5).

ghost use Rattle.std.specs.Prelude.{◌≡◌, ◌<◌, ◌≤◌, ◌-◌, map, IfOk, is_some};
ghost use Rattle.cc_grammar.specs.Signs as signs;
ghost use Rattle.cc_raw.specs.Bridge.{raw_expr};
ghost use Rattle.cc_expr.specs.Parts as parts;
ghost use Rattle.cc_cursor.specs.Shown as shown;
ghost use Rattle.cc_expr.specs.Expressions as spec;
ghost use Rattle.cc_cursor.specs.Reads.{Reads};
ghost use Rattle.cc_trees.specs.Nests.{NestsExpr};

use crate::grammar::Grammar;
use crate::lists::continues;
use cc_ast::place::Place;
use cc_ast::reading::Construct;
use cc_cursor::cursor::Cursor;
use cc_cursor::error::{Cause, Fault, ReadError};
use cc_cursor::keys::{is_accessor, key_of, owned_key};
use cc_cursor::lexeme::Kind;
use cc_cursor::limits::Limits;
use cc_cursor::refused::Due;
use cc_lexer::token::Mark;
use cc_raw::tree::{RawExpr, RawField, RawKey};
use cc_trees::answers::{closed, sized};
use cc_trees::lists::push;
use cc_trees::trees;
use sqlite_items::{Boxed, Items};
use std::alloc::Global;

/// Whether a token is a key of an object literal.
fn is_key(kind: Kind<'_>) -> bool
    ensures { result ≡ is_some (signs.key_of (shown.kind kind.entry)) }
{
    matches!(
        kind,
        Kind::Name(_) | Kind::Word(_) | Kind::Text(_) | Kind::Number(_)
    )
}

impl<F> Grammar<F> {
    // `get` or `set` before another key is refused.
    fn key(&self, cursor: &mut Cursor<'_>) -> Result<(Place, RawKey), ReadError>
        ensures { Reads parts.placed_key (spec.key self.now.limits cursor.old) result cursor.new }
    {
        let kind = cursor.kind();
        let Some(key) = key_of(kind) else {
            return Err(ReadError::Fault(cursor.fault(Due::Token)));
        };
        let place = cursor.take();
        if is_accessor(kind) && is_key(cursor.kind()) {
            let cause = Cause::Refused(Construct::Accessor);
            return Err(ReadError::Fault(Fault { cause, place }));
        }
        Ok((place, owned_key(self.alloc, key)?))
    }
}

impl<
    F: Fn(Global, &mut Cursor<'_>, Limits, bool, u8) -> Result<(Boxed<RawExpr>, usize), ReadError>,
> Grammar<F> {
    /// An element of an array literal behind others, how high it is, and whether the array goes on
    /// behind it.
    fn element(
        &self,
        cursor: &mut Cursor<'_>,
        found: &mut Items<RawExpr>,
    ) -> Result<(usize, bool), ReadError>
        requires { NestsExpr self.now.limits (F.pre self.now.expr) (F.post self.now.expr) }
        ensures reads { Reads (λ x. ((map raw_expr found.new, x.0), x.1)) (spec.element self.now.limits (map raw_expr found.old) cursor.old) result cursor.new }
        ensures low { IfOk result (λ x. x.0 < self.now.limits.depth) }
    {
        if cursor.sees(Mark::Comma) {
            return Err(ReadError::Fault(cursor.stop(Cause::Refused(Construct::Hole))));
        }
        self.push_expr(cursor, Mark::CloseBracket, found)
    }

    /// The elements of an array literal behind others, up to its closing bracket, and how high they
    /// are.
    fn elements(
        &self,
        cursor: &mut Cursor<'_>,
        found: &mut Items<RawExpr>,
    ) -> Result<usize, ReadError>
        requires { NestsExpr self.now.limits (F.pre self.now.expr) (F.post self.now.expr) }
        ensures reads { Reads (λ h. (map raw_expr found.new, h)) (spec.elements self.now.limits self.now.limits.turns (map raw_expr found.old) 0 cursor.old) result cursor.new }
        ensures low { IfOk result (λ h. h ≤ self.now.limits.depth - 1) }
    {
        let mut height = 0;
        for _turn in 0..self.limits.turns {
            if cursor.sees(Mark::CloseBracket) {
                cursor.take();
                return Ok(height);
            }
            let (h, more) = self.element(cursor, found)?;
            height = height.max(h);
            if !more {
                return Ok(height);
            }
        }
        Err(ReadError::Fault(cursor.stop(Cause::Spent)))
    }

    /// An array literal.
    #[tactic(auto, unfolding(cc_grammar::specs::ReadingExpressions::array))]
    pub(crate) fn array(
        &self,
        cursor: &mut Cursor<'_>,
    ) -> Result<(Boxed<RawExpr>, usize), ReadError>
        requires expr { NestsExpr self.now.limits (F.pre self.now.expr) (F.post self.now.expr) }
        requires some { 0 < self.now.limits.depth }
        ensures reads { Reads shown.expr (spec.array self.now.limits cursor.old) result cursor.new }
        ensures low { IfOk result (λ x. x.1 ≤ self.now.limits.depth) }
    {
        let place = cursor.take();
        let mut items = Items::new(self.alloc);
        let height = self.elements(cursor, &mut items)?;
        let _depth = self.limits.depth;
        sized(trees::list(self.alloc, place, items), height + 1)
    }

    #[tactic(auto, unfolding(cc_grammar::specs::ReadingExpressions::field), using(cc_raw::specs::StmtTerms::raw_stmt_steps))]
    fn field(&self, cursor: &mut Cursor<'_>) -> Result<(RawField, usize), ReadError>
        requires { NestsExpr self.now.limits (F.pre self.now.expr) (F.post self.now.expr) }
        ensures reads { Reads parts.sized_field (spec.field self.now.limits cursor.old) result cursor.new }
        ensures low { IfOk result (λ x. x.1 < self.now.limits.depth) }
    {
        let key = self.key(cursor)?;
        let (place, key) = closed(cursor, Mark::Colon, key)?;
        let (value, height) = self.inner_expr(cursor, true, 1)?;
        Ok((RawField { place, key, value }, height))
    }

    /// A key and its value behind others, how high the value is, and whether the object goes on
    /// behind it.
    fn push_field(
        &self,
        cursor: &mut Cursor<'_>,
        found: &mut Items<RawField>,
    ) -> Result<(usize, bool), ReadError>
        requires { NestsExpr self.now.limits (F.pre self.now.expr) (F.post self.now.expr) }
        ensures reads { Reads (λ x. ((map shown.field found.new, x.0), x.1)) (spec.pushed_field self.now.limits (map shown.field found.old) cursor.old) result cursor.new }
        ensures low { IfOk result (λ x. x.0 < self.now.limits.depth) }
    {
        let (field, height) = self.field(cursor)?;
        let Ok(()) = push(self.alloc, found, field) else {
            return Err(ReadError::Memory);
        };
        let more = continues(cursor, Mark::CloseBrace)?;
        Ok((height, more))
    }

    /// The keys and values of an object literal behind others, up to its closing brace, and how high
    /// they are.
    fn object_fields(
        &self,
        cursor: &mut Cursor<'_>,
        found: &mut Items<RawField>,
    ) -> Result<usize, ReadError>
        requires { NestsExpr self.now.limits (F.pre self.now.expr) (F.post self.now.expr) }
        ensures reads { Reads (λ h. (map shown.field found.new, h)) (spec.object_fields self.now.limits self.now.limits.turns (map shown.field found.old) 0 cursor.old) result cursor.new }
        ensures low { IfOk result (λ h. h ≤ self.now.limits.depth - 1) }
    {
        let mut height = 0;
        for _turn in 0..self.limits.turns {
            if cursor.sees(Mark::CloseBrace) {
                cursor.take();
                return Ok(height);
            }
            let (h, more) = self.push_field(cursor, found)?;
            height = height.max(h);
            if !more {
                return Ok(height);
            }
        }
        Err(ReadError::Fault(cursor.stop(Cause::Spent)))
    }

    /// An object literal.
    #[tactic(auto, unfolding(cc_grammar::specs::ReadingExpressions::object))]
    pub(crate) fn object(
        &self,
        cursor: &mut Cursor<'_>,
    ) -> Result<(Boxed<RawExpr>, usize), ReadError>
        requires expr { NestsExpr self.now.limits (F.pre self.now.expr) (F.post self.now.expr) }
        requires some { 0 < self.now.limits.depth }
        ensures reads { Reads shown.expr (spec.object self.now.limits cursor.old) result cursor.new }
        ensures low { IfOk result (λ x. x.1 ≤ self.now.limits.depth) }
    {
        let place = cursor.take();
        let mut fields = Items::new(self.alloc);
        let height = self.object_fields(cursor, &mut fields)?;
        let _depth = self.limits.depth;
        sized(trees::object(self.alloc, place, fields), height + 1)
    }
}
