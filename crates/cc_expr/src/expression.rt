// Expressions, by what they begin with (ECMA-262 5.1, 11).

ghost use Rattle.std.specs.Prelude.{◌≡◌, ◌<◌, ◌≤◌, ◌-◌, IfOk};
ghost use Rattle.cc_cursor.specs.Shown as shown;
ghost use Rattle.cc_cursor.specs.Reads.{Reads};
ghost use Rattle.cc_trees.specs.Nests.{NestsExpr, NestsFunction};
ghost use Rattle.cc_trees.specs.StatementParts as parts;
ghost use Rattle.cc_expr.specs.Expressions as spec;

use crate::grammar::Expressions;
use cc_cursor::cursor::Cursor;
use cc_cursor::error::{Cause, ReadError};
use cc_cursor::limits::Limits;
use cc_cursor::names::own_name;
use cc_cursor::refused::Due;
use cc_cursor::signs::{Head, Nested, head_of, prefix_of};
use cc_raw::tree::RawExpr;
use cc_trees::answers::sized;
use cc_trees::function::Function;
use cc_trees::trees;
use sqlite_items::Boxed;
use std::alloc::Global;

impl<
    F: Fn(Global, &mut Cursor<'_>, Limits, bool, u8) -> Result<(Boxed<RawExpr>, usize), ReadError>,
    H: Fn(Global, &mut Cursor<'_>, Limits) -> Result<(Function, usize), ReadError>,
> Expressions<F, H> {
    /// A function behind its name.
    fn function_of(&self, cursor: &mut Cursor<'_>) -> Result<(Function, usize), ReadError>
        requires { NestsFunction self.now.grammar.limits (H.pre self.now.function) (H.post self.now.function) }
        ensures reads { Reads parts.sized_function (spec.function self.now.grammar.limits cursor.old) result cursor.new }
        ensures low { IfOk result (λ x. x.1 ≤ self.now.grammar.limits.depth - 1) }
    {
        (self.function)(self.grammar.alloc, cursor, self.grammar.limits)
    }

    #[tactic(auto, unfolding(cc_grammar::specs::ReadingExpressions::function_expr))]
    fn function_expr(&self, cursor: &mut Cursor<'_>) -> Result<(Boxed<RawExpr>, usize), ReadError>
        requires function { NestsFunction self.now.grammar.limits (H.pre self.now.function) (H.post self.now.function) }
        requires some { 0 < self.now.grammar.limits.depth }
        ensures reads { Reads shown.expr (spec.function_expr self.now.grammar.limits cursor.old) result cursor.new }
        ensures low { IfOk result (λ x. x.1 ≤ self.now.grammar.limits.depth) }
    {
        let place = cursor.take();
        let own = own_name(self.grammar.alloc, cursor)?;
        let (function, height) = self.function_of(cursor)?;
        let Function { params, body } = function;
        let _depth = self.grammar.limits.depth;
        let made = trees::function(self.grammar.alloc, place, own, params, body);
        sized(made, height + 1)
    }

    fn nested(
        &self,
        cursor: &mut Cursor<'_>,
        with_in: bool,
        nested: Nested,
    ) -> Result<(Boxed<RawExpr>, usize), ReadError>
        requires expr { NestsExpr self.now.grammar.limits (F.pre self.now.grammar.expr) (F.post self.now.grammar.expr) }
        requires function { NestsFunction self.now.grammar.limits (H.pre self.now.function) (H.post self.now.function) }
        requires some { 0 < self.now.grammar.limits.depth }
        ensures reads { Reads shown.expr (spec.nested self.now.grammar.limits with_in nested cursor.old) result cursor.new }
        ensures low { IfOk result (λ x. x.1 ≤ self.now.grammar.limits.depth) }
    {
        match nested {
            Nested::Paren => self.grammar.parentheses(cursor),
            Nested::Array => self.grammar.array(cursor),
            Nested::Object => self.grammar.object(cursor),
            Nested::Function => self.function_expr(cursor),
            Nested::New => self.grammar.new_expr(cursor, with_in),
        }
    }

    /// A primary expression or `new`.
    #[tactic(auto, using(crate::proofs::HeadLemmas::primary_nothing, crate::proofs::HeadLemmas::primary_leaf))]
    fn primary(
        &self,
        cursor: &mut Cursor<'_>,
        with_in: bool,
    ) -> Result<(Boxed<RawExpr>, usize), ReadError>
        requires expr { NestsExpr self.now.grammar.limits (F.pre self.now.grammar.expr) (F.post self.now.grammar.expr) }
        requires function { NestsFunction self.now.grammar.limits (H.pre self.now.function) (H.post self.now.function) }
        ensures reads { Reads shown.expr (spec.primary self.now.grammar.limits with_in cursor.old) result cursor.new }
        ensures low { IfOk result (λ x. x.1 ≤ self.now.grammar.limits.depth) }
    {
        match head_of(cursor.kind()) {
            None => Err(ReadError::Fault(cursor.fault(Due::Operand))),
            Some(Head::Leaf(leaf)) => {
                let place = cursor.take();
                sized(trees::leaf_tree(self.grammar.alloc, leaf, place), 0)
            }
            Some(Head::Nested(nested)) => {
                if self.grammar.limits.depth == 0 {
                    return Err(ReadError::Fault(cursor.stop(Cause::Depth)));
                }
                self.nested(cursor, with_in, nested)
            }
        }
    }

    /// The callee of a `new`.
    fn callee(
        &self,
        cursor: &mut Cursor<'_>,
        with_in: bool,
    ) -> Result<(Boxed<RawExpr>, usize), ReadError>
        requires expr { NestsExpr self.now.grammar.limits (F.pre self.now.grammar.expr) (F.post self.now.grammar.expr) }
        requires function { NestsFunction self.now.grammar.limits (H.pre self.now.function) (H.post self.now.function) }
        ensures reads { Reads shown.expr (spec.callee self.now.grammar.limits with_in cursor.old) result cursor.new }
        ensures low { IfOk result (λ x. x.1 ≤ self.now.grammar.limits.depth) }
    {
        let (e, height) = self.primary(cursor, with_in)?;
        self.grammar.suffixes(cursor, false, e, height)
    }

    /// An expression of a level that begins with a primary expression.
    fn headed(
        &self,
        cursor: &mut Cursor<'_>,
        with_in: bool,
        level: u8,
    ) -> Result<(Boxed<RawExpr>, usize), ReadError>
        requires expr { NestsExpr self.now.grammar.limits (F.pre self.now.grammar.expr) (F.post self.now.grammar.expr) }
        requires function { NestsFunction self.now.grammar.limits (H.pre self.now.function) (H.post self.now.function) }
        ensures reads { Reads shown.expr (spec.headed self.now.grammar.limits with_in level cursor.old) result cursor.new }
        ensures low { IfOk result (λ x. x.1 ≤ self.now.grammar.limits.depth) }
    {
        let (e, height) = self.primary(cursor, with_in)?;
        self.grammar.after_head(cursor, with_in, level, e, height)
    }

    /// An expression of a level, which is that of the callee of `new`, or at most that of a unary
    /// expression.
    #[tactic(auto, unfolding(cc_grammar::specs::ReadingExpressions::expr_of))]
    pub fn expr_of(
        &self,
        cursor: &mut Cursor<'_>,
        with_in: bool,
        level: u8,
    ) -> Result<(Boxed<RawExpr>, usize), ReadError>
        requires expr { NestsExpr self.now.grammar.limits (F.pre self.now.grammar.expr) (F.post self.now.grammar.expr) }
        requires function { NestsFunction self.now.grammar.limits (H.pre self.now.function) (H.post self.now.function) }
        ensures reads { Reads shown.expr (spec.expr_of self.now.grammar.limits with_in level cursor.old) result cursor.new }
        ensures low { IfOk result (λ x. x.1 ≤ self.now.grammar.limits.depth) }
    {
        if level == 17 {
            return self.callee(cursor, with_in);
        }
        match prefix_of(cursor.kind()) {
            None => self.headed(cursor, with_in, level),
            Some(prefix) => self.grammar.signed(cursor, with_in, level, prefix),
        }
    }
}
