// The readers of expressions and statements, which call each other.

ghost use Rattle.std.specs.Prelude.{◌≡◌, ◌<◌, ◌≤◌, ◌-◌, true, IfOk};
ghost use Rattle.cc_raw.specs.Bridge.{raw_expr};
ghost use Rattle.cc_cursor.specs.Shown as shown;
ghost use Rattle.cc_cursor.specs.Reads.{Reads, within, expr_of};
ghost use Rattle.cc_trees.specs.Nests as nests;
ghost use Rattle.cc_trees.specs.StatementParts as parts;
ghost use Rattle.cc_statements.specs.ReadsStatements as spec;

use cc_cursor::context::Context;
use cc_cursor::cursor::Cursor;
use cc_cursor::error::{Cause, ReadError};
use cc_cursor::limits::Limits;
use cc_expr::Expressions;
use cc_raw::tree::{RawExpr, RawStmt};
use cc_statements::Statements;
use cc_trees::function::Function;
use sqlite_items::{Boxed, Items};
use std::alloc::Global;

/// An expression inside a tree that may still be so high.
#[cycle(reader)]
#[tactic(auto, using(crate::proofs::KnotLemmas::knot_steps, std::proofs::lemmas::Grind::common_steps))]
fn expr(
    alloc: Global,
    cursor: &mut Cursor<'_>,
    limits: Limits,
    with_in: bool,
    level: u8,
) -> Result<(Boxed<RawExpr>, usize), ReadError>
    ensures reads { Reads shown.expr ((within limits).expr with_in level cursor.old) result cursor.new }
    ensures low { IfOk result (λ x. x.1 < limits.depth) }
{
    if limits.depth == 0 {
        return Err(ReadError::Fault(cursor.stop(Cause::Depth)));
    }
    let limits = Limits {
        turns: limits.turns,
        depth: limits.depth - 1,
    };
    let grammar = cc_expr::Grammar {
        alloc,
        limits,
        expr,
    };
    Expressions { grammar, function }.expr_of(cursor, with_in, level)
}

/// A statement inside a tree that may still be so high.
#[cycle(reader)]
#[tactic(auto, using(crate::proofs::KnotLemmas::knot_steps, std::proofs::lemmas::Grind::common_steps))]
fn stmt(
    alloc: Global,
    cursor: &mut Cursor<'_>,
    limits: Limits,
    context: Context<'_>,
) -> Result<(Items<RawStmt>, usize), ReadError>
    ensures reads { Reads shown.stmts ((within limits).stmt (shown.context context.entry) cursor.old) result cursor.new }
    ensures low { IfOk result (λ x. x.1 < limits.depth) }
{
    if limits.depth == 0 {
        return Err(ReadError::Fault(cursor.stop(Cause::Depth)));
    }
    let limits = Limits {
        turns: limits.turns,
        depth: limits.depth - 1,
    };
    let grammar = cc_statements::Grammar {
        alloc,
        limits,
        expr,
        stmt,
    };
    Statements {
        grammar,
        whole,
        begun,
    }
    .stmt_of(cursor, context)
}

/// A function behind its name.
#[cycle(reader)]
fn function(
    alloc: Global,
    cursor: &mut Cursor<'_>,
    limits: Limits,
) -> Result<(Function, usize), ReadError>
    ensures reads { Reads parts.sized_function (nests.function limits cursor.old) result cursor.new }
    ensures low { IfOk result (λ x. x.1 ≤ limits.depth - 1) }
{
    let grammar = cc_statements::Grammar {
        alloc,
        limits,
        expr,
        stmt,
    };
    grammar.function(cursor)
}

/// An expression that is as high as the tree that is read.
#[cycle(reader)]
fn whole(
    alloc: Global,
    cursor: &mut Cursor<'_>,
    limits: Limits,
    level: u8,
) -> Result<(Boxed<RawExpr>, usize), ReadError>
    ensures reads { Reads shown.expr (expr_of limits true level cursor.old) result cursor.new }
    ensures low { IfOk result (λ x. x.1 ≤ limits.depth) }
{
    let grammar = cc_expr::Grammar {
        alloc,
        limits,
        expr,
    };
    Expressions { grammar, function }.expr_of(cursor, true, level)
}

/// Such an expression, which this one, of height 0, begins.
#[cycle(reader)]
fn begun(
    alloc: Global,
    cursor: &mut Cursor<'_>,
    limits: Limits,
    e: Boxed<RawExpr>,
) -> Result<(Boxed<RawExpr>, usize), ReadError>
    ensures reads { Reads shown.expr (nests.after_head limits true 0 (raw_expr e, 0) cursor.old) result cursor.new }
    ensures low { IfOk result (λ x. x.1 ≤ limits.depth) }
{
    let grammar = cc_expr::Grammar {
        alloc,
        limits,
        expr,
    };
    grammar.after_head(cursor, true, 0, e, 0)
}

/// The statements up to the end of the text.
#[tactic(auto, using(crate::proofs::KnotLemmas::program_opened, std::proofs::lemmas::Grind::common_steps))]
pub(crate) fn program(
    alloc: Global,
    cursor: &mut Cursor<'_>,
    limits: Limits,
) -> Result<(Items<RawStmt>, usize), ReadError>
    requires { limits.depth < 65535 }
    ensures reads { Reads shown.stmts (spec.program limits cursor.old) result cursor.new }
    ensures low { IfOk result (λ x. x.1 ≤ limits.depth) }
{
    let limits = Limits {
        turns: limits.turns,
        depth: limits.depth + 1,
    };
    let grammar = cc_statements::Grammar {
        alloc,
        limits,
        expr,
        stmt,
    };
    let found = grammar.list(cursor, Context::of_program())?;
    cursor.expect_end()?;
    Ok(found)
}
