// Statements and lists of them.
ghost use Rattle.std.specs.Prelude.{◌≡◌, ◌++◌, ◌∷◌, [], codes, IfOk, OnOk, Some, None, map, if◌then◌else◌};
ghost use Rattle.cc_ast.specs.Bridge.{term, terms};
ghost use Rattle.cc_ast.specs.StmtBridge.{declarator, term_stmt, term_stmts};
ghost use Rattle.cc_ast.specs.Syntax as S;
ghost use Rattle.cc_driver.specs.declared.spelling.Piece.TheVariants as piece;
ghost use Rattle.cc_driver.specs.Shapes.{spell_call, spell_declaration};
ghost use Rattle.cc_driver.specs.Spelling.{join, spell_declarator, spell_statement, spell_statements};

use crate::spelling::Piece;
use crate::spelling::parts::push_bytes;
use crate::spelling::shape::{Shape, shape_of};
use crate::spelling::value::{push_value, push_values};
use cc_ast::tree::{Declarator, Expr, Ref, Stmt};
use sqlite_items::Items;
use std::alloc::{AllocError, Global};

/// Puts the pieces of statements at the end, or answers false where one of them is outside the
/// form.
#[tactic(auto, using(crate::proofs::SpellingLaws::spelling))]
pub fn push_statements(
    alloc: Global,
    pieces: &mut Items<Piece>,
    statements: &[Stmt],
) -> Result<bool, AllocError>
    ensures { IfOk result (λ fits. (if fits then Some pieces.new else None)
        ≡ join (Some pieces.old) (spell_statements (term_stmts statements.now))) }
{
    for statement in statements {
        if !push_statement(alloc, pieces, statement)? {
            return Ok(false);
        }
    }
    Ok(true)
}

#[tactic(auto, using(cc_ast::specs::StmtTerms::stmt_steps, crate::proofs::SpellingLaws::simple_site, crate::proofs::SpellingLaws::vars_site))]
fn push_statement(
    alloc: Global,
    pieces: &mut Items<Piece>,
    statement: &Stmt,
) -> Result<bool, AllocError>
    ensures { IfOk result (λ fits. (if fits then Some pieces.new else None)
        ≡ join (Some pieces.old) (spell_statement (term_stmt statement.now))) }
{
    match statement {
        Stmt::Simple(_, e) => push_simple(alloc, pieces, e.get()),
        Stmt::Var(_, declarators) => push_var(alloc, pieces, declarators.as_slice()),
        Stmt::Fun(_, _, _) => Ok(false),
        Stmt::If(_, _, _, _) => Ok(false),
        Stmt::While(_, _, _) => Ok(false),
        Stmt::DoWhile(_, _, _) => Ok(false),
        Stmt::For(_, _, _, _, _) => Ok(false),
        Stmt::ForIn(_, _, _, _) => Ok(false),
        Stmt::Return(_, _) => Ok(false),
        Stmt::Throw(_, _) => Ok(false),
        Stmt::Break(_, _) => Ok(false),
        Stmt::Continue(_, _) => Ok(false),
        Stmt::Label(_, _, _) => Ok(false),
        Stmt::Switch(_, _, _) => Ok(false),
        Stmt::Try(_, _, _, _) => Ok(false),
        Stmt::Tick(_, _) => Ok(false),
    }
}

/// The statement that is this expression: a call of a global.
fn push_simple(alloc: Global, pieces: &mut Items<Piece>, e: &Expr) -> Result<bool, AllocError>
    ensures { IfOk result (λ fits. (if fits then Some pieces.new else None)
        ≡ join (Some pieces.old) (spell_statement (S.simple 0 (term e.now)))) }
{
    match shape_of(e) {
        Shape::Call(f, arguments) => match shape_of(f) {
            Shape::Global(g) => push_call(alloc, pieces, g, arguments),
            Shape::Text(_) => Ok(false),
            Shape::Whole(_) => Ok(false),
            Shape::Call(_, _) => Ok(false),
            Shape::Other => Ok(false),
        },
        Shape::Global(_) => Ok(false),
        Shape::Text(_) => Ok(false),
        Shape::Whole(_) => Ok(false),
        Shape::Other => Ok(false),
    }
}

#[tactic(auto, using(crate::proofs::SpellingLaws::spelling))]
fn push_call(
    alloc: Global,
    pieces: &mut Items<Piece>,
    callee: u32,
    arguments: &Items<Expr>,
) -> Result<bool, AllocError>
    ensures { IfOk result (λ fits. (if fits then Some pieces.new else None)
        ≡ join (Some pieces.old) (spell_call callee (terms arguments.now))) }
{
    push_called(alloc, pieces, callee)?;
    if !push_values(alloc, pieces, arguments.as_slice())? {
        return Ok(false);
    }
    push_bytes(alloc, pieces, b");")?;
    Ok(true)
}

fn push_called(alloc: Global, pieces: &mut Items<Piece>, callee: u32) -> Result<(), AllocError>
    ensures { OnOk result (pieces.new ≡ pieces.old ++ piece.Global callee ∷ piece.Bytes (codes "(") ∷ []) }
{
    pieces.push(Piece::Global(callee))?;
    push_bytes(alloc, pieces, b"(")
}

/// The `var` statement of these declarators: of one.
fn push_var(
    alloc: Global,
    pieces: &mut Items<Piece>,
    declarators: &[Declarator],
) -> Result<bool, AllocError>
    ensures { IfOk result (λ fits. (if fits then Some pieces.new else None)
        ≡ join (Some pieces.old) (spell_statement (S.vars 0 (map declarator declarators.now)))) }
{
    match declarators {
        [] => Ok(false),
        [only] => push_declarator(alloc, pieces, only),
        [_, _, ..] => Ok(false),
    }
}

#[tactic(auto, unfolding(cc_ast::specs::StmtBridge::declarator, cc_ast::specs::Bridge::option_term))]
fn push_declarator(
    alloc: Global,
    pieces: &mut Items<Piece>,
    declared: &Declarator,
) -> Result<bool, AllocError>
    ensures { IfOk result (λ fits. (if fits then Some pieces.new else None)
        ≡ join (Some pieces.old) (spell_declarator (declarator declared.now))) }
{
    match declared.variable {
        Ref::Global(g) => match &declared.value {
            Some(value) => push_declaration(alloc, pieces, g, value.get()),
            None => Ok(false),
        },
        Ref::Frame(_, _) => Ok(false),
    }
}

#[tactic(auto, using(crate::proofs::SpellingLaws::spelling))]
fn push_declaration(
    alloc: Global,
    pieces: &mut Items<Piece>,
    variable: u32,
    value: &Expr,
) -> Result<bool, AllocError>
    ensures { IfOk result (λ fits. (if fits then Some pieces.new else None)
        ≡ join (Some pieces.old) (spell_declaration variable (term value.now))) }
{
    push_declared(alloc, pieces, variable)?;
    if !push_value(alloc, pieces, value)? {
        return Ok(false);
    }
    push_bytes(alloc, pieces, b";")?;
    Ok(true)
}

fn push_declared(alloc: Global, pieces: &mut Items<Piece>, variable: u32) -> Result<(), AllocError>
    ensures { OnOk result (pieces.new ≡ pieces.old ++ piece.Bytes (codes "var ") ∷ piece.Global variable ∷ piece.Bytes (codes "=") ∷ []) }
{
    push_bytes(alloc, pieces, b"var ")?;
    pieces.push(Piece::Global(variable))?;
    push_bytes(alloc, pieces, b"=")
}
