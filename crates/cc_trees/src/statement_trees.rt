// The trees of statements.

ghost use Rattle.std.specs.Prelude.{◌≡◌, [], ◌∷◌, map, Some, IfOk};
ghost use Rattle.cc_grammar.specs.RawTree as raw;
ghost use Rattle.cc_raw.specs.Bridge.{named, raw_expr, raw_for_target, raw_init, raw_stmt, raw_target};
ghost use Rattle.cc_trees.specs.StatementParts as parts;

use crate::lists::only;
use cc_ast::place::Place;
use cc_ast::units::Units;
use cc_raw::tree::{
    Named, RawCase, RawCatch, RawDeclaration, RawDeclarator, RawExpr, RawForHead, RawForTarget,
    RawHandlers, RawInit, RawStmt, RawTarget,
};
use sqlite_items::{Boxed, Items};
use std::alloc::{AllocError, Global};

/// A jump with an optional label.
#[derive(Clone, Copy)]
pub enum Jump {
    Continue,
    Break,
}

/// An expression statement.
#[tactic(auto, using(cc_raw::specs::StmtTerms::raw_stmt_steps, crate::proofs::PartLemmas::part_steps))]
pub fn simple(alloc: Global, place: Place, e: Boxed<RawExpr>) -> Result<Items<RawStmt>, AllocError>
    ensures { IfOk result (λ ss. map raw_stmt ss ≡ raw.simple place (raw_expr e) ∷ []) }
{
    only(alloc, RawStmt::Simple(place, e))
}

/// A `var` statement.
#[tactic(auto, using(cc_raw::specs::StmtTerms::raw_stmt_steps, crate::proofs::PartLemmas::part_steps))]
pub fn vars(
    alloc: Global,
    place: Place,
    declarators: Items<RawDeclarator>,
) -> Result<Items<RawStmt>, AllocError>
    ensures { IfOk result (λ ss. map raw_stmt ss ≡ raw.vars place (raw.declarators (parts.declarators declarators)) ∷ []) }
{
    only(alloc, RawStmt::Vars(place, declarators))
}

/// A function declaration.
#[tactic(auto, using(cc_raw::specs::StmtTerms::raw_stmt_steps, crate::proofs::PartLemmas::part_steps))]
pub fn declaration(
    alloc: Global,
    place: Place,
    name: Named,
    params: Items<Named>,
    body: Items<RawStmt>,
) -> Result<Items<RawStmt>, AllocError>
    ensures { IfOk result (λ ss. map raw_stmt ss ≡ raw.fun_decl place (named name) (map named params) (parts.body body) ∷ []) }
{
    let declaration = Boxed::new(alloc, RawDeclaration { name, params, body })?;
    only(alloc, RawStmt::FunDecl(place, declaration))
}

/// An `if`.
#[tactic(auto, using(cc_raw::specs::StmtTerms::raw_stmt_steps, crate::proofs::PartLemmas::part_steps))]
pub fn choice(
    alloc: Global,
    place: Place,
    test: Boxed<RawExpr>,
    then: Items<RawStmt>,
    otherwise: Items<RawStmt>,
) -> Result<Items<RawStmt>, AllocError>
    ensures { IfOk result (λ ss. map raw_stmt ss ≡ raw.if place (raw_expr test) (parts.body then) (parts.body otherwise) ∷ []) }
{
    only(alloc, RawStmt::If(place, test, then, otherwise))
}

/// A `while`.
#[tactic(auto, using(cc_raw::specs::StmtTerms::raw_stmt_steps, crate::proofs::PartLemmas::part_steps))]
pub fn while_loop(
    alloc: Global,
    place: Place,
    test: Boxed<RawExpr>,
    body: Items<RawStmt>,
) -> Result<Items<RawStmt>, AllocError>
    ensures { IfOk result (λ ss. map raw_stmt ss ≡ raw.while place (raw_expr test) (parts.body body) ∷ []) }
{
    only(alloc, RawStmt::While(place, test, body))
}

/// A `do`.
#[tactic(auto, using(cc_raw::specs::StmtTerms::raw_stmt_steps, crate::proofs::PartLemmas::part_steps))]
pub fn do_while(
    alloc: Global,
    place: Place,
    body: Items<RawStmt>,
    test: Boxed<RawExpr>,
) -> Result<Items<RawStmt>, AllocError>
    ensures { IfOk result (λ ss. map raw_stmt ss ≡ raw.do_while place (parts.body body) (raw_expr test) ∷ []) }
{
    only(alloc, RawStmt::DoWhile(place, body, test))
}

/// A `for`.
#[tactic(auto, using(cc_raw::specs::StmtTerms::raw_stmt_steps, crate::proofs::PartLemmas::part_steps))]
pub fn for_loop(
    alloc: Global,
    place: Place,
    init: RawInit,
    test: Option<Boxed<RawExpr>>,
    step: Option<Boxed<RawExpr>>,
    body: Items<RawStmt>,
) -> Result<Items<RawStmt>, AllocError>
    ensures { IfOk result (λ ss. map raw_stmt ss ≡ raw.for place (raw_init init) (parts.optional test) (parts.optional step) (parts.body body) ∷ []) }
{
    let head = Boxed::new(alloc, RawForHead { init, test, step })?;
    only(alloc, RawStmt::For(place, head, body))
}

/// A `for-in`.
#[tactic(auto, using(cc_raw::specs::StmtTerms::raw_stmt_steps, crate::proofs::PartLemmas::part_steps))]
pub fn for_in(
    alloc: Global,
    place: Place,
    target: RawForTarget,
    e: Boxed<RawExpr>,
    body: Items<RawStmt>,
) -> Result<Items<RawStmt>, AllocError>
    ensures { IfOk result (λ ss. map raw_stmt ss ≡ raw.for_in place (raw_for_target target) (raw_expr e) (parts.body body) ∷ []) }
{
    only(alloc, RawStmt::ForIn(place, target, e, body))
}

/// A `return`.
#[tactic(auto, using(cc_raw::specs::StmtTerms::raw_stmt_steps, crate::proofs::PartLemmas::part_steps))]
pub fn returned(
    alloc: Global,
    place: Place,
    value: Option<Boxed<RawExpr>>,
) -> Result<Items<RawStmt>, AllocError>
    ensures { IfOk result (λ ss. map raw_stmt ss ≡ raw.return place (parts.optional value) ∷ []) }
{
    only(alloc, RawStmt::Return(place, value))
}

/// A `throw`.
#[tactic(auto, using(cc_raw::specs::StmtTerms::raw_stmt_steps, crate::proofs::PartLemmas::part_steps))]
pub fn throw(alloc: Global, place: Place, e: Boxed<RawExpr>) -> Result<Items<RawStmt>, AllocError>
    ensures { IfOk result (λ ss. map raw_stmt ss ≡ raw.throw place (raw_expr e) ∷ []) }
{
    only(alloc, RawStmt::Throw(place, e))
}

/// A labelled statement.
#[tactic(auto, using(cc_raw::specs::StmtTerms::raw_stmt_steps, crate::proofs::PartLemmas::part_steps))]
pub fn label(
    alloc: Global,
    place: Place,
    label: Units,
    body: Items<RawStmt>,
) -> Result<Items<RawStmt>, AllocError>
    ensures { IfOk result (λ ss. map raw_stmt ss ≡ raw.label place label (parts.body body) ∷ []) }
{
    only(alloc, RawStmt::Label(place, label, body))
}

/// A `switch`.
#[tactic(auto, using(cc_raw::specs::StmtTerms::raw_stmt_steps, crate::proofs::PartLemmas::part_steps))]
pub fn switch(
    alloc: Global,
    place: Place,
    e: Boxed<RawExpr>,
    clauses: Items<RawCase>,
) -> Result<Items<RawStmt>, AllocError>
    ensures { IfOk result (λ ss. map raw_stmt ss ≡ raw.switch place (raw_expr e) (raw.cases (parts.clauses clauses)) ∷ []) }
{
    only(alloc, RawStmt::Switch(place, e, clauses))
}

/// A `try`.
#[tactic(auto, using(cc_raw::specs::StmtTerms::raw_stmt_steps, crate::proofs::PartLemmas::part_steps))]
pub fn try_statement(
    alloc: Global,
    place: Place,
    body: Items<RawStmt>,
    catch: Option<RawCatch>,
    finally: Option<Items<RawStmt>>,
) -> Result<Items<RawStmt>, AllocError>
    ensures { IfOk result (λ ss. map raw_stmt ss ≡ raw.try place (parts.body body) (parts.catch catch) (parts.finally finally) ∷ []) }
{
    let handlers = Boxed::new(alloc, RawHandlers { catch, finally })?;
    only(alloc, RawStmt::Try(place, body, handlers))
}

/// A `continue` or a `break`.
#[tactic(auto, using(cc_raw::specs::StmtTerms::raw_stmt_steps, crate::proofs::PartLemmas::part_steps))]
pub fn make_jump(
    alloc: Global,
    jump: Jump,
    place: Place,
    label: Option<Units>,
) -> Result<Items<RawStmt>, AllocError>
    ensures { IfOk result (λ ss. map raw_stmt ss ≡ parts.jump jump place label ∷ []) }
{
    match jump {
        Jump::Continue => only(alloc, RawStmt::Continue(place, label)),
        Jump::Break => only(alloc, RawStmt::Break(place, label)),
    }
}

/// A variable of a `var`.
#[tactic(auto, using(cc_raw::specs::StmtTerms::raw_stmt_steps, crate::proofs::PartLemmas::part_steps))]
pub fn declarator(variable: Named, value: Option<Boxed<RawExpr>>) -> RawDeclarator
    ensures { parts.declarator result ≡ record { variable = named variable; value = parts.optional value } }
{
    RawDeclarator { variable, value }
}

/// A clause of a `switch`.
#[tactic(auto, using(cc_raw::specs::StmtTerms::raw_stmt_steps, crate::proofs::PartLemmas::part_steps))]
pub fn clause(test: Option<Boxed<RawExpr>>, body: Items<RawStmt>) -> RawCase
    ensures { parts.clause result ≡ record { test = parts.optional test; body = map raw_stmt body } }
{
    RawCase { test, body }
}

/// A `catch`.
#[tactic(auto, using(cc_raw::specs::StmtTerms::raw_stmt_steps, crate::proofs::PartLemmas::part_steps))]
pub fn catch(variable: Named, body: Items<RawStmt>) -> RawCatch
    ensures { parts.catch (Some result) ≡ raw.caught (named variable) (parts.body body) }
{
    RawCatch { variable, body }
}

/// A `for` that begins with an expression.
#[tactic(auto, using(cc_raw::specs::StmtTerms::raw_stmt_steps, crate::proofs::PartLemmas::part_steps))]
pub fn init_value(e: Boxed<RawExpr>) -> RawInit
    ensures { raw_init result ≡ raw.init_value (raw_expr e) }
{
    RawInit::Value(e)
}

/// A `for` that begins with variables.
#[tactic(auto, using(cc_raw::specs::StmtTerms::raw_stmt_steps, crate::proofs::PartLemmas::part_steps))]
pub fn init_vars(declarators: Items<RawDeclarator>) -> RawInit
    ensures { raw_init result ≡ raw.init_vars (raw.declarators (parts.declarators declarators)) }
{
    RawInit::Declarators(declarators)
}

/// A `for` that begins with nothing.
#[tactic(auto, using(cc_raw::specs::StmtTerms::raw_stmt_steps, crate::proofs::PartLemmas::part_steps))]
pub fn no_init() -> RawInit
    ensures { raw_init result ≡ raw.no_init }
{
    RawInit::Nothing
}

/// A `for-in` that writes to a target.
#[tactic(auto, using(cc_raw::specs::StmtTerms::raw_stmt_steps, crate::proofs::PartLemmas::part_steps))]
pub fn in_target(target: Boxed<RawTarget>) -> RawForTarget
    ensures { raw_for_target result ≡ raw.in_target (raw_target target) }
{
    RawForTarget::Target(target)
}

/// A `for-in` that declares a variable.
#[tactic(auto, using(cc_raw::specs::StmtTerms::raw_stmt_steps, crate::proofs::PartLemmas::part_steps))]
pub fn in_declared(declarator: Boxed<RawDeclarator>) -> RawForTarget
    ensures { raw_for_target result ≡ raw.in_declared (parts.declarator declarator).variable (parts.declarator declarator).value }
{
    RawForTarget::Declared(declarator)
}
