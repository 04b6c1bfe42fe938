// Whether folding keeps each node of the parts of statements that hold expressions.
ghost use Rattle.std.specs.Prelude.{◌≡◌, map};
ghost use Rattle.cc_ast.specs.Bridge.{option_term};
ghost use Rattle.cc_ast.specs.StmtBridge.{declarator, for_init, for_target};
ghost use Rattle.cc_ast.specs.Syntax as plain;
ghost use Rattle.cc_fold.specs.Keeps.{keeps_declarator, keeps_declarators, keeps_init, keeps_names, keeps_option};

use crate::keeps::expression::{keeps_expr, keeps_target};
use cc_ast::tree::{Declarator, Expr, ForInit, ForTarget};
use sqlite_items::{Boxed, Items};

#[tactic(auto, using(crate::proofs::KeepStmts::option_steps), unfolding(cc_ast::specs::Bridge::option_term))]
pub fn keeps_option(e: &Option<Boxed<Expr>>) -> bool
    ensures { result ≡ keeps_option (option_term e.now) }
{
    match e {
        None => true,
        Some(e) => keeps_expr(e.get()),
    }
}

#[tactic(auto, using(crate::proofs::KeepStmts::declarator_at), unfolding(cc_ast::specs::StmtBridge::declarator))]
fn keeps_declarator(d: &Declarator) -> bool
    ensures { result ≡ keeps_declarator (declarator d.now) }
{
    keeps_option(&d.value)
}

pub fn keeps_declarators(declarators: &Items<Declarator>) -> bool
    ensures { result ≡ keeps_declarators (map declarator declarators.now) }
{
    for d in declarators.as_slice() {
        if !keeps_declarator(d) {
            return false;
        }
    }
    true
}

// Folding leaves nothing of an empty list of declarators.
#[tactic(auto, using(crate::proofs::KeepStmts::init_none, crate::proofs::KeepStmts::init_some))]
fn keeps_declared(declarators: &Items<Declarator>) -> bool
    ensures { result ≡ keeps_init (plain.init_vars (map declarator declarators.now)) }
{
    if declarators.is_empty() {
        false
    } else {
        keeps_declarators(declarators)
    }
}

/// The same of what a `for` begins with.
#[tactic(auto, using(crate::proofs::KeepStmts::init_steps), unfolding(cc_ast::specs::StmtBridge::for_init))]
pub fn keeps_init(init: &ForInit) -> bool
    ensures { result ≡ keeps_init (for_init init.now) }
{
    match init {
        ForInit::Nothing => true,
        ForInit::Value(e) => keeps_expr(e.get()),
        ForInit::Declared(declarators) => keeps_declared(declarators),
    }
}

/// The same of what a `for-in` writes each name to.
#[tactic(auto, using(crate::proofs::KeepStmts::names_steps), unfolding(cc_ast::specs::StmtBridge::for_target))]
pub fn keeps_names(names: &ForTarget) -> bool
    ensures { result ≡ keeps_names (for_target names.now) }
{
    match names {
        ForTarget::Target(t) => keeps_target(t.get()),
        ForTarget::Declared(d) => keeps_declarator(d.get()),
    }
}
