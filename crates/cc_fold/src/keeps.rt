//! Whether folding keeps a scope as it is, by reference and without memory: who asks first spares the
//! copy of a scope that folding would leave the same.
ghost use Rattle.std.specs.Prelude.{◌≡◌};
ghost use Rattle.cc_fold.specs.Keeps.{keeps_scope};

mod expression;
mod parts;
mod statement;

use crate::built::Plan;
use crate::keeps::statement::keeps_stmts;
use cc_ast::program::Scope;

/// Whether each node of the scope stays. It may say no where folding keeps the scope too. The test asks
/// nothing of the plan, nor of the scope's number.
#[tactic(auto, using(crate::proofs::KeptScopes::body_keeps))]
pub fn keeps(_plan: &Plan, _slot: u32, scope: &Scope) -> bool
    ensures { result ≡ keeps_scope scope.now }
{
    keeps_stmts(scope.body.get())
}
