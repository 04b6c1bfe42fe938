//! That scopes and programs may pass between threads, and be shared by them: the lemmas on which a
//! crate with workers rests stand in `proofs/Crosses`. Its public functions are calls that a check
//! proves, one for each type that workers hand on.
#![tactic(auto)]

use cc_ast::program::{Program, Scope};
use std::sync::Arc;

fn crosses_threads<T: Send + Sync>(_value: &T) {}

/// A scope passes between threads.
pub fn scopes_cross(scope: &Scope) {
    crosses_threads(scope);
}

/// A program passes between threads.
pub fn programs_cross(program: &Program) {
    crosses_threads(program);
}

/// Threads may share a program.
pub fn shared_programs_cross(program: &Arc<Program>) {
    crosses_threads(program);
}
