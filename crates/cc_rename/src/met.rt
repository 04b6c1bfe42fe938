// What takes part in naming.

use cc_ast::tree::Ref;

/// A mention or declaration of a variable, a function by its scope's number, or the variable of a
/// `catch` clause; each with the number of `catch` clauses of the same scope around it.
#[derive(Clone, Copy)]
pub enum Met {
    Variable(usize, Ref),
    Function(usize, u32),
    Clause(usize),
}
