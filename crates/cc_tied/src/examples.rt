//! Small phases that keep what a program does, one for each shape that a phase may have. They show
//! how a phase is proved; no program is compiled by them.

ghost use Rattle.cc_tied.specs.FoldExample.{FoldingKeeps};
ghost use Rattle.cc_tied.specs.DropExample.{DroppingKeeps};
ghost use Rattle.cc_tied.specs.InlineExample.{InliningKeeps};

/// Sums of literals become literals, and `&&` with a literal on the left the operand that it
/// chooses, in whichever scopes.
pub fn folding_keeps()
    ensures { FoldingKeeps }
{}

/// Statements of a pure expression go, and so do declarators of places that are never read, with
/// their pure values, in whichever scopes.
pub fn dropping_keeps()
    ensures { DroppingKeeps }
{}

/// Calls of known functions whose body is one `return` become copies of what is returned, under the
/// price of the call, in whichever scopes.
pub fn inlining_keeps()
    ensures { InliningKeeps }
{}
