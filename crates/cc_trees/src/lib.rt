//! Trees of sources made from their parts, as the grammar of `cc_grammar` makes them: expressions,
//! statements, and what is written to. `specs/Nests` says what is asked of values that read trees.
#![tactic(auto)]

pub mod answers;
pub mod function;
pub mod lists;
pub mod statement_trees;
pub mod targets;
pub mod trees;
