//! Statements, by the grammar of `cc_grammar`: each reader here answers what the reading function of
//! `cc_grammar/specs/Reading` says of the tokens.
//!
//! Readers, their contracts and their proofs have the form of those of `cc_expr`. A reader is a method of
//! `Grammar`, or of `Statements` where it may have an expression that is as high as the statement.
//! `specs/ReadsStatements.antt` names the definitions. What stands inside, and such expressions, are
//! read by the values that `Grammar` and `Statements` hold, of which a reader requires `NestsExpr`,
//! `NestsStmt`, `NestsWhole` or `NestsBegun` (`cc_trees/specs/Nests.antt`), so statements are proved
//! without expressions.
#![tactic(auto)]

mod bodies;
mod clauses;
mod declarators;
mod grammar;
mod jumps;
mod loops;
mod plain;
mod room;
mod statement;
mod statements;

pub use crate::grammar::{Grammar, Statements};
