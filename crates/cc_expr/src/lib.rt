//! Expressions, by the grammar of `cc_grammar`: each reader here answers what the reading function of
//! `cc_grammar/specs/Reading` says of the tokens.
//!
//! A reader is a method of `Grammar`, or of `Expressions` where it may have a function inside. It takes
//! a `Cursor`, which contracts see as the list of tokens that are left, and answers a tree with its
//! height. Its contract says `Reads shown outcome result cursor.new` (`cc_cursor/specs/Reads.antt`): the
//! outcome of the definition of the same name is the tree that the answer shows and the tokens that
//! are left, or the fault that it answers, unless memory fails. `specs/Expressions.antt` names those
//! definitions.
//!
//! - What stands inside is read by the values that `Grammar` and `Expressions` hold. A reader that calls
//!   them requires `NestsExpr` or `NestsFunction` of them (`cc_trees/specs/Nests.antt`), so each reader
//!   is proved alone, and expressions without statements.
//! - A reader that has no loop has the attribute `unfolding(..)` with its definition, or `using(..)`
//!   with a lemma that opens it. Trees are made by functions that ensure what they show.
//! - A loop counts turns as its definition does. Its invariant says that the definition at the start
//!   is the definition at what is left, for the turns that are left, and its answers open one turn
//!   by `one_more`, or find none left by `no_more` (`cc_cursor/proofs/Turns.antt`).
//! - A height is within the depth of its reader, which `low` ensures. A read of the depth says that it
//!   fits its type, so that a sum of the height fits too.
#![tactic(auto)]

mod conditional;
mod expression;
mod grammar;
mod lists;
mod literals;
mod operators;
mod prefix;
mod primary;
mod suffix;

pub use crate::grammar::{Expressions, Grammar};
