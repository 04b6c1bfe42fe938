//! Trees as they are read: with names in place of variables, functions in their places, and places
//! in place of sites. Contracts see them as the plain trees of `cc_grammar/specs/RawTree`, by
//! `specs/Bridge`.
#![tactic(auto)]

pub mod tree;
