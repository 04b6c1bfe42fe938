//! Flattening: accesses on namespaces become variables.
#![tactic(auto)]

pub mod laws;
