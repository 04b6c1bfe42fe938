//! The rules with which the core is shown: one list of two phases, `Clear`, whose meaning and law
//! stand in `specs/Clear`. Beside it, that claims and the rules and plans of workers may cross threads.
#![tactic(auto)]

pub mod clear;
pub mod threads;
