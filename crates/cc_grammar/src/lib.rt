//! The grammar of programs with semicolon insertion, and the reading function (ECMA-262 5.1, 7.9
//! and 11 to 14).
#![tactic(auto)]

pub mod laws;
