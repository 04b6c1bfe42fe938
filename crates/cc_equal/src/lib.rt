//! Whether two trees are the same.
#![tactic(auto)]

mod declared;
mod expression;
mod leaf;
mod parts;
pub mod scope;
mod statement;
