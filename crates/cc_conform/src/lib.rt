//! The rules of conforming programs as tests. `judge` answers for an act that is about to happen
//! the least rule that it breaks, exactly as the meaning tells it. Nothing takes memory.
#![tactic(auto)]

pub mod act;
mod array_uses;
mod built_ins;
pub mod calls;
pub mod docs;
mod fields;
mod global_uses;
pub mod host;
pub mod judge;
mod keys;
mod look_up;
pub mod names;
mod object_uses;
mod operands;
pub mod operators;
mod places;
pub mod prototypes;
pub mod reads;
mod rules;
mod slots;
mod text_uses;
mod types;
pub mod variables;
pub mod writes;
