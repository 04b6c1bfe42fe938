//! The store of a run as the machine holds it: objects with their slots, frames, and the classes
//! constructed. A heap stands for a `Store` of specs/Store.antt, and each call answers what the
//! definitions of the meaning say. No call asks anything of numbers: what isn't there has nothing.
#![tactic(auto)]

pub mod code;
mod frame;
pub mod heap;
pub mod names;
mod object;
pub mod slot;
mod slots;
