//! What a run does to its state, act by act: each act is judged, and then it happens. A function
//! here answers exactly what the meaning says of its act, in the checked and in the plain run, for
//! the program that stands in its setting. Want of memory alone is free.
#![tactic(auto)]

pub mod copies;
pub mod costs;
pub mod fields;
pub mod frames;
pub mod globals;
pub mod keys;
pub mod makes;
pub mod operators;
pub mod reads;
pub mod receives;
pub mod script;
pub mod setting;
pub mod slots;
pub mod state;
pub mod stop;
pub mod views;
pub mod writes;
