//! The words of a command line: which job they ask for, or the first thing that is wrong with
//! them. `read_words` serves the calls that compile, `read_replay` the one that replays; both
//! answer exactly what specs/Readings.antt says of the words, by the table of flags in
//! specs/Flags.antt.
#![tactic(auto)]

mod check;
mod chunk;
mod cut;
mod define;
mod flag;
mod form;
mod given;
mod item;
mod job;
mod limit;
mod missing;
mod names;
mod number;
mod output;
mod read;
mod settings;
mod text;
mod together;
mod usage;

pub use job::{Define, DefineValue, Job, Output, ReplayJob, Synthesis, Wrapper};
pub use read::{read_replay, read_words};
pub use usage::{Usage, UsageKind};
