//! Files: the statements of a source file, its annotation comments, and its licence comments.
//!
//! `knot` ties the readers of `cc_expr` and `cc_statements`, which read what stands inside by values that they
//! are given: what is read inside is one level less deep. `read_list` answers what the laws of the
//! reading function say of a whole list of tokens.
#![tactic(auto)]

mod file;
mod knot;
mod note;
mod read;
mod source;
mod tree;

pub use crate::file::read_file;
pub use crate::read::read_list;
pub use crate::source::read_source;
pub use crate::tree::{Note, Tree};
