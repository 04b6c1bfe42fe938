//! Tokens as the grammar of `cc_grammar` has them, a cursor over them, and the readers that read no
//! expression or statement inside: marks and words, names, parameters, labels, keys, and the
//! operand of a `delete`, ahead.
//!
//! Contracts see a `Cursor` as the list of tokens that are left. A reader's contract says
//! `Reads shown outcome result cursor.new` (`specs/Reads.antt`): the outcome of the definition of
//! the same name is what the answer shows and the tokens that are left, or the fault that it
//! answers, unless memory fails. `specs/Shown.antt` has what trees, tokens and faults show.
#![tactic(auto)]

pub mod ahead;
pub mod context;
pub mod cursor;
pub mod error;
pub mod keys;
pub mod labels;
pub mod lexeme;
pub mod limits;
pub mod names;
pub mod refused;
pub mod signs;
pub mod starts;
