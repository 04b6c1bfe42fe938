//! Texts of the language: the UTF-16 units of a text, the escapes of strings and the values of
//! whole literals. `read_escape` and `whole` take no memory and always answer; their contracts
//! give the exact answer by the definitions in `specs/Escape.antt` and `specs/Whole.antt`.
#![tactic(auto)]

mod escapes;
mod front;
mod literals;
mod utf16;

pub use cc_ast::units::Units;
pub use escapes::{Behind, Escape, escape_behind, read_escape};
pub use front::{is_line_end, split_first};
pub use literals::{numeral, whole};
pub use utf16::{push_char, units_of};
