// Statements of the form that is compiled so far, as they stand in the source.

mod check;
mod cursor;
pub(crate) mod name;
mod read;
mod reader;
mod unread;

use cc_ast::units::Units;
pub use read::{read_externs, read_source};
use sqlite_items::Items;

/// What a chain is made of: the offset in bytes at which it begins, and a name, a text, or a whole
/// number from 0 to 2^53-1.
#[derive(Drop)]
pub enum Operand {
    Named(u32, Units),
    Text(u32, Units),
    Whole(u32, i64),
}

/// An operand behind a `+`, which stands at this offset.
#[derive(Drop)]
pub struct Added {
    pub plus: u32,
    pub operand: Operand,
}

/// A value: operands with `+` between them, at most 257.
#[derive(Drop)]
pub struct Value {
    pub first: Operand,
    pub more: Items<Added>,
}

/// A statement: the offset in bytes at which it begins, the name that it declares with its value,
/// or the name that it calls with its arguments.
#[derive(Drop)]
pub enum Statement {
    Declares(u32, Units, Value),
    Calls(u32, Units, Items<Value>),
}
