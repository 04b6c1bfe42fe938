// What a file is read as.

use cc_ast::place::Place;
use cc_ast::units::Units;
use cc_raw::tree::RawStmt;
use sqlite_items::Items;

/// An annotation comment: its place, the place of the next token that is no comment, and its whole
/// text in 16-bit units.
#[derive(Drop)]
pub struct Note {
    pub place: Place,
    pub next: Place,
    pub text: Units,
}

/// A file by its number: its statements, its annotation comments in order, and the whole texts of
/// those that contain `@license` or `@preserve`, in order.
#[derive(Drop)]
pub struct Tree {
    pub file: u32,
    pub body: Items<RawStmt>,
    pub docs: Vec<Note>,
    pub licences: Vec<Units>,
}
