// What a function has behind its name.

use cc_raw::tree::{Named, RawStmt};
use sqlite_items::Items;

/// The parameters and the body of a function.
#[derive(Drop)]
pub struct Function {
    pub params: Items<Named>,
    pub body: Items<RawStmt>,
}
