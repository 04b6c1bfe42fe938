// Scripts: what the host does, and what the outside replies.

use cc_ast::units::Units;
use cc_value::value::View;
use sqlite_items::Items;

/// A call that the outside makes of a handle.
#[derive(Drop)]
pub struct Inner {
    pub callee: usize,
    pub this: View,
    pub args: Items<View>,
}

/// How a reply ends.
#[derive(Drop)]
pub enum Answer {
    Gives(View),
    Throws(View),
}

/// A reply of the outside: the calls that it makes first, and its answer.
#[derive(Drop)]
pub struct Reply {
    pub first: Items<Inner>,
    pub answer: Answer,
}

/// What the host does: it loads a chunk, calls a handle, or gets or sets a property of one.
#[derive(Drop)]
pub enum Turn {
    Load(u32),
    Call(Inner),
    Get {
        handle: usize,
        name: Units,
    },
    Set {
        handle: usize,
        name: Units,
        value: View,
    },
}

/// The turns in order, and the replies in the order in which they are asked for.
#[derive(Drop)]
pub struct Script {
    pub turns: Items<Turn>,
    pub replies: Items<Reply>,
}
