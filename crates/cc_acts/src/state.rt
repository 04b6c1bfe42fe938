// The state of a run.

use cc_heap::heap::Heap;
use cc_value::value::Value;
use indexmap::IndexSet;
use sqlite_items::Items;

/// The state of a run but for the replies that are left: the heap; the globals, of which one that
/// wasn't set has no value; the chunks whose load has begun, and those whose load ended with a
/// throw; the objects that were given out, by their handles; and the budget.
#[derive(Drop)]
pub struct State {
    pub heap: Heap,
    pub globals: Items<Option<Value>>,
    pub loaded: Vec<u32>,
    pub failed: Vec<u32>,
    pub handles: IndexSet<usize>,
    pub budget: u64,
}
