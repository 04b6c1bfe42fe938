// Whole numbers as keys of arrays: rule 2.

ghost use Rattle.std.specs.Prelude.{◌≡◌, slice_get};
ghost use Rattle.cc_meaning.specs.SlotRules as SlotRules;
ghost use Rattle.cc_meaning.specs.Typed as Typed;
ghost use Rattle.cc_conform.specs.Bridge.{access_of};

use crate::act::Access;
use crate::names::is_index;
use crate::rules::rule_if;
use cc_heap::heap::Heap;

/// A whole number that is no index, as the key of an array.
pub(crate) fn whole_key_rule(heap: &Heap, object: usize, key: &Access) -> Option<u8>
    ensures { result ≡ SlotRules.whole_key_rule (Typed.elements_in (slice_get heap.now.objs object)) (access_of key.now) }
{
    if !heap.is_array(object) {
        return None;
    }
    match key {
        Access::Runtime { text, whole } => rule_if(*whole & !is_index(text.list.as_slice()), 2),
        _ => None,
    }
}
