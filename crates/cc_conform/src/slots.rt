// The slots that an act may meet: rules 7, 8 and 9.

ghost use Rattle.std.specs.Prelude.{◌≡◌, [], None, slice_get};
ghost use Rattle.cc_meaning.specs.Monad.{pick};
ghost use Rattle.cc_meaning.specs.Shapes.{tables_of};
ghost use Rattle.cc_meaning.specs.SlotRules as SlotRules;
ghost use Rattle.cc_meaning.specs.State.{keyed_kind};
ghost use Rattle.cc_meaning.specs.Store.{chain_of, slots_in, slots_on};
ghost use Rattle.cc_heap.specs.Kinds.{kind_of};
ghost use Rattle.cc_conform.specs.Bridge.{access_of};
ghost use Rattle.cc_conform.specs.Slots.{is_free, least_of, test_by, test_rule};

use crate::act::Access;
use crate::names::{is_index, is_kept, is_standard};
use crate::rules::{least, rule_if};
use cc_ast::program::Program;
use cc_heap::heap::Heap;
use cc_heap::slot::{Slot, SlotKind};
use cc_value::texts;

/// What is asked of each slot that an act may meet: those of an access with a dot and of one in
/// quotes, that none is dotted, else this rule, and those of `for-in`.
#[derive(Clone, Copy)]
pub(crate) enum SlotTest {
    ByDot,
    InQuotes,
    NoDot(u8),
    InOrder,
}

#[tactic(auto, unfolding(cc_meaning::specs::SlotRules::is_dotted))]
fn is_dotted(kind: SlotKind) -> bool
    ensures { result ≡ SlotRules.is_dotted (kind_of kind) }
{
    match kind {
        SlotKind::Dotted => true,
        SlotKind::Kept => false,
        SlotKind::Indexed => false,
        SlotKind::Quoted => false,
        SlotKind::Keyed => false,
    }
}

#[tactic(auto, unfolding(cc_meaning::specs::SlotRules::dotted_rule))]
fn dotted_rule(name: &[u16], kind: SlotKind, other: &[u16]) -> Option<u8>
    ensures { result ≡ SlotRules.dotted_rule name.now (kind_of kind) other.now }
{
    match kind {
        SlotKind::Quoted => rule_if(texts::is_equal(other, name), 7),
        SlotKind::Keyed => Some(8),
        SlotKind::Kept => None,
        SlotKind::Indexed => None,
        SlotKind::Dotted => None,
    }
}

fn test_slot(test: SlotTest, name: &[u16], slot: &Slot) -> Option<u8>
    ensures { result ≡ test_rule test name.now slot.now }
{
    let kind = slot.kind;
    let other = slot.name.list.as_slice();
    match test {
        SlotTest::ByDot => dotted_rule(name, kind, other),
        SlotTest::InQuotes => rule_if(is_dotted(kind) && texts::is_equal(other, name), 7),
        SlotTest::NoDot(rule) => rule_if(is_dotted(kind), rule),
        SlotTest::InOrder => rule_if(is_dotted(kind) || is_standard(other), 9),
    }
}

/// The least rule that an object's own slots break.
pub(crate) fn own_rule(heap: &Heap, test: SlotTest, name: &[u16], object: usize) -> Option<u8>
    ensures { result ≡ least_of test name.now (slots_in (slice_get heap.now.objs object)) }
{
    let mut broken = None;
    for at in 0..heap.slot_count(object) {
        match heap.slot_at(object, at) {
            Some(slot) => broken = least(broken, test_slot(test, name, slot)),
            None => return broken,
        }
    }
    broken
}

/// The least rule that the slots of a chain break.
pub(crate) fn chain_rule(heap: &Heap, test: SlotTest, name: &[u16], object: usize) -> Option<u8>
    ensures { result ≡ least_of test name.now (slots_on heap.now.objs (chain_of heap.now.objs object)) }
{
    let mut broken = own_rule(heap, test, name, object);
    for above in heap.chain(object) {
        broken = least(broken, own_rule(heap, test, name, *above));
    }
    broken
}

fn test_of(key: &Access) -> SlotTest
    ensures { result ≡ test_by (access_of key.now) }
{
    match key {
        Access::Dotted(_) => SlotTest::ByDot,
        Access::Quoted(_) => SlotTest::InQuotes,
        Access::Runtime { text: _, whole: _ } => SlotTest::NoDot(8),
    }
}

// Whether the name may be reached by this key on every chain.
fn is_free(program: &Program, key: &Access, name: &[u16]) -> bool
    ensures { result ≡ is_free (tables_of program.now) (access_of key.now) name.now }
{
    match key {
        Access::Dotted(_) => is_kept(program, name),
        Access::Quoted(_) => false,
        Access::Runtime { text: _, whole: _ } => is_index(name),
    }
}

// The kept names are gone through only where there is a rule to be lifted.
fn unless_free(program: &Program, key: &Access, name: &[u16], broken: Option<u8>) -> Option<u8>
    ensures { result ≡ pick (is_free (tables_of program.now) (access_of key.now) name.now) None broken }
{
    match broken {
        Some(rule) => {
            if is_free(program, key, name) {
                None
            } else {
                Some(rule)
            }
        }
        None => None,
    }
}

/// What an access breaks at the object's own slots.
pub(crate) fn own_slots_rule(
    program: &Program,
    heap: &Heap,
    key: &Access,
    name: &[u16],
    object: usize,
) -> Option<u8>
    ensures { result ≡ SlotRules.slots_rule (tables_of program.now) (access_of key.now) name.now (slots_in (slice_get heap.now.objs object)) }
{
    let broken = own_rule(heap, test_of(key), name, object);
    unless_free(program, key, name, broken)
}

/// What an access breaks at the slots of the object's chain.
pub(crate) fn chain_slots_rule(
    program: &Program,
    heap: &Heap,
    key: &Access,
    name: &[u16],
    object: usize,
) -> Option<u8>
    ensures { result ≡ SlotRules.slots_rule (tables_of program.now) (access_of key.now) name.now (slots_on heap.now.objs (chain_of heap.now.objs object)) }
{
    let broken = chain_rule(heap, test_of(key), name, object);
    unless_free(program, key, name, broken)
}

/// What an access to an outside object breaks.
pub(crate) fn outside_rule(program: &Program, key: &Access, name: &[u16]) -> Option<u8>
    ensures { result ≡ SlotRules.slot_rule (tables_of program.now) (access_of key.now) name.now keyed_kind [] }
{
    match key {
        Access::Dotted(_) => rule_if(!is_kept(program, name), 8),
        Access::Quoted(_) => None,
        Access::Runtime { text: _, whole: _ } => None,
    }
}
