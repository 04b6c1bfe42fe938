// What writes and removals break.

ghost use Rattle.std.specs.Prelude.{◌≡◌, slice_get};
ghost use Rattle.cc_meaning.specs.Shapes.{tables_of};
ghost use Rattle.cc_meaning.specs.SlotRules as SlotRules;
ghost use Rattle.cc_meaning.specs.State.{State};
ghost use Rattle.cc_meaning.specs.Store as Store;
ghost use Rattle.cc_meaning.specs.Typed as Typed;
ghost use Rattle.cc_value.specs.Bridge.{value_of};
ghost use Rattle.cc_conform.specs.Bridge.{access_of, with_store};

use crate::act::Access;
use crate::fields::field_rule;
use crate::keys::whole_key_rule;
use crate::look_up::unwritten_rule;
use crate::names::name_of;
use crate::prototypes::prototype_rule;
use crate::rules::{least, rule_if, rule_unless};
use crate::slots::{outside_rule, own_slots_rule};
use crate::types::of_all_elements;
use cc_ast::program::Program;
use cc_ast::units::Units;
use cc_heap::heap::Heap;
use cc_heap::names::{index_of, is_spelled};
use cc_value::value::Value;
use std::slice;

// A write of an array's length, or at an index beyond it.
fn array_write_rule(heap: &Heap, object: usize, name: &[u16], index: Option<usize>) -> Option<u8>
    ensures { result ≡ SlotRules.array_write_rule (Typed.elements_in (slice_get heap.now.objs object)) name.now index }
{
    match heap.element_count(object) {
        Some(count) => match index {
            Some(at) => rule_if(count < at, 2),
            None => rule_if(is_spelled(name, b"length"), 2),
        },
        None => None,
    }
}

// A value that isn't of each element type of the array.
fn element_rule(
    program: &Program,
    heap: &Heap,
    object: usize,
    index: Option<usize>,
    value: &Value,
) -> Option<u8>
    ensures { result ≡ SlotRules.element_rule (tables_of program.now) heap.now.objs (slice_get heap.now.objs object) index (value_of value.now) }
{
    if index.is_none() || !heap.is_array(object) {
        return None;
    }
    let wanted = heap.wanted(object);
    rule_unless(
        of_all_elements(program, heap, wanted, slice::from_ref(value)),
        6,
    )
}

fn object_write(
    program: &Program,
    heap: &Heap,
    object: usize,
    key: &Access,
    name: &[u16],
    value: &Value,
    declares: bool,
) -> Option<u8>
    requires { name.now ≡ Store.name_of (tables_of program.now) (access_of key.now) }
    ensures { (s : State) → result ≡ SlotRules.object_write (tables_of program.now) (with_store s heap.now) object (access_of key.now) name.now (value_of value.now) declares }
{
    let index = index_of(name);
    let broken = own_slots_rule(program, heap, key, name, object);
    let by_key = whole_key_rule(heap, object, key);
    let by_length = array_write_rule(heap, object, name, index);
    let by_element = element_rule(program, heap, object, index, value);
    let by_type = field_rule(program, heap, object, key, name, broken, value);
    let by_name = unwritten_rule(heap, object, name);
    let by_class = prototype_rule(program, heap, object, name, value, declares);
    let by_slots = least(broken, least(by_name, by_class));
    let by_value = least(by_element, least(by_type, by_slots));
    least(by_key, least(by_length, by_value))
}

/// What a write breaks.
pub fn write_rule(
    program: &Program,
    heap: &Heap,
    on: &Value,
    key: &Access,
    value: &Value,
    declares: bool,
) -> Option<u8>
    ensures { (s : State) → result ≡ SlotRules.write_rule (tables_of program.now) (with_store s heap.now) (value_of on.now) (access_of key.now) (value_of value.now) declares }
{
    let none = Units {
        list: Vec::new(heap.allocator()),
    };
    let name = name_of(program, key, &none).list.as_slice();
    match on {
        Value::Object(object) => least(
            rule_if(is_spelled(name, b"__proto__"), 2),
            object_write(program, heap, *object, key, name, value, declares),
        ),
        Value::Outside(_) => least(
            rule_if(is_spelled(name, b"__proto__"), 2),
            outside_rule(program, key, name),
        ),
        _ => Some(2),
    }
}

// Whether the object itself has a slot of this name that isn't a function's prototype.
fn has_slot(heap: &Heap, object: usize, name: &Units) -> bool
    ensures { result ≡ SlotRules.has_slot (slice_get heap.now.objs object) name.now }
{
    let is_there = heap.own_slot(object, name).is_some();
    let is_function = heap.code_of(object).is_some();
    is_there & !(is_function & is_spelled(name.list.as_slice(), b"prototype"))
}

/// What a removal breaks.
pub fn remove_rule(program: &Program, heap: &Heap, on: &Value, key: &Access) -> Option<u8>
    ensures { (s : State) → result ≡ SlotRules.remove_rule (tables_of program.now) (with_store s heap.now) (value_of on.now) (access_of key.now) }
{
    let none = Units {
        list: Vec::new(heap.allocator()),
    };
    let name = name_of(program, key, &none);
    match on {
        Value::Object(object) => least(
            rule_unless(has_slot(heap, *object, name), 2),
            own_slots_rule(program, heap, key, name.list.as_slice(), *object),
        ),
        _ => Some(2),
    }
}
