// What reads, questions for a name, and `for-in` break.

ghost use Rattle.std.specs.Prelude.{◌≡◌, unwrap_or};
ghost use Rattle.std.specs.Option.{option_map};
ghost use Rattle.cc_ast.specs.Syntax.{undefined};
ghost use Rattle.cc_meaning.specs.Shapes.{tables_of};
ghost use Rattle.cc_meaning.specs.SlotRules as SlotRules;
ghost use Rattle.cc_meaning.specs.State.{State};
ghost use Rattle.cc_meaning.specs.Store as Store;
ghost use Rattle.cc_meaning.specs.Values.{prim};
ghost use Rattle.cc_heap.specs.Bridge.{held_of};
ghost use Rattle.cc_value.specs.Bridge.{value_of};
ghost use Rattle.cc_conform.specs.Bridge.{access_of, with_store};

use crate::act::Access;
use crate::fields::field_rule;
use crate::keys::whole_key_rule;
use crate::look_up::{function_rule, text_read, unfound_rule};
use crate::names::name_of;
use crate::rules::least;
use crate::slots::{SlotTest, chain_rule, chain_slots_rule, outside_rule};
use cc_ast::program::Program;
use cc_ast::units::Units;
use cc_heap::heap::Heap;
use cc_heap::slot::Held;
use cc_value::value::Value;

// The rule that what is held breaks at its field. Each number is of the same types.
fn held_rule(
    program: &Program,
    heap: &Heap,
    object: usize,
    key: &Access,
    name: &[u16],
    broken: Option<u8>,
    held: Held<'_>,
) -> Option<u8>
    requires { name.now ≡ Store.name_of (tables_of program.now) (access_of key.now) }
    ensures { (s : State) → result ≡ SlotRules.field_rule (tables_of program.now) (with_store s heap.now) object (access_of key.now) name.now broken (held_of held.entry) }
{
    match held {
        Held::Value(value) => field_rule(program, heap, object, key, name, broken, value),
        Held::Length(_) => field_rule(program, heap, object, key, name, broken, &Value::Whole(0)),
    }
}

// The same of what was found, where nothing found is undefined.
fn found_rule(
    program: &Program,
    heap: &Heap,
    object: usize,
    key: &Access,
    name: &[u16],
    broken: Option<u8>,
    found: Option<Held<'_>>,
) -> Option<u8>
    requires { name.now ≡ Store.name_of (tables_of program.now) (access_of key.now) }
    ensures { (s : State) → result ≡ SlotRules.field_rule (tables_of program.now) (with_store s heap.now) object (access_of key.now) name.now broken (unwrap_or (option_map held_of found.entry) (prim undefined)) }
{
    match found {
        Some(held) => held_rule(program, heap, object, key, name, broken, held),
        None => field_rule(program, heap, object, key, name, broken, &Value::Undefined),
    }
}

// What a look-up breaks by what it comes to in place of a slot.
fn missing_rule(heap: &Heap, object: usize, name: &Units) -> Option<u8>
    ensures { result ≡ SlotRules.unfound_rule heap.now.objs (Store.chain_of heap.now.objs object) name.now (Store.look_up heap.now.objs object name.now) }
{
    match heap.read_slot(object, name) {
        Some(_) => None,
        None => unfound_rule(heap, object, name.list.as_slice()),
    }
}

fn object_read(
    program: &Program,
    heap: &Heap,
    object: usize,
    key: &Access,
    name: &Units,
) -> Option<u8>
    requires { name.now ≡ Store.name_of (tables_of program.now) (access_of key.now) }
    ensures { (s : State) → result ≡ SlotRules.object_read (tables_of program.now) (with_store s heap.now) object (access_of key.now) name.now }
{
    let text = name.list.as_slice();
    let broken = chain_slots_rule(program, heap, key, text, object);
    let found = heap.read_slot(object, name);
    let by_key = whole_key_rule(heap, object, key);
    let by_type = found_rule(program, heap, object, key, text, broken, found);
    let by_name = least(
        function_rule(heap, object, name),
        missing_rule(heap, object, name),
    );
    least(by_key, least(by_type, least(broken, by_name)))
}

/// What a read breaks.
pub fn read_rule(program: &Program, heap: &Heap, on: &Value, key: &Access) -> Option<u8>
    ensures { (s : State) → result ≡ SlotRules.read_rule (tables_of program.now) (with_store s heap.now) (value_of on.now) (access_of key.now) }
{
    let none = Units {
        list: Vec::new(heap.allocator()),
    };
    let name = name_of(program, key, &none);
    match on {
        Value::Object(object) => object_read(program, heap, *object, key, name),
        Value::Outside(_) => outside_rule(program, key, name.list.as_slice()),
        Value::Text(_) => text_read(name.list.as_slice()),
        _ => Some(2),
    }
}

/// What a question for a name breaks.
pub fn probe_rule(program: &Program, heap: &Heap, on: &Value, key: &Access) -> Option<u8>
    ensures { (s : State) → result ≡ SlotRules.probe_rule (tables_of program.now) (with_store s heap.now) (value_of on.now) (access_of key.now) }
{
    let none = Units {
        list: Vec::new(heap.allocator()),
    };
    let name = name_of(program, key, &none);
    match on {
        Value::Object(object) => {
            chain_slots_rule(program, heap, key, name.list.as_slice(), *object)
        }
        _ => Some(2),
    }
}

/// What `for-in` breaks.
pub fn walk_rule(heap: &Heap, on: &Value) -> Option<u8>
    ensures { (s : State) → result ≡ SlotRules.walk_rule (with_store s heap.now) (value_of on.now) }
{
    match on {
        Value::Object(object) => chain_rule(heap, SlotTest::InOrder, &[], *object),
        Value::Undefined => None,
        Value::Null => None,
        _ => Some(2),
    }
}
