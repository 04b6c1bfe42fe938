// What the acts of the host break: rule 13.

ghost use Rattle.std.specs.Prelude.{◌≡◌, Some};
ghost use Rattle.std.specs.Option.{option_map};
ghost use Rattle.cc_meaning.specs.Rules as Rules;
ghost use Rattle.cc_meaning.specs.Shapes.{tables_of};
ghost use Rattle.cc_meaning.specs.State.{State};
ghost use Rattle.cc_meaning.specs.Values.{obj};
ghost use Rattle.cc_value.specs.Bridge.{value_of};
ghost use Rattle.cc_conform.specs.Bridge.{with_store};

use crate::names::{is_index, is_kept};
use crate::rules::rule_unless;
use crate::slots::{SlotTest, chain_rule};
use cc_ast::program::Program;
use cc_ast::units::Units;
use cc_heap::heap::Heap;
use cc_value::value::Value;

// Whether the host may use the name on the object.
fn name_well(program: &Program, heap: &Heap, object: usize, name: &[u16]) -> bool
    ensures { (s : State) → result ≡ Rules.names_well (tables_of program.now) (with_store s heap.now) (Some (obj object)) (Some name.now) }
{
    if chain_rule(heap, SlotTest::NoDot(13), &[], object).is_none() {
        return true;
    }
    is_kept(program, name) || is_index(name)
}

fn name_fits(program: &Program, heap: &Heap, on: &Value, name: &[u16]) -> bool
    ensures { (s : State) → result ≡ Rules.names_well (tables_of program.now) (with_store s heap.now) (Some (value_of on.now)) (Some name.now) }
{
    match on {
        Value::Object(object) => name_well(program, heap, *object, name),
        _ => true,
    }
}

fn names_well(program: &Program, heap: &Heap, on: &Option<Value>, name: &Option<Units>) -> bool
    ensures { (s : State) → result ≡ Rules.names_well (tables_of program.now) (with_store s heap.now) (option_map value_of on.now) name.now }
{
    match name {
        Some(name) => match on {
            Some(value) => name_fits(program, heap, value, name.list.as_slice()),
            None => true,
        },
        None => true,
    }
}

/// What an act of the host breaks.
pub fn host_rule(
    program: &Program,
    heap: &Heap,
    given: bool,
    on: &Option<Value>,
    name: &Option<Units>,
    threw: bool,
) -> Option<u8>
    ensures { (s : State) → result ≡ Rules.host_rule (tables_of program.now) (with_store s heap.now) given (option_map value_of on.now) name.now threw }
{
    let is_named = names_well(program, heap, on, name);
    rule_unless(given & is_named & !threw, 13)
}
