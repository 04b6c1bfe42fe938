// Annotated fields that give or receive a value: its element types are entered for an array.

ghost use Rattle.std.specs.Prelude.{◌≡◌, ◌&&◌, [], OnOk, not, slice_get};
ghost use Rattle.cc_meaning.specs.Monad.{pick};
ghost use Rattle.cc_meaning.specs.Operators.{list_eq};
ghost use Rattle.cc_meaning.specs.Shapes.{tables_of};
ghost use Rattle.cc_meaning.specs.SlotRules as SlotRules;
ghost use Rattle.cc_meaning.specs.Store as Store;
ghost use Rattle.cc_meaning.specs.Typed as Typed;
ghost use Rattle.cc_meaning.specs.Types.{subtype};
ghost use Rattle.cc_value.specs.Bridge.{value_of};
ghost use Rattle.cc_conform.specs.Bridge.{access_of};
ghost use Rattle.cc_acts.specs.Received.{received_all};

use crate::receives::receive;
use cc_ast::program::Program;
use cc_ast::tables::Class;
use cc_ast::units::Units;
use cc_conform::act::Access;
use cc_conform::docs::value_type;
use cc_conform::names::{is_kept, name_of};
use cc_heap::heap::Heap;
use cc_value::texts;
use cc_value::value::Value;
use std::alloc::AllocError;

#[tactic(auto, unfolding(cc_meaning::specs::Store::prop_name, cc_meaning::specs::Shapes::tables_of, cc_meaning::specs::Operators::list_eq))]
fn is_named(program: &Program, prop: u32, name: &[u16]) -> bool
    ensures { result ≡ list_eq (Store.prop_name (slice_get (tables_of program.now).props prop)) name.now }
{
    match program.props.get().get(prop as usize) {
        Some(info) => texts::is_equal(info.name.list.as_slice(), name),
        None => name.is_empty(),
    }
}

// The fields with this name, of pairs of a property and a doc.
fn receive_named(
    program: &Program,
    heap: &mut Heap,
    fields: &[(u32, u32)],
    name: &[u16],
    value: &Value,
) -> Result<(), AllocError>
    ensures { OnOk result (heap.new ≡ record heap.old { objs = received_all (Typed.types_of_fields (tables_of program.now) name.now fields.now) (value_of value.now) heap.old.objs }) }
{
    for field in fields {
        let (prop, doc) = *field;
        if is_named(program, prop, name) {
            receive(heap, value_type(program, doc), value)?;
        }
    }
    Ok(())
}

// The same of the fields of one class, where the object's class is this one, or extends or
// implements it. An extern class annotates no field.
fn receive_in_class(
    program: &Program,
    heap: &mut Heap,
    of: u32,
    at: usize,
    class: &Class,
    name: &[u16],
    value: &Value,
) -> Result<(), AllocError>
    ensures { OnOk result (heap.new ≡ record heap.old { objs = received_all (pick (not class.now.external && subtype (tables_of program.now).classes of at) (Typed.types_of_fields (tables_of program.now) name.now class.now.fields) []) (value_of value.now) heap.old.objs }) }
{
    if class.external {
        return Ok(());
    }
    if !cc_types::reaches(program.classes.get().as_slice(), of, at) {
        return Ok(());
    }
    receive_named(program, heap, class.fields.as_slice(), name, value)
}

fn receive_in_classes(
    program: &Program,
    heap: &mut Heap,
    of: u32,
    name: &[u16],
    value: &Value,
) -> Result<(), AllocError>
    ensures { OnOk result (heap.new ≡ record heap.old { objs = received_all (Typed.fields_from (tables_of program.now) 0 (tables_of program.now).classes of name.now) (value_of value.now) heap.old.objs }) }
{
    for (at, class) in program.classes.get().as_slice().iter().enumerate() {
        receive_in_class(program, heap, of, at, class, name, value)?;
    }
    Ok(())
}

#[tactic(auto, unfolding(cc_meaning::specs::SlotRules::is_dot))]
fn is_dot(key: &Access) -> bool
    ensures { result ≡ SlotRules.is_dot (access_of key.now) }
{
    match key {
        Access::Dotted(_) => true,
        Access::Quoted(_) => false,
        Access::Runtime { text: _, whole: _ } => false,
    }
}

// The field that is reached by this key, which means this name.
fn receive_field(
    program: &Program,
    heap: &mut Heap,
    object: usize,
    key: &Access,
    name: &[u16],
    value: &Value,
) -> Result<(), AllocError>
    requires { name.now ≡ Store.name_of (tables_of program.now) (access_of key.now) }
    ensures { OnOk result (heap.new ≡ record heap.old { objs = received_all (SlotRules.fields_reached (tables_of program.now) heap.old.objs object (access_of key.now)) (value_of value.now) heap.old.objs }) }
{
    let is_reached = is_kept(program, name) | is_dot(key);
    if !is_reached {
        return Ok(());
    }
    match heap.class_of(object) {
        Some(class) => receive_in_classes(program, heap, class, name, value),
        None => Ok(()),
    }
}

/// The field that an access reaches receives or gives a value. Of a value that is no object nothing
/// is entered.
pub fn receive_reached(
    program: &Program,
    heap: &mut Heap,
    object: usize,
    key: &Access,
    value: &Value,
) -> Result<(), AllocError>
    ensures { OnOk result (heap.new ≡ record heap.old { objs = received_all (SlotRules.fields_reached (tables_of program.now) heap.old.objs object (access_of key.now)) (value_of value.now) heap.old.objs }) }
{
    let Value::Object(_) = value else {
        return Ok(());
    };
    let none = Units {
        list: Vec::new(heap.allocator()),
    };
    let name = name_of(program, key, &none).list.as_slice();
    receive_field(program, heap, object, key, name, value)
}
