// The values that annotated fields receive and give: rule 6.

ghost use Rattle.std.specs.Prelude.{◌≡◌, ◌&&◌, [], ◌∷◌, not, map, slice_get};
ghost use Rattle.cc_meaning.specs.Monad.{pick};
ghost use Rattle.cc_meaning.specs.Operators.{list_eq};
ghost use Rattle.cc_meaning.specs.Shapes.{tables_of};
ghost use Rattle.cc_meaning.specs.SlotRules as SlotRules;
ghost use Rattle.cc_meaning.specs.State.{State};
ghost use Rattle.cc_meaning.specs.Store as Store;
ghost use Rattle.cc_meaning.specs.Typed as Typed;
ghost use Rattle.cc_meaning.specs.Types.{subtype};
ghost use Rattle.cc_value.specs.Bridge.{value_of};
ghost use Rattle.cc_conform.specs.Bridge.{access_of, with_store};

use crate::act::Access;
use crate::docs::value_type;
use crate::names::is_kept;
use crate::rules::rule_unless;
use crate::types::fits;
use cc_ast::program::Program;
use cc_ast::tables::Class;
use cc_heap::heap::Heap;
use cc_value::texts;
use cc_value::value::Value;

#[tactic(auto, unfolding(cc_meaning::specs::Store::prop_name, cc_meaning::specs::Shapes::tables_of, cc_meaning::specs::Operators::list_eq))]
fn is_named(program: &Program, prop: u32, name: &[u16]) -> bool
    ensures { result ≡ list_eq (Store.prop_name (slice_get (tables_of program.now).props prop)) name.now }
{
    match program.props.get().get(prop as usize) {
        Some(info) => texts::is_equal(info.name.list.as_slice(), name),
        None => name.is_empty(),
    }
}

// Whether the value is of the type of a field, which pairs a property with a doc, where the field
// has this name.
fn field_fits(
    program: &Program,
    heap: &Heap,
    field: &(u32, u32),
    name: &[u16],
    value: &Value,
) -> bool
    ensures { result ≡ Typed.of_all_types (tables_of program.now) heap.now.objs (Typed.types_of_fields (tables_of program.now) name.now (field.now ∷ [])) (value_of value.now) }
{
    let (prop, doc) = *field;
    !is_named(program, prop, name) || fits(program, heap, value_type(program, doc), value)
}

fn fields_fit(
    program: &Program,
    heap: &Heap,
    fields: &[(u32, u32)],
    name: &[u16],
    value: &Value,
) -> bool
    ensures { result ≡ Typed.of_all_types (tables_of program.now) heap.now.objs (Typed.types_of_fields (tables_of program.now) name.now fields.now) (value_of value.now) }
{
    for field in fields {
        if !field_fits(program, heap, field, name, value) {
            return false;
        }
    }
    true
}

// The same of the fields of the class at a place of the table, where class `of` is this one or
// extends or implements it. Few values fail at a field, so ancestry is asked last.
fn class_fits(
    program: &Program,
    heap: &Heap,
    of: u32,
    at: usize,
    class: &Class,
    name: &[u16],
    value: &Value,
) -> bool
    ensures { result ≡ Typed.of_all_types (tables_of program.now) heap.now.objs (pick (not class.now.external && subtype (tables_of program.now).classes of at) (Typed.types_of_fields (tables_of program.now) name.now class.now.fields) []) (value_of value.now) }
{
    if class.external {
        return true;
    }
    fields_fit(program, heap, class.fields.as_slice(), name, value)
        || !cc_types::reaches(program.classes.get().as_slice(), of, at)
}

fn classes_fit(
    program: &Program,
    heap: &Heap,
    of: u32,
    classes: &[Class],
    name: &[u16],
    value: &Value,
) -> bool
    ensures { result ≡ Typed.of_all_types (tables_of program.now) heap.now.objs (Typed.fields_from (tables_of program.now) 0 classes.now of name.now) (value_of value.now) }
{
    for (at, class) in classes.iter().enumerate() {
        if !class_fits(program, heap, of, at, class, name, value) {
            return false;
        }
    }
    true
}

// Whether the value is of each type that the object's field with this name has.
fn object_fits(program: &Program, heap: &Heap, object: usize, name: &[u16], value: &Value) -> bool
    ensures { result ≡ Typed.of_all_types (tables_of program.now) heap.now.objs (Typed.field_types (tables_of program.now) heap.now.objs object name.now) (value_of value.now) }
{
    match heap.class_of(object) {
        Some(class) => classes_fit(
            program,
            heap,
            class,
            program.classes.get().as_slice(),
            name,
            value,
        ),
        None => true,
    }
}

#[tactic(auto, unfolding(cc_meaning::specs::SlotRules::is_dot))]
fn is_dot(key: &Access) -> bool
    ensures { result ≡ SlotRules.is_dot (access_of key.now) }
{
    match key {
        Access::Dotted(_) => true,
        Access::Quoted(_) => false,
        Access::Runtime { text: _, whole: _ } => false,
    }
}

/// The rule that a value breaks at the field that an access reaches, where `broken` is what the
/// access breaks at the slots.
pub(crate) fn field_rule(
    program: &Program,
    heap: &Heap,
    object: usize,
    key: &Access,
    name: &[u16],
    broken: Option<u8>,
    value: &Value,
) -> Option<u8>
    requires { name.now ≡ Store.name_of (tables_of program.now) (access_of key.now) }
    ensures { (s : State) → result ≡ SlotRules.field_rule (tables_of program.now) (with_store s heap.now) object (access_of key.now) name.now broken (value_of value.now) }
{
    if object_fits(program, heap, object, name, value) {
        return None;
    }
    let kept = is_kept(program, name);
    let is_reached = kept | is_dot(key);
    rule_unless((broken.is_some() & !kept) | !is_reached, 6)
}
