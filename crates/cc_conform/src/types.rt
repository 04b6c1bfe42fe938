// Values of a type (Closure Compiler, "Annotating JavaScript").

ghost use Rattle.std.specs.Prelude.{◌≡◌, ◌≢◌, ◌&&◌, ◌||◌, is_some, map, slice_get};
ghost use Rattle.std.specs.List.{list_any};
ghost use Rattle.std.specs.Option.{option_copied};
ghost use Rattle.cc_meaning.specs.Shapes.{tables_of};
ghost use Rattle.cc_meaning.specs.Typed as Typed;
ghost use Rattle.cc_meaning.specs.Types.{subtype};
ghost use Rattle.cc_value.specs.Bridge.{value_of};
ghost use Rattle.cc_heap.specs.Store.{code_in};

use cc_ast::program::Program;
use cc_ast::tables::{Class, Element, TypeSet};
use cc_heap::heap::Heap;
use cc_value::value::Value;

#[tactic(auto, unfolding(cc_meaning::specs::Typed::has_kind))]
fn has_kind(kinds: u8, bit: u8) -> bool
    requires { bit ≢ 0 }
    ensures { result ≡ Typed.has_kind kinds bit }
{
    kinds / bit % 2 == 1
}

// Whether a class is one of these, or extends or implements one by a chain.
fn reaches_any(classes: &[Class], class: u32, wanted: &[u32]) -> bool
    ensures { result ≡ list_any (λ d. subtype classes.now class d) wanted.now }
{
    wanted
        .iter()
        .any(|above| cc_types::reaches(classes, class, *above as usize))
}

#[tactic(auto, unfolding(cc_meaning::specs::Typed::class_of_any))]
fn class_of_any(classes: &[Class], class: Option<u32>, wanted: &[u32]) -> bool
    ensures { result ≡ Typed.class_of_any classes.now class wanted.now }
{
    match class {
        Some(class) => reaches_any(classes, class, wanted),
        None => false,
    }
}

// Whether an object is a function or an array, where its kind is one of these.
fn is_of_kind(heap: &Heap, kinds: u8, object: usize) -> bool
    ensures { result ≡ ((is_some (code_in (slice_get heap.now.objs object)) && Typed.has_kind kinds 8) || (is_some (Typed.elements_in (slice_get heap.now.objs object)) && Typed.has_kind kinds 16)) }
{
    let is_function = heap.code_of(object).is_some() && has_kind(kinds, 8);
    is_function || (heap.is_array(object) && has_kind(kinds, 16))
}

fn is_object_of(program: &Program, heap: &Heap, kinds: u8, classes: &[u32], object: usize) -> bool
    ensures { result ≡ Typed.object_of (tables_of program.now) kinds classes.now (slice_get heap.now.objs object) }
{
    is_of_kind(heap, kinds, object)
        || class_of_any(
            program.classes.get().as_slice(),
            heap.class_of(object),
            classes,
        )
}

/// Whether a value is of these kinds or classes.
#[tactic(auto, unfolding(cc_meaning::specs::Typed::of_kinds, cc_meaning::specs::Typed::prim_of))]
pub(crate) fn of_kinds(
    program: &Program,
    heap: &Heap,
    kinds: u8,
    classes: &[u32],
    value: &Value,
) -> bool
    ensures { result ≡ Typed.of_kinds (tables_of program.now) heap.now.objs kinds classes.now (value_of value.now) }
{
    match value {
        Value::Undefined => true,
        Value::Null => true,
        Value::Truth(_) => has_kind(kinds, 4),
        Value::Whole(_) => has_kind(kinds, 1),
        Value::Text(_) => has_kind(kinds, 2),
        Value::Object(object) => is_object_of(program, heap, kinds, classes, *object),
        Value::Outside(_) => has_kind(kinds, 32),
    }
}

/// Whether a value is of an element type.
#[tactic(auto, unfolding(cc_meaning::specs::Typed::of_element))]
pub(crate) fn of_element(program: &Program, heap: &Heap, element: &Element, value: &Value) -> bool
    ensures { result ≡ Typed.of_element (tables_of program.now) heap.now.objs element.now (value_of value.now) }
{
    of_kinds(
        program,
        heap,
        element.kinds,
        element.classes.as_slice(),
        value,
    )
}

/// Whether each value is of an element type.
pub(crate) fn all_of_element(
    program: &Program,
    heap: &Heap,
    element: &Element,
    values: &[Value],
) -> bool
    ensures { result ≡ Typed.all_of_element (tables_of program.now) heap.now.objs element.now (map value_of values.now) }
{
    for value in values {
        if !of_element(program, heap, element, value) {
            return false;
        }
    }
    true
}

// Whether each element of an array is of the element type, where there is one.
#[tactic(auto, unfolding(cc_meaning::specs::Typed::elements_fit, cc_meaning::specs::Typed::array_of))]
fn elements_fit(program: &Program, heap: &Heap, element: &Element, value: &Value) -> bool
    ensures { result ≡ Typed.elements_fit (tables_of program.now) heap.now.objs (Some element.now) (value_of value.now) }
{
    match value {
        Value::Object(object) => match heap.elements(*object) {
            Some(values) => all_of_element(program, heap, element, values),
            None => true,
        },
        _ => true,
    }
}

#[tactic(auto, unfolding(cc_meaning::specs::Typed::elements_fit))]
fn has_elements(program: &Program, heap: &Heap, type_set: &TypeSet, value: &Value) -> bool
    ensures { result ≡ Typed.elements_fit (tables_of program.now) heap.now.objs type_set.now.element (value_of value.now) }
{
    match &type_set.element {
        Some(element) => elements_fit(program, heap, element, value),
        None => true,
    }
}

/// Whether a value is of a type.
#[tactic(auto, unfolding(cc_meaning::specs::Typed::of_type))]
pub(crate) fn of_type(program: &Program, heap: &Heap, type_set: &TypeSet, value: &Value) -> bool
    ensures { result ≡ Typed.of_type (tables_of program.now) heap.now.objs type_set.now (value_of value.now) }
{
    type_set.unknown
        || (of_kinds(
            program,
            heap,
            type_set.kinds,
            type_set.classes.as_slice(),
            value,
        ) && has_elements(program, heap, type_set, value))
}

/// Whether a value is of the type, where there is one.
#[tactic(auto, unfolding(cc_meaning::specs::Typed::of_opt_type))]
pub(crate) fn fits(program: &Program, heap: &Heap, wanted: Option<&TypeSet>, value: &Value) -> bool
    ensures { result ≡ Typed.of_opt_type (tables_of program.now) heap.now.objs (option_copied wanted.entry) (value_of value.now) }
{
    match wanted {
        Some(type_set) => of_type(program, heap, type_set, value),
        None => true,
    }
}

/// Whether each value is of each element type.
pub(crate) fn of_all_elements(
    program: &Program,
    heap: &Heap,
    wanted: &[Element],
    values: &[Value],
) -> bool
    ensures { result ≡ Typed.of_all_elements (tables_of program.now) heap.now.objs wanted.now (map value_of values.now) }
{
    for element in wanted {
        if !all_of_element(program, heap, element, values) {
            return false;
        }
    }
    true
}
