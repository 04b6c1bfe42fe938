// The prototypes of constructors: rule 12.

ghost use Rattle.std.specs.Prelude.{◌≡◌, ◌&&◌, Some, true, nat_eq, slice_get};
ghost use Rattle.std.specs.List.{list_any};
ghost use Rattle.cc_meaning.specs.Rules.{prototype_object};
ghost use Rattle.cc_meaning.specs.Shapes.{tables_of};
ghost use Rattle.cc_meaning.specs.SlotRules as SlotRules;
ghost use Rattle.cc_meaning.specs.State.{State};
ghost use Rattle.cc_meaning.specs.Store as Store;
ghost use Rattle.cc_meaning.specs.Values.{obj};
ghost use Rattle.cc_value.specs.Bridge.{value_of};
ghost use Rattle.cc_conform.specs.Bridge.{with_store};
ghost use Rattle.cc_conform.specs.Prototypes as Prototypes;

use crate::rules::rule_unless;
use cc_ast::program::Program;
use cc_ast::tables::Class;
use cc_heap::heap::Heap;
use cc_heap::names::is_spelled;
use cc_value::value::Value;

/// Whether the number is this one.
#[tactic(auto, unfolding(cc_meaning::specs::Store::is_number))]
pub(crate) fn is_number(number: Option<u32>, other: u32) -> bool
    ensures { result ≡ Store.is_number number other }
{
    match number {
        Some(number) => number == other,
        None => false,
    }
}

fn class_from(classes: &[Class], function: u32) -> Option<usize>
    ensures { result ≡ Store.class_from 0 classes.now function }
{
    for (at, class) in classes.iter().enumerate() {
        if is_number(class.function, function) {
            return Some(at);
        }
    }
    None
}

/// The class whose function this is.
#[tactic(auto, unfolding(cc_meaning::specs::Store::class_of_function, cc_meaning::specs::Shapes::tables_of))]
pub fn class_of_function(program: &Program, function: u32) -> Option<usize>
    ensures { result ≡ Store.class_of_function (tables_of program.now) function }
{
    class_from(program.classes.get().as_slice(), function)
}

// The object that a function has as its prototype.
fn prototype_at(heap: &Heap, object: usize) -> Option<usize>
    ensures { result ≡ prototype_object (SlotRules.prototype_of_function (slice_get heap.now.objs object)) }
{
    heap.prototype_of(&Value::Object(object))
}

// Whether the object has the other one as the prototype of a function.
fn has_prototype(heap: &Heap, number: usize, function: u32, object: usize) -> bool
    ensures { result ≡ Prototypes.has_prototype (slice_get heap.now.objs number) function object }
{
    match heap.code_of(number) {
        Some(code) => match prototype_at(heap, number) {
            Some(prototype) => (code.function == function) & (prototype == object),
            None => false,
        },
        None => false,
    }
}

fn is_prototype_of(heap: &Heap, function: u32, object: usize) -> bool
    ensures { result ≡ SlotRules.is_prototype_of heap.now.objs function object }
{
    for number in 0..heap.object_count() {
        if has_prototype(heap, number, function, object) {
            return true;
        }
    }
    false
}

#[tactic(auto, unfolding(cc_meaning::specs::SlotRules::extended, cc_meaning::specs::Shapes::tables_of))]
fn extended(program: &Program, class: usize) -> Option<u32>
    ensures { result ≡ SlotRules.extended (slice_get (tables_of program.now).classes class) }
{
    match program.classes.get().get(class) {
        Some(class) => class.extends,
        None => None,
    }
}

#[tactic(auto, unfolding(cc_meaning::specs::SlotRules::function_in, cc_meaning::specs::Shapes::tables_of))]
fn function_of(program: &Program, class: u32) -> Option<u32>
    ensures { result ≡ SlotRules.function_in (slice_get (tables_of program.now).classes class) }
{
    match program.classes.get().get(class as usize) {
        Some(class) => class.function,
        None => None,
    }
}

// Whether the object is the prototype of the class with this function.
#[tactic(auto, unfolding(cc_meaning::specs::SlotRules::is_prototype_of_class))]
fn is_prototype_of_class(heap: &Heap, function: Option<u32>, object: usize) -> bool
    ensures { result ≡ SlotRules.is_prototype_of_class heap.now.objs function object }
{
    match function {
        Some(function) => is_prototype_of(heap, function, object),
        None => false,
    }
}

// Whether the chain has the prototypes of this class and of those above it.
fn fits_extended(program: &Program, heap: &Heap, above: Option<u32>, chain: &[usize]) -> bool
    ensures { result ≡ SlotRules.fits_extended (tables_of program.now) heap.now.objs above chain.now }
{
    let mut next = above;
    for prototype in chain {
        let Some(class) = next else {
            return false;
        };
        if !is_prototype_of_class(heap, function_of(program, class), *prototype) {
            return false;
        }
        next = extended(program, class as usize);
    }
    next.is_none()
}

#[tactic(auto, unfolding(cc_meaning::specs::SlotRules::fits_class))]
fn fits_class(program: &Program, heap: &Heap, class: usize, value: &Value) -> bool
    ensures { result ≡ SlotRules.fits_class (tables_of program.now) heap.now.objs class (value_of value.now) }
{
    match value {
        Value::Object(object) => {
            let chain = heap.chain(*object);
            fits_extended(program, heap, extended(program, class), chain)
        }
        _ => false,
    }
}

// Whether the object stands on the chain of another one.
fn is_on_chain(heap: &Heap, object: usize, prototype: usize) -> bool
    ensures { result ≡ list_any (λ m. nat_eq m prototype) (Store.chain_in (slice_get heap.now.objs object)) }
{
    heap.chain(object).iter().any(|above| *above == prototype)
}

// Whether no object has this one on its chain.
fn is_off_chains(heap: &Heap, prototype: usize) -> bool
    ensures { result ≡ SlotRules.is_off_chains heap.now.objs (Some (obj prototype)) }
{
    for object in 0..heap.object_count() {
        if is_on_chain(heap, object, prototype) {
            return false;
        }
    }
    true
}

// Whether the present prototype of a function is an object without slots that stands on no chain.
fn is_bare(heap: &Heap, object: usize) -> bool
    ensures { result ≡ (SlotRules.without_slots heap.now.objs (SlotRules.prototype_of_function (slice_get heap.now.objs object)) && SlotRules.is_off_chains heap.now.objs (SlotRules.prototype_of_function (slice_get heap.now.objs object))) }
{
    match prototype_at(heap, object) {
        Some(prototype) => (heap.slot_count(prototype) == 0) & is_off_chains(heap, prototype),
        None => false,
    }
}

// Whether the prototype of a constructor of this class may be set to the value.
fn declares_well(program: &Program, heap: &Heap, object: usize, class: usize, value: &Value) -> bool
    ensures { (s : State) → result ≡ SlotRules.declares_well (tables_of program.now) (with_store s heap.now) (slice_get heap.now.objs object) (Some class) (value_of value.now) true }
{
    if heap.has_constructed(class) {
        return false;
    }
    is_bare(heap, object) && fits_class(program, heap, class, value)
}

fn declares(
    program: &Program,
    heap: &Heap,
    object: usize,
    function: u32,
    value: &Value,
    declares: bool,
) -> bool
    ensures { (s : State) → result ≡ SlotRules.declares_well (tables_of program.now) (with_store s heap.now) (slice_get heap.now.objs object) (Store.class_of_function (tables_of program.now) function) (value_of value.now) declares }
{
    match class_of_function(program, function) {
        Some(class) => declares && declares_well(program, heap, object, class, value),
        None => false,
    }
}

/// What a write of a function's prototype breaks.
pub(crate) fn prototype_rule(
    program: &Program,
    heap: &Heap,
    object: usize,
    name: &[u16],
    value: &Value,
    declared: bool,
) -> Option<u8>
    ensures { (s : State) → result ≡ SlotRules.prototype_rule (tables_of program.now) (with_store s heap.now) (slice_get heap.now.objs object) name.now (value_of value.now) declared }
{
    if !is_spelled(name, b"prototype") {
        return None;
    }
    match heap.code_of(object) {
        Some(code) => rule_unless(
            declares(program, heap, object, code.function, value, declared),
            12,
        ),
        None => None,
    }
}
