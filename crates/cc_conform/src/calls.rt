// What callees, and the beginning and the end of a call break: rules 3, 5 and 6.

ghost use Rattle.std.specs.Prelude.{◌≡◌, ◌||◌, map, nat_eq};
ghost use Rattle.std.specs.List.{list_any};
ghost use Rattle.std.specs.Option.{option_copied, option_map};
ghost use Rattle.cc_meaning.specs.Rules as Rules;
ghost use Rattle.cc_meaning.specs.Shapes.{tables_of};
ghost use Rattle.cc_meaning.specs.State.{State};
ghost use Rattle.cc_meaning.specs.Store as Store;
ghost use Rattle.cc_value.specs.Bridge.{value_of};
ghost use Rattle.cc_conform.specs.Bridge.{with_store};

use crate::docs::{param_types, receiver_type, result_type};
use crate::prototypes::{class_of_function, is_number};
use crate::rules::{least, rule_unless};
use crate::types::fits;
use cc_ast::program::Program;
use cc_ast::tables::{Class, TypeSet};
use cc_heap::heap::Heap;
use cc_value::value::Value;

/// What a callee breaks.
pub fn callee_rule(heap: &Heap, value: &Value) -> Option<u8>
    ensures { (s : State) → result ≡ Rules.callee_rule (with_store s heap.now) (value_of value.now) }
{
    match value {
        Value::Undefined => Some(3),
        Value::Null => Some(3),
        Value::Object(object) => rule_unless(heap.code_of(*object).is_some(), 2),
        Value::Outside(_) => None,
        _ => Some(2),
    }
}

fn is_among(methods: &[(u32, u32)], function: u32) -> bool
    ensures { result ≡ list_any (λ m. nat_eq m.1 function) methods.now }
{
    methods.iter().any(|method| method.1 == function)
}

// Whether the function is that of the class, or a method of it.
fn has_code(class: &Class, function: u32) -> bool
    ensures { result ≡ (Store.is_number class.now.function function || list_any (λ m. nat_eq m.1 function) class.now.methods) }
{
    is_number(class.function, function) || is_among(class.methods.as_slice(), function)
}

fn code_class_from(classes: &[Class], function: u32) -> Option<usize>
    ensures { result ≡ Store.code_class_from 0 classes.now function }
{
    for (at, class) in classes.iter().enumerate() {
        if has_code(class, function) {
            return Some(at);
        }
    }
    None
}

#[tactic(auto, unfolding(cc_meaning::specs::Rules::extends_class, cc_meaning::specs::Shapes::tables_of))]
fn extends_class(program: &Program, class: Option<u32>, above: usize) -> bool
    ensures { result ≡ Rules.extends_class (tables_of program.now) class above }
{
    match class {
        Some(class) => cc_types::extends(program.classes.get().as_slice(), class, above),
        None => false,
    }
}

// Whether a value is an object whose class is this one or extends it.
#[tactic(auto, unfolding(cc_meaning::specs::Rules::is_instance))]
fn is_instance(program: &Program, heap: &Heap, class: usize, value: &Value) -> bool
    ensures { (s : State) → result ≡ Rules.is_instance (tables_of program.now) (with_store s heap.now) class (value_of value.now) }
{
    match value {
        Value::Object(object) => extends_class(program, heap.class_of(*object), class),
        _ => false,
    }
}

// Whether code of this class, where it is of one, may run on the receiver.
#[tactic(auto, unfolding(cc_meaning::specs::Rules::runs_on))]
fn runs_on(program: &Program, heap: &Heap, class: Option<usize>, receiver: &Option<Value>) -> bool
    ensures { (s : State) → result ≡ Rules.runs_on (tables_of program.now) (with_store s heap.now) class (option_map value_of receiver.now) }
{
    match class {
        Some(class) => match receiver {
            Some(value) => is_instance(program, heap, class, value),
            None => false,
        },
        None => true,
    }
}

#[tactic(auto, unfolding(cc_meaning::specs::Rules::receiver_fits))]
fn receiver_fits(
    program: &Program,
    heap: &Heap,
    wanted: Option<&TypeSet>,
    receiver: &Option<Value>,
) -> bool
    ensures { (s : State) → result ≡ Rules.receiver_fits (tables_of program.now) (with_store s heap.now) (option_copied wanted.entry) (option_map value_of receiver.now) }
{
    match receiver {
        Some(value) => fits(program, heap, wanted, value),
        None => true,
    }
}

// Whether each argument is of its parameter's type.
fn all_fit(program: &Program, heap: &Heap, types: &[Option<TypeSet>], values: &[Value]) -> bool
    ensures { (s : State) → result ≡ Rules.all_fit (tables_of program.now) (with_store s heap.now) types.now (map value_of values.now) }
{
    for (at, wanted) in types.iter().enumerate() {
        match sqlite_items::at(values, at) {
            Some(value) => {
                if !fits(program, heap, wanted.as_ref(), value) {
                    return false;
                }
            }
            None => return true,
        }
    }
    true
}

/// What the beginning of a call breaks.
pub fn enter_rule(
    program: &Program,
    heap: &Heap,
    function: u32,
    receiver: &Option<Value>,
    values: &[Value],
) -> Option<u8>
    ensures { (s : State) → result ≡ Rules.enter_rule (tables_of program.now) (with_store s heap.now) function (option_map value_of receiver.now) (map value_of values.now) }
{
    let class = code_class_from(program.classes.get().as_slice(), function);
    let is_run = runs_on(program, heap, class, receiver);
    let wanted = receiver_type(program, function);
    let is_received = receiver_fits(program, heap, wanted, receiver);
    let types = param_types(program, function);
    least(
        rule_unless(is_run & is_received, 5),
        rule_unless(all_fit(program, heap, types, values), 6),
    )
}

#[tactic(auto, unfolding(cc_meaning::specs::Rules::is_prim))]
fn is_prim(value: &Value) -> bool
    ensures { result ≡ Rules.is_prim (value_of value.now) }
{
    match value {
        Value::Object(_) => false,
        Value::Outside(_) => false,
        _ => true,
    }
}

// Whether what `new` gives is an instance of the class.
fn builds_well(
    program: &Program,
    heap: &Heap,
    class: Option<usize>,
    built: bool,
    value: &Value,
) -> bool
    ensures { (s : State) → result ≡ Rules.builds_well (tables_of program.now) (with_store s heap.now) class built (value_of value.now) }
{
    match class {
        Some(class) => {
            if built {
                is_prim(value) || is_instance(program, heap, class, value)
            } else {
                true
            }
        }
        None => true,
    }
}

/// What the end of a call breaks.
pub fn leave_rule(
    program: &Program,
    heap: &Heap,
    function: u32,
    built: bool,
    value: &Value,
) -> Option<u8>
    ensures { (s : State) → result ≡ Rules.leave_rule (tables_of program.now) (with_store s heap.now) function built (value_of value.now) }
{
    let is_typed = fits(program, heap, result_type(program, function), value);
    let class = class_of_function(program, function);
    rule_unless(
        is_typed & builds_well(program, heap, class, built, value),
        6,
    )
}
