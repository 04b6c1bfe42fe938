// What uses of what is built in break (ECMA-262 5.1, 15).

ghost use Rattle.std.specs.Prelude.{◌≡◌, ◌∷◌, Some, map};
ghost use Rattle.cc_meaning.specs.Built.{from_result, on_array, outcome_of, rule_in};
ghost use Rattle.cc_meaning.specs.Builtins as Builtins;
ghost use Rattle.cc_meaning.specs.Shapes.{tables_of};
ghost use Rattle.cc_meaning.specs.State.{State};
ghost use Rattle.cc_meaning.specs.Store.{of_array};
ghost use Rattle.cc_value.specs.Bridge.{value_of};
ghost use Rattle.cc_conform.specs.Bridge.{array_use_of, use_of, with_store};

use crate::act::{ArrayUse, BuiltInUse};
use crate::array_uses::{concat_rule, end_rule, index_rule, join_rule, length_rule, part_rule};
use crate::global_uses::{codes_rule, math_rule, string_rule};
use crate::object_uses::{call_rule, create_rule, has_own_rule};
use crate::rules::rule_unless;
use crate::text_uses::text_rule;
use crate::types::of_all_elements;
use cc_ast::program::Program;
use cc_heap::heap::Heap;
use cc_value::value::Value;

// `push` and `unshift`, whose arguments are of the element types that were entered.
fn enter_rule(
    program: &Program,
    heap: &Heap,
    array: usize,
    elements: &[Value],
    args: &[Value],
) -> Option<u8>
    ensures push { (s : State) → result ≡ rule_in (tables_of program.now) (with_store s heap.now) (from_result array (map value_of args.now) (Builtins.array_use Builtins.array_push (map value_of elements.now) (map value_of args.now))) }
    ensures unshift { (s : State) → result ≡ rule_in (tables_of program.now) (with_store s heap.now) (from_result array (map value_of args.now) (Builtins.array_use Builtins.array_unshift (map value_of elements.now) (map value_of args.now))) }
{
    match length_rule(elements.len() + args.len()) {
        Some(rule) => Some(rule),
        None => rule_unless(of_all_elements(program, heap, heap.wanted(array), args), 6),
    }
}

fn use_rule(
    program: &Program,
    heap: &Heap,
    kind: ArrayUse,
    array: usize,
    elements: &[Value],
    args: &[Value],
) -> Option<u8>
    ensures { (s : State) → result ≡ rule_in (tables_of program.now) (with_store s heap.now) (on_array heap.now.objs (array_use_of kind) array (Some (map value_of elements.now)) (map value_of args.now)) }
{
    match kind {
        ArrayUse::Push => enter_rule(program, heap, array, elements, args),
        ArrayUse::Unshift => enter_rule(program, heap, array, elements, args),
        ArrayUse::Pop => end_rule(args),
        ArrayUse::Shift => end_rule(args),
        ArrayUse::Slice => part_rule(args),
        ArrayUse::Concat => concat_rule(heap, args),
        ArrayUse::Join => join_rule(elements, args),
        ArrayUse::IndexOf => index_rule(elements, args),
    }
}

fn receiver_rule(
    program: &Program,
    heap: &Heap,
    kind: ArrayUse,
    receiver: &Value,
    args: &[Value],
) -> Option<u8>
    ensures { (s : State) → result ≡ rule_in (tables_of program.now) (with_store s heap.now) (outcome_of (with_store s heap.now) (of_array (array_use_of kind)) (value_of receiver.now ∷ map value_of args.now)) }
{
    match receiver {
        Value::Object(array) => match heap.elements(*array) {
            Some(elements) => use_rule(program, heap, kind, *array, elements, args),
            None => Some(2),
        },
        _ => Some(2),
    }
}

// The rule that a use of an array breaks, where the first operand is the array.
fn array_rule(program: &Program, heap: &Heap, kind: ArrayUse, operands: &[Value]) -> Option<u8>
    ensures { (s : State) → result ≡ rule_in (tables_of program.now) (with_store s heap.now) (outcome_of (with_store s heap.now) (of_array (array_use_of kind)) (map value_of operands.now)) }
{
    match operands.split_first() {
        Some((receiver, args)) => receiver_rule(program, heap, kind, receiver, args),
        None => Some(2),
    }
}

/// The rule that a use of what is built in breaks. The receiver is the first operand.
pub(crate) fn built_rule(
    program: &Program,
    heap: &Heap,
    built: BuiltInUse,
    operands: &[Value],
) -> Option<u8>
    ensures { (s : State) → result ≡ rule_in (tables_of program.now) (with_store s heap.now) (outcome_of (with_store s heap.now) (use_of built) (map value_of operands.now)) }
{
    match built {
        BuiltInUse::Array(kind) => array_rule(program, heap, kind, operands),
        BuiltInUse::Text(kind) => text_rule(kind, operands),
        BuiltInUse::StringOf => string_rule(operands),
        BuiltInUse::FromCharCode => codes_rule(operands),
        BuiltInUse::Math(kind) => math_rule(kind, operands),
        BuiltInUse::ObjectCreate => create_rule(operands),
        BuiltInUse::HasOwnProperty => has_own_rule(operands),
        BuiltInUse::Call => call_rule(heap, operands),
    }
}
