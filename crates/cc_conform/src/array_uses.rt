// What uses of arrays break (ECMA-262 5.1, 15.4.4), but for what they put in.

ghost use Rattle.std.specs.Prelude.{◌≡◌, ◌++◌, ◌∷◌, List, [], map, pos};
ghost use Rattle.std.specs.List.{list_all};
ghost use Rattle.cc_meaning.specs.Built as Built;
ghost use Rattle.cc_meaning.specs.Builtins as Builtins;
ghost use Rattle.cc_meaning.specs.Operators.{number};
ghost use Rattle.cc_meaning.specs.Rules.{outcome_rule};
ghost use Rattle.cc_meaning.specs.Values.{Val};
ghost use Rattle.cc_value.specs.Bridge.{value_of};
ghost use Rattle.cc_conform.specs.Operands as Operands;
ghost use Rattle.cc_conform.specs.Uses.{result_rule};

use crate::operands::{
    are_prims, are_texts, are_wholes, has_none, has_one_at_most, has_two_at_most, only,
};
use crate::places::{GREATEST, position_rule};
use crate::rules::rule_unless;
use cc_heap::heap::Heap;
use cc_value::operate;
use cc_value::value::Value;

/// The rule that a length breaks as a number.
pub(crate) fn length_rule(count: usize) -> Option<u8>
    ensures { result ≡ outcome_rule (number (pos count)) }
{
    rule_unless(count <= GREATEST, 1)
}

/// `pop` and `shift`.
pub(crate) fn end_rule(args: &[Value]) -> Option<u8>
    ensures pop { (es : List Val) → result ≡ result_rule (Builtins.array_use Builtins.array_pop es (map value_of args.now)) }
    ensures shift { (es : List Val) → result ≡ result_rule (Builtins.array_use Builtins.array_shift es (map value_of args.now)) }
{
    rule_unless(has_none(args), 2)
}

/// `slice`.
pub(crate) fn part_rule(args: &[Value]) -> Option<u8>
    ensures { (es : List Val) → result ≡ result_rule (Builtins.array_use Builtins.array_slice es (map value_of args.now)) }
{
    rule_unless(are_wholes(args) & has_two_at_most(args), 2)
}

fn is_array(heap: &Heap, value: &Value) -> bool
    ensures { result ≡ Operands.is_array heap.now.objs (value_of value.now) }
{
    match value {
        Value::Object(object) => heap.is_array(*object),
        _ => false,
    }
}

fn are_arrays(heap: &Heap, values: &[Value]) -> bool
    ensures { result ≡ list_all (λ v. Operands.is_array heap.now.objs (value_of v)) values.now }
{
    values.iter().all(|value| is_array(heap, value))
}

/// `concat`, of arrays.
pub(crate) fn concat_rule(heap: &Heap, args: &[Value]) -> Option<u8>
    ensures { (es : List Val) → result ≡ result_rule (Builtins.concat_use es (Built.args_of heap.now.objs (map value_of args.now))) }
{
    rule_unless(are_arrays(heap, args), 2)
}

/// `join`, of an array without objects.
pub(crate) fn join_rule(elements: &[Value], args: &[Value]) -> Option<u8>
    ensures { result ≡ result_rule (Builtins.array_use Builtins.array_join (map value_of elements.now) (map value_of args.now)) }
{
    if are_texts(args) & has_one_at_most(args) {
        rule_unless(are_prims(elements), 2)
    } else {
        Some(2)
    }
}

fn element_place(elements: &[Value], value: &Value) -> Option<usize>
    ensures { result ≡ Builtins.element_place 0 (value_of value.now) (map value_of elements.now) }
{
    for (at, element) in elements.iter().enumerate() {
        if operate::is_same(element, value) {
            return Some(at);
        }
    }
    None
}

fn element_place_rule(elements: &[Value], value: &Value) -> Option<u8>
    ensures { result ≡ outcome_rule (Builtins.position_number (Builtins.element_place 0 (value_of value.now) (map value_of elements.now))) }
{
    if elements.len() <= GREATEST {
        return None;
    }
    position_rule(element_place(elements, value))
}

/// `indexOf`.
pub(crate) fn index_rule(elements: &[Value], args: &[Value]) -> Option<u8>
    ensures { result ≡ result_rule (Builtins.array_use Builtins.array_index_of (map value_of elements.now) (map value_of args.now)) }
{
    match only(args) {
        Some(value) => element_place_rule(elements, value),
        None => Some(2),
    }
}
