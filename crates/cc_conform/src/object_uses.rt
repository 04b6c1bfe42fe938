// What `Object.create`, `hasOwnProperty` and `call` break (ECMA-262 5.1, 15.2.3.5, 15.2.4.5 and
// 15.3.4.4).

ghost use Rattle.std.specs.Prelude.{◌≡◌, ◌∷◌, map};
ghost use Rattle.cc_meaning.specs.Built.{outcome_of, rule_in};
ghost use Rattle.cc_meaning.specs.State.{State, Tables};
ghost use Rattle.cc_meaning.specs.Store.{call_with, create_object, has_own};
ghost use Rattle.cc_value.specs.Bridge.{value_of};
ghost use Rattle.cc_conform.specs.Bridge.{with_store};
ghost use Rattle.cc_conform.specs.Operands as Operands;

use crate::operands::{has_none, is_text, only};
use crate::rules::rule_unless;
use cc_heap::heap::Heap;
use cc_value::value::Value;

fn is_prototype(value: &Value) -> bool
    ensures { result ≡ Operands.is_prototype (value_of value.now) }
{
    match value {
        Value::Object(_) => true,
        Value::Null => true,
        _ => false,
    }
}

/// `Object.create`, of an object of the program or null.
pub(crate) fn create_rule(operands: &[Value]) -> Option<u8>
    ensures { (T : Tables) (s : State) → result ≡ rule_in T s (outcome_of s create_object (map value_of operands.now)) }
{
    match only(operands) {
        Some(prototype) => rule_unless(is_prototype(prototype), 2),
        None => Some(2),
    }
}

fn is_object(value: &Value) -> bool
    ensures { result ≡ Operands.is_object (value_of value.now) }
{
    match value {
        Value::Object(_) => true,
        _ => false,
    }
}

/// `hasOwnProperty`, of an object of the program and a text.
pub(crate) fn has_own_rule(operands: &[Value]) -> Option<u8>
    ensures { (T : Tables) (s : State) → result ≡ rule_in T s (outcome_of s has_own (map value_of operands.now)) }
{
    match operands {
        [on, name] => rule_unless(is_object(on) & is_text(name), 2),
        _ => Some(2),
    }
}

fn function_rule(heap: &Heap, function: &Value, args: &[Value]) -> Option<u8>
    ensures { (T : Tables) (s : State) → result ≡ rule_in T (with_store s heap.now) (outcome_of (with_store s heap.now) call_with (value_of function.now ∷ map value_of args.now)) }
{
    match function {
        Value::Object(object) => {
            rule_unless(heap.code_of(*object).is_some() & !has_none(args), 2)
        }
        _ => Some(2),
    }
}

/// `call`, of a function and a receiver.
pub(crate) fn call_rule(heap: &Heap, operands: &[Value]) -> Option<u8>
    ensures { (T : Tables) (s : State) → result ≡ rule_in T (with_store s heap.now) (outcome_of (with_store s heap.now) call_with (map value_of operands.now)) }
{
    match operands.split_first() {
        Some((function, args)) => function_rule(heap, function, args),
        None => Some(2),
    }
}
