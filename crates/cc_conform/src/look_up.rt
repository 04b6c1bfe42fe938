// What a look-up comes to before it comes to a slot: rule 10.

ghost use Rattle.std.specs.Prelude.{◌≡◌, ◌&&◌, ◌||◌, Bool, None, is_none, is_some, slice_get, unwrap_or};
ghost use Rattle.std.specs.List.{list_any};
ghost use Rattle.cc_meaning.specs.Builtins.{text_method};
ghost use Rattle.cc_meaning.specs.Names as Names;
ghost use Rattle.cc_meaning.specs.Operators as Operators;
ghost use Rattle.cc_meaning.specs.SlotRules as SlotRules;
ghost use Rattle.cc_meaning.specs.Store.{chain_of, look_up, own_value};
ghost use Rattle.cc_meaning.specs.Typed.{elements_in};
ghost use Rattle.cc_heap.specs.Store.{value_if_found};
ghost use Rattle.cc_conform.specs.Met.{hides_at};

use crate::names::{is_common, is_function_name, is_standard_of_arrays, is_unwritten};
use crate::rules::rule_if;
use cc_ast::units::Units;
use cc_heap::heap::Heap;
use cc_heap::names::{is_array_method, is_spelled};

fn is_function(heap: &Heap, object: usize) -> bool
    ensures { result ≡ SlotRules.is_function (slice_get heap.now.objs object) }
{
    heap.code_of(object).is_some()
}

// Whether the look-up has come to a function, or has come to a slot first.
fn function_met(heap: &Heap, object: usize, name: &Units) -> Option<bool>
    ensures { (rest : Bool) → (SlotRules.is_function (slice_get heap.now.objs object) || (is_none (own_value (slice_get heap.now.objs object) name.now) && rest)) ≡ unwrap_or result rest }
{
    if is_function(heap, object) {
        return Some(true);
    }
    if heap.read_own(object, name).is_some() {
        return Some(false);
    }
    None
}

fn meets_function_on(heap: &Heap, chain: &[usize], name: &Units) -> bool
    ensures { result ≡ SlotRules.meets_function heap.now.objs chain.now name.now }
{
    for above in chain {
        if let Some(met) = function_met(heap, *above, name) {
            return met;
        }
    }
    false
}

fn meets_function(heap: &Heap, object: usize, name: &Units) -> bool
    ensures { result ≡ SlotRules.meets_function heap.now.objs (chain_of heap.now.objs object) name.now }
{
    match function_met(heap, object, name) {
        Some(met) => met,
        None => meets_function_on(heap, heap.chain(object), name),
    }
}

/// A function's `name` or `length` that is read.
#[tactic(auto, unfolding(cc_meaning::specs::SlotRules::function_rule))]
pub(crate) fn function_rule(heap: &Heap, object: usize, name: &Units) -> Option<u8>
    ensures { result ≡ SlotRules.function_rule heap.now.objs object name.now }
{
    let is_meant = is_function_name(name.list.as_slice());
    rule_if(is_meant && meets_function(heap, object, name), 10)
}

// Whether a built-in method of arrays or functions stands at the object under this name.
fn hides(heap: &Heap, object: usize, name: &[u16]) -> bool
    ensures { result ≡ hides_at (slice_get heap.now.objs object) name.now }
{
    if heap.is_array(object) {
        is_array_method(name)
    } else {
        heap.code_of(object).is_some() & is_spelled(name, b"call")
    }
}

fn chain_hides(heap: &Heap, chain: &[usize], name: &[u16]) -> bool
    ensures { result ≡ list_any (λ c. hides_at (slice_get heap.now.objs c) name.now) chain.now }
{
    chain.iter().any(|above| hides(heap, *above, name))
}

// Whether a built-in method of arrays or functions stands on the chain under this name.
#[tactic(auto, unfolding(cc_meaning::specs::Store::chain_of))]
fn meets_method(heap: &Heap, object: usize, name: &[u16]) -> bool
    ensures { result ≡ list_any (λ c. hides_at (slice_get heap.now.objs c) name.now) (chain_of heap.now.objs object) }
{
    hides(heap, object, name) || chain_hides(heap, heap.chain(object), name)
}

fn chain_has_array(heap: &Heap, chain: &[usize]) -> bool
    ensures { result ≡ list_any (λ c. is_some (elements_in (slice_get heap.now.objs c))) chain.now }
{
    chain.iter().any(|above| heap.is_array(*above))
}

// Whether an object of the chain is an array.
#[tactic(auto, unfolding(cc_meaning::specs::Store::chain_of, cc_meaning::specs::SlotRules::has_array), using(crate::proofs::MetLemmas::arrays_on))]
fn has_array(heap: &Heap, object: usize) -> bool
    ensures { result ≡ SlotRules.has_array heap.now.objs (chain_of heap.now.objs object) }
{
    heap.is_array(object) || chain_has_array(heap, heap.chain(object))
}

// Whether a look-up on the chain would come to a name of the standard library without a meaning here.
fn meets_standard(heap: &Heap, object: usize, name: &[u16]) -> bool
    ensures { result ≡ (Operators.is_in name.now Names.common_names || (Operators.is_in name.now Names.standard_array_names && SlotRules.has_array heap.now.objs (chain_of heap.now.objs object))) }
{
    is_common(name) || (is_standard_of_arrays(name) && has_array(heap, object))
}

/// What a look-up breaks that comes to no value.
pub(crate) fn unfound_rule(heap: &Heap, object: usize, name: &[u16]) -> Option<u8>
    requires { value_if_found (look_up heap.now.objs object name.now) ≡ None }
    ensures { result ≡ SlotRules.unfound_rule heap.now.objs (chain_of heap.now.objs object) name.now (look_up heap.now.objs object name.now) }
{
    let is_method = meets_method(heap, object, name) | is_spelled(name, b"hasOwnProperty");
    rule_if(is_method | meets_standard(heap, object, name), 10)
}

fn chain_has_function(heap: &Heap, chain: &[usize]) -> bool
    ensures { result ≡ list_any (λ c. SlotRules.is_function (slice_get heap.now.objs c)) chain.now }
{
    chain.iter().any(|above| is_function(heap, *above))
}

// Whether an object of the chain is a function.
#[tactic(auto, unfolding(cc_meaning::specs::Store::chain_of, cc_meaning::specs::SlotRules::has_function), using(crate::proofs::MetLemmas::functions_on))]
fn has_function(heap: &Heap, object: usize) -> bool
    ensures { result ≡ SlotRules.has_function heap.now.objs (chain_of heap.now.objs object) }
{
    is_function(heap, object) || chain_has_function(heap, heap.chain(object))
}

/// A write that an engine doesn't carry out.
#[tactic(auto, unfolding(cc_meaning::specs::SlotRules::unwritten_rule))]
pub(crate) fn unwritten_rule(heap: &Heap, object: usize, name: &[u16]) -> Option<u8>
    ensures { result ≡ SlotRules.unwritten_rule heap.now.objs object name.now }
{
    rule_if(is_unwritten(name) && has_function(heap, object), 10)
}

fn is_text_method(name: &[u16]) -> bool
    ensures { result ≡ is_some (text_method name.now) }
{
    is_spelled(name, b"charAt")
        | is_spelled(name, b"charCodeAt")
        | is_spelled(name, b"indexOf")
        | is_spelled(name, b"lastIndexOf")
        | is_spelled(name, b"slice")
        | is_spelled(name, b"substring")
}

/// What a read of a text breaks (ECMA-262 5.1, 15.5.5).
#[tactic(auto, unfolding(cc_meaning::specs::SlotRules::text_read))]
pub(crate) fn text_read(name: &[u16]) -> Option<u8>
    ensures { result ≡ SlotRules.text_read name.now }
{
    if is_spelled(name, b"length") {
        None
    } else if is_text_method(name) {
        Some(10)
    } else {
        Some(2)
    }
}
