// The kinds and the number of operands.

ghost use Rattle.std.specs.Prelude.{◌≡◌, map};
ghost use Rattle.std.specs.List.{list_all};
ghost use Rattle.std.specs.Option.{option_copied};
ghost use Rattle.cc_meaning.specs.Rules.{is_prim};
ghost use Rattle.cc_value.specs.Bridge.{value_of};
ghost use Rattle.cc_conform.specs.Operands as Operands;

use cc_value::value::Value;

fn is_whole(value: &Value) -> bool
    ensures { result ≡ Operands.is_whole (value_of value.now) }
{
    match value {
        Value::Whole(_) => true,
        _ => false,
    }
}

pub(crate) fn is_text(value: &Value) -> bool
    ensures { result ≡ Operands.is_text (value_of value.now) }
{
    match value {
        Value::Text(_) => true,
        _ => false,
    }
}

/// Whether it is no object.
#[tactic(auto, unfolding(cc_meaning::specs::Rules::is_prim))]
pub(crate) fn is_prim(value: &Value) -> bool
    ensures { result ≡ is_prim (value_of value.now) }
{
    match value {
        Value::Object(_) => false,
        Value::Outside(_) => false,
        _ => true,
    }
}

/// Whether each value is a whole number.
pub(crate) fn are_wholes(values: &[Value]) -> bool
    ensures { result ≡ list_all (λ v. Operands.is_whole (value_of v)) values.now }
{
    values.iter().all(|value| is_whole(value))
}

/// Whether each value is a text.
pub(crate) fn are_texts(values: &[Value]) -> bool
    ensures { result ≡ list_all (λ v. Operands.is_text (value_of v)) values.now }
{
    values.iter().all(|value| is_text(value))
}

/// Whether no value is an object.
pub(crate) fn are_prims(values: &[Value]) -> bool
    ensures { result ≡ list_all (λ v. is_prim (value_of v)) values.now }
{
    values.iter().all(|value| is_prim(value))
}

pub(crate) fn has_none(values: &[Value]) -> bool
    ensures { result ≡ Operands.has_none (map value_of values.now) }
{
    values.is_empty()
}

pub(crate) fn has_one(values: &[Value]) -> bool
    ensures { result ≡ Operands.has_one (map value_of values.now) }
{
    values.len() == 1
}

pub(crate) fn has_one_or_two(values: &[Value]) -> bool
    ensures { result ≡ Operands.has_one_or_two (map value_of values.now) }
{
    !values.is_empty() & (values.len() < 3)
}

pub(crate) fn has_one_at_most(values: &[Value]) -> bool
    ensures { result ≡ Operands.has_one_at_most (map value_of values.now) }
{
    values.len() < 2
}

pub(crate) fn has_two_at_most(values: &[Value]) -> bool
    ensures { result ≡ Operands.has_two_at_most (map value_of values.now) }
{
    values.len() < 3
}

/// The operand, where there is one alone.
pub(crate) fn only(values: &[Value]) -> Option<&Value>
    ensures { option_copied result ≡ Operands.only values.now }
{
    match values {
        [value] => Some(value),
        _ => None,
    }
}
