// What uses of texts break (ECMA-262 5.1, 15.5.4).

ghost use Rattle.std.specs.Prelude.{◌≡◌, ◌∷◌, List, [], map, ℕ};
ghost use Rattle.cc_meaning.specs.Built.{outcome_of, rule_in};
ghost use Rattle.cc_meaning.specs.Builtins as Builtins;
ghost use Rattle.cc_meaning.specs.Rules.{outcome_rule};
ghost use Rattle.cc_meaning.specs.State.{State, Tables};
ghost use Rattle.cc_meaning.specs.Store.{of_text};
ghost use Rattle.cc_value.specs.Bridge.{value_of};
ghost use Rattle.cc_conform.specs.Bridge.{text_use_of};

use crate::act::TextUse;
use crate::operands::{are_wholes, has_one, has_one_or_two, only};
use crate::places::{first_place_rule, last_place_rule};
use crate::rules::rule_unless;
use cc_value::value::Value;

fn char_at_rule(args: &[Value]) -> Option<u8>
    ensures { (t : List ℕ) → result ≡ outcome_rule (Builtins.text_use Builtins.text_char_at t (map value_of args.now)) }
{
    rule_unless(are_wholes(args) & has_one(args), 2)
}

// `slice` and `substring`, which take one place or two.
fn part_rule(args: &[Value]) -> Option<u8>
    ensures slice { (t : List ℕ) → result ≡ outcome_rule (Builtins.text_use Builtins.text_slice t (map value_of args.now)) }
    ensures substring { (t : List ℕ) → result ≡ outcome_rule (Builtins.text_use Builtins.text_substring t (map value_of args.now)) }
{
    rule_unless(are_wholes(args) & has_one_or_two(args), 2)
}

fn code_at_rule(text: &[u16], place: i64) -> Option<u8>
    ensures { result ≡ outcome_rule (Builtins.char_code_at text.now place) }
{
    if place < 0 {
        return Some(1);
    }
    rule_unless((place as usize) < text.len(), 1)
}

fn code_of_rule(text: &[u16], place: &Value) -> Option<u8>
    ensures { result ≡ outcome_rule (Builtins.text_use Builtins.text_char_code_at text.now (value_of place.now ∷ [])) }
{
    match place {
        Value::Whole(place) => code_at_rule(text, *place),
        _ => Some(2),
    }
}

fn char_code_rule(text: &[u16], args: &[Value]) -> Option<u8>
    ensures { result ≡ outcome_rule (Builtins.text_use Builtins.text_char_code_at text.now (map value_of args.now)) }
{
    match only(args) {
        Some(place) => code_of_rule(text, place),
        None => Some(2),
    }
}

fn first_of_rule(text: &[u16], part: &Value) -> Option<u8>
    ensures { result ≡ outcome_rule (Builtins.text_use Builtins.text_index_of text.now (value_of part.now ∷ [])) }
{
    match part {
        Value::Text(part) => first_place_rule(part.list.as_slice(), text),
        _ => Some(2),
    }
}

fn index_rule(text: &[u16], args: &[Value]) -> Option<u8>
    ensures { result ≡ outcome_rule (Builtins.text_use Builtins.text_index_of text.now (map value_of args.now)) }
{
    match only(args) {
        Some(part) => first_of_rule(text, part),
        None => Some(2),
    }
}

fn last_of_rule(text: &[u16], part: &Value) -> Option<u8>
    ensures { result ≡ outcome_rule (Builtins.text_use Builtins.text_last_index_of text.now (value_of part.now ∷ [])) }
{
    match part {
        Value::Text(part) => last_place_rule(part.list.as_slice(), text),
        _ => Some(2),
    }
}

fn last_index_rule(text: &[u16], args: &[Value]) -> Option<u8>
    ensures { result ≡ outcome_rule (Builtins.text_use Builtins.text_last_index_of text.now (map value_of args.now)) }
{
    match only(args) {
        Some(part) => last_of_rule(text, part),
        None => Some(2),
    }
}

fn use_rule(kind: TextUse, text: &[u16], args: &[Value]) -> Option<u8>
    ensures { result ≡ outcome_rule (Builtins.text_use (text_use_of kind) text.now (map value_of args.now)) }
{
    match kind {
        TextUse::CharAt => char_at_rule(args),
        TextUse::CharCodeAt => char_code_rule(text, args),
        TextUse::IndexOf => index_rule(text, args),
        TextUse::LastIndexOf => last_index_rule(text, args),
        TextUse::Slice => part_rule(args),
        TextUse::Substring => part_rule(args),
    }
}

fn receiver_rule(kind: TextUse, receiver: &Value, args: &[Value]) -> Option<u8>
    ensures { (T : Tables) (s : State) → result ≡ rule_in T s (outcome_of s (of_text (text_use_of kind)) (value_of receiver.now ∷ map value_of args.now)) }
{
    match receiver {
        Value::Text(text) => use_rule(kind, text.list.as_slice(), args),
        _ => Some(2),
    }
}

/// The rule that a use of a text breaks, where the first operand is the text.
pub(crate) fn text_rule(kind: TextUse, operands: &[Value]) -> Option<u8>
    ensures { (T : Tables) (s : State) → result ≡ rule_in T s (outcome_of s (of_text (text_use_of kind)) (map value_of operands.now)) }
{
    match operands.split_first() {
        Some((receiver, args)) => receiver_rule(kind, receiver, args),
        None => Some(2),
    }
}
