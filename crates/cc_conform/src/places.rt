// Where a part of a text stands (ECMA-262 5.1, 15.5.4.7 and 15.5.4.8), and which places are
// numbers.

ghost use Rattle.std.specs.Prelude.{◌≡◌};
ghost use Rattle.cc_meaning.specs.Builtins as Builtins;
ghost use Rattle.cc_meaning.specs.Rules.{outcome_rule};

use cc_value::texts;

/// The greatest number: 2^53-1.
pub(crate) const GREATEST: usize = 9_007_199_254_740_991;

/// The rule that a place breaks as a number. No place is -1.
#[tactic(auto, unfolding(cc_meaning::specs::Builtins::position_number))]
pub(crate) fn position_rule(place: Option<usize>) -> Option<u8>
    ensures { result ≡ outcome_rule (Builtins.position_number place) }
{
    match place {
        Some(place) => { if place <= GREATEST { None } else { Some(1) } }
        None => None,
    }
}

fn begins_with(part: &[u16], text: &[u16]) -> bool
    ensures { result ≡ Builtins.begins_with part.now text.now }
{
    if part.len() > text.len() {
        return false;
    }
    texts::is_equal(part, &text[..part.len()])
}

fn first_place(part: &[u16], text: &[u16]) -> Option<usize>
    ensures { result ≡ Builtins.first_place 0 part.now text.now }
{
    for at in 0..text.len() {
        if begins_with(part, &text[at..]) {
            return Some(at);
        }
    }
    if part.is_empty() {
        Some(text.len())
    } else {
        None
    }
}

fn last_place(part: &[u16], text: &[u16]) -> Option<usize>
    ensures { result ≡ Builtins.last_place 0 part.now text.now }
{
    let mut last = None;
    for at in 0..text.len() {
        if begins_with(part, &text[at..]) {
            last = Some(at);
        }
    }
    if part.is_empty() {
        return Some(text.len());
    }
    last
}

/// The rule that `indexOf` of a text breaks.
pub(crate) fn first_place_rule(part: &[u16], text: &[u16]) -> Option<u8>
    ensures { result ≡ outcome_rule (Builtins.position_number (Builtins.first_place 0 part.now text.now)) }
{
    if text.len() <= GREATEST {
        return None;
    }
    position_rule(first_place(part, text))
}

/// The rule that `lastIndexOf` of a text breaks.
pub(crate) fn last_place_rule(part: &[u16], text: &[u16]) -> Option<u8>
    ensures { result ≡ outcome_rule (Builtins.position_number (Builtins.last_place 0 part.now text.now)) }
{
    if text.len() <= GREATEST {
        return None;
    }
    position_rule(last_place(part, text))
}
