// Rules, one or none.

ghost use Rattle.std.specs.Prelude.{◌≡◌};
ghost use Rattle.cc_meaning.specs.SlotRules as SlotRules;

/// The lesser of two rules, where there are any.
#[tactic(auto, unfolding(cc_meaning::specs::SlotRules::least))]
pub(crate) fn least(a: Option<u8>, b: Option<u8>) -> Option<u8>
    ensures { result ≡ SlotRules.least a b }
{
    match a {
        None => b,
        Some(x) => match b {
            None => Some(x),
            Some(y) => Some(if y < x { y } else { x }),
        },
    }
}

/// The rule, where it is broken.
#[tactic(auto, unfolding(cc_meaning::specs::SlotRules::rule_if))]
pub(crate) fn rule_if(broken: bool, rule: u8) -> Option<u8>
    ensures { result ≡ SlotRules.rule_if broken rule }
{
    if broken { Some(rule) } else { None }
}

/// The rule, where it isn't kept.
#[tactic(auto, unfolding(cc_meaning::specs::SlotRules::rule_unless))]
pub(crate) fn rule_unless(kept: bool, rule: u8) -> Option<u8>
    ensures { result ≡ SlotRules.rule_unless kept rule }
{
    if kept { None } else { Some(rule) }
}
