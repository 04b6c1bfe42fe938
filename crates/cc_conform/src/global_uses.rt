// What `Math`, `String` and `String.fromCharCode` break (ECMA-262 5.1, 15.5.1.1, 15.5.3.2 and
// 15.8.2).

ghost use Rattle.std.specs.Prelude.{◌≡◌, ◌∷◌, [], map};
ghost use Rattle.cc_meaning.specs.Builtins as Builtins;
ghost use Rattle.cc_ast.specs.Syntax.{whole};
ghost use Rattle.cc_meaning.specs.Rules.{outcome_rule};
ghost use Rattle.cc_meaning.specs.Values.{prim};
ghost use Rattle.cc_value.specs.Bridge.{value_of};
ghost use Rattle.cc_conform.specs.Bridge.{math_use_of};

use crate::act::MathUse;
use crate::operands::{are_prims, are_wholes, has_none, has_one, only};
use crate::places::GREATEST;
use crate::rules::rule_unless;
use cc_value::value::Value;

/// `Math.max` and `Math.min`.
pub(crate) fn outermost_rule(args: &[Value]) -> Option<u8>
    ensures max { result ≡ outcome_rule (Builtins.math_use Builtins.math_max (map value_of args.now)) }
    ensures min { result ≡ outcome_rule (Builtins.math_use Builtins.math_min (map value_of args.now)) }
{
    rule_unless(!has_none(args) & are_wholes(args), 2)
}

fn size_rule(z: i64) -> Option<u8>
    ensures { result ≡ outcome_rule (Builtins.math_use Builtins.math_abs (prim (whole z) ∷ [])) }
{
    rule_unless(z.unsigned_abs() <= GREATEST as u64, 1)
}

fn size_of_rule(value: &Value) -> Option<u8>
    ensures { result ≡ outcome_rule (Builtins.math_use Builtins.math_abs (value_of value.now ∷ [])) }
{
    match value {
        Value::Whole(z) => size_rule(*z),
        _ => Some(2),
    }
}

/// `Math.abs`.
pub(crate) fn abs_rule(args: &[Value]) -> Option<u8>
    ensures { result ≡ outcome_rule (Builtins.math_use Builtins.math_abs (map value_of args.now)) }
{
    match only(args) {
        Some(value) => size_of_rule(value),
        None => Some(2),
    }
}

/// `String`.
pub(crate) fn string_rule(args: &[Value]) -> Option<u8>
    ensures { result ≡ outcome_rule (Builtins.string_use (map value_of args.now)) }
{
    rule_unless(are_prims(args) & has_one(args), 2)
}

/// `String.fromCharCode`.
pub(crate) fn codes_rule(args: &[Value]) -> Option<u8>
    ensures { result ≡ outcome_rule (Builtins.from_char_codes (map value_of args.now)) }
{
    rule_unless(are_wholes(args), 2)
}

/// A function of `Math`.
pub(crate) fn math_rule(kind: MathUse, args: &[Value]) -> Option<u8>
    ensures { result ≡ outcome_rule (Builtins.math_use (math_use_of kind) (map value_of args.now)) }
{
    match kind {
        MathUse::Max => outermost_rule(args),
        MathUse::Min => outermost_rule(args),
        MathUse::Abs => abs_rule(args),
    }
}
