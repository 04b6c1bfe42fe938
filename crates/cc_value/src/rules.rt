// What the operators break (ECMA-262 5.1, 11), as far as they need no store. No value is made.

ghost use Rattle.std.specs.Prelude.{◌≡◌};
ghost use Rattle.cc_meaning.specs.Operators.{Outcome, answer_of, binary_of, unary_of};
ghost use Rattle.cc_meaning.specs.Rules.{outcome_rule};
ghost use Rattle.cc_ast.specs.declared.operator.BinOp.{BinOp};
ghost use Rattle.cc_value.specs.Bridge.{Answers, fault_rule, joined_of, text_of, type_of, value_of, whole_of, wholes_of};

use crate::value::{OpFault, Value};
use crate::{operate, whole};
use cc_ast::operator::{BinOp, UnOp};

fn fault_rule(fault: OpFault) -> Option<u8>
    ensures { result ≡ fault_rule fault }
{
    match fault {
        OpFault::Rule1 => Some(1),
        OpFault::Rule2 => Some(2),
        OpFault::Memory => None,
    }
}

// The rule that an answer tells. Where memory ran out, there is a text and no rule.
fn rule_of(answer: Result<Value, OpFault>) -> Option<u8>
    ensures { (o : Outcome) → Answers answer o → result ≡ outcome_rule o }
{
    match answer {
        Ok(_) => None,
        Err(fault) => fault_rule(fault),
    }
}

// A test breaks a rule only where the kinds aren't in the table.
fn test_rule(test: Option<bool>) -> Option<u8>
    ensures { result ≡ outcome_rule (answer_of test) }
{
    match test {
        Some(_) => None,
        None => Some(2),
    }
}

fn joined_rule(a: &Value, b: &Value) -> Option<u8>
    ensures { result ≡ outcome_rule (joined_of (text_of (value_of a.now)) (text_of (value_of b.now))) }
{
    if operate::is_object(a) || operate::is_object(b) {
        Some(2)
    } else {
        None
    }
}

fn add_rule(a: &Value, b: &Value) -> Option<u8>
    ensures { result ≡ outcome_rule (binary_of BinOp.Add (value_of a.now) (value_of b.now)) }
{
    match a {
        Value::Text(_) => joined_rule(a, b),
        Value::Whole(x) => match b {
            Value::Whole(y) => rule_of(whole::sum(*x, *y)),
            Value::Text(_) => joined_rule(a, b),
            _ => Some(2),
        },
        _ => match b {
            Value::Text(_) => joined_rule(a, b),
            _ => Some(2),
        },
    }
}

fn wholes_rule(op: BinOp, a: &Value, b: &Value) -> Option<u8>
    ensures { result ≡ outcome_rule (wholes_of op (value_of a.now) (value_of b.now)) }
{
    match a {
        Value::Whole(x) => match b {
            Value::Whole(y) => rule_of(whole::operate(op, *x, *y)),
            _ => Some(2),
        },
        _ => Some(2),
    }
}

/// The rule that a binary operator breaks. `instanceof` and `in` need a heap, and have no row in
/// the table.
pub fn binary_rule(op: BinOp, a: &Value, b: &Value) -> Option<u8>
    ensures { result ≡ outcome_rule (binary_of op (value_of a.now) (value_of b.now)) }
{
    match op {
        BinOp::Add => add_rule(a, b),
        BinOp::Less => test_rule(operate::less(a, b)),
        BinOp::Greater => test_rule(operate::less(b, a)),
        BinOp::LessEq => test_rule(operate::less(b, a)),
        BinOp::GreaterEq => test_rule(operate::less(a, b)),
        BinOp::Equal => test_rule(operate::equal(a, b)),
        BinOp::NotEqual => test_rule(operate::equal(a, b)),
        BinOp::Strict => None,
        BinOp::NotStrict => None,
        _ => wholes_rule(op, a, b),
    }
}

// A sign or `~`, which only whole numbers have.
fn whole_rule(op: UnOp, value: &Value) -> Option<u8>
    ensures { result ≡ outcome_rule (whole_of op (value_of value.now)) }
{
    match value {
        Value::Whole(z) => rule_of(whole::operate_one(op, *z)),
        _ => Some(2),
    }
}

// `typeof`, where it needs no heap.
fn type_rule(value: &Value) -> Option<u8>
    ensures { result ≡ outcome_rule (type_of (value_of value.now)) }
{
    if operate::is_object(value) {
        Some(2)
    } else {
        None
    }
}

/// The rule that a unary operator breaks. `delete`, and `typeof` of an object of the program, need
/// a heap, and have no row in the table.
pub fn unary_rule(op: UnOp, value: &Value) -> Option<u8>
    ensures { result ≡ outcome_rule (unary_of op (value_of value.now)) }
{
    match op {
        UnOp::Not => None,
        UnOp::Void => None,
        UnOp::Typeof => type_rule(value),
        _ => whole_rule(op, value),
    }
}
