// What operators break (ECMA-262 5.1, 11).

ghost use Rattle.std.specs.Prelude.{◌≡◌, is_none, map};
ghost use Rattle.cc_ast.specs.declared.operator.UnOp.{UnOp};
ghost use Rattle.cc_meaning.specs.Operators.{key_text};
ghost use Rattle.cc_meaning.specs.Rules as Rules;
ghost use Rattle.cc_meaning.specs.Shapes.{tables_of};
ghost use Rattle.cc_meaning.specs.SlotRules as SlotRules;
ghost use Rattle.cc_meaning.specs.State.{State, Tables};
ghost use Rattle.cc_value.specs.Bridge.{value_of};
ghost use Rattle.cc_conform.specs.Bridge.{op_of, with_store};

use crate::act::Op;
use crate::built_ins::built_rule;
use crate::rules::{rule_if, rule_unless};
use cc_ast::operator::{BinOp, UnOp};
use cc_ast::program::Program;
use cc_heap::heap::Heap;
use cc_value::rules;
use cc_value::value::Value;

#[tactic(auto, unfolding(cc_meaning::specs::Rules::is_key, cc_meaning::specs::Operators::key_text))]
fn is_key(value: &Value) -> bool
    ensures { result ≡ Rules.is_key (key_text (value_of value.now)) }
{
    match value {
        Value::Text(_) => true,
        Value::Whole(_) => true,
        _ => false,
    }
}

// `in`, which takes a key and an object (ECMA-262 5.1, 11.8.7).
#[tactic(auto, unfolding(cc_meaning::specs::Rules::has_rule))]
fn has_rule(left: &Value, right: &Value) -> Option<u8>
    ensures { result ≡ Rules.has_rule (value_of left.now) (value_of right.now) }
{
    match right {
        Value::Object(_) => rule_unless(is_key(left), 2),
        _ => Some(2),
    }
}

// `instanceof`, whose right operand is a function with an object as its prototype (ECMA-262 5.1,
// 11.8.6).
fn instance_rule(heap: &Heap, right: &Value) -> Option<u8>
    ensures { (s : State) → result ≡ SlotRules.rule_if (is_none (Rules.prototype_at (with_store s heap.now) (value_of right.now))) 2 }
{
    rule_if(heap.prototype_of(right).is_none(), 2)
}

fn binary_rule(heap: &Heap, op: BinOp, left: &Value, right: &Value) -> Option<u8>
    ensures { (s : State) → result ≡ Rules.binary_rule (with_store s heap.now) op (value_of left.now) (value_of right.now) }
{
    match op {
        BinOp::Has => has_rule(left, right),
        BinOp::Instance => instance_rule(heap, right),
        _ => rules::binary_rule(op, left, right),
    }
}

// `typeof`, which an object of the program has.
fn type_rule(value: &Value) -> Option<u8>
    ensures { result ≡ Rules.unary_rule UnOp.Typeof (value_of value.now) }
{
    match value {
        Value::Object(_) => None,
        _ => rules::unary_rule(UnOp::Typeof, value),
    }
}

fn unary_rule(op: UnOp, value: &Value) -> Option<u8>
    ensures { result ≡ Rules.unary_rule op (value_of value.now) }
{
    match op {
        UnOp::Typeof => type_rule(value),
        _ => rules::unary_rule(op, value),
    }
}

fn binary_operands_rule(heap: &Heap, op: BinOp, operands: &[Value]) -> Option<u8>
    ensures { (T : Tables) (s : State) → result ≡ Rules.operate_rule T (with_store s heap.now) (Rules.binary_op op) (map value_of operands.now) }
{
    match operands {
        [left, right] => binary_rule(heap, op, left, right),
        _ => Some(2),
    }
}

fn unary_operands_rule(op: UnOp, operands: &[Value]) -> Option<u8>
    ensures { (T : Tables) (s : State) → result ≡ Rules.operate_rule T s (Rules.unary_op op) (map value_of operands.now) }
{
    match operands {
        [value] => unary_rule(op, value),
        _ => Some(2),
    }
}

/// The rule that an operator or a built-in use breaks.
#[tactic(auto, unfolding(cc_meaning::specs::Rules::operate_rule))]
pub fn operate_rule(program: &Program, heap: &Heap, op: &Op, operands: &[Value]) -> Option<u8>
    ensures { (s : State) → result ≡ Rules.operate_rule (tables_of program.now) (with_store s heap.now) (op_of op.now) (map value_of operands.now) }
{
    match op {
        Op::Unary(op) => unary_operands_rule(*op, operands),
        Op::Binary(op) => binary_operands_rule(heap, *op, operands),
        Op::Built(built) => built_rule(program, heap, *built, operands),
    }
}
