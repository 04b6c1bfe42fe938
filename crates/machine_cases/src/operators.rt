// Operators on values: `binary NAME LEFT RIGHT` and `unary NAME VALUE` answer what the operator
// gives or the rule for which it gives nothing, and then what the call of the rule alone answers.
// `is_same LEFT RIGHT` and `is_truthy VALUE` are tests.

use crate::answers::{tell_fault, tell_rule, tell_truth, tell_value};
use crate::machine::Machine;
use crate::names::{binary_at, unary_at};
use crate::values::{is_made, value_at};
use cc_ast::operator::{BinOp, UnOp};
use cc_value::operate::{binary, is_same, is_truthy, unary};
use cc_value::rules::{binary_rule, unary_rule};
use cc_value::value::{OpFault, Value};
use std::alloc::Global;

/// A line of operators.
#[derive(Clone, Copy)]
pub enum OperatorLine {
    Binary,
    Same,
    Truthy,
    Unary,
}

fn tell_outcome(out: &mut String, outcome: Result<Value, OpFault>) -> Option<()> {
    match outcome {
        Ok(value) => tell_value(out, Some(&value)),
        Err(fault) => tell_fault(out, fault),
    }
}

// The call takes neither `instanceof` nor `in`, nor numbers that no program makes.
fn apply_binary(
    alloc: Global,
    out: &mut String,
    op: BinOp,
    left: &Value,
    right: &Value,
) -> Option<()> {
    if op == BinOp::Instance || op == BinOp::Has || !is_made(left) || !is_made(right) {
        return None;
    }
    match tell_outcome(out, binary(alloc, op, left, right)) {
        Some(()) => tell_rule(out, binary_rule(op, left, right)),
        None => None,
    }
}

fn on_two(alloc: Global, out: &mut String, words: &[&str]) -> Option<()> {
    let Some(op) = binary_at(words, 1) else {
        return None;
    };
    let Some(left) = value_at(alloc, words, 2) else {
        return None;
    };
    match value_at(alloc, words, 3) {
        Some(right) => apply_binary(alloc, out, op, &left, &right),
        None => None,
    }
}

// The call takes neither `delete`, nor `typeof` of an object of the program.
fn apply_unary(alloc: Global, out: &mut String, op: UnOp, value: &Value) -> Option<()> {
    if !is_made(value) {
        return None;
    }
    match op {
        UnOp::Delete => None,
        UnOp::Typeof => match value {
            Value::Object(_) => None,
            _ => tell_outcome(out, unary(alloc, op, value)),
        },
        _ => tell_outcome(out, unary(alloc, op, value)),
    }
}

fn tell_unary(alloc: Global, out: &mut String, op: UnOp, value: &Value) -> Option<()> {
    match apply_unary(alloc, out, op, value) {
        Some(()) => tell_rule(out, unary_rule(op, value)),
        None => None,
    }
}

fn on_one(alloc: Global, out: &mut String, words: &[&str]) -> Option<()> {
    let Some(op) = unary_at(words, 1) else {
        return None;
    };
    match value_at(alloc, words, 2) {
        Some(value) => tell_unary(alloc, out, op, &value),
        None => None,
    }
}

fn same(alloc: Global, out: &mut String, words: &[&str]) -> Option<()> {
    let Some(left) = value_at(alloc, words, 1) else {
        return None;
    };
    match value_at(alloc, words, 2) {
        Some(right) => tell_truth(out, is_same(&left, &right)),
        None => None,
    }
}

fn truthy(alloc: Global, out: &mut String, words: &[&str]) -> Option<()> {
    match value_at(alloc, words, 1) {
        Some(value) => tell_truth(out, is_truthy(&value)),
        None => None,
    }
}

pub fn operator_line(machine: &mut Machine, line: OperatorLine, words: &[&str]) -> Option<()> {
    match line {
        OperatorLine::Binary => on_two(machine.alloc, &mut machine.out, words),
        OperatorLine::Same => same(machine.alloc, &mut machine.out, words),
        OperatorLine::Truthy => truthy(machine.alloc, &mut machine.out, words),
        OperatorLine::Unary => on_one(machine.alloc, &mut machine.out, words),
    }
}
