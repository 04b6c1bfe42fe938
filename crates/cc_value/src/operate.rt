// The operators (ECMA-262 5.1, 11), as far as they need no store.

ghost use Rattle.std.specs.Prelude.{◌≡◌, ◌≢◌, Some, None, false, is_none, if◌then◌else◌};
ghost use Rattle.cc_meaning.specs.Operators.{answer_of, answer_not, binary_of, gives, strict_equal, truthy, unary_of};
ghost use Rattle.cc_meaning.specs.Values.{prim};
ghost use Rattle.cc_ast.specs.Syntax.{text};
ghost use Rattle.cc_value.specs.Bridge.{Answers, IsNoObject, equal_of, joined_of, less_of, nothing_of, text_of, type_of, value_of, whole_of, wholes_of};

use crate::value::{OpFault, Value};
use crate::{texts, whole};
use cc_ast::operator::{BinOp, UnOp};
use cc_ast::units::Units;
use std::alloc::Global;

/// What a test of the value comes to (ECMA-262 5.1, 9.2).
pub fn is_truthy(value: &Value) -> bool
    ensures { result ≡ truthy (value_of value.now) }
{
    match value {
        Value::Undefined => false,
        Value::Null => false,
        Value::Truth(b) => *b,
        Value::Whole(z) => *z != 0,
        Value::Text(text) => !text.list.as_slice().is_empty(),
        Value::Object(_) => true,
        Value::Outside(_) => true,
    }
}

/// `===` (ECMA-262 5.1, 11.9.6).
pub fn is_same(a: &Value, b: &Value) -> bool
    ensures { result ≡ strict_equal (value_of a.now) (value_of b.now) }
{
    match a {
        Value::Undefined => match b {
            Value::Undefined => true,
            _ => false,
        },
        Value::Null => match b {
            Value::Null => true,
            _ => false,
        },
        Value::Truth(x) => match b {
            Value::Truth(y) => *x == *y,
            _ => false,
        },
        Value::Whole(x) => match b {
            Value::Whole(y) => *x == *y,
            _ => false,
        },
        Value::Text(x) => match b {
            Value::Text(y) => texts::is_equal(x.list.as_slice(), y.list.as_slice()),
            _ => false,
        },
        Value::Object(x) => match b {
            Value::Object(y) => *x == *y,
            _ => false,
        },
        Value::Outside(x) => match b {
            Value::Outside(y) => *x == *y,
            _ => false,
        },
    }
}

/// `<`, where the kinds are in the table.
pub(crate) fn less(a: &Value, b: &Value) -> Option<bool>
    ensures { result ≡ less_of (value_of a.now) (value_of b.now) }
{
    match a {
        Value::Whole(x) => match b {
            Value::Whole(y) => Some(*x < *y),
            _ => None,
        },
        Value::Text(x) => match b {
            Value::Text(y) => Some(texts::is_less(x.list.as_slice(), y.list.as_slice())),
            _ => None,
        },
        _ => None,
    }
}

/// Whether it is an object of the program or of the outside.
pub(crate) fn is_object(value: &Value) -> bool
    ensures { result ≡ is_none (text_of (value_of value.now)) }
{
    match value {
        Value::Undefined => false,
        Value::Null => false,
        Value::Truth(_) => false,
        Value::Whole(_) => false,
        Value::Text(_) => false,
        Value::Object(_) => true,
        Value::Outside(_) => true,
    }
}

// The texts of both sides, joined.
fn joined(alloc: Global, a: &Value, b: &Value) -> Result<Value, OpFault>
    ensures { Answers result (joined_of (text_of (value_of a.now)) (text_of (value_of b.now))) }
{
    if is_object(a) || is_object(b) {
        return Err(OpFault::Rule2);
    }
    let mut list = Vec::new(alloc);
    if let Err(fault) = texts::append_text(&mut list, a) {
        return Err(fault);
    }
    if let Err(fault) = texts::append_text(&mut list, b) {
        return Err(fault);
    }
    Ok(Value::Text(Units { list }))
}

fn add(alloc: Global, a: &Value, b: &Value) -> Result<Value, OpFault>
    ensures { Answers result (binary_of BinOp.Add (value_of a.now) (value_of b.now)) }
{
    match a {
        Value::Text(_) => joined(alloc, a, b),
        Value::Whole(x) => match b {
            Value::Whole(y) => whole::sum(*x, *y),
            Value::Text(_) => joined(alloc, a, b),
            _ => Err(OpFault::Rule2),
        },
        _ => match b {
            Value::Text(_) => joined(alloc, a, b),
            _ => Err(OpFault::Rule2),
        },
    }
}

fn is_nothing(value: &Value) -> bool
    ensures { result ≡ nothing_of (value_of value.now) }
{
    match value {
        Value::Undefined => true,
        Value::Null => true,
        Value::Truth(_) => false,
        Value::Whole(_) => false,
        Value::Text(_) => false,
        Value::Object(_) => false,
        Value::Outside(_) => false,
    }
}

/// `==`, where the kinds are in the table.
pub(crate) fn equal(a: &Value, b: &Value) -> Option<bool>
    ensures { result ≡ equal_of (value_of a.now) (value_of b.now) }
{
    match a {
        Value::Undefined => Some(is_nothing(b)),
        Value::Null => Some(is_nothing(b)),
        Value::Truth(x) => match b {
            Value::Truth(y) => Some(*x == *y),
            _ => nothing_else(b),
        },
        Value::Whole(x) => match b {
            Value::Whole(y) => Some(*x == *y),
            _ => nothing_else(b),
        },
        Value::Text(x) => match b {
            Value::Text(y) => Some(texts::is_equal(x.list.as_slice(), y.list.as_slice())),
            _ => nothing_else(b),
        },
        Value::Object(x) => match b {
            Value::Object(y) => Some(*x == *y),
            _ => nothing_else(b),
        },
        Value::Outside(x) => match b {
            Value::Outside(y) => Some(*x == *y),
            _ => nothing_else(b),
        },
    }
}

// `==` of a value beside one of another kind, which is neither undefined nor null.
fn nothing_else(b: &Value) -> Option<bool>
    ensures { result ≡ (if nothing_of (value_of b.now) then Some false else None) }
{
    if is_nothing(b) { Some(false) } else { None }
}

fn answer(test: Option<bool>) -> Result<Value, OpFault>
    ensures { Answers result (answer_of test) }
{
    match test {
        Some(b) => Ok(Value::Truth(b)),
        None => Err(OpFault::Rule2),
    }
}

fn answer_not(test: Option<bool>) -> Result<Value, OpFault>
    ensures { Answers result (answer_not test) }
{
    match test {
        Some(b) => Ok(Value::Truth(!b)),
        None => Err(OpFault::Rule2),
    }
}

fn on_wholes(op: BinOp, a: &Value, b: &Value) -> Result<Value, OpFault>
    ensures { Answers result (wholes_of op (value_of a.now) (value_of b.now)) }
{
    match a {
        Value::Whole(x) => match b {
            Value::Whole(y) => whole::operate(op, *x, *y),
            _ => Err(OpFault::Rule2),
        },
        _ => Err(OpFault::Rule2),
    }
}

/// A binary operator. `instanceof` and `in` need a heap. Memory is wanted only where the value is
/// a text.
pub fn binary(alloc: Global, op: BinOp, a: &Value, b: &Value) -> Result<Value, OpFault>
    requires no_instance { op ≢ BinOp.Instance }
    requires no_has { op ≢ BinOp.Has }
    ensures { Answers result (binary_of op (value_of a.now) (value_of b.now)) }
{
    match op {
        BinOp::Add => add(alloc, a, b),
        BinOp::Less => answer(less(a, b)),
        BinOp::Greater => answer(less(b, a)),
        BinOp::LessEq => answer_not(less(b, a)),
        BinOp::GreaterEq => answer_not(less(a, b)),
        BinOp::Equal => answer(equal(a, b)),
        BinOp::NotEqual => answer_not(equal(a, b)),
        BinOp::Strict => Ok(Value::Truth(is_same(a, b))),
        BinOp::NotStrict => Ok(Value::Truth(!is_same(a, b))),
        _ => on_wholes(op, a, b),
    }
}

// A sign or `~`, which only whole numbers have.
fn on_whole(op: UnOp, value: &Value) -> Result<Value, OpFault>
    ensures { Answers result (whole_of op (value_of value.now)) }
{
    match value {
        Value::Whole(z) => whole::operate_one(op, *z),
        _ => Err(OpFault::Rule2),
    }
}

// The type of a value that is no object of the program (ECMA-262 5.1, 11.4.3).
fn type_name(alloc: Global, value: &Value) -> Result<Value, OpFault>
    ensures { Answers result (type_of (value_of value.now)) }
{
    match value {
        Value::Undefined => ascii(alloc, b"undefined"),
        Value::Null => ascii(alloc, b"object"),
        Value::Truth(_) => ascii(alloc, b"boolean"),
        Value::Whole(_) => ascii(alloc, b"number"),
        Value::Text(_) => ascii(alloc, b"string"),
        Value::Object(_) => Err(OpFault::Rule2),
        Value::Outside(_) => Err(OpFault::Rule2),
    }
}

fn ascii(alloc: Global, bytes: &[u8]) -> Result<Value, OpFault>
    ensures { Answers result (gives (prim (text bytes.now))) }
{
    let mut list = Vec::new(alloc);
    if let Err(_refused) = texts::append_ascii(&mut list, bytes) {
        return Err(OpFault::Memory);
    }
    Ok(Value::Text(Units { list }))
}

/// A unary operator. `delete`, and `typeof` of an object of the program, need a heap. Memory is
/// wanted only where the value is a text.
pub fn unary(alloc: Global, op: UnOp, value: &Value) -> Result<Value, OpFault>
    requires no_delete { op ≢ UnOp.Delete }
    requires no_type { op ≡ UnOp.Typeof → IsNoObject value.now }
    ensures { Answers result (unary_of op (value_of value.now)) }
{
    match op {
        UnOp::Not => Ok(Value::Truth(!is_truthy(value))),
        UnOp::Void => Ok(Value::Undefined),
        UnOp::Typeof => type_name(alloc, value),
        _ => on_whole(op, value),
    }
}
