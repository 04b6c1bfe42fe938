// The operators that need the store: `instanceof`, `in` and `typeof` (ECMA-262 5.1, 11.4.3, 11.8.6,
// 11.8.7).

ghost use Rattle.std.specs.Prelude.{◌≡◌, IfOk, None, nat_eq, slice_get, ⊤};
ghost use Rattle.std.specs.List.{list_any};
ghost use Rattle.cc_ast.specs.declared.operator.BinOp.{BinOp};
ghost use Rattle.cc_ast.specs.declared.operator.UnOp.{UnOp};
ghost use Rattle.cc_ast.specs.Syntax.{text};
ghost use Rattle.cc_meaning.specs.Values.{prim};
ghost use Rattle.cc_meaning.specs.Acts.{instance_value, is_there, key_name, object_type};
ghost use Rattle.cc_meaning.specs.Operators.{decimal, key_text};
ghost use Rattle.cc_meaning.specs.Rules.{binary_rule, prototype_at, unary_rule};
ghost use Rattle.cc_meaning.specs.State.{State};
ghost use Rattle.cc_meaning.specs.Store.{has_name};
ghost use Rattle.cc_value.specs.Bridge.{value_of};
ghost use Rattle.cc_heap.specs.Answers.{IsWhole, Tells, is_under, type_in};

use crate::heap::Heap;
use cc_ast::units::Units;
use cc_value::value::{OpFault, Value};
use itoa::Buffer;
use std::alloc::{AllocError, Global};

impl Heap {
    /// Whether a read of the slot gives a value (ECMA-262 5.1, 8.12.6).
    pub fn has_name(&self, object: usize, name: &Units) -> bool
        ensures { result ≡ has_name self.now.objs object name.now }
    {
        self.read_slot(object, name).is_some()
    }

    /// The object that a function has as its prototype.
    pub fn prototype_of(&self, value: &Value) -> Option<usize>
        ensures { (s : State) → s.objs ≡ self.now.objs → result ≡ prototype_at s (value_of value.now) }
    {
        match value {
            Value::Object(number) => match self.object(*number) {
                Some(object) => object.prototype(),
                None => None,
            },
            _ => None,
        }
    }

    fn is_on_chain(&self, value: &Value, proto: usize) -> bool
        ensures { (s : State) → s.objs ≡ self.now.objs → result ≡ is_under s (value_of value.now) proto }
    {
        match value {
            Value::Object(number) => is_among(self.chain(*number), proto),
            _ => false,
        }
    }

    /// `instanceof`: whether the prototype of the right operand, a function, stands on the chain of
    /// the left one.
    pub fn instance(&self, left: &Value, right: &Value) -> Result<bool, OpFault>
        ensures { (s : State) → s.objs ≡ self.now.objs
            → Tells result (binary_rule s BinOp.Instance (value_of left.now) (value_of right.now)) (λ b. b ≡ instance_value s (value_of left.now) (value_of right.now)) ⊥ }
    {
        match self.prototype_of(right) {
            Some(proto) => Ok(self.is_on_chain(left, proto)),
            None => Err(OpFault::Rule2),
        }
    }

    /// `in`: whether the right operand, an object, has the name that the left one is. Memory is
    /// wanted for the text of a number.
    pub fn has(&self, left: &Value, right: &Value) -> Result<bool, OpFault>
        ensures { (s : State) → s.objs ≡ self.now.objs
            → Tells result (binary_rule s BinOp.Has (value_of left.now) (value_of right.now)) (λ b. b ≡ is_there s (value_of right.now) (key_name (key_text (value_of left.now)))) (IsWhole (value_of left.now)) }
    {
        match right {
            Value::Object(number) => match left {
                Value::Text(name) => Ok(self.has_name(*number, name)),
                Value::Whole(z) => {
                    let name = decimal_of(self.alloc, *z)?;
                    Ok(self.has_name(*number, &name))
                }
                _ => Err(OpFault::Rule2),
            },
            _ => Err(OpFault::Rule2),
        }
    }

    /// `typeof`. An object of the outside has none.
    pub fn type_name(&self, value: &Value) -> Result<Units, OpFault>
        ensures { Tells result (unary_rule UnOp.Typeof (value_of value.now)) (λ t. prim (text t) ≡ type_in self.now.objs (value_of value.now)) ⊤ }
    {
        match value {
            Value::Undefined => named(self.alloc, b"undefined"),
            Value::Null => named(self.alloc, b"object"),
            Value::Truth(_) => named(self.alloc, b"boolean"),
            Value::Whole(_) => named(self.alloc, b"number"),
            Value::Text(_) => named(self.alloc, b"string"),
            Value::Object(number) => self.object_type(*number),
            Value::Outside(_) => Err(OpFault::Rule2),
        }
    }

    fn object_type(&self, object: usize) -> Result<Units, OpFault>
        ensures { Tells result None (λ t. t ≡ object_type (slice_get self.now.objs object)) ⊤ }
    {
        match self.object(object) {
            Some(object) => {
                if object.code().is_some() {
                    named(self.alloc, b"function")
                } else {
                    named(self.alloc, b"object")
                }
            }
            None => named(self.alloc, b"undefined"),
        }
    }
}

fn is_among(numbers: &[usize], number: usize) -> bool
    ensures { result ≡ list_any (λ m. nat_eq m number) numbers.now }
{
    numbers.iter().any(|one| *one == number)
}

fn named(alloc: Global, name: &[u8]) -> Result<Units, OpFault>
    ensures { Tells result None (λ t. t ≡ name.now) ⊤ }
{
    Ok(units_of(alloc, name)?)
}

// A text of ASCII characters.
fn units_of(alloc: Global, bytes: &[u8]) -> Result<Units, AllocError>
    ensures { IfOk result (λ units. units ≡ bytes.now) }
{
    let mut list = Vec::new(alloc);
    for byte in bytes {
        list.push(u16::from(*byte))?;
    }
    Ok(Units { list })
}

fn decimal_of(alloc: Global, z: i64) -> Result<Units, AllocError>
    ensures { IfOk result (λ units. units ≡ decimal z) }
{
    let mut buffer = Buffer::new();
    units_of(alloc, buffer.format(z).as_bytes())
}
