// Copies of values.

ghost use Rattle.std.specs.Prelude.{◌≡◌, IfOk};
ghost use Rattle.std.specs.Option.{option_map};
ghost use Rattle.cc_meaning.specs.Builtins.{or_undefined};
ghost use Rattle.cc_value.specs.Bridge.{value_of};

use cc_ast::copy::CopyOf;
use cc_value::value::Value;
use std::alloc::{AllocError, Global};

/// A copy of a value.
pub fn copy_value(alloc: Global, value: &Value) -> Result<Value, AllocError>
    ensures { IfOk result (λ copy. value_of copy ≡ value_of value.now) }
{
    match value {
        Value::Undefined => Ok(Value::Undefined),
        Value::Null => Ok(Value::Null),
        Value::Truth(truth) => Ok(Value::Truth(*truth)),
        Value::Whole(number) => Ok(Value::Whole(*number)),
        Value::Text(text) => Ok(Value::Text(text.copy_of(alloc)?)),
        Value::Object(object) => Ok(Value::Object(*object)),
        Value::Outside(number) => Ok(Value::Outside(*number)),
    }
}

/// A copy of the value that is there, and undefined where there is none.
#[tactic(auto, unfolding(cc_meaning::specs::Builtins::or_undefined))]
pub fn copy_or_undefined(alloc: Global, value: Option<&Value>) -> Result<Value, AllocError>
    ensures { IfOk result (λ copy. value_of copy ≡ or_undefined (option_map (λ v. value_of v.now) value.entry)) }
{
    match value {
        Some(value) => copy_value(alloc, value),
        None => Ok(Value::Undefined),
    }
}
