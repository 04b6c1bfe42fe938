// What the outside sees of values, and which values its views stand for.

ghost use Rattle.std.specs.Prelude.{◌≡◌, [], IfOk, List, map};
ghost use Rattle.cc_ast.specs.Syntax.{Program};
ghost use Rattle.cc_meaning.specs.Acts as Acts;
ghost use Rattle.cc_meaning.specs.Monad.{ok};
ghost use Rattle.cc_meaning.specs.State.{Reply};
ghost use Rattle.cc_meaning.specs.Values.{handle, obj};
ghost use Rattle.cc_value.specs.Bridge.{value_of};
ghost use Rattle.cc_acts.specs.Scripts.{inner_of, view_of};
ghost use Rattle.cc_acts.specs.Shown.{Comes, state_of};

use crate::state::State;
use crate::stop::Stop;
use cc_ast::copy::CopyOf;
use cc_ast::units::Units;
use cc_value::value::{Value, View};
use sqlite_items::Items;
use std::alloc::AllocError;

// The handle of an object, which gets the next one where it has none.
fn hand_out(state: &mut State, object: usize) -> Result<usize, AllocError>
    ensures { (P : Program) (rs : List Reply) → IfOk result (λ h. Acts.show (obj object) (state_of P rs state.old) ≡ ok [] (handle h) (state_of P rs state.new)) }
{
    match state.handles.get_index_of(&object) {
        Some(handle) => Ok(handle),
        None => {
            let handle = state.handles.len();
            state.handles.insert(object)?;
            Ok(handle)
        }
    }
}

/// A value as the outside sees it: an object of the program gets the next handle when it is first
/// shown.
pub fn show(state: &mut State, value: &Value) -> Result<View, AllocError>
    ensures { (P : Program) (rs : List Reply) → IfOk result (λ view. Acts.show (value_of value.now) (state_of P rs state.old) ≡ ok [] (view_of view) (state_of P rs state.new)) }
{
    match value {
        Value::Undefined => Ok(View::Undefined),
        Value::Null => Ok(View::Null),
        Value::Truth(truth) => Ok(View::Truth(*truth)),
        Value::Whole(number) => Ok(View::Whole(*number)),
        Value::Text(text) => Ok(View::Text(text.copy_of(state.heap.allocator())?)),
        Value::Object(object) => Ok(View::Handle(hand_out(state, *object)?)),
        Value::Outside(number) => Ok(View::Outside(*number)),
    }
}

/// Whether a view is no handle, or one that was given out.
pub fn was_given(state: &State, view: &View) -> bool
    ensures { (P : Program) (rs : List Reply) → result ≡ Acts.was_given (state_of P rs state.now) (view_of view.now) }
{
    match view {
        View::Handle(handle) => *handle < state.handles.len(),
        _ => true,
    }
}

/// The same of each of these.
pub fn all_given(state: &State, views: &[View]) -> bool
    ensures { (P : Program) (rs : List Reply) → result ≡ Acts.all_given (state_of P rs state.now) (map view_of views.now) }
{
    for view in views {
        if !was_given(state, view) {
            return false;
        }
    }
    true
}

// The object that a handle stands for.
fn object_at(state: &State, number: usize) -> Value
    ensures { (P : Program) (rs : List Reply) → value_of result ≡ Acts.viewed (state_of P rs state.now) (handle number) }
{
    match state.handles.get_index(number) {
        Some(object) => Value::Object(*object),
        None => Value::Undefined,
    }
}

/// The value that a view stands for.
pub fn viewed(state: &State, view: &View) -> Result<Value, AllocError>
    ensures { (P : Program) (rs : List Reply) → IfOk result (λ v. value_of v ≡ Acts.viewed (state_of P rs state.now) (view_of view.now)) }
{
    match view {
        View::Undefined => Ok(Value::Undefined),
        View::Null => Ok(Value::Null),
        View::Truth(truth) => Ok(Value::Truth(*truth)),
        View::Whole(number) => Ok(Value::Whole(*number)),
        View::Text(text) => Ok(Value::Text(text.copy_of(state.heap.allocator())?)),
        View::Handle(handle) => Ok(object_at(state, *handle)),
        View::Outside(number) => Ok(Value::Outside(*number)),
    }
}
