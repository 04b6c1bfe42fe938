// Objects, arrays, functions and frames that are made.

ghost use Rattle.std.specs.Prelude.{◌≡◌, ◌∷◌, [], List, Some, map};
ghost use Rattle.cc_ast.specs.Syntax.{Program};
ghost use Rattle.cc_meaning.specs.Acts as Acts;
ghost use Rattle.cc_meaning.specs.State.{Env, Reply};
ghost use Rattle.cc_meaning.specs.Values.{obj};
ghost use Rattle.cc_value.specs.Bridge.{value_of};
ghost use Rattle.cc_heap.specs.Kinds.{frame_kind_of};
ghost use Rattle.cc_acts.specs.Shown.{Comes, state_of};

use crate::keys::prototype_name;
use crate::state::State;
use crate::stop::Stop;
use cc_heap::code::{Code, FrameKind};
use cc_heap::slot::SlotKind;
use cc_value::value::Value;

/// An object literal without its keys (ECMA-262 5.1, 11.1.5).
pub fn make_object(state: &mut State) -> Result<usize, Stop>
    ensures { (P : Program) (rs : List Reply) → Comes obj result (state_of P rs state.new) (Acts.make_object (state_of P rs state.old)) }
{
    Ok(state.heap.make(None, None)?)
}

/// An array of these elements (ECMA-262 5.1, 11.1.4).
pub fn make_array(state: &mut State, elements: Vec<Value>) -> Result<usize, Stop>
    ensures { (P : Program) (rs : List Reply) → Comes obj result (state_of P rs state.new) (Acts.make_array (map value_of elements.items) (state_of P rs state.old)) }
{
    Ok(state.heap.make_array(elements)?)
}

/// A frame with one place, which is set: that of a catch clause or of the own name of a function
/// expression (ECMA-262 5.1, 12.14 and 13).
pub fn push_frame(
    state: &mut State,
    kind: FrameKind,
    up: Option<usize>,
    value: Value,
) -> Result<usize, Stop>
    ensures { (P : Program) (rs : List Reply) → Comes (λ n. n) result (state_of P rs state.new) (Acts.push_frame (frame_kind_of kind) up (Some (value_of value) ∷ []) (state_of P rs state.old)) }
{
    let frame = state.heap.make_frame(kind, 1, up)?;
    state.heap.write_var(frame, 0, value);
    Ok(frame)
}

// A function object, and the prototype that it is made with (ECMA-262 5.1, 13.2).
fn add_function(state: &mut State, code: Code) -> Result<usize, Stop>
    ensures { (P : Program) (rs : List Reply) → Comes obj result (state_of P rs state.new) (Acts.add_function code.function code.site code.up (state_of P rs state.old)) }
{
    let prototype = state.heap.make(None, None)?;
    let function = state.heap.make_function(code)?;
    let name = prototype_name(state.heap.allocator())?;
    let value = Value::Object(prototype);
    state
        .heap
        .write_slot(function, name, SlotKind::Kept, value)?;
    Ok(function)
}
