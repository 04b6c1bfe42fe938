// Reads of variables and of `this` (ECMA-262 5.1, 10.2 and 11.1).

ghost use Rattle.std.specs.Prelude.{◌≡◌, List, is_some, slice_get};
ghost use Rattle.std.specs.Option.{option_map};
ghost use Rattle.cc_ast.specs.Syntax.{Program};
ghost use Rattle.cc_meaning.specs.Acts as Acts;
ghost use Rattle.cc_meaning.specs.Acts.{judged, read_place};
ghost use Rattle.cc_meaning.specs.Builtins.{or_undefined};
ghost use Rattle.cc_meaning.specs.Judge.{takes};
ghost use Rattle.cc_meaning.specs.Monad.{ret};
ghost use Rattle.cc_meaning.specs.State.{Reply, Env, State as Seen};
ghost use Rattle.cc_meaning.specs.Store.{frame_at};
ghost use Rattle.cc_value.specs.Bridge.{value_of};
ghost use Rattle.cc_conform.specs.Bridge.{variable_of};
ghost use Rattle.cc_acts.specs.Verdicts.{mode_of};
ghost use Rattle.cc_acts.specs.Shown.{Comes, spot_of, state_of};

use crate::copies::copy_or_undefined;
use crate::frames::frame_outwards;
use crate::globals::GlobalKind;
use crate::setting::Setting;
use crate::state::State;
use crate::stop::{Spot, Stop, fault, settle};
use cc_ast::tree::Ref;
use cc_conform::act::Variable;
use cc_conform::variables::{take_rule, this_rule};
use cc_heap::code::FrameKind;
use cc_value::value::Value;

// A value that isn't judged, and undefined where there is none.
fn give(state: &State, value: Option<&Value>) -> Result<Value, Stop>
    ensures { (s : Seen) → Comes value_of result s (ret (or_undefined (option_map (λ x. value_of x.now) value.entry)) s) }
{
    Ok(copy_or_undefined(state.heap.allocator(), value)?)
}

// The value of a variable, which is judged as it is read.
fn take(
    setting: &Setting,
    state: &State,
    spot: Spot,
    variable: Variable,
    loaded: bool,
    value: Option<&Value>,
) -> Result<Value, Stop>
    ensures { (rs : List Reply) → let s = state_of setting.now.program.now rs state.now in let v = option_map (λ x. value_of x.now) value.entry in Comes value_of result s (judged (mode_of setting.now.plain) (spot_of spot) (takes (variable_of variable) loaded (is_some v)) (ret (or_undefined v)) s) }
{
    let rule = take_rule(setting.program, variable, loaded, value.is_some());
    if let Err(stop) = settle(setting.plain, spot, rule) {
        return Err(stop);
    }
    Ok(copy_or_undefined(state.heap.allocator(), value)?)
}

fn read_place(
    setting: &Setting,
    state: &State,
    spot: Spot,
    frame: usize,
    place: u32,
) -> Result<Value, Stop>
    ensures { (rs : List Reply) → let s = state_of setting.now.program.now rs state.now in Comes value_of result s (read_place (mode_of setting.now.plain) (spot_of spot) (slice_get s.frames frame) place s) }
{
    let value = state.heap.read_var(frame, place);
    match state.heap.frame_kind(frame) {
        Some(FrameKind::Call(scope)) => {
            take(
                setting,
                state,
                spot,
                Variable::Local { scope, place },
                true,
                value,
            )
        }
        Some(FrameKind::Catch) => give(state, value),
        Some(FrameKind::OwnName) => give(state, value),
        None => Err(Stop::Ended(fault(setting.plain, 3, spot))),
    }
}

fn value_of_global<'a>(state: &'a State, global: u32) -> Option<&'a Value>
    ensures { (rs : List Reply) (P : Program) → option_map (λ v. value_of v.now) result ≡ Acts.global_value (state_of P rs state.now) global }
{
    match state.globals.get(global as usize) {
        Some(value) => value.as_ref(),
        None => None,
    }
}

fn read_global(setting: &Setting, state: &State, spot: Spot, global: u32) -> Result<Value, Stop>
    ensures { (rs : List Reply) (g : Env) → let s = state_of setting.now.program.now rs state.now in Comes value_of result s (Acts.read_var (mode_of setting.now.plain) (spot_of spot) g (Ref.Global global) s) }
{
    match setting.global_kind(global) {
        GlobalKind::Extern => Ok(Value::Outside(global)),
        GlobalKind::BuiltIn(_) => Err(Stop::Ended(fault(setting.plain, 2, spot))),
        GlobalKind::Chunk(chunk) => {
            let loaded = state.loaded.contains(&chunk);
            let value = value_of_global(state, global);
            take(
                setting,
                state,
                spot,
                Variable::Global(global),
                loaded,
                value,
            )
        }
    }
}

/// The value of a variable, from the frame that is innermost.
pub fn read_var(
    setting: &Setting,
    state: &State,
    spot: Spot,
    at: Option<usize>,
    variable: Ref,
) -> Result<Value, Stop>
    ensures { (rs : List Reply) (g : Env) → g.at ≡ at → let s = state_of setting.now.program.now rs state.now in Comes value_of result s (Acts.read_var (mode_of setting.now.plain) (spot_of spot) g variable s) }
{
    match variable {
        Ref::Frame(up, place) => match frame_outwards(&state.heap, at, up) {
            Some(frame) => read_place(setting, state, spot, frame, place),
            None => Err(Stop::Ended(fault(setting.plain, 3, spot))),
        },
        Ref::Global(global) => read_global(setting, state, spot, global),
    }
}

/// The receiver (ECMA-262 5.1, 11.1.1).
pub fn read_this(
    setting: &Setting,
    state: &State,
    spot: Spot,
    receiver: &Option<Value>,
) -> Result<Value, Stop>
    ensures { (rs : List Reply) → let s = state_of setting.now.program.now rs state.now in Comes value_of result s (Acts.read_this (mode_of setting.now.plain) (spot_of spot) (option_map value_of receiver.now) s) }
{
    if let Err(stop) = settle(setting.plain, spot, this_rule(receiver)) {
        return Err(stop);
    }
    Ok(copy_or_undefined(state.heap.allocator(), receiver.as_ref())?)
}
