// Writes of variables (ECMA-262 5.1, 10.2.1.1.3).

ghost use Rattle.std.specs.Prelude.{◌≡◌, List, Some, slice_get};
ghost use Rattle.cc_ast.specs.Syntax.{Program};
ghost use Rattle.cc_meaning.specs.Acts as Acts;
ghost use Rattle.cc_meaning.specs.State.{Env, FrameKind as Kind, Reply, State as Seen, of_call};
ghost use Rattle.cc_meaning.specs.Typed as Typed;
ghost use Rattle.cc_value.specs.Bridge.{value_of};
ghost use Rattle.cc_conform.specs.Bridge.{variable_of};
ghost use Rattle.cc_acts.specs.Verdicts.{mode_of};
ghost use Rattle.cc_acts.specs.Received.{SparesObjects};
ghost use Rattle.cc_acts.specs.Shown.{Comes, spot_of, state_of};

use crate::frames::frame_outwards;
use crate::receives::receive;
use crate::setting::Setting;
use crate::state::State;
use crate::stop::{Spot, Stop, settle};
use cc_ast::tree::Ref;
use cc_conform::act::Variable;
use cc_conform::docs::variable_type;
use cc_conform::variables::keep_rule;
use cc_heap::code::FrameKind;
use cc_value::value::Value;

/// A variable receives a value, which is judged, and which the variable's type receives. The write
/// itself is the caller's: whatever it changes, if it has nothing to do with objects.
pub fn keep(
    setting: &Setting,
    state: &mut State,
    spot: Spot,
    variable: Variable,
    value: &Value,
) -> Result<(), Stop>
    ensures { (rs : List Reply) (f : Seen → Seen) → SparesObjects f → Comes (λ u. u) result (f (state_of setting.now.program.now rs state.new)) (Acts.keep (mode_of setting.now.plain) (spot_of spot) (variable_of variable) (value_of value.now) f (state_of setting.now.program.now rs state.old)) }
{
    let rule = keep_rule(setting.program, &state.heap, variable, value);
    if let Err(stop) = settle(setting.plain, spot, rule) {
        return Err(stop);
    }
    receive(
        &mut state.heap,
        variable_type(setting.program, variable),
        value,
    )?;
    Ok(())
}

// A variable of a function.
fn write_local(
    setting: &Setting,
    state: &mut State,
    spot: Spot,
    scope: u32,
    frame: usize,
    place: u32,
    value: Value,
) -> Result<(), Stop>
    ensures { (rs : List Reply) → Comes (λ u. u) result (state_of setting.now.program.now rs state.new) (Acts.write_by_kind (mode_of setting.now.plain) (spot_of spot) (of_call scope) (Some frame) place (value_of value) (state_of setting.now.program.now rs state.old)) }
{
    let variable = Variable::Local { scope, place };
    if let Err(stop) = keep(setting, state, spot, variable, &value) {
        return Err(stop);
    }
    state.heap.write_var(frame, place, value);
    Ok(())
}

// A place of a frame: a catch variable isn't judged, and an own name stays as it is.
fn write_place(
    setting: &Setting,
    state: &mut State,
    spot: Spot,
    frame: usize,
    place: u32,
    value: Value,
) -> Result<(), Stop>
    ensures { (rs : List Reply) → let s = state_of setting.now.program.now rs state.old in Comes (λ u. u) result (state_of setting.now.program.now rs state.new) (Acts.write_place (mode_of setting.now.plain) (spot_of spot) (slice_get s.frames frame) (Some frame) place (value_of value) s) }
{
    match state.heap.frame_kind(frame) {
        Some(FrameKind::Call(scope)) => {
            write_local(setting, state, spot, scope, frame, place, value)
        }
        Some(FrameKind::Catch) => {
            state.heap.write_var(frame, place, value);
            Ok(())
        }
        Some(FrameKind::OwnName) => Ok(()),
        None => Ok(()),
    }
}

fn set_global(state: &mut State, global: u32, value: Value)
    ensures { (rs : List Reply) (P : Program) → state_of P rs state.new ≡ Acts.set_global global (value_of value) (state_of P rs state.old) }
{
    let number = global as usize;
    if number < state.globals.len() {
        state.globals.set(number, Some(value));
    }
}

fn write_global(
    setting: &Setting,
    state: &mut State,
    spot: Spot,
    global: u32,
    value: Value,
) -> Result<(), Stop>
    ensures { (rs : List Reply) (g : Env) → Comes (λ u. u) result (state_of setting.now.program.now rs state.new) (Acts.write_var (mode_of setting.now.plain) (spot_of spot) g (Ref.Global global) (value_of value) (state_of setting.now.program.now rs state.old)) }
{
    if let Err(stop) = keep(setting, state, spot, Variable::Global(global), &value) {
        return Err(stop);
    }
    set_global(state, global, value);
    Ok(())
}

/// A write of a variable, from the frame that is innermost.
pub fn write_var(
    setting: &Setting,
    state: &mut State,
    spot: Spot,
    at: Option<usize>,
    variable: Ref,
    value: Value,
) -> Result<(), Stop>
    ensures { (rs : List Reply) (g : Env) → g.at ≡ at → Comes (λ u. u) result (state_of setting.now.program.now rs state.new) (Acts.write_var (mode_of setting.now.plain) (spot_of spot) g variable (value_of value) (state_of setting.now.program.now rs state.old)) }
{
    match variable {
        Ref::Frame(up, place) => match frame_outwards(&state.heap, at, up) {
            Some(frame) => write_place(setting, state, spot, frame, place, value),
            None => Ok(()),
        },
        Ref::Global(global) => write_global(setting, state, spot, global, value),
    }
}
