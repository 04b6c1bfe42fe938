// Operators (ECMA-262 5.1, 11).

ghost use Rattle.std.specs.Prelude.{◌≡◌, ◌≢◌, ℕ, List, nat_le};
ghost use Rattle.cc_ast.specs.declared.operator.BinOp.{BinOp};
ghost use Rattle.cc_ast.specs.declared.operator.UnOp.{UnOp};
ghost use Rattle.cc_meaning.specs.Acts as Acts;
ghost use Rattle.cc_meaning.specs.Acts.{is_fatal, judged, outcome_value};
ghost use Rattle.cc_meaning.specs.Judge.{Act, least_broken};
ghost use Rattle.cc_meaning.specs.Monad.{ret};
ghost use Rattle.cc_meaning.specs.Operators.{Outcome};
ghost use Rattle.cc_meaning.specs.Rules.{outcome_rule};
ghost use Rattle.cc_meaning.specs.State.{Reply, State as Seen};
ghost use Rattle.cc_value.specs.Bridge.{Answers, value_of};
ghost use Rattle.cc_acts.specs.Shown.{Comes, StopsBy, spot_of, state_of};
ghost use Rattle.cc_acts.specs.Verdicts.{mode_of};

use crate::setting::Setting;
use crate::state::State;
use crate::stop::{Spot, Stop, fault};
use cc_ast::operator::{BinOp, UnOp};
use cc_value::operate::{binary, unary};
use cc_value::value::{OpFault, Value};

// Why an operator that breaks a rule gives no value.
fn stop_by(plain: bool, spot: Spot, op_fault: OpFault) -> Stop
    ensures { StopsBy op_fault result (mode_of plain) (spot_of spot) }
{
    match op_fault {
        OpFault::Rule1 => Stop::Ended(fault(plain, 1, spot)),
        OpFault::Rule2 => Stop::Ended(fault(plain, 2, spot)),
        OpFault::Memory => Stop::Memory,
    }
}

// The value of an operator that needs no heap, or the end at the rule that it breaks.
fn settle_answer(plain: bool, spot: Spot, answer: Result<Value, OpFault>) -> Result<Value, Stop>
    ensures { (o : Outcome) (a : Act) (s : Seen) → ((r : ℕ) → is_fatal a r ≡ nat_le r 3) → Answers answer o → outcome_rule o ≡ least_broken s.tables s a → Comes value_of result s (judged (mode_of plain) (spot_of spot) a (ret (outcome_value o)) s) }
{
    match answer {
        Ok(value) => Ok(value),
        Err(op_fault) => Err(stop_by(plain, spot, op_fault)),
    }
}

// A binary operator that needs no heap.
fn operate_values(
    setting: &Setting,
    state: &State,
    spot: Spot,
    op: BinOp,
    left: &Value,
    right: &Value,
) -> Result<Value, Stop>
    requires no_instance { op ≢ BinOp.Instance }
    requires no_has { op ≢ BinOp.Has }
    ensures { (rs : List Reply) → let s = state_of setting.now.program.now rs state.now in Comes value_of result s (Acts.operate (mode_of setting.now.plain) (spot_of spot) op (value_of left.now) (value_of right.now) s) }
{
    let answer = binary(state.heap.allocator(), op, left, right);
    settle_answer(setting.plain, spot, answer)
}

// `instanceof` (ECMA-262 5.1, 11.8.6).
fn operate_instance(
    setting: &Setting,
    state: &State,
    spot: Spot,
    left: &Value,
    right: &Value,
) -> Result<Value, Stop>
    ensures { (rs : List Reply) → let s = state_of setting.now.program.now rs state.now in Comes value_of result s (Acts.operate (mode_of setting.now.plain) (spot_of spot) BinOp.Instance (value_of left.now) (value_of right.now) s) }
{
    match state.heap.instance(left, right) {
        Ok(answer) => Ok(Value::Truth(answer)),
        Err(op_fault) => Err(stop_by(setting.plain, spot, op_fault)),
    }
}

// `typeof` (ECMA-262 5.1, 11.4.3).
fn operate_typeof(
    setting: &Setting,
    state: &State,
    spot: Spot,
    value: &Value,
) -> Result<Value, Stop>
    ensures { (rs : List Reply) → let s = state_of setting.now.program.now rs state.now in Comes value_of result s (Acts.operate_one (mode_of setting.now.plain) (spot_of spot) UnOp.Typeof (value_of value.now) s) }
{
    match state.heap.type_name(value) {
        Ok(name) => Ok(Value::Text(name)),
        Err(op_fault) => Err(stop_by(setting.plain, spot, op_fault)),
    }
}

// A unary operator that needs no heap.
fn operate_value(
    setting: &Setting,
    state: &State,
    spot: Spot,
    op: UnOp,
    value: &Value,
) -> Result<Value, Stop>
    requires no_delete { op ≢ UnOp.Delete }
    requires no_type { op ≢ UnOp.Typeof }
    ensures { (rs : List Reply) → let s = state_of setting.now.program.now rs state.now in Comes value_of result s (Acts.operate_one (mode_of setting.now.plain) (spot_of spot) op (value_of value.now) s) }
{
    let answer = unary(state.heap.allocator(), op, value);
    settle_answer(setting.plain, spot, answer)
}

/// A unary operator on a value. `delete` is none.
pub fn operate_one(
    setting: &Setting,
    state: &State,
    spot: Spot,
    op: UnOp,
    value: &Value,
) -> Result<Value, Stop>
    requires { op ≢ UnOp.Delete }
    ensures { (rs : List Reply) → let s = state_of setting.now.program.now rs state.now in Comes value_of result s (Acts.operate_one (mode_of setting.now.plain) (spot_of spot) op (value_of value.now) s) }
{
    match op {
        UnOp::Typeof => operate_typeof(setting, state, spot, value),
        _ => operate_value(setting, state, spot, op, value),
    }
}
