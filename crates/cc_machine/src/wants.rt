// Steps that begin an expression whose value is wanted.

ghost use Rattle.std.specs.Prelude.{◌≡◌, ℕ, Option};
ghost use Rattle.cc_ast.specs.Syntax as S;
ghost use Rattle.cc_ast.specs.Bridge.{term};
ghost use Rattle.cc_meaning.specs.State.{Path};
ghost use Rattle.cc_acts.specs.Verdicts.{mode_of};
ghost use Rattle.cc_machine.specs.Machine as Pure;
ghost use Rattle.cc_machine.specs.Steps.{onward};
ghost use Rattle.cc_machine.specs.Shown.{Steps, machine_of};

use crate::focus::Focus;
use crate::frame::ValueFrame;
use crate::machine::Machine;
use cc_acts::reads::{read_this, read_var};
use cc_acts::stop::{Spot, Stop};
use cc_ast::operator::BinOp;
use cc_ast::tree::{Expr, Ref};

/// `&&`: the left side first (ECMA-262 5.1, 11.11).
pub(crate) fn want_and<'a>(
    machine: &mut Machine<'a>,
    left: &'a Expr,
    right: &'a Expr,
) -> Result<Focus<'a>, Stop>
    ensures { (i : ℕ) (w : Option Path) → Steps result machine.new (onward (mode_of machine.old.setting.plain) machine.old.setting.program.now (Pure.on (machine_of (Pure.want w (S.and i (term left.now) (term right.now))) machine.old))) }
{
    machine.push_value(ValueFrame::And(right))?;
    Ok(Focus::Want(left))
}

/// A variable (ECMA-262 5.1, 11.1.2).
pub(crate) fn want_var<'a>(
    machine: &mut Machine<'a>,
    site: u32,
    variable: Ref,
) -> Result<Focus<'a>, Stop>
    ensures { (w : Option Path) → Steps result machine.new (onward (mode_of machine.old.setting.plain) machine.old.setting.program.now (Pure.on (machine_of (Pure.want w (S.var site variable)) machine.old))) }
{
    let spot = Spot::Site(site);
    let at = machine.env.at;
    match read_var(&machine.setting, &machine.state, spot, at, variable) {
        Ok(value) => Ok(Focus::Gave(value)),
        Err(stop) => Err(stop),
    }
}

/// `||`: the left side first (ECMA-262 5.1, 11.11).
pub(crate) fn want_or<'a>(
    machine: &mut Machine<'a>,
    left: &'a Expr,
    right: &'a Expr,
) -> Result<Focus<'a>, Stop>
    ensures { (i : ℕ) (w : Option Path) → Steps result machine.new (onward (mode_of machine.old.setting.plain) machine.old.setting.program.now (Pure.on (machine_of (Pure.want w (S.or i (term left.now) (term right.now))) machine.old))) }
{
    machine.push_value(ValueFrame::Or(right))?;
    Ok(Focus::Want(left))
}

/// A comma: the left side first (ECMA-262 5.1, 11.14).
pub(crate) fn want_comma<'a>(
    machine: &mut Machine<'a>,
    left: &'a Expr,
    right: &'a Expr,
) -> Result<Focus<'a>, Stop>
    ensures { (i : ℕ) (w : Option Path) → Steps result machine.new (onward (mode_of machine.old.setting.plain) machine.old.setting.program.now (Pure.on (machine_of (Pure.want w (S.comma i (term left.now) (term right.now))) machine.old))) }
{
    machine.push_value(ValueFrame::Comma(right))?;
    Ok(Focus::Want(left))
}

/// `?:`: the test first (ECMA-262 5.1, 11.12).
pub(crate) fn want_cond<'a>(
    machine: &mut Machine<'a>,
    test: &'a Expr,
    first: &'a Expr,
    second: &'a Expr,
) -> Result<Focus<'a>, Stop>
    ensures { (i : ℕ) (w : Option Path) → Steps result machine.new (onward (mode_of machine.old.setting.plain) machine.old.setting.program.now (Pure.on (machine_of (Pure.want w (S.cond i (term test.now) (term first.now) (term second.now))) machine.old))) }
{
    machine.push_value(ValueFrame::Cond(first, second))?;
    Ok(Focus::Want(test))
}

/// A binary operator: the left operand first (ECMA-262 5.1, 11.5 to 11.10).
pub(crate) fn want_binary<'a>(
    machine: &mut Machine<'a>,
    site: u32,
    op: BinOp,
    left: &'a Expr,
    right: &'a Expr,
) -> Result<Focus<'a>, Stop>
    ensures { (w : Option Path) → Steps result machine.new (onward (mode_of machine.old.setting.plain) machine.old.setting.program.now (Pure.on (machine_of (Pure.want w (S.binary site op (term left.now) (term right.now))) machine.old))) }
{
    machine.push_value(ValueFrame::Left(site, op, right))?;
    Ok(Focus::Want(left))
}

/// `this` (ECMA-262 5.1, 11.1.1).
pub(crate) fn want_this<'a>(machine: &mut Machine<'a>, site: u32) -> Result<Focus<'a>, Stop>
    ensures { (w : Option Path) → Steps result machine.new (onward (mode_of machine.old.setting.plain) machine.old.setting.program.now (Pure.on (machine_of (Pure.want w (S.this site)) machine.old))) }
{
    let spot = Spot::Site(site);
    match read_this(&machine.setting, &machine.state, spot, &machine.env.this) {
        Ok(value) => Ok(Focus::Gave(value)),
        Err(stop) => Err(stop),
    }
}
