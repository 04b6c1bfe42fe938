// Steps that hand a value to a frame which only chooses what comes next.

ghost use Rattle.std.specs.Prelude.{◌≡◌, ◌∷◌};
ghost use Rattle.cc_ast.specs.Syntax.{Program};
ghost use Rattle.cc_ast.specs.Bridge.{term};
ghost use Rattle.cc_meaning.specs.Monad.{Mode};
ghost use Rattle.cc_value.specs.Bridge.{value_of};
ghost use Rattle.cc_machine.specs.Machine as Pure;
ghost use Rattle.cc_machine.specs.Steps.{onward};
ghost use Rattle.cc_machine.specs.Shown.{focus_of};

use crate::focus::Focus;
use cc_ast::tree::Expr;
use cc_value::operate::is_truthy;
use cc_value::value::Value;

/// After the left side of `&&`.
pub(crate) fn give_and<'a>(value: Value, right: &'a Expr) -> Focus<'a>
    ensures { (J : Mode) (P : Program) (m : Pure.Machine) → onward J P (Pure.on (record m { focus = Pure.gave (value_of value); stack = Pure.on_val (Pure.and_on (term right.now)) ∷ m.stack })) ≡ Pure.on (record m { focus = focus_of result }) }
{
    if !is_truthy(&value) {
        return Focus::Gave(value);
    }
    Focus::Want(right)
}

/// After the left side of `||`.
pub(crate) fn give_or<'a>(value: Value, right: &'a Expr) -> Focus<'a>
    ensures { (J : Mode) (P : Program) (m : Pure.Machine) → onward J P (Pure.on (record m { focus = Pure.gave (value_of value); stack = Pure.on_val (Pure.or_on (term right.now)) ∷ m.stack })) ≡ Pure.on (record m { focus = focus_of result }) }
{
    if is_truthy(&value) {
        return Focus::Gave(value);
    }
    Focus::Want(right)
}

/// After the test of `?:`.
pub(crate) fn give_cond<'a>(value: &Value, first: &'a Expr, second: &'a Expr) -> Focus<'a>
    ensures { (J : Mode) (P : Program) (m : Pure.Machine) → onward J P (Pure.on (record m { focus = Pure.gave (value_of value.now); stack = Pure.on_val (Pure.cond_on (term first.now) (term second.now)) ∷ m.stack })) ≡ Pure.on (record m { focus = focus_of result }) }
{
    if is_truthy(value) {
        Focus::Want(first)
    } else {
        Focus::Want(second)
    }
}
