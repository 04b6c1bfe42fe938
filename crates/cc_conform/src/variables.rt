// What reads and writes of variables, reads of `this`, and casts break: rules 3, 4, 6 and 11.

ghost use Rattle.std.specs.Prelude.{◌≡◌};
ghost use Rattle.std.specs.Option.{option_map};
ghost use Rattle.cc_meaning.specs.Rules as Rules;
ghost use Rattle.cc_meaning.specs.Shapes.{tables_of};
ghost use Rattle.cc_meaning.specs.State.{State};
ghost use Rattle.cc_value.specs.Bridge.{value_of};
ghost use Rattle.cc_conform.specs.Bridge.{variable_of, with_store};

use crate::act::Variable;
use crate::docs::{is_settled, value_type, variable_type};
use crate::rules::{least, rule_if, rule_unless};
use crate::types::fits;
use cc_ast::program::Program;
use cc_heap::heap::Heap;
use cc_value::value::Value;

/// What a read of a variable breaks.
pub fn take_rule(program: &Program, variable: Variable, loaded: bool, set: bool) -> Option<u8>
    ensures { result ≡ Rules.take_rule (tables_of program.now) (variable_of variable) loaded set }
{
    let is_early = is_settled(program, variable) & !set;
    least(rule_unless(loaded, 3), rule_if(is_early, 11))
}

/// What a value breaks that a variable receives.
pub fn keep_rule(program: &Program, heap: &Heap, variable: Variable, value: &Value) -> Option<u8>
    ensures { (s : State) → result ≡ Rules.keep_rule (tables_of program.now) (with_store s heap.now) (variable_of variable) (value_of value.now) }
{
    rule_unless(
        fits(program, heap, variable_type(program, variable), value),
        6,
    )
}

/// What a read of `this` breaks.
#[tactic(auto, unfolding(cc_meaning::specs::Rules::this_rule))]
pub fn this_rule(receiver: &Option<Value>) -> Option<u8>
    ensures { result ≡ Rules.this_rule (option_map value_of receiver.now) }
{
    match receiver {
        Some(_) => None,
        None => Some(4),
    }
}

/// What a cast breaks.
pub fn cast_rule(program: &Program, heap: &Heap, wanted: u32, value: &Value) -> Option<u8>
    ensures { (s : State) → result ≡ Rules.cast_rule (tables_of program.now) (with_store s heap.now) wanted (value_of value.now) }
{
    rule_unless(fits(program, heap, value_type(program, wanted), value), 6)
}
