// The least rule that an act breaks.

ghost use Rattle.std.specs.Prelude.{◌≡◌};
ghost use Rattle.cc_meaning.specs.Judge.{least_broken};
ghost use Rattle.cc_meaning.specs.Shapes.{tables_of};
ghost use Rattle.cc_meaning.specs.State.{State};
ghost use Rattle.cc_conform.specs.Bridge.{Holds, act_of, with_store};

use crate::act::Act;
use crate::calls::{callee_rule, enter_rule, leave_rule};
use crate::host::host_rule;
use crate::operators::operate_rule;
use crate::reads::{probe_rule, read_rule, walk_rule};
use crate::rules::rule_unless;
use crate::variables::{cast_rule, keep_rule, take_rule, this_rule};
use crate::writes::{remove_rule, write_rule};
use cc_ast::program::Program;
use cc_heap::heap::Heap;

#[tactic(auto, unfolding(cc_meaning::specs::Judge::least_broken))]
fn act_rule(program: &Program, heap: &Heap, act: &Act) -> Option<u8>
    ensures { (s : State) → result ≡ least_broken (tables_of program.now) (with_store s heap.now) (act_of act.now) }
{
    match act {
        Act::Operate { op, operands } => operate_rule(program, heap, op, operands.as_slice()),
        Act::Read { on, key } => read_rule(program, heap, on, key),
        Act::Write {
            on,
            key,
            value,
            declares,
        } => write_rule(program, heap, on, key, value, *declares),
        Act::Remove { on, key } => remove_rule(program, heap, on, key),
        Act::Probe { on, key } => probe_rule(program, heap, on, key),
        Act::Walk { on } => walk_rule(heap, on),
        Act::Callee { value } => callee_rule(heap, value),
        Act::Enter {
            function,
            receiver,
            args,
        } => enter_rule(program, heap, *function, receiver, args.as_slice()),
        Act::Leave {
            function,
            built,
            value,
        } => leave_rule(program, heap, *function, *built, value),
        Act::Take {
            variable,
            loaded,
            set,
        } => take_rule(program, *variable, *loaded, *set),
        Act::Keep { variable, value } => keep_rule(program, heap, *variable, value),
        Act::This { receiver } => this_rule(receiver),
        Act::Cast { wanted, value } => cast_rule(program, heap, *wanted, value),
        Act::Host {
            given,
            on,
            name,
            threw,
        } => host_rule(program, heap, *given, on, name, *threw),
        Act::Inner { given } => rule_unless(*given, 13),
        Act::Reply { given } => rule_unless(*given, 13),
    }
}

/// The number of the least rule that the act breaks, where the heap is that of the run.
pub fn judge(program: &Program, heap: &Heap, act: &Act) -> Option<u8>
    ensures { (s : State) → Holds s heap.now → result ≡ least_broken (tables_of program.now) s (act_of act.now) }
{
    act_rule(program, heap, act)
}
