// Acts, each judged on the program and the heap as they stand: `fits`, or the least rule that it
// breaks. A `-` stands for a receiver, an object, a name or a flag that isn't there.

use crate::answers::tell_rule;
use crate::machine::Machine;
use crate::names::op_named;
use crate::values::{optional_units_at, optional_value_at, units_at, value_at, values_from};
use crate::words::{flag_at, is_spelled_whole, number_at, pair, word_at};
use cc_conform::act::{Access, Act, Variable};
use cc_conform::judge::judge;
use sqlite_items::Items;
use std::alloc::Global;

/// An act.
#[derive(Clone, Copy)]
pub enum ActLine {
    Callee,
    Cast,
    Enter,
    Host,
    Inner,
    Keep,
    Leave,
    Operate,
    Probe,
    Read,
    Remove,
    Reply,
    Take,
    This,
    Walk,
    Write,
}

fn tell_last(machine: &mut Machine) -> Option<()> {
    match (&machine.program, machine.acts.as_slice().last()) {
        (Some(program), Some(act)) => {
            let rule = judge(program, &machine.heap, act);
            tell_rule(&mut machine.out, rule)
        }
        _ => None,
    }
}

fn tell_act(machine: &mut Machine, act: Act) -> Option<()> {
    match machine.acts.push(act) {
        Ok(()) => tell_last(machine),
        Err(_) => None,
    }
}

fn dotted(words: &[&str]) -> Option<Access> {
    match number_at(words, 3) {
        Some(prop) => Some(Access::Dotted(prop)),
        None => None,
    }
}

fn quoted(alloc: Global, words: &[&str]) -> Option<Access> {
    match units_at(alloc, words, 3) {
        Some(name) => Some(Access::Quoted(name)),
        None => None,
    }
}

fn runtime(alloc: Global, words: &[&str], whole: bool) -> Option<Access> {
    match units_at(alloc, words, 3) {
        Some(text) => Some(Access::Runtime { text, whole }),
        None => None,
    }
}

// A number is spelled as it is made a text, so that its word is the text.
fn whole(alloc: Global, words: &[&str]) -> Option<Access> {
    match words.get(3) {
        Some(word) if is_spelled_whole(word) => runtime(alloc, words, true),
        _ => None,
    }
}

// The key of an access: `dotted PROP`, `quoted NAME`, `runtime NAME` for a text that is no literal,
// or `whole NUMBER`.
fn make_key(alloc: Global, words: &[&str]) -> Option<Access> {
    match word_at(words, 2) {
        Some("dotted") => dotted(words),
        Some("quoted") => quoted(alloc, words),
        Some("runtime") => runtime(alloc, words, false),
        Some("whole") => whole(alloc, words),
        _ => None,
    }
}

fn variable_of(kind: &str, first: u32, second: u32) -> Option<Variable> {
    match kind {
        "global" => Some(Variable::Global(first)),
        "local" => Some(Variable::Local {
            scope: first,
            place: second,
        }),
        "flat" => Some(Variable::Flat {
            global: first,
            number: second,
        }),
        _ => None,
    }
}

// A variable: `global:NUMBER`, `local:SCOPE:PLACE` or `flat:GLOBAL:NUMBER`.
fn make_variable(words: &[&str]) -> Option<Variable> {
    let Some(word) = word_at(words, 1) else {
        return None;
    };
    let Some((kind, rest)) = word.split_once(':') else {
        return None;
    };
    match pair(rest) {
        Some((first, second)) => variable_of(kind, first, second),
        None => None,
    }
}

// `operate NAME OPERAND..`
fn operate(machine: &mut Machine, words: &[&str]) -> Option<()> {
    let Some(op) = op_named(words) else {
        return None;
    };
    let Some(operands) = values_from(machine.alloc, words, 2) else {
        return None;
    };
    let operands = Items::from_vec(operands);
    tell_act(machine, Act::Operate { op, operands })
}

// `read ON KEY`, `remove ON KEY` or `probe ON KEY`
fn access(machine: &mut Machine, line: ActLine, words: &[&str]) -> Option<()> {
    let Some(on) = value_at(machine.alloc, words, 1) else {
        return None;
    };
    let Some(key) = make_key(machine.alloc, words) else {
        return None;
    };
    let act = match line {
        ActLine::Read => Act::Read { on, key },
        ActLine::Remove => Act::Remove { on, key },
        _ => Act::Probe { on, key },
    };
    tell_act(machine, act)
}

// `write ON KEY VALUE declares`
fn write(machine: &mut Machine, words: &[&str]) -> Option<()> {
    let Some(declares) = flag_at(words, 5, "declares") else {
        return None;
    };
    let Some(on) = value_at(machine.alloc, words, 1) else {
        return None;
    };
    let Some(value) = value_at(machine.alloc, words, 4) else {
        return None;
    };
    let Some(key) = make_key(machine.alloc, words) else {
        return None;
    };
    let act = Act::Write {
        on,
        key,
        value,
        declares,
    };
    tell_act(machine, act)
}

// `walk ON` or `callee VALUE`
fn alone(machine: &mut Machine, line: ActLine, words: &[&str]) -> Option<()> {
    let Some(value) = value_at(machine.alloc, words, 1) else {
        return None;
    };
    let act = match line {
        ActLine::Walk => Act::Walk { on: value },
        _ => Act::Callee { value },
    };
    tell_act(machine, act)
}

// `enter FUNCTION RECEIVER ARGUMENT..`
fn enter(machine: &mut Machine, words: &[&str]) -> Option<()> {
    let Some(function) = number_at(words, 1) else {
        return None;
    };
    let Some(receiver) = optional_value_at(machine.alloc, words, 2) else {
        return None;
    };
    let Some(args) = values_from(machine.alloc, words, 3) else {
        return None;
    };
    let act = Act::Enter {
        function,
        receiver,
        args: Items::from_vec(args),
    };
    tell_act(machine, act)
}

// `leave FUNCTION built VALUE`
fn leave(machine: &mut Machine, words: &[&str]) -> Option<()> {
    let Some(function) = number_at(words, 1) else {
        return None;
    };
    let Some(built) = flag_at(words, 2, "built") else {
        return None;
    };
    let Some(value) = value_at(machine.alloc, words, 3) else {
        return None;
    };
    let act = Act::Leave {
        function,
        built,
        value,
    };
    tell_act(machine, act)
}

// `take VARIABLE loaded set`
fn take(machine: &mut Machine, words: &[&str]) -> Option<()> {
    let Some(variable) = make_variable(words) else {
        return None;
    };
    let Some(loaded) = flag_at(words, 2, "loaded") else {
        return None;
    };
    let Some(set) = flag_at(words, 3, "set") else {
        return None;
    };
    let act = Act::Take {
        variable,
        loaded,
        set,
    };
    tell_act(machine, act)
}

// `keep VARIABLE VALUE`
fn keep(machine: &mut Machine, words: &[&str]) -> Option<()> {
    let Some(variable) = make_variable(words) else {
        return None;
    };
    let Some(value) = value_at(machine.alloc, words, 2) else {
        return None;
    };
    tell_act(machine, Act::Keep { variable, value })
}

// `this RECEIVER`
fn this(machine: &mut Machine, words: &[&str]) -> Option<()> {
    match optional_value_at(machine.alloc, words, 1) {
        Some(receiver) => tell_act(machine, Act::This { receiver }),
        None => None,
    }
}

// `cast DOC VALUE`
fn cast(machine: &mut Machine, words: &[&str]) -> Option<()> {
    let Some(wanted) = number_at(words, 1) else {
        return None;
    };
    let Some(value) = value_at(machine.alloc, words, 2) else {
        return None;
    };
    tell_act(machine, Act::Cast { wanted, value })
}

// `host given OBJECT NAME threw`
fn host(machine: &mut Machine, words: &[&str]) -> Option<()> {
    let Some(given) = flag_at(words, 1, "given") else {
        return None;
    };
    let Some(threw) = flag_at(words, 4, "threw") else {
        return None;
    };
    let Some(on) = optional_value_at(machine.alloc, words, 2) else {
        return None;
    };
    let Some(name) = optional_units_at(machine.alloc, words, 3) else {
        return None;
    };
    let act = Act::Host {
        given,
        on,
        name,
        threw,
    };
    tell_act(machine, act)
}

// `inner given` or `reply given`
fn given(machine: &mut Machine, line: ActLine, words: &[&str]) -> Option<()> {
    let Some(given) = flag_at(words, 1, "given") else {
        return None;
    };
    let act = match line {
        ActLine::Inner => Act::Inner { given },
        _ => Act::Reply { given },
    };
    tell_act(machine, act)
}

pub fn act_line(machine: &mut Machine, line: ActLine, words: &[&str]) -> Option<()> {
    match line {
        ActLine::Callee | ActLine::Walk => alone(machine, line, words),
        ActLine::Cast => cast(machine, words),
        ActLine::Enter => enter(machine, words),
        ActLine::Host => host(machine, words),
        ActLine::Inner | ActLine::Reply => given(machine, line, words),
        ActLine::Keep => keep(machine, words),
        ActLine::Leave => leave(machine, words),
        ActLine::Operate => operate(machine, words),
        ActLine::Probe | ActLine::Read | ActLine::Remove => access(machine, line, words),
        ActLine::Take => take(machine, words),
        ActLine::This => this(machine, words),
        ActLine::Write => write(machine, words),
    }
}
