// Answers: each is a line of its own, two spaces in.

use crate::escapes::push_units;
use crate::values::push_value;
use cc_heap::slot::{Held, Slot, SlotKind};
use cc_value::value::{OpFault, Value};
use std::alloc::AllocError;
use std::fmt::Write;

/// An answer in words.
pub fn tell(out: &mut String, answer: &str) -> Option<()> {
    writeln!(out, "  {answer}").ok()
}

/// The least rule that is broken, or none.
pub fn tell_rule(out: &mut String, rule: Option<u8>) -> Option<()> {
    match rule {
        Some(rule) => writeln!(out, "  breaks {rule}").ok(),
        None => tell(out, "fits"),
    }
}

/// The rule for which an operator gives no value. Where it wants memory, there is no answer.
pub fn tell_fault(out: &mut String, fault: OpFault) -> Option<()> {
    match fault {
        OpFault::Rule1 => tell_rule(out, Some(1)),
        OpFault::Rule2 => tell_rule(out, Some(2)),
        OpFault::Memory => None,
    }
}

pub fn tell_truth(out: &mut String, is_true: bool) -> Option<()> {
    writeln!(out, "  {is_true}").ok()
}

pub fn tell_number(out: &mut String, number: usize) -> Option<()> {
    writeln!(out, "  {number}").ok()
}

pub fn tell_optional(out: &mut String, number: Option<usize>) -> Option<()> {
    match number {
        Some(number) => tell_number(out, number),
        None => tell(out, "nothing"),
    }
}

fn value_line(out: &mut String, value: &Value) -> Result<(), AllocError> {
    out.push_str("  ")?;
    push_value(out, value)?;
    out.push('\n')
}

pub fn tell_value(out: &mut String, value: Option<&Value>) -> Option<()> {
    match value {
        Some(value) => value_line(out, value).ok(),
        None => tell(out, "nothing"),
    }
}

/// A stored value, or an array's length.
pub fn tell_held(out: &mut String, held: Option<Held<'_>>) -> Option<()> {
    match held {
        Some(Held::Value(value)) => tell_value(out, Some(value)),
        Some(Held::Length(length)) => writeln!(out, "  length {length}").ok(),
        None => tell(out, "nothing"),
    }
}

fn kind_name(kind: SlotKind) -> &'static str {
    match kind {
        SlotKind::Kept => "kept",
        SlotKind::Indexed => "indexed",
        SlotKind::Dotted => "dotted",
        SlotKind::Quoted => "quoted",
        SlotKind::Keyed => "keyed",
    }
}

// A name and a kind, each with a space behind it.
fn push_name(out: &mut String, slot: &Slot) -> Result<(), AllocError> {
    push_units(out, &slot.name)?;
    let kind = kind_name(slot.kind);
    write!(out, " {kind} ")
}

fn slot_line(out: &mut String, slot: &Slot) -> Result<(), AllocError> {
    out.push_str("  ")?;
    push_name(out, slot)?;
    push_value(out, &slot.value)?;
    out.push('\n')
}

/// A slot's name, kind and value.
pub fn tell_slot(out: &mut String, slot: Option<&Slot>) -> Option<()> {
    match slot {
        Some(slot) => slot_line(out, slot).ok(),
        None => tell(out, "nothing"),
    }
}
