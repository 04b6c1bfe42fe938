// Lines that ask a heap, by the names of its calls. Objects, frames and places go by number.

use crate::answers::{
    tell_fault, tell_held, tell_number, tell_optional, tell_slot, tell_truth, tell_value,
};
use crate::machine::Machine;
use crate::values::{units_at, value_at, values_from};
use crate::words::{number_at, place_at};
use cc_ast::units::Units;
use cc_heap::heap::Heap;
use cc_value::value::{OpFault, Value};

/// A line that asks a heap.
#[derive(Clone, Copy)]
pub enum LookupLine {
    ClassOf,
    Constructed,
    ElementCount,
    FrameUp,
    FunctionOf,
    Has,
    Instance,
    OwnSlot,
    ProtoOf,
    ReadOwn,
    ReadSlot,
    ReadVar,
    SlotAt,
    SlotCount,
    TypeName,
    Wanted,
}

fn tell_named(
    heap: &Heap,
    out: &mut String,
    line: LookupLine,
    object: usize,
    name: &Units,
) -> Option<()> {
    match line {
        LookupLine::OwnSlot => tell_slot(out, heap.own_slot(object, name)),
        LookupLine::ReadOwn => tell_held(out, heap.read_own(object, name)),
        _ => tell_held(out, heap.read_slot(object, name)),
    }
}

// `own_slot OBJECT NAME`, `read_own OBJECT NAME` or `read_slot OBJECT NAME`
fn named(machine: &mut Machine, line: LookupLine, words: &[&str]) -> Option<()> {
    let Some(object) = place_at(words, 1) else {
        return None;
    };
    match units_at(machine.alloc, words, 2) {
        Some(name) => tell_named(&machine.heap, &mut machine.out, line, object, &name),
        None => None,
    }
}

// `slot_at OBJECT PLACE`
fn slot_at(machine: &mut Machine, words: &[&str]) -> Option<()> {
    match (place_at(words, 1), place_at(words, 2)) {
        (Some(object), Some(at)) => {
            tell_slot(&mut machine.out, machine.heap.slot_at(object, at))
        }
        _ => None,
    }
}

// `read_var FRAME PLACE`
fn read_var(machine: &mut Machine, words: &[&str]) -> Option<()> {
    match (place_at(words, 1), number_at(words, 2)) {
        (Some(frame), Some(at)) => {
            tell_value(&mut machine.out, machine.heap.read_var(frame, at))
        }
        _ => None,
    }
}

fn class_of(heap: &Heap, out: &mut String, object: usize) -> Option<()> {
    match heap.class_of(object) {
        Some(class) => tell_optional(out, Some(class as usize)),
        None => tell_optional(out, None),
    }
}

fn constructed(heap: &Heap, out: &mut String, class: usize) -> Option<()> {
    match u32::try_from(class) {
        Ok(class) => tell_truth(out, heap.constructed(class)),
        Err(_) => None,
    }
}

// A function's number, and the frame around it.
fn function_of(heap: &Heap, out: &mut String, object: usize) -> Option<()> {
    match heap.function_of(object) {
        Some((function, up)) => match tell_number(out, function as usize) {
            Some(()) => tell_optional(out, up),
            None => None,
        },
        None => tell_optional(out, None),
    }
}

fn tell_numbered(heap: &Heap, out: &mut String, line: LookupLine, of: usize) -> Option<()> {
    match line {
        LookupLine::ClassOf => class_of(heap, out, of),
        LookupLine::Constructed => constructed(heap, out, of),
        LookupLine::ElementCount => tell_optional(out, heap.element_count(of)),
        LookupLine::FrameUp => tell_optional(out, heap.frame_up(of)),
        LookupLine::FunctionOf => function_of(heap, out, of),
        LookupLine::ProtoOf => tell_optional(out, heap.proto_of(of)),
        LookupLine::SlotCount => tell_number(out, heap.slot_count(of)),
        _ => tell_number(out, heap.wanted(of).len()),
    }
}

// A call that is given one number.
fn numbered(machine: &mut Machine, line: LookupLine, words: &[&str]) -> Option<()> {
    match place_at(words, 1) {
        Some(of) => tell_numbered(&machine.heap, &mut machine.out, line, of),
        None => None,
    }
}

fn tell_test(out: &mut String, answer: Result<bool, OpFault>) -> Option<()> {
    match answer {
        Ok(is_true) => tell_truth(out, is_true),
        Err(fault) => tell_fault(out, fault),
    }
}

// `has KEY OBJECT`, or `instance OBJECT FUNCTION`
fn test(machine: &mut Machine, line: LookupLine, words: &[&str]) -> Option<()> {
    let Some(values) = values_from(machine.alloc, words, 1) else {
        return None;
    };
    let [left, right] = values.as_slice() else {
        return None;
    };
    let answer = match line {
        LookupLine::Has => machine.heap.has(left, right),
        _ => machine.heap.instance(left, right),
    };
    tell_test(&mut machine.out, answer)
}

fn tell_name(out: &mut String, answer: Result<Units, OpFault>) -> Option<()> {
    match answer {
        Ok(name) => tell_value(out, Some(&Value::Text(name))),
        Err(fault) => tell_fault(out, fault),
    }
}

// `type_name VALUE`
fn type_name(machine: &mut Machine, words: &[&str]) -> Option<()> {
    match value_at(machine.alloc, words, 1) {
        Some(value) => tell_name(&mut machine.out, machine.heap.type_name(&value)),
        None => None,
    }
}

pub fn lookup_line(machine: &mut Machine, line: LookupLine, words: &[&str]) -> Option<()> {
    match line {
        LookupLine::Has | LookupLine::Instance => test(machine, line, words),
        LookupLine::OwnSlot | LookupLine::ReadOwn | LookupLine::ReadSlot => {
            named(machine, line, words)
        }
        LookupLine::ReadVar => read_var(machine, words),
        LookupLine::SlotAt => slot_at(machine, words),
        LookupLine::TypeName => type_name(machine, words),
        _ => numbered(machine, line, words),
    }
}
