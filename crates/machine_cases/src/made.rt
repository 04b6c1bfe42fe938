// Lines that make a heap. `object CLASS PROTO`, `array VALUE..`, `function FUNCTION UP SITE` and
// `frame KIND SIZE UP` answer the number of what they make. `slot OBJECT NAME KIND VALUE` writes one,
// `unslot OBJECT NAME` removes it and answers whether it was there. `element ARRAY KINDS` enters an
// element type, `construct CLASS` notes that an object of the class was made, and
// `set FRAME PLACE VALUE` sets a place.

use crate::answers::{tell_number, tell_truth};
use crate::docs::make_element;
use crate::machine::Machine;
use crate::values::{units_at, value_at, values_from};
use crate::words::{number, number_at, optional_number_at, optional_place_at, place_at, word_at};
use cc_heap::code::{Code, FrameKind};
use cc_heap::slot::SlotKind;
use std::alloc::AllocError;

/// A line that makes a heap.
#[derive(Clone, Copy)]
pub enum MadeLine {
    Object,
    Array,
    Function,
    Frame,
    Slot,
    Unslot,
    Element,
    Construct,
    Set,
}

// The number of what was made.
fn tell_made(out: &mut String, made: Result<usize, AllocError>) -> Option<()> {
    match made {
        Ok(number) => tell_number(out, number),
        Err(_) => None,
    }
}

fn object(machine: &mut Machine, words: &[&str]) -> Option<()> {
    let Some(class) = optional_number_at(words, 1) else {
        return None;
    };
    let Some(proto) = optional_place_at(words, 2) else {
        return None;
    };
    tell_made(&mut machine.out, machine.heap.make(class, proto))
}

fn array(machine: &mut Machine, words: &[&str]) -> Option<()> {
    match values_from(machine.alloc, words, 1) {
        Some(values) => tell_made(&mut machine.out, machine.heap.make_array(values)),
        None => None,
    }
}

fn function(machine: &mut Machine, words: &[&str]) -> Option<()> {
    let Some(function) = number_at(words, 1) else {
        return None;
    };
    let Some(up) = optional_place_at(words, 2) else {
        return None;
    };
    let Some(site) = number_at(words, 3) else {
        return None;
    };
    let code = Code { function, up, site };
    tell_made(&mut machine.out, machine.heap.make_function(code))
}

fn slot_kind(words: &[&str]) -> Option<SlotKind> {
    match word_at(words, 3) {
        Some("kept") => Some(SlotKind::Kept),
        Some("indexed") => Some(SlotKind::Indexed),
        Some("dotted") => Some(SlotKind::Dotted),
        Some("quoted") => Some(SlotKind::Quoted),
        Some("keyed") => Some(SlotKind::Keyed),
        _ => None,
    }
}

fn slot(machine: &mut Machine, words: &[&str]) -> Option<()> {
    let Some(object) = place_at(words, 1) else {
        return None;
    };
    let Some(kind) = slot_kind(words) else {
        return None;
    };
    let Some(name) = units_at(machine.alloc, words, 2) else {
        return None;
    };
    let Some(value) = value_at(machine.alloc, words, 4) else {
        return None;
    };
    machine.heap.write_slot(object, name, kind, value).ok()
}

fn unslot(machine: &mut Machine, words: &[&str]) -> Option<()> {
    let Some(object) = place_at(words, 1) else {
        return None;
    };
    let Some(name) = units_at(machine.alloc, words, 2) else {
        return None;
    };
    let had = machine.heap.remove_slot(object, &name);
    tell_truth(&mut machine.out, had)
}

fn element(machine: &mut Machine, words: &[&str]) -> Option<()> {
    let Some(object) = place_at(words, 1) else {
        return None;
    };
    let Some(element) = make_element(machine.alloc, words, 2) else {
        return None;
    };
    machine.heap.enter_element(object, element).ok()
}

fn construct(machine: &mut Machine, words: &[&str]) -> Option<()> {
    match number_at(words, 1) {
        Some(class) => machine.heap.note_constructed(class).ok(),
        None => None,
    }
}

fn call_of(function: &str) -> Option<FrameKind> {
    match number(function) {
        Some(function) => Some(FrameKind::Call(function)),
        None => None,
    }
}

// What makes a frame: `catch`, `own` for an own name, or `call:FUNCTION`.
fn frame_kind(words: &[&str]) -> Option<FrameKind> {
    match word_at(words, 1) {
        Some("catch") => Some(FrameKind::Catch),
        Some("own") => Some(FrameKind::OwnName),
        Some(word) => match word.strip_prefix("call:") {
            Some(function) => call_of(function),
            None => None,
        },
        None => None,
    }
}

fn frame(machine: &mut Machine, words: &[&str]) -> Option<()> {
    let Some(kind) = frame_kind(words) else {
        return None;
    };
    let Some(size) = number_at(words, 2) else {
        return None;
    };
    let Some(up) = optional_place_at(words, 3) else {
        return None;
    };
    tell_made(&mut machine.out, machine.heap.make_frame(kind, size, up))
}

fn set(machine: &mut Machine, words: &[&str]) -> Option<()> {
    let Some(frame) = place_at(words, 1) else {
        return None;
    };
    let Some(at) = number_at(words, 2) else {
        return None;
    };
    let Some(value) = value_at(machine.alloc, words, 3) else {
        return None;
    };
    machine.heap.write_var(frame, at, value);
    Some(())
}

pub fn made_line(machine: &mut Machine, line: MadeLine, words: &[&str]) -> Option<()> {
    match line {
        MadeLine::Object => object(machine, words),
        MadeLine::Array => array(machine, words),
        MadeLine::Function => function(machine, words),
        MadeLine::Frame => frame(machine, words),
        MadeLine::Slot => slot(machine, words),
        MadeLine::Unslot => unslot(machine, words),
        MadeLine::Element => element(machine, words),
        MadeLine::Construct => construct(machine, words),
        MadeLine::Set => set(machine, words),
    }
}
