// Texts in words: `\n`, `\r`, `\t`, `\\`, `\s` for a space, `\xHH` and `\uHHHH` for one unit.

use cc_ast::units::Units;
use std::alloc::{AllocError, Global};
use std::fmt::Write;

// What stands before the next character: nothing that is open, a backslash, or so many digits that
// are to come with the value of those before them.
#[derive(Clone, Copy)]
enum State {
    Plain,
    Escape,
    Digits { left: u32, value: u32 },
}

/// The units that a word stands for.
pub fn make_units(alloc: Global, word: &str) -> Option<Units> {
    let mut list = Vec::new(alloc);
    let mut state = State::Plain;
    for c in word.chars() {
        let Some(next) = step(&mut list, state, c) else {
            return None;
        };
        state = next;
    }
    match state {
        State::Plain => Some(Units { list }),
        _ => None,
    }
}

fn step(list: &mut Vec<u16>, state: State, c: char) -> Option<State> {
    match state {
        State::Plain => plain(list, c),
        State::Escape => escape(list, c),
        State::Digits { left, value } => digit(list, left, value, c),
    }
}

fn plain(list: &mut Vec<u16>, c: char) -> Option<State> {
    if c == '\\' {
        Some(State::Escape)
    } else {
        push_code(list, u32::from(c))
    }
}

fn escape(list: &mut Vec<u16>, c: char) -> Option<State> {
    match c {
        'x' => Some(State::Digits { left: 2, value: 0 }),
        'u' => Some(State::Digits { left: 4, value: 0 }),
        'n' => push_code(list, 10),
        'r' => push_code(list, 13),
        's' => push_code(list, 32),
        't' => push_code(list, 9),
        '\\' => push_code(list, 92),
        _ => None,
    }
}

fn digit(list: &mut Vec<u16>, left: u32, value: u32, c: char) -> Option<State> {
    let Some(digit) = c.to_digit(16) else {
        return None;
    };
    let value = value.saturating_mul(16).saturating_add(digit);
    if left > 1 {
        let left = left - 1;
        Some(State::Digits { left, value })
    } else {
        push_code(list, value)
    }
}

fn push_code(list: &mut Vec<u16>, code: u32) -> Option<State> {
    match u16::try_from(code) {
        Ok(unit) => match list.push(unit) {
            Ok(()) => Some(State::Plain),
            Err(_) => None,
        },
        Err(_) => None,
    }
}

/// Appends a text as a word.
pub fn push_units(out: &mut String, units: &Units) -> Result<(), AllocError> {
    for unit in units.list.as_slice() {
        push_unit(out, *unit)?;
    }
    Ok(())
}

fn push_unit(out: &mut String, unit: u16) -> Result<(), AllocError> {
    match u8::try_from(unit) {
        Ok(32) => out.push_str("\\s"),
        Ok(92) => out.push_str("\\\\"),
        Ok(byte) if 32 < byte && byte < 127 => out.push(char::from(byte)),
        _ => write!(out, "\\u{unit:04x}"),
    }
}
