// Lines that make a program's tables: `prop NAME FLAG`, `kept NAME`, `global NAME CHUNK DOC`,
// `class NAME FUNCTION EXTENDS`, `chunk NAME`, `place FILE OFFSET LINE COLUMN`. `flat DOC` gives the
// next global a flat path, `field PROP DOC` and `method PROP FUNCTION` give the next class what they
// say.

use crate::machine::Machine;
use crate::values::units_at;
use crate::words::{number_at, optional_number_at, word_at};
use cc_ast::place::Place;
use cc_ast::tables::{ChunkInfo, ChunkName, Class, FlatPath, GlobalInfo, PropInfo};
use sqlite_items::Items;
use std::mem;

/// A line of the tables.
#[derive(Clone, Copy)]
pub enum TableLine {
    Prop,
    Kept,
    Flat,
    Global,
    Field,
    Method,
    Class,
    Chunk,
    Place,
}

// Whether the name is kept or renamed.
fn is_kept(words: &[&str]) -> Option<bool> {
    match word_at(words, 2) {
        Some("kept") => Some(true),
        Some("renamed") => Some(false),
        _ => None,
    }
}

fn prop(machine: &mut Machine, words: &[&str]) -> Option<()> {
    let Some(kept) = is_kept(words) else {
        return None;
    };
    let Some(name) = units_at(machine.alloc, words, 1) else {
        return None;
    };
    machine.tables.props.push(PropInfo { name, kept }).ok()
}

fn kept(machine: &mut Machine, words: &[&str]) -> Option<()> {
    match units_at(machine.alloc, words, 1) {
        Some(name) => machine.tables.kept.push(name).ok(),
        None => None,
    }
}

fn flat(machine: &mut Machine, words: &[&str]) -> Option<()> {
    let Some(doc) = number_at(words, 1) else {
        return None;
    };
    let props = Items::new(machine.alloc);
    machine.parts.flat.push(FlatPath { props, doc }).ok()
}

fn global(machine: &mut Machine, words: &[&str]) -> Option<()> {
    let Some(chunk) = optional_number_at(words, 2) else {
        return None;
    };
    let Some(doc) = number_at(words, 3) else {
        return None;
    };
    let Some(name) = units_at(machine.alloc, words, 1) else {
        return None;
    };
    let global = GlobalInfo {
        name,
        chunk,
        doc,
        flat: mem::replace(&mut machine.parts.flat, Items::new(machine.alloc)),
    };
    machine.tables.globals.push(global).ok()
}

// A field or a method.
fn member(members: &mut Items<(u32, u32)>, words: &[&str]) -> Option<()> {
    match (number_at(words, 1), number_at(words, 2)) {
        (Some(prop), Some(what)) => members.push((prop, what)).ok(),
        _ => None,
    }
}

fn class(machine: &mut Machine, words: &[&str]) -> Option<()> {
    let Some(function) = optional_number_at(words, 2) else {
        return None;
    };
    let Some(extends) = optional_number_at(words, 3) else {
        return None;
    };
    let Some(name) = units_at(machine.alloc, words, 1) else {
        return None;
    };
    let class = Class {
        name,
        function,
        external: false,
        interface: false,
        extends,
        implements: Items::new(machine.alloc),
        methods: mem::replace(&mut machine.parts.methods, Items::new(machine.alloc)),
        fields: mem::replace(&mut machine.parts.fields, Items::new(machine.alloc)),
    };
    machine.tables.classes.push(class).ok()
}

fn chunk(machine: &mut Machine, words: &[&str]) -> Option<()> {
    let Some(word) = word_at(words, 1) else {
        return None;
    };
    let Ok(text) = String::from_str(machine.alloc, word) else {
        return None;
    };
    let name = ChunkName { text };
    let deps = Items::new(machine.alloc);
    machine.tables.chunks.push(ChunkInfo { name, deps }).ok()
}

fn make_place(words: &[&str]) -> Option<Place> {
    let Some(file) = number_at(words, 1) else {
        return None;
    };
    let Some(offset) = number_at(words, 2) else {
        return None;
    };
    let Some(line) = number_at(words, 3) else {
        return None;
    };
    let Some(column) = number_at(words, 4) else {
        return None;
    };
    Some(Place {
        file,
        offset,
        line,
        column,
    })
}

fn place(machine: &mut Machine, words: &[&str]) -> Option<()> {
    match make_place(words) {
        Some(place) => machine.tables.places.push(place).ok(),
        None => None,
    }
}

pub fn table_line(machine: &mut Machine, line: TableLine, words: &[&str]) -> Option<()> {
    match line {
        TableLine::Prop => prop(machine, words),
        TableLine::Kept => kept(machine, words),
        TableLine::Flat => flat(machine, words),
        TableLine::Global => global(machine, words),
        TableLine::Field => member(&mut machine.parts.fields, words),
        TableLine::Method => member(&mut machine.parts.methods, words),
        TableLine::Class => class(machine, words),
        TableLine::Chunk => chunk(machine, words),
        TableLine::Place => place(machine, words),
    }
}
