// Lines that make docs: `value KINDS ELEMENT`, `param KINDS ELEMENT`, `result KINDS ELEMENT` and
// `constant` say something in the doc that `doc` puts into the table. Kinds stand with `|` between
// them; the element type is some kinds, or `-` where there is none.

use crate::machine::Machine;
use crate::words::is_nothing_at;
use cc_ast::tables::{Element, SiteDoc, TypeSet};
use sqlite_items::Items;
use std::alloc::Global;
use std::mem;

/// A line of docs.
#[derive(Clone, Copy)]
pub enum DocLine {
    Value,
    Param,
    Given,
    Constant,
    Doc,
}

/// A doc that says nothing.
pub fn blank_doc(alloc: Global) -> SiteDoc {
    SiteDoc {
        params: Items::new(alloc),
        result: None,
        value: None,
        receiver: None,
        vars: Items::new(alloc),
        constant: false,
        define: false,
        nocollapse: false,
        export: false,
    }
}

fn kind(word: &str) -> Option<u8> {
    match word {
        "number" => Some(1),
        "string" => Some(2),
        "boolean" => Some(4),
        "function" => Some(8),
        "array" => Some(16),
        "outside" => Some(32),
        _ => None,
    }
}

// Some kinds, of which each is a bit.
fn kinds(word: &str) -> Option<u8> {
    let mut all = 0;
    for part in word.split('|') {
        match kind(part) {
            Some(bit) => all |= bit,
            None => return None,
        }
    }
    Some(all)
}

fn kinds_at(words: &[&str], at: usize) -> Option<u8> {
    match words.get(at) {
        Some(word) => kinds(word),
        None => None,
    }
}

/// The element type that is some kinds.
pub fn make_element(alloc: Global, words: &[&str], at: usize) -> Option<Element> {
    match kinds_at(words, at) {
        Some(kinds) => Some(Element {
            kinds,
            classes: Items::new(alloc),
        }),
        None => None,
    }
}

// An element type that may not be there.
fn optional_element(alloc: Global, words: &[&str]) -> Option<Option<Element>> {
    if is_nothing_at(words, 2) {
        return Some(None);
    }
    match make_element(alloc, words, 2) {
        Some(element) => Some(Some(element)),
        None => None,
    }
}

fn type_of(alloc: Global, kinds: u8, element: Option<Element>) -> TypeSet {
    TypeSet {
        kinds,
        classes: Items::new(alloc),
        unknown: false,
        element,
    }
}

fn make_type(alloc: Global, words: &[&str]) -> Option<TypeSet> {
    let Some(kinds) = kinds_at(words, 1) else {
        return None;
    };
    match optional_element(alloc, words) {
        Some(element) => Some(type_of(alloc, kinds, element)),
        None => None,
    }
}

// The type of a value, of what is given or of the next parameter.
fn typed(alloc: Global, doc: &mut SiteDoc, line: DocLine, words: &[&str]) -> Option<()> {
    let Some(made) = make_type(alloc, words) else {
        return None;
    };
    match line {
        DocLine::Value => doc.value = Some(made),
        DocLine::Given => doc.result = Some(made),
        _ => return doc.params.push(Some(made)).ok(),
    }
    Some(())
}

fn constant(doc: &mut SiteDoc) -> Option<()> {
    doc.constant = true;
    Some(())
}

fn doc(machine: &mut Machine) -> Option<()> {
    let doc = mem::replace(&mut machine.parts.doc, blank_doc(machine.alloc));
    machine.tables.docs.push(doc).ok()
}

pub fn doc_line(machine: &mut Machine, line: DocLine, words: &[&str]) -> Option<()> {
    match line {
        DocLine::Constant => constant(&mut machine.parts.doc),
        DocLine::Doc => doc(machine),
        _ => typed(machine.alloc, &mut machine.parts.doc, line, words),
    }
}
