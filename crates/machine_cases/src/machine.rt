// A program and a heap, which lines make and ask.

use crate::acts::act_line;
use crate::docs::{blank_doc, doc_line};
use crate::lines::{Line, line_of};
use crate::lookups::lookup_line;
use crate::made::made_line;
use crate::operators::operator_line;
use crate::share::{Tables, begin_tables, make_program, no_tables};
use crate::statements::{TreeLine, tree_line};
use crate::tables::table_line;
use crate::trees::Trees;
use cc_ast::program::Program;
use cc_ast::tables::{FlatPath, SiteDoc};
use cc_ast::tree::Stmt;
use cc_conform::act::Act;
use cc_heap::heap::Heap;
use sqlite_items::Items;
use std::alloc::{AllocError, Global};
use std::fmt::Write;

/// Parts of what comes next in the program's tables.
#[derive(Drop)]
pub struct Parts {
    pub doc: SiteDoc,
    pub flat: Items<FlatPath>,
    pub fields: Items<(u32, u32)>,
    pub methods: Items<(u32, u32)>,
    pub body: Items<Stmt>,
}

/// A program and a heap, the parts that were read for them, the acts that were judged on them, and
/// the last answer. The program is made where a line asks for it first, and then its tables stay as
/// they are.
#[derive(Drop)]
pub struct Machine {
    pub alloc: Global,
    pub tables: Tables,
    pub program: Option<Program>,
    pub heap: Heap,
    pub parts: Parts,
    pub acts: Items<Act>,
    pub trees: Trees,
    pub out: String,
}

fn no_parts(alloc: Global) -> Parts {
    Parts {
        doc: blank_doc(alloc),
        flat: Items::new(alloc),
        fields: Items::new(alloc),
        methods: Items::new(alloc),
        body: Items::new(alloc),
    }
}

impl Machine {
    /// A machine without anything.
    pub fn new(alloc: Global) -> Result<Box<Machine>, AllocError> {
        let machine = Machine {
            alloc,
            tables: no_tables(alloc),
            program: None,
            heap: Heap::new(alloc),
            parts: no_parts(alloc),
            acts: Items::new(alloc),
            trees: Trees::new(alloc),
            out: String::new(alloc),
        };
        Box::new(alloc, machine).map_err(AllocError::from)
    }
}

fn begin_heap(alloc: Global, heap: &mut Heap) {
    *heap = Heap::new(alloc);
}

fn begin_parts(alloc: Global, parts: &mut Parts) {
    *parts = no_parts(alloc);
}

fn begin(machine: &mut Machine) -> Option<()> {
    begin_heap(machine.alloc, &mut machine.heap);
    begin_parts(machine.alloc, &mut machine.parts);
    machine.program = None;
    begin_tables(machine.alloc, &mut machine.tables)
}

fn share_tables(machine: &mut Machine) -> bool {
    if machine.program.is_none() {
        machine.program = make_program(machine.alloc, &mut machine.tables);
    }
    machine.program.is_some()
}

// Whether a line comes where it may: what makes tables comes before what asks for the program.
fn is_ready(machine: &mut Machine, line: Line) -> bool {
    match line {
        Line::New | Line::Made(_) | Line::Lookup(_) | Line::Operator(_) => true,
        Line::Table(_) | Line::Doc(_) => machine.program.is_none(),
        Line::Tree(TreeLine::Declare | TreeLine::Scope) => machine.program.is_none(),
        Line::Act(_) | Line::Tree(_) => share_tables(machine),
    }
}

fn answer_ready(machine: &mut Machine, line: Line, words: &[&str]) -> Option<()> {
    match line {
        Line::New => begin(machine),
        Line::Table(line) => table_line(machine, line, words),
        Line::Doc(line) => doc_line(machine, line, words),
        Line::Made(line) => made_line(machine, line, words),
        Line::Lookup(line) => lookup_line(machine, line, words),
        Line::Act(line) => act_line(machine, line, words),
        Line::Operator(line) => operator_line(machine, line, words),
        Line::Tree(line) => tree_line(machine, line, words),
    }
}

fn answer_words(machine: &mut Machine, words: &[&str]) -> Option<()> {
    match line_of(words) {
        Some(line) if is_ready(machine, line) => answer_ready(machine, line, words),
        _ => None,
    }
}

fn answer_case(machine: &mut Machine, line: &str) -> Option<()> {
    match line.split_whitespace().collect::<Vec<&str>>(machine.alloc) {
        Ok(words) => answer_words(machine, words.as_slice()),
        Err(_) => None,
    }
}

// Prints a line, and the answer behind it where it is a case.
fn answer_line(machine: &mut Machine, line: &str) -> Option<()> {
    if writeln!(machine.out, "{line}").is_err() {
        return None;
    }
    if line.is_empty() || line.starts_with('#') {
        return Some(());
    }
    answer_case(machine, line)
}

/// Does what a line says, and leaves in `out` what is printed. Tells whether the line could be read.
pub fn answer(machine: &mut Machine, line: &str) -> bool {
    machine.out.clear();
    if answer_line(machine, line).is_some() {
        return true;
    }
    machine.out.clear();
    let _ = writeln!(machine.out, "? {line}");
    false
}
