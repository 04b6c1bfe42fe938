// Lines of trees. `declare SITE VARIABLE TREE` gives the next scope a `var` of one variable, and
// `scope PARAMS DOC` makes the scope. `fold TREE` answers what folding gives for a scope of one
// expression statement, of site 10. `copy_scope NUMBER` and `copy_program` answer what the copy has.

use crate::machine::Machine;
use crate::marked::{make_ref, sited};
use crate::shown::tell_stmts;
use crate::words::{number_at, place_at, word_at};
use cc_ast::copy::{copy_program, copy_scope};
use cc_ast::program::{Program, Scope};
use cc_ast::shared::Shared;
use cc_ast::tree::{Declarator, Expr, Stmt};
use cc_fold::{plan, rewrite};
use sqlite_items::{Boxed, Items};
use std::alloc::Global;
use std::fmt::Write;
use std::mem;

/// A line of trees.
#[derive(Clone, Copy)]
pub enum TreeLine {
    Declare,
    Scope,
    Fold,
    CopyScope,
    CopyProgram,
}

fn make_declarator(variable: &str, tree: Boxed<Expr>) -> Option<Declarator> {
    let Some((variable, site)) = sited(variable) else {
        return None;
    };
    match make_ref(variable) {
        Some(variable) => Some(Declarator {
            site,
            variable,
            value: Some(tree),
        }),
        None => None,
    }
}

fn alone(alloc: Global, declarator: Declarator) -> Option<Items<Declarator>> {
    let mut declarators = Items::new(alloc);
    match declarators.push(declarator) {
        Ok(()) => Some(declarators),
        Err(_) => None,
    }
}

fn declare(machine: &mut Machine, words: &[&str]) -> Option<()> {
    let Some(site) = number_at(words, 1) else {
        return None;
    };
    let Some(variable) = word_at(words, 2) else {
        return None;
    };
    let Some(tree) = machine.trees.read(machine.alloc, words, 3) else {
        return None;
    };
    let Some(declarator) = make_declarator(variable, tree) else {
        return None;
    };
    match alone(machine.alloc, declarator) {
        Some(declarators) => machine.parts.body.push(Stmt::Var(site, declarators)).ok(),
        None => None,
    }
}

fn make_scope(alloc: Global, params: u32, doc: u32, body: Items<Stmt>) -> Option<Scope> {
    match Shared::new(alloc, body) {
        Ok(body) => Some(Scope {
            params,
            names: 0,
            own: false,
            body,
            parent: None,
            doc,
        }),
        Err(_) => None,
    }
}

// A scope of the statements that were read.
fn push_scope(machine: &mut Machine, params: u32, doc: u32) -> Option<()> {
    let body = mem::replace(&mut machine.parts.body, Items::new(machine.alloc));
    match make_scope(machine.alloc, params, doc, body) {
        Some(scope) => machine.tables.scopes.push(scope).ok(),
        None => None,
    }
}

fn scope(machine: &mut Machine, words: &[&str]) -> Option<()> {
    match (number_at(words, 1), number_at(words, 2)) {
        (Some(params), Some(doc)) => push_scope(machine, params, doc),
        _ => None,
    }
}

// A scope of one parameter and this statement.
fn make_simple(alloc: Global, tree: Boxed<Expr>) -> Option<Scope> {
    let mut body = Items::new(alloc);
    match body.push(Stmt::Simple(10, tree)) {
        Ok(()) => make_scope(alloc, 1, 0, body),
        Err(_) => None,
    }
}

fn folded(alloc: Global, program: &Program, scope: &Scope) -> Option<Scope> {
    match plan(alloc, program) {
        Ok(plan) => rewrite(alloc, &plan, 0, scope).ok(),
        Err(_) => None,
    }
}

fn tell_folded(alloc: Global, out: &mut String, program: &Program, scope: &Scope) -> Option<()> {
    match folded(alloc, program, scope) {
        Some(scope) => tell_stmts(alloc, out, scope.body.get().as_slice()),
        None => None,
    }
}

fn fold(machine: &mut Machine, words: &[&str]) -> Option<()> {
    let Some(tree) = machine.trees.read(machine.alloc, words, 1) else {
        return None;
    };
    let Some(scope) = make_simple(machine.alloc, tree) else {
        return None;
    };
    match &machine.program {
        Some(program) => tell_folded(machine.alloc, &mut machine.out, program, &scope),
        None => None,
    }
}

fn tell_copy(alloc: Global, out: &mut String, scope: &Scope) -> Option<()> {
    match copy_scope(scope) {
        Ok(copy) => tell_stmts(alloc, out, copy.body.get().as_slice()),
        Err(_) => None,
    }
}

fn scope_copy(machine: &mut Machine, words: &[&str]) -> Option<()> {
    let (Some(at), Some(program)) = (place_at(words, 1), &machine.program) else {
        return None;
    };
    match program.scopes.get(at) {
        Some(scope) => tell_copy(machine.alloc, &mut machine.out, scope),
        None => None,
    }
}

// How many scopes, chunks, globals, properties, kept names, classes, places and docs there are.
fn tell_counts(out: &mut String, program: &Program) -> Option<()> {
    let counts = [
        program.scopes.len(),
        program.chunks.get().len(),
        program.globals.get().len(),
        program.props.get().len(),
        program.kept.get().len(),
        program.classes.get().len(),
        program.places.get().len(),
        program.docs.get().len(),
    ];
    writeln!(out, "  {counts:?}").ok()
}

fn tell_program(alloc: Global, out: &mut String, program: &Program) -> Option<()> {
    match copy_program(alloc, program) {
        Ok(copy) => tell_counts(out, &copy),
        Err(_) => None,
    }
}

fn program_copy(machine: &mut Machine) -> Option<()> {
    match &machine.program {
        Some(program) => tell_program(machine.alloc, &mut machine.out, program),
        None => None,
    }
}

pub fn tree_line(machine: &mut Machine, line: TreeLine, words: &[&str]) -> Option<()> {
    match line {
        TreeLine::Declare => declare(machine, words),
        TreeLine::Scope => scope(machine, words),
        TreeLine::Fold => fold(machine, words),
        TreeLine::CopyScope => scope_copy(machine, words),
        TreeLine::CopyProgram => program_copy(machine),
    }
}
