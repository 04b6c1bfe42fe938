// Trees are printed as they are read, with a space before each part. What can't be read of words is
// `another`.

use crate::marked::{push_ref, push_site, site_of};
use crate::names::{binary_name, unary_name};
use crate::values::push_text;
use cc_ast::tree::{Declarator, Expr, Stmt};
use std::alloc::{AllocError, Global};
use std::fmt::Write;

/// A tree of more parts isn't printed.
const MOST_PARTS: u32 = 1_000_000;

// What is still to print.
#[derive(Clone, Copy)]
enum Task<'a> {
    Tree(&'a Expr),
    Close,
}

// What stands before the tree's own number, text or variable.
fn name_of(e: &Expr) -> &'static str {
    match e {
        Expr::Undefined(_) => "undefined",
        Expr::Null(_) => "null",
        Expr::Truth(_, true) => "true",
        Expr::Truth(_, false) => "false",
        Expr::Whole(_, _) | Expr::Text(_, _) | Expr::Var(_, _) => "",
        Expr::Unary(_, op, _) => unary_name(*op),
        Expr::Binary(_, op, _, _) => binary_name(*op),
        Expr::And(_, _, _) => "and",
        Expr::Or(_, _, _) => "or",
        Expr::Cond(_, _, _, _) => "cond",
        Expr::Member(_, _, _) => ".",
        Expr::Call(_, _, _) => "call",
        Expr::Tick(_, _, _) => "tick",
        _ => "another",
    }
}

// The first, the second and the third operand. A call that was read has no arguments.
fn operands_of(e: &Expr) -> (Option<&Expr>, Option<&Expr>, Option<&Expr>) {
    match e {
        Expr::Unary(_, _, a) => (Some(a.get()), None, None),
        Expr::Tick(_, _, a) => (Some(a.get()), None, None),
        Expr::Member(_, a, _) => (Some(a.get()), None, None),
        Expr::Call(_, a, _) => (Some(a.get()), None, None),
        Expr::Binary(_, _, a, b) => (Some(a.get()), Some(b.get()), None),
        Expr::And(_, a, b) => (Some(a.get()), Some(b.get()), None),
        Expr::Or(_, a, b) => (Some(a.get()), Some(b.get()), None),
        Expr::Cond(_, a, b, c) => (Some(a.get()), Some(b.get()), Some(c.get())),
        _ => (None, None, None),
    }
}

fn push_own(out: &mut String, e: &Expr) -> Result<(), AllocError> {
    match e {
        Expr::Whole(_, z) => write!(out, "{z}"),
        Expr::Text(_, units) => push_text(out, units),
        Expr::Var(_, variable) => push_ref(out, *variable),
        Expr::Member(_, _, prop) => write!(out, ":{prop}"),
        Expr::Tick(_, price, _) => write!(out, ":{price}"),
        _ => Ok(()),
    }
}

// The tree's name, what it has itself, and its site.
fn push_head(out: &mut String, e: &Expr) -> Result<(), AllocError> {
    out.push_str(name_of(e))?;
    push_own(out, e)?;
    push_site(out, site_of(e))
}

fn push_task<'a>(tasks: &mut Vec<Task<'a>>, operand: Option<&'a Expr>) -> bool {
    match operand {
        Some(e) => tasks.push(Task::Tree(e)).is_ok(),
        None => true,
    }
}

// Leaves the operands to print, the first one last.
fn push_operands<'a>(tasks: &mut Vec<Task<'a>>, e: &'a Expr) -> bool {
    let (first, second, third) = operands_of(e);
    push_task(tasks, third) && push_task(tasks, second) && push_task(tasks, first)
}

// What begins a tree, and what ends it where it stands in brackets.
fn open(out: &mut String, tasks: &mut Vec<Task<'_>>, in_brackets: bool) -> bool {
    if in_brackets {
        out.push_str(" (").is_ok() && tasks.push(Task::Close).is_ok()
    } else {
        out.push(' ').is_ok()
    }
}

fn push_node<'a>(out: &mut String, tasks: &mut Vec<Task<'a>>, e: &'a Expr) -> bool {
    open(out, tasks, operands_of(e).0.is_some())
        && push_operands(tasks, e)
        && push_head(out, e).is_ok()
}

// Prints what is left, a part at a time.
fn push_tasks(out: &mut String, tasks: &mut Vec<Task<'_>>) -> Option<()> {
    for _ in 0..MOST_PARTS {
        let is_printed = match tasks.pop() {
            Some(Task::Tree(e)) => push_node(out, tasks, e),
            Some(Task::Close) => out.push(')').is_ok(),
            None => return Some(()),
        };
        if !is_printed {
            return None;
        }
    }
    None
}

fn push_tree(alloc: Global, out: &mut String, tree: &Expr) -> Option<()> {
    let mut tasks = Vec::new(alloc);
    match tasks.push(Task::Tree(tree)) {
        Ok(()) => push_tasks(out, &mut tasks),
        Err(_) => None,
    }
}

// A variable and its site.
fn push_variable(out: &mut String, declarator: &Declarator) -> Result<(), AllocError> {
    out.push(' ')?;
    push_ref(out, declarator.variable)?;
    push_site(out, declarator.site)
}

// A variable of a `var`, with its value where it has one.
fn push_declarator(alloc: Global, out: &mut String, declarator: &Declarator) -> Option<()> {
    if push_variable(out, declarator).is_err() {
        return None;
    }
    match &declarator.value {
        Some(value) => push_tree(alloc, out, value.get()),
        None => Some(()),
    }
}

fn push_declarators(alloc: Global, out: &mut String, declarators: &[Declarator]) -> Option<()> {
    for declarator in declarators {
        if push_declarator(alloc, out, declarator).is_none() {
            return None;
        }
    }
    Some(())
}

fn push_name(out: &mut String, name: &str, site: u32) -> Result<(), AllocError> {
    write!(out, "  {name}")?;
    push_site(out, site)
}

fn stmt_name(stmt: &Stmt) -> (&'static str, u32) {
    match stmt {
        Stmt::Simple(s, _) => ("simple", *s),
        Stmt::Var(s, _) => ("declare", *s),
        _ => ("another", 0),
    }
}

fn push_parts(alloc: Global, out: &mut String, stmt: &Stmt) -> Option<()> {
    match stmt {
        Stmt::Simple(_, e) => push_tree(alloc, out, e.get()),
        Stmt::Var(_, declarators) => push_declarators(alloc, out, declarators.as_slice()),
        _ => Some(()),
    }
}

fn tell_stmt(alloc: Global, out: &mut String, stmt: &Stmt) -> Option<()> {
    let (name, site) = stmt_name(stmt);
    if push_name(out, name, site).is_err() || push_parts(alloc, out, stmt).is_none() {
        return None;
    }
    out.push('\n').ok()
}

/// Statements, each in a line.
pub fn tell_stmts(alloc: Global, out: &mut String, body: &[Stmt]) -> Option<()> {
    for stmt in body {
        if tell_stmt(alloc, out, stmt).is_none() {
            return None;
        }
    }
    Some(())
}
