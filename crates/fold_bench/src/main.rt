//! How long folding takes: makes a program of as many small functions as its first argument says,
//! and prints the microseconds in which the plan is made and every scope is rewritten.
#![tactic(auto)]

use cc_ast::operator::BinOp;
use cc_ast::program::{Heads, Program, Scope};
use cc_ast::shared::Shared;
use cc_ast::tree::{Expr, Ref, Stmt};
use cc_fold::built::Plan;
use cc_fold::{plan, rewrite};
use sqlite_items::{Boxed, Items};
use std::alloc::{AllocError, Global};
use std::rt::{Clock, Env};
use std::time::Instant;
use std::{env, io};

fn whole(alloc: Global, number: i64) -> Result<Boxed<Expr>, AllocError> {
    Boxed::new(alloc, Expr::Whole(0, number))
}

fn sum(alloc: Global, left: Boxed<Expr>, right: Boxed<Expr>) -> Result<Boxed<Expr>, AllocError> {
    Boxed::new(alloc, Expr::Binary(0, BinOp::Add, left, right))
}

fn longer_sum(alloc: Global, left: Boxed<Expr>, number: i64) -> Result<Boxed<Expr>, AllocError> {
    let right = whole(alloc, number)?;
    sum(alloc, left, right)
}

// `1+2+3`.
fn numbers(alloc: Global) -> Result<Boxed<Expr>, AllocError> {
    let mut value = whole(alloc, 1)?;
    for number in 2..4 {
        value = longer_sum(alloc, value, number)?;
    }
    Ok(value)
}

// `1+2+3+a`, where a is the parameter.
fn a_value(alloc: Global) -> Result<Boxed<Expr>, AllocError> {
    let value = numbers(alloc)?;
    let parameter = Boxed::new(alloc, Expr::Var(0, Ref::Frame(0, 0)))?;
    sum(alloc, value, parameter)
}

// A function that returns it.
fn a_scope(alloc: Global) -> Result<Scope, AllocError> {
    let value = a_value(alloc)?;
    let mut body = Items::new(alloc);
    body.push(Stmt::Return(0, Some(value)))?;
    let body = Shared::new(alloc, body)?;
    Ok(Scope {
        params: 1,
        names: 0,
        own: false,
        body,
        parent: None,
        doc: 0,
    })
}

fn nothing<T: Drop>(alloc: Global) -> Result<Shared<Items<T>>, AllocError> {
    Shared::new(alloc, Items::new(alloc))
}

fn scopes(alloc: Global, count: u32) -> Result<Items<Scope>, AllocError> {
    let mut scopes = Items::new(alloc);
    for _at in 0..count {
        scopes.push(a_scope(alloc)?)?;
    }
    Ok(scopes)
}

fn heads(alloc: Global) -> Result<Heads, AllocError> {
    let Ok(globals) = nothing(alloc) else {
        return Err(AllocError);
    };
    let Ok(props) = nothing(alloc) else {
        return Err(AllocError);
    };
    let Ok(classes) = nothing(alloc) else {
        return Err(AllocError);
    };
    let Ok(docs) = nothing(alloc) else {
        return Err(AllocError);
    };
    Ok(Heads {
        globals,
        props,
        classes,
        docs,
    })
}

// A program of these scopes and heads, with no chunks.
fn with_scopes(alloc: Global, scopes: Items<Scope>, heads: Heads) -> Result<Program, AllocError> {
    let Ok(chunks) = nothing(alloc) else {
        return Err(AllocError);
    };
    let Ok(kept) = nothing(alloc) else {
        return Err(AllocError);
    };
    let Ok(places) = nothing(alloc) else {
        return Err(AllocError);
    };
    let Heads {
        globals,
        props,
        classes,
        docs,
    } = heads;
    Ok(Program {
        scopes,
        chunks,
        globals,
        props,
        kept,
        classes,
        places,
        docs,
    })
}

fn a_program(alloc: Global, count: u32) -> Result<Program, AllocError> {
    let scopes = scopes(alloc, count)?;
    let heads = heads(alloc)?;
    with_scopes(alloc, scopes, heads)
}

fn fold_all(
    alloc: Global,
    plan: &Plan,
    program: &Program,
    folded: &mut Items<Scope>,
) -> Result<(), AllocError> {
    for scope in program.scopes.as_slice() {
        folded.push(rewrite(alloc, plan, 0, scope)?)?;
    }
    Ok(())
}

// Makes the plan, and puts each scope, rewritten, behind those that are there.
fn fold(alloc: Global, program: &Program, folded: &mut Items<Scope>) -> Result<(), AllocError> {
    let plan = plan(alloc, program)?;
    fold_all(alloc, &plan, program, folded)
}

// The microseconds in which the program is folded.
fn time<R: AllocGlobal + Clock>(
    rt: &R,
    program: &Program,
    folded: &mut Items<Scope>,
) -> io::Result<u128> {
    let start = Instant::now(rt)?;
    fold(rt.alloc(), program, folded)?;
    let spent = start.elapsed(rt)?;
    Ok(spent.as_micros())
}

fn run<R: AllocGlobal + Clock + Print>(rt: &R, count: u32) -> io::Result<()> {
    let program = a_program(rt.alloc(), count)?;
    let mut folded = Items::new(rt.alloc());
    let micros = time(rt, &program, &mut folded)?;
    let made = folded.len();
    println!(rt; "{made} scopes, {micros} us")
}

// The number that is the only word.
fn count<R: AllocGlobal + Env>(rt: &R) -> io::Result<Option<u32>> {
    match env::args(rt)?.nth(1) {
        Some(word) => Ok(word.as_str().parse::<u32>().ok()),
        None => Ok(None),
    }
}

fn main(rt: HostRuntime) -> io::Result<()> {
    match count(&rt)? {
        Some(count) => run(&rt, count),
        None => println!(rt; "how many scopes?"),
    }
}
