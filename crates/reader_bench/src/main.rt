//! What the reader answers, and how long it takes: prints for each file that its arguments name its
//! bytes, what reading it answers, and the microseconds that its tokens and the reader took. Without
//! a file it prints how many bytes a token and the nodes of the trees take.
#![tactic(auto)]

use cc_ast::place::Place;
use cc_ast::reading::{LimitKind, Refusal};
use cc_ast::tree::Stmt;
use cc_lexer::token::Token;
use cc_raw::tree::{RawExpr, RawStmt};
use cc_stmt::{Tree, read_source};
use std::alloc::{AllocError, Global};
use std::fmt::Write;
use std::time::Instant;
use std::{env, fs, io};

fn push_place(out: &mut String, place: Place) -> Result<(), AllocError> {
    let line = place.line;
    let column = place.column;
    write!(out, " {line}:{column}")
}

fn push_refusal(out: &mut String, refusal: &Refusal) -> Result<(), AllocError> {
    match refusal {
        Refusal::Syntax { place } => {
            out.push_str("syntax")?;
            push_place(out, *place)
        }
        Refusal::Refused { kind, place } => {
            write!(out, "refused {kind:?}")?;
            push_place(out, *place)
        }
        Refusal::Limit {
            kind: LimitKind::Depth,
            place,
        } => {
            out.push_str("depth")?;
            push_place(out, *place)
        }
        Refusal::NotUtf8 { file: _, byte } => write!(out, "not utf-8 at {byte}"),
        Refusal::Memory => out.push_str("memory"),
        _ => out.push_str("another"),
    }
}

// What reading answers.
fn outcome(alloc: Global, answer: &Result<Tree, Refusal>) -> Result<String, AllocError> {
    let mut out = String::new(alloc);
    match answer {
        Ok(_) => out.push_str("ok")?,
        Err(refusal) => push_refusal(&mut out, refusal)?,
    }
    Ok(out)
}

fn time(rt: &HostRuntime, name: &str) -> io::Result<()> {
    let bytes = fs::read(rt, name)?;
    let size = bytes.len();
    if size > 16_777_216 {
        return println!(rt; "{size} bytes, too long");
    }
    let start = Instant::now(rt)?;
    let answer = read_source(rt.alloc(), &bytes, 0);
    let spent = start.elapsed(rt)?;
    let outcome = outcome(rt.alloc(), &answer)?;
    let micros = spent.as_micros();
    println!(rt; "{size} bytes, {outcome}, {micros} us")
}

// A tree holds many nodes, so they are small.
fn sizes(rt: &HostRuntime) -> io::Result<()> {
    let token = size_of::<Token<'_>>();
    let raw_expr = size_of::<RawExpr>();
    let raw_stmt = size_of::<RawStmt>();
    let stmt = size_of::<Stmt>();
    println!(rt; "bytes: Token {token}, RawExpr {raw_expr}, RawStmt {raw_stmt}, Stmt {stmt}")
}

fn main(rt: HostRuntime) -> io::Result<()> {
    let mut args = env::args(&rt)?;
    let _program = args.next();
    let mut named = false;
    for name in args {
        named = true;
        time(&rt, name.as_str())?;
    }
    if named {
        return Ok(());
    }
    sizes(&rt)
}
