//! How long a phase takes under claims: makes a program of as many small functions as its first
//! argument says, and prints the microseconds in which one worker does its first phase and closes it.
#![tactic(auto)]

ghost use Rattle.std.specs.Prelude.{◌≡◌, ℕ, ◌+◌, ◌<◌, ◌^◌, IfOk, length};
ghost use Rattle.cc_clear.specs.Clear.{NoDocs};
ghost use Rattle.cc_core.specs.State.{started};

use cc_ast::operator::BinOp;
use cc_ast::program::{Heads, Program, Scope};
use cc_ast::shared::Shared;
use cc_ast::tree::{Expr, Ref, Stmt};
use cc_clear::clear::Clear;
use cc_core::alone::work_alone;
use cc_core::shop::{CloseFault, Shop};
use sqlite_items::{Boxed, Items};
use std::alloc::{AllocError, Global};
use std::time::{Duration, Instant};
use std::{env, io};

// A sum of a parameter and a number.
fn a_sum(alloc: Global) -> Result<Boxed<Expr>, AllocError> {
    let left = Boxed::new(alloc, Expr::Var(0, Ref::Frame(0, 0)))?;
    let right = Boxed::new(alloc, Expr::Whole(0, 1))?;
    Boxed::new(alloc, Expr::Binary(0, BinOp::Add, left, right))
}

fn a_body(alloc: Global) -> Result<Shared<Items<Stmt>>, AllocError> {
    let sum = a_sum(alloc)?;
    let mut body = Items::new(alloc);
    body.push(Stmt::Return(0, Some(sum)))?;
    Shared::new(alloc, body)
}

// A function that returns the sum.
fn a_scope(alloc: Global) -> Result<Scope, AllocError>
    ensures { IfOk result (λ made. made.doc ≡ 0) }
{
    Ok(Scope {
        params: 1,
        names: 0,
        own: false,
        body: a_body(alloc)?,
        parent: None,
        doc: 0,
    })
}

fn scopes(alloc: Global, count: u32) -> Result<Items<Scope>, AllocError>
    ensures no_docs { IfOk result (λ made. NoDocs made) }
    ensures length { IfOk result (λ made. length made ≡ count) }
{
    let mut made = Items::new(alloc);
    for _at in 0..count {
        made.push(a_scope(alloc)?)?;
    }
    Ok(made)
}

fn none<T: Drop>(alloc: Global) -> Result<Shared<Items<T>>, AllocError> {
    Shared::new(alloc, Items::new(alloc))
}

fn no_heads(alloc: Global) -> Result<Heads, AllocError> {
    let Ok(globals) = none(alloc) else {
        return Err(AllocError);
    };
    let Ok(props) = none(alloc) else {
        return Err(AllocError);
    };
    let Ok(classes) = none(alloc) else {
        return Err(AllocError);
    };
    let Ok(docs) = none(alloc) else {
        return Err(AllocError);
    };
    Ok(Heads {
        globals,
        props,
        classes,
        docs,
    })
}

// The program of these scopes, with empty tables.
fn with_scopes(alloc: Global, scopes: Items<Scope>) -> Result<Program, AllocError>
    ensures { IfOk result (λ made. made.scopes ≡ scopes) }
{
    let Ok(chunks) = none(alloc) else {
        return Err(AllocError);
    };
    let Ok(kept) = none(alloc) else {
        return Err(AllocError);
    };
    let Ok(places) = none(alloc) else {
        return Err(AllocError);
    };
    let Ok(heads) = no_heads(alloc) else {
        return Err(AllocError);
    };
    let Heads {
        globals,
        props,
        classes,
        docs,
    } = heads;
    Ok(Program {
        scopes,
        chunks,
        globals,
        props,
        kept,
        classes,
        places,
        docs,
    })
}

fn a_program(alloc: Global, count: u32) -> Result<Program, AllocError>
    ensures no_docs { IfOk result (λ made. NoDocs made.scopes) }
    ensures length { IfOk result (λ made. length made.scopes ≡ count) }
{
    let scopes = scopes(alloc, count)?;
    with_scopes(alloc, scopes)
}

fn a_shop(alloc: Global, count: u32) -> Result<Shop<Clear>, AllocError>
    ensures { IfOk result (λ shop. (program : _) × (shop ≡ record { rules = record {}; state = started program })) }
{
    Shop::begin(alloc, Clear, a_program(alloc, count)?)
}

/// Does the first phase and closes it, a second time where the first found no memory, since that
/// leaves all as it was; says whether a phase follows.
fn phase(shop: &mut Shop<Clear>) -> Result<bool, AllocError>
    requires { (program : _) × (shop.old ≡ record { rules = record {}; state = started program }) }
{
    work_alone(shop)?;
    Ok(match shop.close() {
        Err(CloseFault::Memory) => matches!(shop.close(), Ok(true)),
        closed => matches!(closed, Ok(true)),
    })
}

// The number that the first argument says.
fn count_asked(rt: &HostRuntime) -> io::Result<Option<u32>> {
    let mut args = env::args(rt)?;
    let _program = args.next();
    let Some(word) = args.next() else {
        return Ok(None);
    };
    Ok(word.as_str().parse::<u32>().ok())
}

// The time that the first phase takes, and whether another follows.
fn timed(rt: &HostRuntime, shop: &mut Shop<Clear>) -> io::Result<(Duration, bool)>
    requires { (program : _) × (shop.old ≡ record { rules = record {}; state = started program }) }
{
    let start = Instant::now(rt)?;
    let follows = phase(shop)?;
    Ok((start.elapsed(rt)?, follows))
}

fn timed_for(rt: &HostRuntime, count: u32) -> io::Result<(Duration, bool)> {
    let mut shop = a_shop(rt.alloc(), count)?;
    timed(rt, &mut shop)
}

fn main(rt: HostRuntime) -> io::Result<()> {
    let Some(count) = count_asked(&rt)? else {
        return println!(rt; "how many scopes?");
    };
    let (spent, follows) = timed_for(&rt, count)?;
    let micros = spent.as_micros();
    println!(rt; "{count} scopes, {micros} us, {follows}")
}
