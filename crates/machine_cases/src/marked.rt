// Words with the site of what they stand for behind them, as in `6@9`; no site is site 0.

use crate::words::{number, pair};
use cc_ast::tree::{Expr, Ref};
use std::alloc::AllocError;
use std::fmt::Write;

/// A word, and the site behind it.
pub fn sited(word: &str) -> Option<(&str, u32)> {
    match word.rsplit_once('@') {
        Some((word, site)) => match number(site) {
            Some(site) => Some((word, site)),
            None => None,
        },
        None => Some((word, 0)),
    }
}

fn ref_of(kind: &str, first: u32, second: u32) -> Option<Ref> {
    match kind {
        "local" => Some(Ref::Frame(first, second)),
        "global" => Some(Ref::Global(first)),
        _ => None,
    }
}

/// A variable of a tree: `local:FRAME:PLACE`, or `global:NUMBER`.
pub fn make_ref(word: &str) -> Option<Ref> {
    let Some((kind, rest)) = word.split_once(':') else {
        return None;
    };
    match pair(rest) {
        Some((first, second)) => ref_of(kind, first, second),
        None => None,
    }
}

/// The site of a tree.
pub fn site_of(e: &Expr) -> u32 {
    match e {
        Expr::Undefined(s) => *s,
        Expr::Null(s) => *s,
        Expr::Truth(s, _) => *s,
        Expr::Whole(s, _) => *s,
        Expr::Text(s, _) => *s,
        Expr::Var(s, _) => *s,
        Expr::This(s) => *s,
        Expr::Fun(s, _) => *s,
        Expr::List(s, _) => *s,
        Expr::Object(s, _) => *s,
        Expr::Unary(s, _, _) => *s,
        Expr::Binary(s, _, _, _) => *s,
        Expr::And(s, _, _) => *s,
        Expr::Or(s, _, _) => *s,
        Expr::Cond(s, _, _, _) => *s,
        Expr::Assign(s, _, _, _) => *s,
        Expr::Step(s, _, _, _) => *s,
        Expr::Member(s, _, _) => *s,
        Expr::Index(s, _, _) => *s,
        Expr::Call(s, _, _) => *s,
        Expr::New(s, _, _) => *s,
        Expr::Comma(s, _, _) => *s,
        Expr::Cast(s, _, _) => *s,
        Expr::Tick(s, _, _) => *s,
    }
}

/// Appends the site of what stands before it.
pub fn push_site(out: &mut String, site: u32) -> Result<(), AllocError> {
    if site == 0 {
        return Ok(());
    }
    write!(out, "@{site}")
}

/// Appends a variable.
pub fn push_ref(out: &mut String, variable: Ref) -> Result<(), AllocError> {
    match variable {
        Ref::Frame(frame, place) => write!(out, "local:{frame}:{place}"),
        Ref::Global(number) => write!(out, "global:{number}"),
    }
}
