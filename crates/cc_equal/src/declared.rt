// Whether declarators, and what a `for` begins with, are the same.
ghost use Rattle.std.specs.Prelude.{◌≡◌, ◌↔◌, IsTrue};

use crate::expression::{same_boxed, same_boxed_target};
use crate::parts::same_units;
use cc_ast::tree::{Declarator, Expr, ForInit, ForTarget};
use cc_ast::units::Units;
use sqlite_items::{Boxed, Items};

pub(crate) fn same_option(a: &Option<Boxed<Expr>>, b: &Option<Boxed<Expr>>) -> bool
    ensures { IsTrue result ↔ (a.now ≡ b.now) }
{
    match a {
        None => b.is_none(),
        Some(e) => match b {
            None => false,
            Some(f) => same_boxed(e, f),
        },
    }
}

pub(crate) fn same_jump_label(a: &Option<Units>, b: &Option<Units>) -> bool
    ensures { IsTrue result ↔ (a.now ≡ b.now) }
{
    match a {
        None => b.is_none(),
        Some(t) => match b {
            None => false,
            Some(u) => same_units(t, u),
        },
    }
}

fn same_declarator(a: &Declarator, b: &Declarator) -> bool
    ensures { IsTrue result ↔ (a.now ≡ b.now) }
{
    a.site == b.site && a.variable == b.variable && same_option(&a.value, &b.value)
}

pub(crate) fn same_declarators(a: &Items<Declarator>, b: &Items<Declarator>) -> bool
    ensures { IsTrue result ↔ (a.now ≡ b.now) }
{
    let others = b.as_slice();
    if a.len() != others.len() {
        return false;
    }
    let mut i = 0;
    for e in a.as_slice() {
        if !same_declarator(e, &others[i]) {
            return false;
        }
        i += 1;
    }
    true
}

pub(crate) fn same_init(a: &ForInit, b: &ForInit) -> bool
    ensures { IsTrue result ↔ (a.now ≡ b.now) }
{
    match a {
        ForInit::Nothing => matches!(b, ForInit::Nothing),
        ForInit::Value(e) => match b {
            ForInit::Value(f) => same_boxed(e, f),
            _ => false,
        },
        ForInit::Declared(ds) => match b {
            ForInit::Declared(es) => same_declarators(ds, es),
            _ => false,
        },
    }
}

pub(crate) fn same_for_target(a: &ForTarget, b: &ForTarget) -> bool
    ensures { IsTrue result ↔ (a.now ≡ b.now) }
{
    match a {
        ForTarget::Target(t) => match b {
            ForTarget::Target(u) => same_boxed_target(t, u),
            ForTarget::Declared(_) => false,
        },
        ForTarget::Declared(d) => match b {
            ForTarget::Target(_) => false,
            ForTarget::Declared(e) => same_declarator(d.get(), e.get()),
        },
    }
}
