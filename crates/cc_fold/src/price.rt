// The price before an expression.
ghost use Rattle.std.specs.Prelude.{◌≡◌, ◌+◌, ◌^◌, ◌<◌, ◌↔◌, IfOk, IsTrue};
ghost use Rattle.cc_ast.specs.Bridge.{term};
ghost use Rattle.cc_fold.specs.Fold.{marked, price_of, unmarked};

use cc_ast::tree::Expr;
use sqlite_items::Boxed;
use std::alloc::{AllocError, Global};

/// The price of the mark round it, and 0 where there is none.
#[tactic(auto, using(cc_ast::specs::Terms::steps), unfolding(crate::specs::Fold::price_of))]
pub fn price(e: &Expr) -> u64
    ensures { result ≡ price_of (term e.now) }
{
    match e {
        Expr::Tick(_, price, _) => *price,
        _ => 0,
    }
}

/// What the mark stands round.
#[tactic(auto, using(cc_ast::specs::Terms::steps), unfolding(crate::specs::Fold::unmarked))]
pub fn unmarked(e: &Expr) -> &Expr
    ensures { term result.now ≡ unmarked (term e.now) }
{
    match e {
        Expr::Tick(_, _, inner) => inner.get(),
        _ => e,
    }
}

/// Whether the expression may have a further price before it.
pub fn fits(further: u64, e: &Expr) -> bool
    ensures { IsTrue result ↔ (further + price_of (term e.now) < 2 ^ 64) }
{
    further <= u64::MAX - price(e)
}

/// The expression with a further price before it.
#[tactic(auto, using(cc_ast::specs::Terms::steps, crate::proofs::Prices::marked_nothing, crate::proofs::Prices::marked_more))]
pub fn charge(
    alloc: Global,
    site: u32,
    further: u64,
    e: Boxed<Expr>,
) -> Result<Boxed<Expr>, AllocError>
    requires { further + price_of (term e) < 2 ^ 64 }
    ensures { IfOk result (λ r. term r ≡ marked site further (term e)) }
{
    if further == 0 {
        return Ok(e);
    }
    let total = further + price(e.get());
    let inner = without_mark(alloc, e)?;
    Boxed::new(alloc, Expr::Tick(site, total, inner))
}

// What the mark stands round, by value.
#[tactic(auto, using(cc_ast::specs::Terms::steps), unfolding(crate::specs::Fold::unmarked))]
fn without_mark(alloc: Global, e: Boxed<Expr>) -> Result<Boxed<Expr>, AllocError>
    ensures { IfOk result (λ c. term c ≡ unmarked (term e)) }
{
    match e.into_inner() {
        Expr::Tick(_, _, inner) => Ok(inner),
        other => Boxed::new(alloc, other),
    }
}
