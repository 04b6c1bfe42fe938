// Literals of trees, and of values.
ghost use Rattle.std.specs.Option.{option_map};
ghost use Rattle.std.specs.Prelude.{◌≡◌, IfOk, Some, None, if◌then◌else◌};
ghost use Rattle.cc_ast.specs.Bridge.{term};
ghost use Rattle.cc_ast.specs.Syntax.{lit};
ghost use Rattle.cc_ast.specs.Syntax as tree;
ghost use Rattle.cc_value.specs.Bridge.{value_of};
ghost use Rattle.cc_fold.specs.Fold.{literal, literal_at};
ghost use Rattle.cc_fold.specs.Literals.{literal_of, lit_of};

use crate::literal::Literal;
use crate::price::{price, unmarked};
use cc_ast::copy::CopyOf;
use cc_ast::tree::Expr;
use cc_value::value::Value;
use sqlite_items::Boxed;
use std::alloc::{AllocError, Global};

/// The greatest whole number that stays apart from its neighbours (ECMA-262 5.1, 8.5).
pub const GREATEST_WHOLE: u64 = 9_007_199_254_740_991;

/// The literal that the expression is, where it is one.
#[tactic(auto, unfolding(crate::specs::Fold::literal))]
pub fn literal_in(alloc: Global, e: &Expr) -> Result<Option<Literal>, AllocError>
    ensures { IfOk result (λ l. option_map literal_of l ≡ literal (term e.now)) }
{
    literal_under(alloc, price(e), unmarked(e))
}

// The literal under a mark with this price.
#[tactic(auto, using(cc_ast::specs::Terms::steps), unfolding(crate::specs::Fold::literal_at))]
fn literal_under(alloc: Global, price: u64, e: &Expr) -> Result<Option<Literal>, AllocError>
    ensures { IfOk result (λ l. option_map literal_of l ≡ literal_at price (term e.now)) }
{
    match e {
        Expr::Undefined(_) => Ok(Some(Literal {
            price,
            value: Value::Undefined,
        })),
        Expr::Null(_) => Ok(Some(Literal {
            price,
            value: Value::Null,
        })),
        Expr::Truth(_, b) => Ok(Some(Literal {
            price,
            value: Value::Truth(*b),
        })),
        Expr::Whole(_, z) => Ok(whole(price, *z)),
        Expr::Text(_, units) => Ok(Some(Literal {
            price,
            value: Value::Text(units.copy_of(alloc)?),
        })),
        _ => Ok(None),
    }
}

fn whole(price: u64, z: i64) -> Option<Literal>
    ensures { option_map literal_of result ≡ literal_at price (lit 0 (tree.whole z)) }
{
    if z.unsigned_abs() <= GREATEST_WHOLE {
        Some(Literal {
            price,
            value: Value::Whole(z),
        })
    } else {
        None
    }
}

/// The literal of a value that is no object.
#[tactic(auto, using(cc_ast::specs::Terms::steps))]
pub fn literal_expr(
    alloc: Global,
    site: u32,
    value: Value,
) -> Result<Option<Boxed<Expr>>, AllocError>
    ensures { IfOk result (λ e. option_map term e ≡ lit_of site (value_of value)) }
{
    match value {
        Value::Undefined => present(alloc, Expr::Undefined(site)),
        Value::Null => present(alloc, Expr::Null(site)),
        Value::Truth(b) => present(alloc, Expr::Truth(site, b)),
        Value::Whole(z) => present(alloc, Expr::Whole(site, z)),
        Value::Text(units) => present(alloc, Expr::Text(site, units)),
        Value::Object(_) => Ok(None),
        Value::Outside(_) => Ok(None),
    }
}

fn present(alloc: Global, e: Expr) -> Result<Option<Boxed<Expr>>, AllocError>
    ensures { IfOk result (λ b. b ≡ Some e) }
{
    Ok(Some(Boxed::new(alloc, e)?))
}
