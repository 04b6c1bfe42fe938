// Nodes, each boxed as it is made.
ghost use Rattle.std.specs.Prelude.{◌≡◌, IfOk};

use cc_ast::operator::{BinOp, UnOp};
use cc_ast::tree::Expr;
use cc_ast::units::Units;
use sqlite_items::Boxed;
use std::alloc::{AllocError, Global};

pub fn text(alloc: Global, site: u32, units: Units) -> Result<Boxed<Expr>, AllocError>
    ensures { IfOk result (λ e. e ≡ Expr.Text site units) }
{
    Boxed::new(alloc, Expr::Text(site, units))
}

pub fn unary(
    alloc: Global,
    site: u32,
    op: UnOp,
    operand: Boxed<Expr>,
) -> Result<Boxed<Expr>, AllocError>
    ensures { IfOk result (λ e. e ≡ Expr.Unary site op operand) }
{
    Boxed::new(alloc, Expr::Unary(site, op, operand))
}

pub fn binary(
    alloc: Global,
    site: u32,
    op: BinOp,
    left: Boxed<Expr>,
    right: Boxed<Expr>,
) -> Result<Boxed<Expr>, AllocError>
    ensures { IfOk result (λ e. e ≡ Expr.Binary site op left right) }
{
    Boxed::new(alloc, Expr::Binary(site, op, left, right))
}

pub fn and(
    alloc: Global,
    site: u32,
    left: Boxed<Expr>,
    right: Boxed<Expr>,
) -> Result<Boxed<Expr>, AllocError>
    ensures { IfOk result (λ e. e ≡ Expr.And site left right) }
{
    Boxed::new(alloc, Expr::And(site, left, right))
}

pub fn or(
    alloc: Global,
    site: u32,
    left: Boxed<Expr>,
    right: Boxed<Expr>,
) -> Result<Boxed<Expr>, AllocError>
    ensures { IfOk result (λ e. e ≡ Expr.Or site left right) }
{
    Boxed::new(alloc, Expr::Or(site, left, right))
}

pub fn cond(
    alloc: Global,
    site: u32,
    test: Boxed<Expr>,
    yes: Boxed<Expr>,
    no: Boxed<Expr>,
) -> Result<Boxed<Expr>, AllocError>
    ensures { IfOk result (λ e. e ≡ Expr.Cond site test yes no) }
{
    Boxed::new(alloc, Expr::Cond(site, test, yes, no))
}
