// The trees of productions.

ghost use Rattle.std.specs.Prelude.{◌≡◌, map, IfOk, if◌then◌else◌};
ghost use Rattle.std.specs.Option.{option_map};
ghost use Rattle.cc_ast.specs.Syntax.{text};
ghost use Rattle.cc_grammar.specs.Signs as signs;
ghost use Rattle.cc_grammar.specs.RawTree as raw;
ghost use Rattle.cc_raw.specs.Bridge.{named, raw_expr, raw_stmt, raw_target};
ghost use Rattle.cc_cursor.specs.Meant as meant;
ghost use Rattle.cc_cursor.specs.Shown as shown;

use cc_ast::copy::CopyOf;
use cc_ast::operator::{BinOp, UnOp};
use cc_ast::place::Place;
use cc_ast::units::Units;
use cc_cursor::signs::{Infix, Leaf};
use cc_lexer::piece::Piece;
use cc_raw::tree::{Named, RawExpr, RawField, RawFunction, RawStmt, RawTarget};
use sqlite_items::{Boxed, Items};
use std::alloc::{AllocError, Global};

/// A variable.
#[tactic(auto, using(cc_raw::specs::Terms::raw_steps))]
pub fn variable(alloc: Global, place: Place, name: &Piece<'_>) -> Result<Boxed<RawExpr>, AllocError>
    ensures { IfOk result (λ e. raw_expr e ≡ raw.var place name.now) }
{
    let name = name.units(alloc)?;
    Boxed::new(alloc, RawExpr::Var(place, name))
}

#[tactic(auto, using(cc_raw::specs::Terms::raw_steps))]
fn text_tree(alloc: Global, place: Place, units: &Units) -> Result<Boxed<RawExpr>, AllocError>
    ensures { IfOk result (λ e. raw_expr e ≡ raw.lit place (text units.now)) }
{
    let units = units.copy_of(alloc)?;
    Boxed::new(alloc, RawExpr::Text(place, units))
}

/// A primary expression of one token.
#[tactic(auto, using(cc_raw::specs::Terms::raw_steps))]
pub fn leaf_tree(alloc: Global, leaf: Leaf<'_>, place: Place) -> Result<Boxed<RawExpr>, AllocError>
    ensures { IfOk result (λ e. raw_expr e ≡ meant.leaf_tree leaf.entry place) }
{
    match leaf {
        Leaf::This => Boxed::new(alloc, RawExpr::This(place)),
        Leaf::Null => Boxed::new(alloc, RawExpr::Null(place)),
        Leaf::Truth(truth) => Boxed::new(alloc, RawExpr::Truth(place, truth)),
        Leaf::Whole(number) => Boxed::new(alloc, RawExpr::Whole(place, number)),
        Leaf::Text(units) => text_tree(alloc, place, units),
        Leaf::Variable(name) => variable(alloc, place, name),
    }
}

/// What stands in parentheses, which leave no node, but behind an annotation comment.
#[tactic(auto, using(cc_raw::specs::Terms::raw_steps))]
pub fn parenthesised(
    alloc: Global,
    noted: bool,
    place: Place,
    e: Boxed<RawExpr>,
) -> Result<Boxed<RawExpr>, AllocError>
    ensures { IfOk result (λ r. raw_expr r ≡ (if noted then raw.cast place (raw_expr e) else raw_expr e)) }
{
    if noted {
        Boxed::new(alloc, RawExpr::Cast(place, e))
    } else {
        Ok(e)
    }
}

/// An array literal.
#[tactic(auto, using(cc_raw::specs::Terms::raw_steps, crate::proofs::TreeLemmas::exprs_shown))]
pub fn list(
    alloc: Global,
    place: Place,
    items: Items<RawExpr>,
) -> Result<Boxed<RawExpr>, AllocError>
    ensures { IfOk result (λ r. raw_expr r ≡ raw.list place (raw.exprs (map raw_expr items))) }
{
    Boxed::new(alloc, RawExpr::List(place, items))
}

/// An object literal.
#[tactic(auto, using(cc_raw::specs::Terms::raw_steps, crate::proofs::TreeLemmas::fields_shown))]
pub fn object(
    alloc: Global,
    place: Place,
    fields: Items<RawField>,
) -> Result<Boxed<RawExpr>, AllocError>
    ensures { IfOk result (λ r. raw_expr r ≡ raw.object place (raw.fields (map shown.field fields))) }
{
    Boxed::new(alloc, RawExpr::Object(place, fields))
}

/// A function expression.
#[tactic(auto, using(cc_raw::specs::Terms::raw_steps, crate::proofs::TreeLemmas::stmts_shown))]
pub fn function(
    alloc: Global,
    place: Place,
    own: Option<Named>,
    params: Items<Named>,
    body: Items<RawStmt>,
) -> Result<Boxed<RawExpr>, AllocError>
    ensures { IfOk result (λ r. raw_expr r ≡ raw.fun place (option_map named own) (map named params) (raw.stmts (map raw_stmt body))) }
{
    let function = Boxed::new(alloc, RawFunction { own, params, body })?;
    Boxed::new(alloc, RawExpr::Fun(place, function))
}

/// A `new`.
#[tactic(auto, using(cc_raw::specs::Terms::raw_steps, crate::proofs::TreeLemmas::exprs_shown))]
pub fn new(
    alloc: Global,
    place: Place,
    callee: Boxed<RawExpr>,
    arguments: Items<RawExpr>,
) -> Result<Boxed<RawExpr>, AllocError>
    ensures { IfOk result (λ r. raw_expr r ≡ raw.new place (raw_expr callee) (raw.exprs (map raw_expr arguments))) }
{
    Boxed::new(alloc, RawExpr::New(place, callee, arguments))
}

/// A call.
#[tactic(auto, using(cc_raw::specs::Terms::raw_steps, crate::proofs::TreeLemmas::exprs_shown))]
pub fn call(
    alloc: Global,
    place: Place,
    callee: Boxed<RawExpr>,
    arguments: Items<RawExpr>,
) -> Result<Boxed<RawExpr>, AllocError>
    ensures { IfOk result (λ r. raw_expr r ≡ raw.call place (raw_expr callee) (raw.exprs (map raw_expr arguments))) }
{
    Boxed::new(alloc, RawExpr::Call(place, callee, arguments))
}

/// An access with a dot.
#[tactic(auto, using(cc_raw::specs::Terms::raw_steps))]
pub fn member(
    alloc: Global,
    place: Place,
    e: Boxed<RawExpr>,
    name_place: Place,
    name: Units,
) -> Result<Boxed<RawExpr>, AllocError>
    ensures { IfOk result (λ r. raw_expr r ≡ raw.member place (raw_expr e) name_place name) }
{
    Boxed::new(alloc, RawExpr::Member(place, e, name_place, name))
}

/// An access with brackets.
#[tactic(auto, using(cc_raw::specs::Terms::raw_steps))]
pub fn index(
    alloc: Global,
    place: Place,
    e: Boxed<RawExpr>,
    key: Boxed<RawExpr>,
) -> Result<Boxed<RawExpr>, AllocError>
    ensures { IfOk result (λ r. raw_expr r ≡ raw.index place (raw_expr e) (raw_expr key)) }
{
    Boxed::new(alloc, RawExpr::Index(place, e, key))
}

/// A `++` where `up` is true, else a `--`; before its operand where `prefix` is true.
#[tactic(auto, using(cc_raw::specs::Terms::raw_steps))]
pub fn step(
    alloc: Global,
    place: Place,
    up: bool,
    prefix: bool,
    target: Boxed<RawTarget>,
) -> Result<Boxed<RawExpr>, AllocError>
    ensures { IfOk result (λ r. raw_expr r ≡ raw.step place up prefix (raw_target target)) }
{
    Boxed::new(alloc, RawExpr::Step(place, up, prefix, target))
}

/// A unary operator before its operand.
#[tactic(auto, using(cc_raw::specs::Terms::raw_steps))]
pub fn unary(
    alloc: Global,
    place: Place,
    operator: UnOp,
    e: Boxed<RawExpr>,
) -> Result<Boxed<RawExpr>, AllocError>
    ensures { IfOk result (λ r. raw_expr r ≡ raw.unary place operator (raw_expr e)) }
{
    Boxed::new(alloc, RawExpr::Unary(place, operator, e))
}

/// A binary operator between its operands.
#[tactic(auto, using(cc_raw::specs::Terms::raw_steps))]
pub fn binary(
    alloc: Global,
    sign: Infix,
    place: Place,
    left: Boxed<RawExpr>,
    right: Boxed<RawExpr>,
) -> Result<Boxed<RawExpr>, AllocError>
    ensures { IfOk result (λ r. raw_expr r ≡ signs.infix_tree (meant.binary sign) place (raw_expr left) (raw_expr right)) }
{
    match sign {
        Infix::Or => Boxed::new(alloc, RawExpr::Or(place, left, right)),
        Infix::And => Boxed::new(alloc, RawExpr::And(place, left, right)),
        Infix::Operator(o) => Boxed::new(alloc, RawExpr::Binary(place, o, left, right)),
    }
}

/// A `?` with its `:`.
#[tactic(auto, using(cc_raw::specs::Terms::raw_steps))]
pub fn conditional(
    alloc: Global,
    place: Place,
    test: Boxed<RawExpr>,
    chosen: Boxed<RawExpr>,
    otherwise: Boxed<RawExpr>,
) -> Result<Boxed<RawExpr>, AllocError>
    ensures { IfOk result (λ r. raw_expr r ≡ raw.cond place (raw_expr test) (raw_expr chosen) (raw_expr otherwise)) }
{
    Boxed::new(alloc, RawExpr::Cond(place, test, chosen, otherwise))
}

/// An `=`, or a compound assignment.
#[tactic(auto, using(cc_raw::specs::Terms::raw_steps))]
pub fn assign(
    alloc: Global,
    place: Place,
    operator: Option<BinOp>,
    target: Boxed<RawTarget>,
    value: Boxed<RawExpr>,
) -> Result<Boxed<RawExpr>, AllocError>
    ensures { IfOk result (λ r. raw_expr r ≡ raw.assign place operator (raw_target target) (raw_expr value)) }
{
    Boxed::new(alloc, RawExpr::Assign(place, operator, target, value))
}

/// A comma between its operands.
#[tactic(auto, using(cc_raw::specs::Terms::raw_steps))]
pub fn comma(
    alloc: Global,
    place: Place,
    left: Boxed<RawExpr>,
    right: Boxed<RawExpr>,
) -> Result<Boxed<RawExpr>, AllocError>
    ensures { IfOk result (λ r. raw_expr r ≡ raw.comma place (raw_expr left) (raw_expr right)) }
{
    Boxed::new(alloc, RawExpr::Comma(place, left, right))
}
