// What a comment says.

use crate::types::{Name, TypeExpr};
use cc_ast::units::Units;
use sqlite_items::Items;

#[derive(Clone, Copy)]
pub enum DocKind {
    Plain,
    Constructor,
    Interface,
    Enum,
    Typedef,
}

/// The type that a comment gives to the parameter of a name.
#[derive(Drop)]
pub struct Param {
    pub name: Units,
    pub expr: TypeExpr,
}

/// What the tags of one comment give. `value` is the type of `@type`, `@const`, `@define`,
/// `@enum` or `@typedef`, whichever comes last; `result` is that of `@return`, and `receiver`
/// that of `@this`. Each parameter stands once.
#[derive(Drop)]
pub struct Doc {
    pub kind: DocKind,
    pub extends: Option<Name>,
    pub implements: Items<Name>,
    pub params: Items<Param>,
    pub result: Option<TypeExpr>,
    pub value: Option<TypeExpr>,
    pub receiver: Option<TypeExpr>,
    pub constant: bool,
    pub define: bool,
    pub export: bool,
    pub nocollapse: bool,
    pub licence: bool,
}
