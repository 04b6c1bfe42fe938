// Tags.

use crate::doc::Param;
use crate::types::{Name, TypeExpr};

/// The names of tags that give something.
#[derive(Clone, Copy)]
pub(crate) enum TagName {
    Constructor,
    Interface,
    Enum,
    Typedef,
    Extends,
    Implements,
    Param,
    Return,
    Type,
    This,
    Const,
    Define,
    Export,
    NoCollapse,
    Licence,
    Other,
}

/// A tag with what it gives.
#[derive(Drop)]
pub(crate) enum Tag {
    Constructor,
    Interface,
    Enum(TypeExpr),
    Typedef(TypeExpr),
    Extends(Name),
    Implements(Name),
    Param(Param),
    Return(TypeExpr),
    Type(TypeExpr),
    This(TypeExpr),
    Const(Option<TypeExpr>),
    Define(Option<TypeExpr>),
    Export,
    NoCollapse,
    Licence,
}
