// Types of annotations.

use cc_ast::units::Units;
use sqlite_items::Items;

/// A name with dots: the parts between them.
#[derive(Drop)]
pub struct Name {
    pub parts: Items<Units>,
}

/// What one alternative of a type means by itself. `Empty` is the type of `undefined` and `null`
/// alone, which belong to every type. `Truth` is boolean.
#[derive(Drop)]
pub enum Simple {
    Empty,
    Number,
    Text,
    Truth,
    Function,
    Array,
    /// A class, an enum or a typedef, if the name turns out to be that of one.
    Named(Name),
}

/// One alternative of a type. The element type of an array is a union too, and has no element
/// types of its own.
#[derive(Drop)]
pub enum Alternative {
    Unknown,
    Simple(Simple),
    ArrayOf(Items<Simple>),
}

/// A type: the union of its alternatives, and so unknown where one of them is.
#[derive(Drop)]
pub struct TypeExpr {
    pub alternatives: Items<Alternative>,
}
