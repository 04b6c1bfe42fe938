// What expressions reach, what is called, what is written to, and how statements end.

use cc_acts::globals::BuiltIn;
use cc_ast::tree::Ref;
use cc_ast::units::Units;
use cc_conform::act::{Access, BuiltInUse};
use cc_value::value::Value;
use sqlite_items::Boxed;

/// An access that isn't read yet: its site, its object and key, its global and number where it is a
/// flat path, and the sites and docs of the casts around it, from the innermost on.
#[derive(Drop)]
pub(crate) struct Reference {
    pub(crate) site: u32,
    pub(crate) on: Value,
    pub(crate) key: Access,
    pub(crate) path: Option<(u32, u32)>,
    pub(crate) casts: Vec<(u32, u32)>,
}

/// What an expression reaches (ECMA-262 5.1, 8.7).
#[derive(Drop)]
pub(crate) enum Reach {
    Plain(Value),
    Access(Boxed<Reference>),
    BuiltInGlobal(u32, BuiltIn),
    BuiltInMember(u32, BuiltIn, Units),
}

/// What is called: a value with the receiver where there is one, or a use of what is built in with
/// what it is used on.
#[derive(Drop)]
pub(crate) enum Callee {
    Value(Value, Option<Value>),
    Use(BuiltInUse, Vec<Value>),
}

/// What is written to.
#[derive(Drop)]
pub(crate) enum Place {
    Variable(u32, Ref),
    Slot(Boxed<Reference>),
}

/// How a statement ends (ECMA-262 5.1, 8.9), but for throws.
#[derive(Drop)]
pub(crate) enum Completion<'a> {
    Normal,
    Returns(u32, Value),
    Breaks(Option<&'a Units>),
    Continues(Option<&'a Units>),
}

/// An end by a completion or by a throw.
#[derive(Drop)]
pub(crate) enum Ended<'a> {
    Went(Completion<'a>),
    Thrown(Value),
}
