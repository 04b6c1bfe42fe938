// The tables that stand beside the scopes.

use crate::units::Units;
use sqlite_items::Items;
use std::marker::Model;

/// A chunk's name, as text.
#[derive(Drop)]
pub struct ChunkName {
    pub text: String,
}

impl Model for ChunkName {
    ghost use Rattle.std.specs.Prelude.{List, ℕ};
    ghost use Rattle.std.specs.String.{string_bytes};

    ghost Value = { List ℕ };

    ghost view = { λ name. string_bytes name.text };
}

/// A chunk: its name and the numbers of the chunks that it depends on directly.
#[derive(Drop)]
pub struct ChunkInfo {
    pub name: ChunkName,
    pub deps: Items<u32>,
}

/// A path from a global through dotted properties, which flattening may turn into a variable: the
/// properties' numbers, and the number of its doc.
#[derive(Drop)]
pub struct FlatPath {
    pub props: Items<u32>,
    pub doc: u32,
}

/// A global variable. `chunk` is the least chunk that declares it, and `None` for an extern or a
/// built-in. The flat paths stand under the global that they begin with.
#[derive(Drop)]
pub struct GlobalInfo {
    pub name: Units,
    pub chunk: Option<u32>,
    pub doc: u32,
    pub flat: Items<FlatPath>,
}

/// A property name, and whether it is kept in the output.
#[derive(Drop)]
pub struct PropInfo {
    pub name: Units,
    pub kept: bool,
}

/// A class: a function marked `@constructor` or `@interface` (Closure Compiler, "Annotating
/// JavaScript"). `function` is the scope of its function, `None` for an extern's. `methods` pairs
/// a property with a function's scope, `fields` a property with a doc.
#[derive(Drop)]
pub struct Class {
    pub name: Units,
    pub function: Option<u32>,
    pub external: bool,
    pub interface: bool,
    pub extends: Option<u32>,
    pub implements: Items<u32>,
    pub methods: Items<(u32, u32)>,
    pub fields: Items<(u32, u32)>,
}

/// The element type of an array's type: kinds and classes, as in `TypeSet`.
#[derive(Drop)]
pub struct Element {
    pub kinds: u8,
    pub classes: Items<u32>,
}

/// A type: unknown, or a set of kinds with a set of classes. `kinds` has one bit for each kind:
/// 1 number, 2 string, 4 boolean, 8 function, 16 array, 32 outside object. With the kind array it
/// may have an element type.
#[derive(Drop)]
pub struct TypeSet {
    pub kinds: u8,
    pub classes: Items<u32>,
    pub unknown: bool,
    pub element: Option<Element>,
}

/// What annotations say of one site. Entry 0 of a program's docs says nothing. `vars` has the
/// numbers of the docs of a function's declared variables.
#[derive(Drop)]
pub struct SiteDoc {
    pub params: Items<Option<TypeSet>>,
    pub result: Option<TypeSet>,
    pub value: Option<TypeSet>,
    pub receiver: Option<TypeSet>,
    pub vars: Items<u32>,
    pub constant: bool,
    pub define: bool,
    pub nocollapse: bool,
    pub export: bool,
}
