// A slot, and what is read.

use cc_ast::units::Units;
use cc_value::value::Value;
use std::marker::Model;

/// How a slot came to be: its name is kept, it is an index, or it was made with a dot, with a
/// literal text as key, or by another text.
#[derive(Clone, Copy, Drop)]
pub enum SlotKind {
    Kept,
    Indexed,
    Dotted,
    Quoted,
    Keyed,
}

/// A named property of an object (ECMA-262 5.1, 8.6).
#[derive(Drop)]
pub struct Slot {
    pub name: Units,
    pub kind: SlotKind,
    pub value: Value,
}

impl Model for Slot {
    ghost use Rattle.cc_meaning.specs.State.{Slot as Seen};

    ghost Value = { Seen };

    ghost use Rattle.cc_value.specs.Bridge.{value_of};
    ghost use Rattle.cc_heap.specs.Kinds.{kind_of};

    ghost view = { λ s. record { name = s.name; kind = kind_of s.kind; value = value_of s.value } };
}

/// What a look-up comes to: a stored value, or the length of an array, which is none.
#[derive(Copy, Clone)]
pub enum Held<'a> {
    Value(&'a Value),
    Length(usize),
}
