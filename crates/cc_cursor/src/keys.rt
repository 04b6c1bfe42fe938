// Names of properties, and keys of object literals.

ghost use Rattle.std.specs.Prelude.{◌≡◌, IfOk};
ghost use Rattle.std.specs.Option.{option_map};
ghost use Rattle.cc_grammar.specs.Signs as signs;
ghost use Rattle.cc_raw.specs.Bridge as bridge;
ghost use Rattle.cc_cursor.specs.Keys as keys;
ghost use Rattle.cc_cursor.specs.Shown as shown;

use crate::lexeme::Kind;
use cc_ast::copy::CopyOf;
use cc_ast::units::Units;
use cc_lexer::piece::Piece;
use cc_lexer::word::{Word, spelling};
use cc_raw::tree::RawKey;
use cc_text::units_of;
use std::alloc::{AllocError, Global};

/// The name of a property, which may be a reserved word.
#[derive(Clone, Copy)]
pub enum Property<'a> {
    Name(&'a Piece<'a>),
    Word(Word),
}

/// A key of an object literal.
#[derive(Clone, Copy)]
pub enum Key<'a> {
    Dotted(Property<'a>),
    Quoted(&'a Units),
    Numbered(i64),
}

/// The name of a property that a token is.
pub fn property_of(kind: Kind<'_>) -> Option<Property<'_>>
    ensures { option_map keys.property result ≡ signs.property_of (shown.kind kind.entry) }
{
    match kind {
        Kind::Name(name) => Some(Property::Name(name)),
        Kind::Word(word) => Some(Property::Word(word)),
        _ => None,
    }
}

/// The key that a token is.
pub fn key_of(kind: Kind<'_>) -> Option<Key<'_>>
    ensures { option_map keys.key result ≡ signs.key_of (shown.kind kind.entry) }
{
    match kind {
        Kind::Name(name) => Some(Key::Dotted(Property::Name(name))),
        Kind::Word(word) => Some(Key::Dotted(Property::Word(word))),
        Kind::Text(text) => Some(Key::Quoted(text)),
        Kind::Number(number) => Some(Key::Numbered(number)),
        _ => None,
    }
}

/// `get` or `set`.
#[tactic(auto, using(crate::proofs::NameLemmas::name_steps, std::proofs::lemmas::Grind::common_steps))]
pub fn is_accessor(kind: Kind<'_>) -> bool
    ensures { result ≡ signs.is_accessor (shown.kind kind.entry) }
{
    match kind {
        Kind::Name(name) => name.is("get") || name.is("set"),
        _ => false,
    }
}

/// The text of a property's name.
#[tactic(auto, using(cc_lexer::proofs::WordLemmas::units_spelled, std::proofs::lemmas::Grind::common_steps))]
pub fn owned_name(alloc: Global, property: Property<'_>) -> Result<Units, AllocError>
    ensures { IfOk result (λ text. text ≡ keys.property property.entry) }
{
    match property {
        Property::Name(name) => name.units(alloc),
        Property::Word(word) => units_of(alloc, spelling(word)),
    }
}

/// The key as a part of a tree.
pub fn owned_key(alloc: Global, key: Key<'_>) -> Result<RawKey, AllocError>
    ensures { IfOk result (λ k. bridge.key k ≡ keys.key key.entry) }
{
    match key {
        Key::Dotted(name) => Ok(RawKey::Dotted(owned_name(alloc, name)?)),
        Key::Quoted(text) => Ok(RawKey::Quoted(text.copy_of(alloc)?)),
        Key::Numbered(number) => Ok(RawKey::Numbered(number)),
    }
}
