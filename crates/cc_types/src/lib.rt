//! Classes and types: which class extends or implements which, and what is of a type. `subtype`
//! and `instance_of`, `reaches` and `extends` answer exactly the definitions of specs/Types.antt,
//! and take no memory.
#![tactic(auto)]

mod search;

ghost use Rattle.std.specs.Prelude.{◌≡◌, ℕ, ◌<◌, length, slice_get, IsTrue, ◌↔◌};
ghost use Rattle.std.specs.List.{All};
ghost use Rattle.cc_types.specs.Types.{Ancestor, IsInstance};
ghost use Rattle.cc_types.specs.Types as Types;

use cc_ast::tables::{Class, TypeSet};

/// Whether `b` is `a`, or is reached from it by a chain of extends and implements. The numbers
/// are places in the table.
pub fn subtype(classes: &[Class], a: u32, b: u32) -> bool
    requires a_in { a < length classes.now }
    requires b_in { b < length classes.now }
    ensures ancestry { IsTrue result ↔ Ancestor classes.now a b }
    ensures test { result ≡ Types.subtype classes.now a b }
{
    let count = classes.len();
    if count <= 64 {
        search::is_above::<64>(classes, a, b)
    } else if count <= 8_192 {
        search::is_above::<8192>(classes, a, b)
    } else if count <= 1_048_576 {
        search::is_above::<1048576>(classes, a, b)
    } else {
        search::climbs(classes, count, a, b as usize)
    }
}

/// Whether an object of the class is of the type, by its class alone: it is of every unknown
/// type, and of a type with one of its ancestors.
pub fn instance_of(classes: &[Class], class: u32, type_set: &TypeSet) -> bool
    requires in_table { class < length classes.now }
    requires all_in_table { All (λ d. d < length classes.now) type_set.now.classes }
    ensures instance { IsTrue result ↔ IsInstance classes.now class type_set.now }
    ensures test { result ≡ Types.instance_of classes.now class type_set.now }
{
    if type_set.unknown {
        return true;
    }
    for wanted in type_set.classes.as_slice() {
        if subtype(classes, class, *wanted) {
            return true;
        }
    }
    false
}

/// What `subtype` tells, of any number and any place: one past the table is no class, though a
/// class may name it.
pub fn reaches(classes: &[Class], a: u32, b: usize) -> bool
    ensures { result ≡ Types.subtype classes.now a b }
{
    let count = classes.len();
    match u32::try_from(b) {
        Ok(above) if (a as usize) < count && b < count => subtype(classes, a, above),
        _ => search::climbs(classes, count, a, b),
    }
}

#[tactic(auto, unfolding(crate::specs::Types::extended_by))]
fn extended(classes: &[Class], class: u32) -> Option<u32>
    ensures { result ≡ Types.extended_by (slice_get classes.now class) }
{
    match sqlite_items::at(classes, class as usize) {
        Some(class) => class.extends,
        None => None,
    }
}

/// Whether the class with number `b` is `a`, or is reached from it by a chain of extends alone.
pub fn extends(classes: &[Class], a: u32, b: usize) -> bool
    ensures { result ≡ Types.extends classes.now a b }
{
    let mut at = a;
    for _step in 0..classes.len() {
        if at as usize == b {
            return true;
        }
        match extended(classes, at) {
            Some(parent) => at = parent,
            None => return false,
        }
    }
    at as usize == b
}
