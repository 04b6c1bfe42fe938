// The names that every program keeps.

ghost use Rattle.std.specs.Prelude.{◌≡◌, map, IfOk};
ghost use Rattle.cc_meaning.specs.Names.{always_kept};

use crate::form::name::units_of;
use cc_ast::units::Units;
use sqlite_items::Items;
use std::alloc::{AllocError, Global};

// The names of the built-in uses (ECMA-262 5.1, 15), and those of the standard that are kept and
// have no meaning here. `lastIndexOf` is in both lists.
static KEPT: [&[u8]; 54] = [
    b"Object",
    b"Math",
    b"String",
    b"length",
    b"push",
    b"unshift",
    b"pop",
    b"shift",
    b"slice",
    b"concat",
    b"join",
    b"indexOf",
    b"charAt",
    b"charCodeAt",
    b"lastIndexOf",
    b"substring",
    b"fromCharCode",
    b"max",
    b"min",
    b"abs",
    b"create",
    b"hasOwnProperty",
    b"call",
    b"constructor",
    b"toString",
    b"toLocaleString",
    b"valueOf",
    b"isPrototypeOf",
    b"propertyIsEnumerable",
    b"__proto__",
    b"apply",
    b"bind",
    b"caller",
    b"arguments",
    b"sort",
    b"reverse",
    b"splice",
    b"forEach",
    b"map",
    b"filter",
    b"reduce",
    b"reduceRight",
    b"some",
    b"every",
    b"lastIndexOf",
    b"split",
    b"replace",
    b"match",
    b"search",
    b"toLowerCase",
    b"toUpperCase",
    b"trim",
    b"localeCompare",
    b"prototype",
];

pub(crate) fn names_of(alloc: Global, texts: &[&[u8]]) -> Result<Items<Units>, AllocError>
    ensures { IfOk result (λ names. names ≡ map (λ text. text.now) texts.now) }
{
    let mut names = Items::new(alloc);
    for text in texts {
        names.push(units_of(alloc, text)?)?;
    }
    Ok(names)
}

/// The built-in and the standard names.
#[tactic(auto, unfolding(cc_meaning::specs::Names::always_kept, cc_meaning::specs::Names::builtin_names, cc_meaning::specs::Names::builtin_globals, cc_meaning::specs::Names::array_names, cc_meaning::specs::Names::standard_names, cc_meaning::specs::Names::common_names, cc_meaning::specs::Names::standard_array_names, cc_meaning::specs::Names::standard_text_names))]
pub(crate) fn kept_names(alloc: Global) -> Result<Items<Units>, AllocError>
    ensures { IfOk result (λ names. names ≡ always_kept) }
{
    names_of(alloc, &KEPT)
}
