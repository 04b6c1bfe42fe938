// The names of the program, and those of which the language speaks.

ghost use Rattle.std.specs.Prelude.{◌≡◌, [], map};
ghost use Rattle.cc_meaning.specs.Names as Names;
ghost use Rattle.cc_meaning.specs.Operators as Operators;
ghost use Rattle.cc_meaning.specs.Shapes.{tables_of};
ghost use Rattle.cc_meaning.specs.Store as Store;
ghost use Rattle.cc_conform.specs.Bridge.{access_of};

use crate::act::Access;
use cc_ast::program::Program;
use cc_ast::units::Units;
use cc_heap::names::{index_of, is_spelled};
use cc_value::texts;

// The names of the standard library that have no meaning here (ECMA-262 5.1, 15): of every object and
// function, of arrays, and of texts.
static COMMON: [&[u8]; 11] = [
    b"constructor",
    b"toString",
    b"toLocaleString",
    b"valueOf",
    b"isPrototypeOf",
    b"propertyIsEnumerable",
    b"__proto__",
    b"apply",
    b"bind",
    b"caller",
    b"arguments",
];

static OF_ARRAYS: [&[u8]; 11] = [
    b"sort",
    b"reverse",
    b"splice",
    b"forEach",
    b"map",
    b"filter",
    b"reduce",
    b"reduceRight",
    b"some",
    b"every",
    b"lastIndexOf",
];

static OF_TEXTS: [&[u8]; 8] = [
    b"split",
    b"replace",
    b"match",
    b"search",
    b"toLowerCase",
    b"toUpperCase",
    b"trim",
    b"localeCompare",
];

fn is_in(name: &[u16], names: &[Units]) -> bool
    ensures { result ≡ Operators.is_in name.now names.now }
{
    for other in names {
        if texts::is_equal(name, other.list.as_slice()) {
            return true;
        }
    }
    false
}

/// Whether the program keeps the name.
#[tactic(auto, unfolding(cc_meaning::specs::Store::is_kept, cc_meaning::specs::Shapes::tables_of))]
pub fn is_kept(program: &Program, name: &[u16]) -> bool
    ensures { result ≡ Store.is_kept (tables_of program.now) name.now }
{
    is_in(name, program.kept.get().as_slice())
}

fn is_one_of(name: &[u16], texts: &[&[u8]]) -> bool
    ensures { result ≡ Operators.is_in name.now (map (λ text. text.now) texts.now) }
{
    for text in texts {
        if is_spelled(name, text) {
            return true;
        }
    }
    false
}

/// Whether every object or function has a property of this name that has no meaning here.
#[tactic(auto, unfolding(cc_meaning::specs::Names::common_names))]
pub(crate) fn is_common(name: &[u16]) -> bool
    ensures { result ≡ Operators.is_in name.now Names.common_names }
{
    is_one_of(name, &COMMON)
}

/// Whether every array has a property of this name that has no meaning here.
#[tactic(auto, unfolding(cc_meaning::specs::Names::standard_array_names))]
pub(crate) fn is_standard_of_arrays(name: &[u16]) -> bool
    ensures { result ≡ Operators.is_in name.now Names.standard_array_names }
{
    is_one_of(name, &OF_ARRAYS)
}

#[tactic(auto, unfolding(cc_meaning::specs::Names::standard_text_names))]
fn is_standard_of_texts(name: &[u16]) -> bool
    ensures { result ≡ Operators.is_in name.now Names.standard_text_names }
{
    is_one_of(name, &OF_TEXTS)
}

/// Whether the name is one of the standard library without a meaning here.
#[tactic(auto, using(crate::proofs::NameLemmas::in_standard))]
pub(crate) fn is_standard(name: &[u16]) -> bool
    ensures { result ≡ Operators.is_in name.now Names.standard_names }
{
    is_common(name) || is_standard_of_arrays(name) || is_standard_of_texts(name)
}

/// Whether the name is one that functions have and that isn't read.
#[tactic(auto, unfolding(cc_meaning::specs::Names::function_names, cc_meaning::specs::Operators::is_in))]
pub(crate) fn is_function_name(name: &[u16]) -> bool
    ensures { result ≡ Operators.is_in name.now Names.function_names }
{
    is_spelled(name, b"name") || is_spelled(name, b"length")
}

/// Whether the name is one that functions have and that an engine doesn't write.
#[tactic(auto, unfolding(cc_meaning::specs::Names::unwritten_names, cc_meaning::specs::Operators::is_in))]
pub(crate) fn is_unwritten(name: &[u16]) -> bool
    ensures { result ≡ Operators.is_in name.now Names.unwritten_names }
{
    is_spelled(name, b"name")
        || is_spelled(name, b"length")
        || is_spelled(name, b"caller")
        || is_spelled(name, b"arguments")
}

#[tactic(auto, unfolding(cc_meaning::specs::Names::is_index))]
pub(crate) fn is_index(name: &[u16]) -> bool
    ensures { result ≡ Names.is_index name.now }
{
    index_of(name).is_some()
}

/// The name that a key means. A number of no property means the name without units, which is
/// passed as `none`.
#[tactic(auto, unfolding(cc_meaning::specs::Store::name_of, cc_meaning::specs::Store::prop_name, cc_meaning::specs::Shapes::tables_of))]
pub fn name_of<'a>(program: &'a Program, key: &'a Access, none: &'a Units) -> &'a Units
    requires { none.now ≡ [] }
    ensures { result.now ≡ Store.name_of (tables_of program.now) (access_of key.now) }
{
    match key {
        Access::Dotted(prop) => match program.props.get().get(*prop as usize) {
            Some(info) => &info.name,
            None => none,
        },
        Access::Quoted(text) => text,
        Access::Runtime { text, whole: _ } => text,
    }
}
