// What globals are.

ghost use Rattle.std.specs.Prelude.{◌≡◌};
ghost use Rattle.cc_meaning.specs.Store.{built_number};
ghost use Rattle.cc_acts.specs.Globals.{built_of};

/// A global that the language has (ECMA-262 5.1, 15.1.4 and 15.8).
#[derive(Clone, Copy)]
pub enum BuiltIn {
    Object,
    Math,
    String,
}

/// What a global is: an object of the outside, one that is built in, or a variable of a chunk.
#[derive(Clone, Copy)]
pub enum GlobalKind {
    Extern,
    BuiltIn(BuiltIn),
    Chunk(u32),
}

/// The built-in global that stands so many places after the extern ones.
pub(crate) fn built_in(number: usize) -> BuiltIn
    ensures { built_of result ≡ built_number number }
{
    if number == 0 {
        BuiltIn::Object
    } else if number == 1 {
        BuiltIn::Math
    } else {
        BuiltIn::String
    }
}
