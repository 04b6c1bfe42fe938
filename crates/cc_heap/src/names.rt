// The names of which the language speaks (ECMA-262 5.1, 15.3.4, 15.4, 15.4.4).

ghost use Rattle.std.specs.Prelude.{◌≡◌, is_some};
ghost use Rattle.cc_meaning.specs.Builtins.{array_method};
ghost use Rattle.cc_meaning.specs.Names.{index_value};
ghost use Rattle.cc_meaning.specs.Operators.{list_eq};

/// The greatest index of an element (ECMA-262 5.1, 15.4).
const GREATEST_INDEX: u64 = 4_294_967_294;

/// `prototype`
pub(crate) const PROTOTYPE: [u16; 9] = [112, 114, 111, 116, 111, 116, 121, 112, 101];

/// Whether a name is this text of ASCII characters.
pub fn is_spelled(name: &[u16], text: &[u8]) -> bool
    ensures { result ≡ list_eq name.now text.now }
{
    if name.len() != text.len() {
        return false;
    }
    for (i, unit) in name.iter().enumerate() {
        if *unit != u16::from(text[i]) {
            return false;
        }
    }
    true
}

/// The index that a name writes, where it writes one.
pub fn index_of(name: &[u16]) -> Option<usize>
    ensures { result ≡ index_value name.now }
{
    if name.is_empty() {
        return None;
    }
    if name[0] == 48 {
        return if name.len() == 1 { Some(0) } else { None };
    }
    let mut number: u64 = 0;
    for unit in name {
        if *unit < 48 || 57 < *unit {
            return None;
        }
        number = number * 10 + u64::from(*unit - 48);
        if GREATEST_INDEX < number {
            return None;
        }
    }
    Some(number as usize)
}

/// Whether arrays have a built-in method of this name.
pub fn is_array_method(name: &[u16]) -> bool
    ensures { result ≡ is_some (array_method name.now) }
{
    is_spelled(name, b"push")
        | is_spelled(name, b"unshift")
        | is_spelled(name, b"pop")
        | is_spelled(name, b"shift")
        | is_spelled(name, b"slice")
        | is_spelled(name, b"concat")
        | is_spelled(name, b"join")
        | is_spelled(name, b"indexOf")
}
