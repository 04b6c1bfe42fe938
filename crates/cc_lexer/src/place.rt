// Places that go on over a text.

ghost use Rattle.std.specs.Prelude.{◌≡◌, ◌+◌, ◌≤◌, ◌∷◌, length, take, true, nat_lt, ◌&&◌, not};
ghost use Rattle.std.specs.Char.{len_utf8};
ghost use Rattle.std.specs.List.{list_all};
ghost use Rattle.std.specs.Str.{chars};
ghost use Rattle.cc_text.specs.Characters as class;
ghost use Rattle.cc_text.specs.Ends.{Ends};
ghost use Rattle.cc_lexer.specs.Lexes as lexes;

use cc_ast::place::Place;
use cc_text::{is_line_end, split_first};

// The place behind a character at a place, where the text goes on with the rest.
fn beyond(place: Place, c: char, rest: &str) -> Place
    requires { lexes.HasRoom place (len_utf8 c + length rest.now) }
    ensures place { result ≡ lexes.beyond place c (chars rest.now) }
    ensures room { lexes.HasRoom result (length rest.now) }
{
    let offset = place.offset + c.len_utf8() as u32;
    let is_half = c == '\r' && matches!(split_first(rest), Some(('\n', _)));
    if is_line_end(c) && !is_half {
        Place {
            offset,
            line: place.line + 1,
            column: 1,
            ..place
        }
    } else {
        Place {
            offset,
            column: place.column + 1,
            ..place
        }
    }
}

// The place of an end of a text, character by character.
#[cold]
fn walked(place: Place, text: &str, rest: &str) -> Place
    requires ends { Ends (chars text.now) (chars rest.now) }
    requires room { lexes.HasRoom place (length text.now) }
    ensures passed { lexes.Passed place (chars text.now) result (chars rest.now) }
    ensures room { lexes.HasRoom result (length rest.now) }
{
    let mut current = place;
    let mut left = text;
    while let Some((c, behind)) = split_first(left) {
        if left.len() <= rest.len() {
            break;
        }
        current = beyond(current, c, behind);
        left = behind;
    }
    current
}

// Whether a byte is an ASCII character that ends no line.
fn is_plain(byte: u8) -> bool
    ensures { result ≡ (nat_lt byte 128 && not (class.is_line_end byte)) }
{
    byte < 128 && byte != b'\n' && byte != b'\r'
}

// How many of the first bytes, of at most so many, are such characters.
fn plain_length(text: &str, most: usize) -> usize
    requires { most ≤ length text.now }
    ensures within { result ≤ most }
    ensures plain { list_all (λ b. nat_lt b 128 && not (class.is_line_end b)) (take result text.now) ≡ true }
{
    let bytes = text.as_bytes();
    for at in 0..most {
        if !is_plain(bytes[at]) {
            return at;
        }
    }
    most
}

/// The place of an end of a text, from the place of the text. Over ASCII characters that end no
/// line, as most tokens are, it goes on by their number.
#[inline(always)]
pub(crate) fn moved(place: Place, text: &str, rest: &str) -> Place
    requires ends { Ends (chars text.now) (chars rest.now) }
    requires room { lexes.HasRoom place (length text.now) }
    ensures passed { lexes.Passed place (chars text.now) result (chars rest.now) }
    ensures room { lexes.HasRoom result (length rest.now) }
{
    let length = text.len() - rest.len();
    let plain = plain_length(text, length);
    let along = Place {
        offset: place.offset + plain as u32,
        column: place.column + plain as u32,
        ..place
    };
    if plain == length {
        return along;
    }
    walked(along, &text[plain..], rest)
}
