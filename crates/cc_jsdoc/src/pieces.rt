// The tags of a text, each with its own text.

ghost use Rattle.std.specs.Prelude.{◌≡◌, ◌<◌, ◌∷◌, [], false, ◌&&◌, IfOk, IfSome, MatchOption, length};
ghost use Rattle.std.specs.Char.{is_ascii_alphabetic};
ghost use Rattle.std.specs.Str.{chars, IsUtf8};
ghost use Rattle.cc_text.specs.Characters.{first_is};
ghost use Rattle.cc_jsdoc.specs.Tags as tags;

use crate::classes::{Class, contains};
use crate::gives::given_by;
use crate::span::front;
use crate::tag::Tag;
use cc_text::split_first;
use std::alloc::{AllocError, Global};

fn begins_with_letter(text: &str) -> bool
    ensures { result ≡ first_is is_ascii_alphabetic (chars text.now) }
{
    match split_first(text) {
        Some((c, _)) => c.is_ascii_alphabetic(),
        None => false,
    }
}

// Whether a tag begins with a character before the text, where the flag lets it.
fn begins_tag(free: bool, c: char, behind: &str) -> bool
    ensures { result ≡ (free && tags.begins_tag c (chars behind.now)) }
{
    free && c == '@' && begins_with_letter(behind)
}

// The text up to the next tag, and what is behind the `@` of that. A tag may begin the text where
// the flag is true.
fn split_tag(text: &str, free: bool) -> (&str, Option<&str>)
    ensures pieces { MatchOption result.1 (tags.pieces free (chars text.now) ≡ chars result.0.now ∷ [])
        (λ rest. tags.pieces free (chars text.now) ≡ chars result.0.now ∷ tags.pieces false (chars rest.now)) }
    ensures piece_text { IsUtf8 result.0.now }
    ensures rest_text { IfSome result.1 (λ rest. IsUtf8 rest.now) }
    ensures shorter { IfSome result.1 (λ rest. length rest.now < length text.now) }
{
    let mut rest = text;
    let mut may_begin = free;
    while let Some((c, behind)) = split_first(rest) {
        if begins_tag(may_begin, c, behind) {
            return (front(text, rest), Some(behind));
        }
        may_begin = contains(Class::Blank, c);
        rest = behind;
    }
    (text, None)
}

/// The tags of a text that give something.
pub(crate) fn tags_of(alloc: Global, text: &str) -> Result<Vec<Tag>, AllocError>
    ensures { IfOk result (λ given. tags.AreTags (tags.own_texts (chars text.now)) given.items) }
{
    let mut given = Vec::new(alloc);
    let (_, mut rest) = split_tag(text, true);
    while let Some(later) = rest {
        let (own, behind) = split_tag(later, false);
        if let Some(tag) = given_by(alloc, own)? {
            given.push(tag)?;
        }
        rest = behind;
    }
    Ok(given)
}
