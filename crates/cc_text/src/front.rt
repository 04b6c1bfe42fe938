// A text by its first character.

ghost use Rattle.std.specs.Prelude.{◌≡◌, ◌<◌, ◌∷◌, ◌++◌, [], length, MatchOption, IfSome, encode_utf8};
ghost use Rattle.std.specs.Str.{chars, IsUtf8};
ghost use Rattle.cc_text.specs.Characters as class;

/// The first character of a text, and the text behind it.
pub fn split_first(text: &str) -> Option<(char, &str)>
    ensures bytes { MatchOption result (text.now ≡ [])
        (λ r. text.now ≡ encode_utf8 r.0 ++ r.1.now) }
    ensures characters { MatchOption result (chars text.now ≡ [])
        (λ r. chars text.now ≡ r.0 ∷ chars r.1.now) }
    ensures text { IfSome result (λ r. IsUtf8 r.1.now) }
    ensures shorter { MatchOption result (length text.now ≡ 0)
        (λ r. length r.1.now < length text.now) }
{
    let mut characters = text.chars();
    let first = characters.next()?;
    Some((first, characters.as_str()))
}

/// Whether the character ends a line (ECMA-262 5.1, 7.3).
pub fn is_line_end(c: char) -> bool
    ensures { result ≡ class.is_line_end c }
{
    matches!(c, '\n' | '\r' | '\u{2028}' | '\u{2029}')
}
