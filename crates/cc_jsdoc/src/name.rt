// Names with dots.

ghost use Rattle.std.specs.Prelude.{◌≡◌, ◌<◌, ◌≤◌, ◌∷◌, ℕ, List, IfOk, IfSome, MatchOption, length};
ghost use Rattle.std.specs.Str.{chars, IsUtf8};
ghost use Rattle.cc_jsdoc.specs.Symbols.{Word, Mark, IsEnd};
ghost use Rattle.cc_jsdoc.specs.Types as types;
ghost use Rattle.cc_jsdoc.specs.Continuing.{IsWholeName};

use crate::symbol::{Symbol, behind_mark, next_symbol};
use crate::types::{Alternative, Name, Simple};
use cc_text::units_of;
use sqlite_items::Items;
use std::alloc::{AllocError, Global};

/// A word, if that is the next symbol, and what is behind it.
pub(crate) fn next_word(text: &str) -> Option<(&str, &str)>
    ensures value { MatchOption result ((w rest : List ℕ) → ¬ Word w (chars text.now) rest)
        (λ r. Word (chars r.0.now) (chars text.now) (chars r.1.now)) }
    ensures word_text { IfSome result (λ r. IsUtf8 r.0.now) }
    ensures rest_text { IfSome result (λ r. IsUtf8 r.1.now) }
    ensures shorter { IfSome result (λ r. length r.1.now < length text.now) }
{
    match next_symbol(text) {
        Some((Symbol::Word(word), rest)) => Some((word, rest)),
        _ => None,
    }
}

// The word behind a dot, and what is behind it.
fn next_part(text: &str) -> Option<(&str, &str)>
    ensures value { MatchOption result ((w a b : List ℕ) → Mark 46 (chars text.now) a → ¬ Word w a b)
        (λ r. (a : List ℕ) × Mark 46 (chars text.now) a × Word (chars r.0.now) a (chars r.1.now)) }
    ensures word_text { IfSome result (λ r. IsUtf8 r.0.now) }
    ensures rest_text { IfSome result (λ r. IsUtf8 r.1.now) }
    ensures shorter { IfSome result (λ r. length r.1.now < length text.now) }
{
    match behind_mark(text, '.') {
        Some(behind) => next_word(behind),
        None => None,
    }
}

/// The name that a text begins with, as far as words and dots go on, and what is behind it.
pub(crate) fn name(alloc: Global, text: &str) -> Result<Option<(Name, &str)>, AllocError>
    ensures value { IfOk result (λ o. MatchOption o ((ws : List (List ℕ)) (rest : List ℕ) → ¬ types.IsName (chars text.now) ws rest)
        (λ r. (ws : List (List ℕ)) × IsWholeName (chars text.now) ws (chars r.1.now) × (r.0 ≡ types.name_of ws))) }
    ensures rest_text { IfOk result (λ o. IfSome o (λ r. IsUtf8 r.1.now)) }
    ensures shorter { IfOk result (λ o. IfSome o (λ r. length r.1.now < length text.now)) }
{
    let Some((first, behind)) = next_word(text) else {
        return Ok(None);
    };
    let mut parts = Items::new(alloc);
    parts.push(units_of(alloc, first)?)?;
    let mut rest = behind;
    while let Some((word, end)) = next_part(rest) {
        parts.push(units_of(alloc, word)?)?;
        rest = end;
    }
    Ok(Some((Name { parts }, rest)))
}

// What a name means by itself whose first word is this.
pub(crate) fn alternative_of(first: &str, name: Name) -> Alternative
    ensures { (ws : List (List ℕ)) → name ≡ types.name_of (chars first.now ∷ ws) → result ≡ types.of_name (chars first.now ∷ ws) }
{
    if name.parts.len() > 1 {
        return Alternative::Simple(Simple::Named(name));
    }
    match first {
        "number" => Alternative::Simple(Simple::Number),
        "string" => Alternative::Simple(Simple::Text),
        "boolean" => Alternative::Simple(Simple::Truth),
        "undefined" | "null" | "void" => Alternative::Simple(Simple::Empty),
        "Function" => Alternative::Simple(Simple::Function),
        "Array" => Alternative::Simple(Simple::Array),
        "Object" => Alternative::Unknown,
        _ => Alternative::Simple(Simple::Named(name)),
    }
}

// A name that is the whole text.
fn name_alone(alloc: Global, text: &str) -> Result<Option<Name>, AllocError>
    ensures { IfOk result (λ o. MatchOption o ((ws : List (List ℕ)) → ¬ types.IsNameAlone (chars text.now) ws)
        (λ n. (ws : List (List ℕ)) × types.IsNameAlone (chars text.now) ws × (n ≡ types.name_of ws))) }
{
    let Some((name, rest)) = name(alloc, text)? else {
        return Ok(None);
    };
    match next_symbol(rest) {
        Some(_) => Ok(None),
        None => Ok(Some(name)),
    }
}

/// The name of a class: a name that is the whole text, also behind `!`.
pub(crate) fn class_name(alloc: Global, text: &str) -> Result<Option<Name>, AllocError>
    ensures { IfOk result (λ o. MatchOption o ((ws : List (List ℕ)) → ¬ types.IsClassName (chars text.now) ws)
        (λ n. (ws : List (List ℕ)) × types.IsClassName (chars text.now) ws × (n ≡ types.name_of ws))) }
{
    match behind_mark(text, '!') {
        Some(behind) => name_alone(alloc, behind),
        None => name_alone(alloc, text),
    }
}
