// What a comment says.

ghost use Rattle.std.specs.Prelude.{◌≡◌, ◌<◌, ◌∷◌, [], IfOk, IfSome, MatchOption, length};
ghost use Rattle.std.specs.Str.{chars, IsUtf8};
ghost use Rattle.std.specs.String.{string_bytes};
ghost use Rattle.cc_jsdoc.specs.Texts as texts;

use crate::classes::Class;
use crate::span::{behind, split};
use cc_ast::units::Units;
use cc_text::split_first;
use std::alloc::{AllocError, Global};

// The units without the first three and the last two.
fn inside(units: &[u16]) -> &[u16]
    ensures { result.now ≡ texts.inside units.now }
{
    if units.len() < 5 {
        return &[];
    }
    &units[3..units.len() - 2]
}

// The first line, and what is behind its end.
fn split_line(text: &str) -> (&str, Option<&str>)
    ensures lines { MatchOption result.1 (texts.lines (chars text.now) ≡ chars result.0.now ∷ [])
        (λ rest. texts.lines (chars text.now) ≡ chars result.0.now ∷ texts.lines (chars rest.now)) }
    ensures line_text { IsUtf8 result.0.now }
    ensures rest_text { IfSome result.1 (λ rest. IsUtf8 rest.now) }
    ensures shorter { IfSome result.1 (λ rest. length rest.now < length text.now) }
{
    let (line, end) = split(text, Class::Inline);
    match split_first(end) {
        Some((_, rest)) => (line, Some(rest)),
        None => (line, None),
    }
}

fn without_head(line: &str) -> &str
    ensures { chars result.now ≡ texts.without_head (chars line.now) }
{
    behind(behind(line, Class::White), Class::Star)
}

// The lines of a text, of which the later ones are without their heads.
fn joined(alloc: Global, text: &str) -> Result<String, AllocError>
    ensures { IfOk result (λ said. chars (string_bytes said) ≡ texts.joined (texts.lines (chars text.now))) }
{
    let mut said = String::new(alloc);
    let (first, mut rest) = split_line(text);
    said.push_str(first)?;
    while let Some(later) = rest {
        let (line, behind) = split_line(later);
        said.push('\n')?;
        said.push_str(without_head(line))?;
        rest = behind;
    }
    Ok(said)
}

/// What a comment says, as characters.
pub(crate) fn text_of(alloc: Global, comment: &Units) -> Result<String, AllocError>
    ensures { IfOk result (λ said. chars (string_bytes said) ≡ texts.text_of comment.now) }
{
    let all = String::from_utf16_lossy(alloc, inside(comment.list.as_slice()))?;
    joined(alloc, all.as_str())
}
