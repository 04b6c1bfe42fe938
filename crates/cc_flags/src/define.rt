// Definitions that words give.

ghost use Rattle.std.specs.Prelude.{◌≡◌, List, ℕ, IfOk, MatchOption};
ghost use Rattle.std.specs.Option.{option_copied};
ghost use Rattle.std.specs.Str.{chars};
ghost use Rattle.cc_text.specs.Escape.{escaped};
ghost use Rattle.cc_flags.specs.declared.job.DefineValue.{DefineValue as Value};
ghost use Rattle.cc_flags.specs.Texts.{behind};
ghost use Rattle.cc_flags.specs.Values as values;
ghost use Rattle.cc_flags.specs.Quoting as quoting;

use crate::job::{Define, DefineValue};
use crate::number::whole;
use crate::text::split_at_first;
use cc_text::{Behind, Units, escape_behind, is_line_end, push_char, split_first};
use std::alloc::{AllocError, Global};

/// Adds the units of the escape whose backslash stands before the text, and answers the text
/// behind it. `None` where there is no such escape.
fn add_escape<'a>(units: &mut Vec<u16>, text: &'a str) -> Result<Option<&'a str>, AllocError>
    ensures { IfOk result (λ rest. MatchOption rest (quoting.GivesNone (escaped (chars text.now)))
        (λ end. quoting.AddsEscape (chars text.now) units.old.items units.new.items end.now)) }
{
    match escape_behind(text) {
        Behind::Unit(unit, end) => {
            units.push(unit)?;
            Ok(Some(end))
        }
        Behind::Pair(high, low, end) => {
            units.push(high)?;
            units.push(low)?;
            Ok(Some(end))
        }
        Behind::Nothing(end) => Ok(Some(end)),
        Behind::Octal | Behind::Bad => Ok(None),
    }
}

/// The units of the text in single quotes whose first quote stands before this text and whose
/// other quote ends it. `None` where it is no such text.
fn quoted(alloc: Global, text: &str) -> Result<Option<Units>, AllocError>
    ensures { IfOk result (λ units. MatchOption units
        ((us : List ℕ) → ¬ values.InQuotes (chars text.now) us)
        (values.InQuotes (chars text.now))) }
{
    let mut list = Vec::new(alloc);
    let mut rest = text;
    while let Some((c, behind)) = split_first(rest) {
        if c == '\'' {
            if behind.is_empty() {
                return Ok(Some(Units { list }));
            }
            return Ok(None);
        }
        if is_line_end(c) {
            return Ok(None);
        }
        if c == '\\' {
            match add_escape(&mut list, behind)? {
                Some(end) => rest = end,
                None => return Ok(None),
            }
        } else {
            push_char(&mut list, c)?;
            rest = behind;
        }
    }
    Ok(None)
}

/// The value of what stands behind the `=` of a definition. `None` where it is none.
fn define_value(alloc: Global, text: &str) -> Result<Option<DefineValue>, AllocError>
    ensures { IfOk result (λ value. MatchOption value
        ((d : Value) → ¬ values.IsDefineText text.now d) (values.IsDefineText text.now)) }
{
    if text == "true" {
        return Ok(Some(DefineValue::Truth(true)));
    }
    if text == "false" {
        return Ok(Some(DefineValue::Truth(false)));
    }
    if let Some(number) = whole(text) {
        return Ok(Some(DefineValue::Whole(number)));
    }
    let Some(('\'', body)) = split_first(text) else {
        return Ok(None);
    };
    match quoted(alloc, body)? {
        Some(units) => Ok(Some(DefineValue::Text(units))),
        None => Ok(None),
    }
}

/// The definition of `NAME` or `NAME=VALUE`. `None` where the value is none.
pub(crate) fn define_of(alloc: Global, text: &str) -> Result<Option<Define>, AllocError>
    ensures { IfOk result (λ define. MatchOption define
        ((d : Value) → ¬ values.IsDefineValue (behind 61 text.now) d)
        (values.IsDefine text.now)) }
{
    let (name, text) = split_at_first(text, '=');
    let value = match text {
        Some(text) => define_value(alloc, text)?,
        None => Some(DefineValue::Truth(true)),
    };
    let Some(value) = value else {
        return Ok(None);
    };
    let name = String::from_str(alloc, name)?;
    Ok(Some(Define { name, value }))
}
