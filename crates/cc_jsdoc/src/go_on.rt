// Where a type ends.

ghost use Rattle.std.specs.Prelude.{◌≡◌, ◌⊎◌, ◌↔◌, ◌<◌, ◌+◌, ◌++◌, ◌∷◌, [], ℕ, List, IfOk, OnOk, take, map, vec_len};
ghost use Rattle.std.specs.List.{list_any};
ghost use Rattle.std.specs.Str.{chars};
ghost use Rattle.cc_jsdoc.specs.Symbols.{Mark, IsEnd};
ghost use Rattle.cc_jsdoc.specs.Types as types;
ghost use Rattle.cc_jsdoc.specs.Continuing as continuing;

use crate::reading::{Open, Reading, Step, done, opened};
use crate::symbol::{behind_mark, next_symbol};
use crate::types::{Alternative, Simple};
use sqlite_items::Items;
use std::alloc::{AllocError, Global};

fn is_unknown(alternative: &Alternative) -> bool
    ensures { result ≡ types.is_unknown alternative.now }
{
    matches!(alternative, Alternative::Unknown)
}

fn simplified(alternative: Alternative) -> Simple
    ensures { result ≡ types.simplified alternative }
{
    match alternative {
        Alternative::Simple(simple) => simple,
        Alternative::Unknown | Alternative::ArrayOf(_) => Simple::Array,
    }
}

fn any_unknown(alternatives: &[Alternative]) -> bool
    ensures { result ≡ list_any types.is_unknown alternatives.now }
{
    alternatives.iter().any(is_unknown)
}

fn all_simplified(alloc: Global, alternatives: Vec<Alternative>) -> Result<Vec<Simple>, AllocError>
    ensures { IfOk result (λ simples. simples.items ≡ map types.simplified alternatives.items) }
{
    alternatives.into_iter().map(simplified).collect(alloc)
}

// The arrays of elements of these alternatives.
fn array_of(alloc: Global, elements: Vec<Alternative>) -> Result<Alternative, AllocError>
    ensures { IfOk result (λ array. array ≡ types.array_of elements.items) }
{
    if any_unknown(elements.as_slice()) {
        return Ok(Alternative::Simple(Simple::Array));
    }
    let simples = all_simplified(alloc, elements)?;
    Ok(Alternative::ArrayOf(Items::from_vec(simples)))
}

// ---- where a type ends

// The alternatives before this number, and in place of the others this one.
fn replaced<'a>(
    reading: &mut Reading,
    before: usize,
    alternative: Alternative,
    rest: &'a str,
) -> Result<Step<'a>, AllocError>
    ensures step { IfOk result (λ step. step ≡ Step.Done rest.entry) }
    ensures stack { OnOk result (reading.new.stack.items ≡ reading.old.stack.items) }
    ensures alternatives { OnOk result (reading.new.alternatives.items
        ≡ take before reading.old.alternatives.items ++ alternative ∷ []) }
{
    reading.alternatives.truncate(before);
    done(reading, alternative, rest)
}

// The part of a union ends, which isn't on the stack now.
fn union<'a>(reading: &mut Reading, text: &'a str) -> Result<Step<'a>, AllocError>
    requires { (rest : List ℕ) → ¬ Mark 61 (chars text.now) rest }
    ensures keeps { IfOk result (continuing.Keeps (continuing.CompletesWith Open.Union reading.old (chars text.now)) reading.new) }
    ensures text { IfOk result continuing.IsStepText }
    ensures work { IfOk result (λ step. continuing.work_left step (vec_len reading.new.stack)
        < continuing.work_left (Step.Done text.entry) (vec_len reading.old.stack + 1)) }
{
    if let Some(rest) = behind_mark(text, '|') {
        return opened(reading, Open::Union, rest);
    }
    match behind_mark(text, ')') {
        Some(rest) => Ok(Step::Done(rest)),
        None => Ok(Step::Outside),
    }
}

// The element type of an array ends.
fn element<'a>(
    alloc: Global,
    reading: &mut Reading,
    before: usize,
    text: &'a str,
) -> Result<Step<'a>, AllocError>
    requires { (rest : List ℕ) → ¬ Mark 61 (chars text.now) rest }
    ensures keeps { IfOk result (continuing.Keeps (continuing.CompletesWith (Open.Element before) reading.old (chars text.now)) reading.new) }
    ensures text { IfOk result continuing.IsStepText }
    ensures work { IfOk result (λ step. continuing.work_left step (vec_len reading.new.stack)
        < continuing.work_left (Step.Done text.entry) (vec_len reading.old.stack + 1)) }
{
    let Some(rest) = behind_mark(text, '>') else {
        return Ok(Step::Outside);
    };
    let at = before.min(reading.alternatives.len());
    let elements = reading.alternatives.split_off(at)?;
    let array = array_of(alloc, elements)?;
    done(reading, array, rest)
}

// The whole type ends.
fn ended(text: &str) -> Step<'_>
    ensures step { (result ≡ Step.Whole) ⊎ (result ≡ Step.Outside) }
    ensures whole { (result ≡ Step.Whole) ↔ IsEnd (chars text.now) }
{
    match next_symbol(text) {
        None => Step::Whole,
        Some(_) => Step::Outside,
    }
}

/// Where a type ends.
pub(crate) fn go_on<'a>(
    alloc: Global,
    reading: &mut Reading,
    text: &'a str,
) -> Result<Step<'a>, AllocError>
    ensures keeps { IfOk result (continuing.Keeps (continuing.CompletesIn reading.old (chars text.now)) reading.new) }
    ensures text { IfOk result continuing.IsStepText }
    ensures work { IfOk result (λ step. continuing.work_left step (vec_len reading.new.stack)
        < continuing.work_left (Step.Done text.entry) (vec_len reading.old.stack)) }
{
    if let Some(rest) = behind_mark(text, '=') {
        return Ok(Step::Done(rest));
    }
    match reading.stack.pop() {
        None => Ok(ended(text)),
        Some(Open::Union) => union(reading, text),
        Some(Open::Element(before)) => element(alloc, reading, before, text),
        Some(Open::Variadic(before)) => replaced(reading, before, Alternative::Unknown, text),
        Some(Open::Result(before)) => {
            let function = Alternative::Simple(Simple::Function);
            replaced(reading, before, function, text)
        }
    }
}
