// The forms of values.

ghost use Rattle.std.specs.Prelude.{◌≡◌, ◌⊎◌, ◌↔◌, ◌||◌, [], codes, Some, IfOk, IsTrue, MatchBool, Contains};
ghost use Rattle.std.specs.Option.{option_copied};
ghost use Rattle.std.specs.Str.{bytes_eq};
ghost use Rattle.cc_flags.specs.declared.flag.Form.TheVariants as variant;
ghost use Rattle.cc_flags.specs.declared.form.Value.TheVariants as given;
ghost use Rattle.cc_flags.specs.Values as values;
ghost use Rattle.cc_flags.specs.Forming as forming;

use crate::chunk::{chunk_of, is_chunk_name};
use crate::define::define_of;
use crate::flag::Form;
use crate::job::{Define, Synthesis};
use crate::names::Names;
use crate::number::{decimal_within, is_decimal};
use crate::text::{around, split_at_first};
use cc_chunks::ChunkSpec;
use std::alloc::{AllocError, Global};

/// The greatest bound of a run.
const MOST_BOUND: u64 = 10_000_000;

/// The greatest size of generated input.
const MOST_SIZE: u64 = 20_000;

/// What a value gives: it isn't of its form, it asks for a chunk, it gives a definition, or it
/// gives nothing beside its text.
#[derive(Drop)]
pub(crate) enum Value {
    Wrong,
    Chunk(ChunkSpec),
    Define(Define),
    Plain,
}

/// What a value of a form gives, where words ask for chunks of these names.
pub(crate) fn value_of(
    alloc: Global,
    form: Form,
    value: Option<&str>,
    names: &Names<'_>,
) -> Result<Value, AllocError>
    ensures { IfOk result (forming.IsValue (forming.names_in names.now) form (option_copied value.entry)) }
{
    let Some(text) = value else {
        return Ok(plain_if(form == Form::Switch));
    };
    match form {
        Form::AnyText => Ok(Value::Plain),
        Form::Chunk => chunk_value(alloc, text),
        Form::ChunkWrapper => Ok(plain_if(is_chunk_wrapper(text, names))),
        Form::OutputWrapper => Ok(plain_if(around(text, "%output%").is_some())),
        Form::Define => define_value(alloc, text),
        Form::Switch => Ok(plain_if(is_truth(text))),
        Form::Level => Ok(plain_if(is_level(text))),
        Form::Workers => Ok(plain_if(is_positive(text))),
        Form::Synthesis => Ok(plain_if(synthesis_of(text).is_some())),
        Form::Bound => Ok(plain_if(bound_of(text).is_some())),
    }
}

fn plain_if(formed: bool) -> Value
    ensures { MatchBool formed (result ≡ given.Plain) (result ≡ given.Wrong) }
{
    if formed { Value::Plain } else { Value::Wrong }
}

fn chunk_value(alloc: Global, text: &str) -> Result<Value, AllocError>
    ensures { IfOk result (forming.IsValue [] variant.Chunk (Some text.now)) }
{
    match chunk_of(alloc, text)? {
        Some(spec) => Ok(Value::Chunk(spec)),
        None => Ok(Value::Wrong),
    }
}

fn define_value(alloc: Global, text: &str) -> Result<Value, AllocError>
    ensures { IfOk result (forming.IsValue [] variant.Define (Some text.now)) }
{
    match define_of(alloc, text)? {
        Some(define) => Ok(Value::Define(define)),
        None => Ok(Value::Wrong),
    }
}

/// Whether the text is `name:text` for a chunk of these names, if there are any, and the text has
/// one `%s`.
fn is_chunk_wrapper(text: &str, names: &Names<'_>) -> bool
    ensures { MatchBool result
        (values.HasForm (forming.names_in names.now) variant.ChunkWrapper (Some text.now))
        (¬ values.HasForm (forming.names_in names.now) variant.ChunkWrapper (Some text.now)) }
{
    let (name, behind) = split_at_first(text, ':');
    let Some(wrapper) = behind else {
        return false;
    };
    if !is_chunk_name(name) || around(wrapper, "%s").is_none() {
        return false;
    }
    is_among(name, names)
}

/// Whether there are no names, or this is one of them.
fn is_among(name: &str, names: &Names<'_>) -> bool
    ensures { IsTrue result ↔ ((forming.names_in names.now ≡ []) ⊎ Contains (forming.names_in names.now) name.now) }
{
    names.is_empty() || names.contains(name)
}

fn is_truth(text: &str) -> bool
    ensures { result ≡ (bytes_eq text.now (codes "true") || bytes_eq text.now (codes "false")) }
{
    text == "true" || text == "false"
}

fn is_level(text: &str) -> bool
    ensures { result ≡ (bytes_eq text.now (codes "ADVANCED")
        || bytes_eq text.now (codes "ADVANCED_OPTIMIZATIONS")) }
{
    text == "ADVANCED" || text == "ADVANCED_OPTIMIZATIONS"
}

fn is_positive(text: &str) -> bool
    ensures { MatchBool result (forming.IsPositive text.now) (¬ forming.IsPositive text.now) }
{
    if !is_decimal(text) {
        return false;
    }
    decimal_within(text, 0, 0).is_none()
}

/// The input of `seed,size`.
pub(crate) fn synthesis_of(text: &str) -> Option<Synthesis>
    ensures { result ≡ values.synthesis_of text.now }
{
    let (seed, size) = split_at_first(text, ',');
    let seed = decimal_within(seed, 0, u64::MAX)?;
    let size = decimal_within(size?, 1, MOST_SIZE)?;
    let size = size as u32;
    Some(Synthesis { seed, size })
}

/// The greatest cost of a run.
pub(crate) fn bound_of(text: &str) -> Option<u64>
    ensures { result ≡ values.bound_of text.now }
{
    decimal_within(text, 0, MOST_BOUND)
}
