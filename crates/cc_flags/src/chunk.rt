// Chunks that words ask for.

ghost use Rattle.std.specs.Prelude.{◌≡◌, IfOk, option_map};
ghost use Rattle.std.specs.List.{list_all};
ghost use Rattle.std.specs.Option.{option_copied};
ghost use Rattle.cc_flags.specs.Texts.{texts};
ghost use Rattle.cc_flags.specs.Values as values;

use crate::number::decimal_within;
use crate::text::split_at_first;
use cc_chunks::ChunkSpec;
use std::alloc::{AllocError, Global};

fn is_name_part(byte: u8) -> bool
    ensures { result ≡ values.is_name_part byte }
{
    byte.is_ascii_alphanumeric() || byte == b'-' || byte == b'.' || byte == b'_'
}

/// Whether the text may be a chunk's name.
pub(crate) fn is_chunk_name(name: &str) -> bool
    ensures { result ≡ values.is_chunk_name name.now }
{
    !name.is_empty() && are_name_parts(name.as_bytes())
}

fn are_name_parts(bytes: &[u8]) -> bool
    ensures { result ≡ list_all values.is_name_part bytes.now }
{
    bytes.iter().all(|byte| is_name_part(*byte))
}

/// The names of a text in which commas stand between them, and none where there is no text.
/// `None` where one is no chunk's name.
fn deps_of(alloc: Global, text: Option<&str>) -> Result<Option<Vec<String>>, AllocError>
    ensures { IfOk result (λ deps. option_map (λ names. texts names.items) deps
        ≡ values.deps_of (option_copied text.entry)) }
{
    let mut deps = Vec::new(alloc);
    let mut rest = text;
    while let Some(names) = rest {
        let (name, behind) = split_at_first(names, ',');
        if !is_chunk_name(name) {
            return Ok(None);
        }
        deps.push(String::from_str(alloc, name)?)?;
        rest = behind;
    }
    Ok(Some(deps))
}

/// The chunk of `name:count` or `name:count:dep,dep`, and `None` of any other text.
pub(crate) fn chunk_of(alloc: Global, value: &str) -> Result<Option<ChunkSpec>, AllocError>
    ensures { IfOk result (λ spec. option_map values.chunk_in spec ≡ values.chunk_of value.now) }
{
    let (name, rest) = split_at_first(value, ':');
    if !is_chunk_name(name) {
        return Ok(None);
    }
    match rest {
        Some(rest) => chunk_with(alloc, name, rest),
        None => Ok(None),
    }
}

/// The chunk of a name and the text behind its colon.
fn chunk_with(alloc: Global, name: &str, text: &str) -> Result<Option<ChunkSpec>, AllocError>
    ensures { IfOk result (λ spec. option_map values.chunk_in spec
        ≡ values.chunk_with name.now text.now) }
{
    let (digits, deps) = split_at_first(text, ':');
    let Some(count) = decimal_within(digits, 0, u64::from(u32::MAX)) else {
        return Ok(None);
    };
    let Some(deps) = deps_of(alloc, deps)? else {
        return Ok(None);
    };
    let name = String::from_str(alloc, name)?;
    let count = count as u32;
    Ok(Some(ChunkSpec { name, count, deps }))
}
