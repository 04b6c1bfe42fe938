// Where the output goes, and what is wrapped round it.

ghost use Rattle.std.specs.Prelude.{◌≡◌, IfOk, List, ℕ, codes, true};
ghost use Rattle.std.specs.List.{AllZip};
ghost use Rattle.std.specs.Option.{option_copied};
ghost use Rattle.cc_flags.specs.declared.flag.Flag.TheVariants as variant;
ghost use Rattle.cc_flags.specs.Words as spec;
ghost use Rattle.cc_flags.specs.Jobs as jobs;
ghost use Rattle.cc_flags.specs.Wrapping as wrapping;

use crate::flag::Flag;
use crate::item::{Item, is_given, is_on, last_value};
use crate::job::{Output, Wrapper};
use crate::text::{around, split_at_first};
use indexmap::IndexMap;
use std::alloc::{AllocError, Global};

/// The texts of wrappers by the names of their chunks.
type Texts<'a> = IndexMap<&'a str, &'a str>;

impl<'a> Item<'a> {
    /// The name of a chunk, and the text of the wrapper that it gives to the chunk.
    fn chunk_wrapper(&self) -> Option<(&'a str, &'a str)>
        ensures { (name : List ℕ) → wrapping.text_if name result
            ≡ wrapping.wraps name (spec.setting_of self.now) }
    {
        let value = self.value_for(Flag::ChunkWrapper)?;
        let (name, text) = split_at_first(value, ':');
        match text {
            Some(text) => Some((name, text)),
            None => None,
        }
    }
}

/// The wrappers' texts; of several for one chunk the last counts.
fn texts_by_name<'a>(alloc: Global, items: &[Item<'a>]) -> Result<Texts<'a>, AllocError>
    ensures { IfOk result (wrapping.HasTexts (spec.settings_of items.now)) }
{
    let mut texts = IndexMap::new(alloc);
    for item in items {
        if let Some((name, text)) = item.chunk_wrapper() {
            texts.insert(name, text)?;
        }
    }
    Ok(texts)
}

fn text_in<'a>(texts: &Texts<'a>, name: &str) -> Option<&'a str>
    ensures { option_copied result ≡ wrapping.text_in texts.now name.now }
{
    texts.get(name).copied()
}

/// The wrapper of a text, if there is one.
fn wrapper_of(
    alloc: Global,
    text: Option<&str>,
    marker: &str,
) -> Result<Option<Wrapper>, AllocError>
    ensures { IfOk result (jobs.IsWrapperOf marker.now (option_copied text.entry)) }
{
    let Some(text) = text else {
        return Ok(None);
    };
    let Some((before, behind)) = around(text, marker) else {
        return Ok(None);
    };
    let before = String::from_str(alloc, before)?;
    let behind = String::from_str(alloc, behind)?;
    Ok(Some(Wrapper { before, behind }))
}

/// The wrappers of the chunks, one entry for each.
fn chunk_wrappers(alloc: Global, items: &[Item<'_>]) -> Result<Vec<Option<Wrapper>>, AllocError>
    ensures { IfOk result (λ wrappers. AllZip (jobs.IsWrapperOf (codes "%s"))
        (jobs.wrapper_texts (spec.settings_of items.now)) wrappers.items) }
{
    let texts = texts_by_name(alloc, items)?;
    let mut wrappers = Vec::new(alloc);
    for item in items {
        if let Some(value) = item.value_for(Flag::Chunk) {
            let (name, _) = split_at_first(value, ':');
            let text = text_in(&texts, name);
            wrappers.push(wrapper_of(alloc, text, "%s")?)?;
        }
    }
    Ok(wrappers)
}

/// One file of this name.
fn file(alloc: Global, items: &[Item<'_>], name: &str) -> Result<Output, AllocError>
    requires written { jobs.writes (spec.settings_of items.now) ≡ true }
    requires named { spec.value_of variant.JsOutputFile (spec.settings_of items.now) ≡ Some name.now }
    ensures { IfOk result (jobs.IsOutput (spec.settings_of items.now)) }
{
    let wrapper = wrapper_of(alloc, last_value(items, Flag::OutputWrapper), "%output%")?;
    let name = String::from_str(alloc, name)?;
    Ok(Output::File { name, wrapper })
}

/// A file for each chunk.
fn chunk_files(alloc: Global, items: &[Item<'_>]) -> Result<Output, AllocError>
    requires written { jobs.writes (spec.settings_of items.now) ≡ true }
    requires no_file { spec.value_of variant.JsOutputFile (spec.settings_of items.now) ≡ None }
    ensures { IfOk result (jobs.IsOutput (spec.settings_of items.now)) }
{
    let prefix = last_value(items, Flag::ChunkOutputPathPrefix).unwrap_or("./");
    let prefix = String::from_str(alloc, prefix)?;
    let wrappers = chunk_wrappers(alloc, items)?;
    Ok(Output::Chunks { prefix, wrappers })
}

/// Where the output of settings goes.
pub(crate) fn output_of(alloc: Global, items: &[Item<'_>]) -> Result<Output, AllocError>
    ensures { IfOk result (jobs.IsOutput (spec.settings_of items.now)) }
{
    if is_on(items, Flag::ChecksOnly) || is_given(items, Flag::Synthesize) {
        return Ok(Output::Nothing);
    }
    match last_value(items, Flag::JsOutputFile) {
        Some(name) => file(alloc, items, name),
        None => chunk_files(alloc, items),
    }
}
