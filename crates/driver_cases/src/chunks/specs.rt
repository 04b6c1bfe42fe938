// The specs of chunks.

use crate::text::number;
use cc_chunks::ChunkSpec;
use std::alloc::Global;

/// Specs with one space between them.
pub fn specs_of(alloc: Global, text: &str) -> Option<Vec<ChunkSpec>> {
    let mut specs = Vec::new(alloc);
    for word in text.split(' ') {
        if !push_spec(alloc, &mut specs, word) {
            return None;
        }
    }
    Some(specs)
}

fn push_spec(alloc: Global, specs: &mut Vec<ChunkSpec>, text: &str) -> bool {
    match spec_of(alloc, text) {
        Some(spec) => specs.push(spec).is_ok(),
        None => false,
    }
}

/// `NAME:COUNT` or `NAME:COUNT:DEP,DEP`.
fn spec_of(alloc: Global, text: &str) -> Option<ChunkSpec> {
    let Some((name, rest)) = text.split_once(':') else {
        return None;
    };
    let (count, names) = rest.split_once(':').unwrap_or((rest, ""));
    let Some(count) = number(count) else {
        return None;
    };
    spec_with(alloc, name, count, names)
}

fn spec_with(alloc: Global, name: &str, count: u32, names: &str) -> Option<ChunkSpec> {
    let Some(deps) = deps_of(alloc, names) else {
        return None;
    };
    let Ok(name) = String::from_str(alloc, name) else {
        return None;
    };
    Some(ChunkSpec { name, count, deps })
}

fn deps_of(alloc: Global, names: &str) -> Option<Vec<String>> {
    let mut deps = Vec::new(alloc);
    if names.is_empty() {
        return Some(deps);
    }
    for name in names.split(',') {
        if !push_name(alloc, &mut deps, name) {
            return None;
        }
    }
    Some(deps)
}

fn push_name(alloc: Global, names: &mut Vec<String>, name: &str) -> bool {
    match String::from_str(alloc, name) {
        Ok(name) => names.push(name).is_ok(),
        Err(_) => false,
    }
}
