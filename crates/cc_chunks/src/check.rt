// One spec at a time.

ghost use Rattle.std.specs.Prelude.{◌≡◌, ℕ, ◌+◌, ◌^◌, ◌<◌, ◌≤◌, IfOk, OnOk, IfErr, List, length, slice_get, Some, None, map, take, sum, IsTrue, ◌↔◌, string_bytes};
ghost use Rattle.std.specs.List.{Contains, Any};
ghost use Rattle.cc_chunks.specs.Faults.{first_of, names_of, dep_names, counts_of, IsChunkAt, IsFaultAt, IsCountFaultAt, TakesTooMany, LeavesFiles};
ghost use Rattle.cc_chunks.specs.Numbers.{number_in, IsUnknownFault};
ghost use Rattle.cc_chunks.specs.declared.spec.ChunkSpec as Spec;

use crate::names::{Numbers, number_of};
use crate::spec::{ChunkFault, ChunkSpec};
use cc_ast::tables::{ChunkInfo, ChunkName};
use sqlite_items::Items;
use std::alloc::{AllocError, Global};

/// The chunk of a spec, or the first fault of it beside that of its count.
pub(crate) fn chunk_at(
    alloc: Global,
    specs: &[ChunkSpec],
    numbers: &Numbers<'_>,
    at: usize,
) -> Result<ChunkInfo, ChunkFault>
    requires within { at < length specs.now }
    requires few { length specs.now < 2 ^ 32 }
    requires numbers { (name : List ℕ) → number_in numbers.now name
        ≡ first_of (names_of specs.now) name }
    ensures chunk { IfOk result (λ chunk. (spec : Spec.ChunkSpec) → slice_get specs.now at ≡ Some spec
        → IsChunkAt specs.now at spec chunk) }
    ensures fault { IfErr result (IsFaultAt specs.now at) }
{
    let spec = &specs[at];
    let number = at as u32;
    if number_of(numbers, spec.name.as_str()) != Some(number) {
        return Err(ChunkFault::DoubleName(number));
    }
    let deps = dep_numbers(alloc, numbers, spec, number)?;
    if any_from(deps.as_slice(), number) {
        return Err(ChunkFault::LaterDep(number));
    }
    let Ok(chunk) = chunk_of(spec, deps) else {
        return Err(ChunkFault::Memory);
    };
    Ok(chunk)
}

fn chunk_of(spec: &ChunkSpec, deps: Items<u32>) -> Result<ChunkInfo, AllocError>
    ensures name { IfOk result (λ chunk. chunk.name ≡ string_bytes spec.now.name) }
    ensures deps { IfOk result (λ chunk. chunk.deps ≡ deps) }
{
    let text = spec.name.clone()?;
    Ok(ChunkInfo {
        name: ChunkName { text },
        deps,
    })
}

/// Whether one of the numbers is this or a greater one.
fn any_from(deps: &[u32], number: u32) -> bool
    ensures { IsTrue result ↔ Any (λ dep. number ≤ dep) deps.now }
{
    deps.iter().any(|dep| number <= *dep)
}

/// The numbers of the chunks that a spec depends on.
fn dep_numbers(
    alloc: Global,
    numbers: &Numbers<'_>,
    spec: &ChunkSpec,
    number: u32,
) -> Result<Items<u32>, ChunkFault>
    ensures known { IfOk result (λ deps. map (λ d. Some d) deps
        ≡ map (number_in numbers.now) (dep_names spec.now)) }
    ensures unknown { IfErr result (IsUnknownFault number
        (Any (λ name. number_in numbers.now name ≡ None) (dep_names spec.now))) }
{
    let mut deps = Items::new(alloc);
    for name in spec.deps.as_slice() {
        match number_of(numbers, name.as_str()) {
            Some(dep) => deps.push(dep)?,
            None => return Err(ChunkFault::UnknownDep(number)),
        }
    }
    Ok(deps)
}

/// Whether so many files as are taken by a spec and those before it are too many, or too few for
/// the last one.
pub(crate) fn check_count(
    specs: &[ChunkSpec],
    files: u32,
    at: usize,
    taken: u64,
) -> Result<(), ChunkFault>
    requires within { at < length specs.now }
    requires few { length specs.now < 2 ^ 32 }
    requires taken { taken ≡ sum (take (at + 1) (counts_of specs.now)) }
    ensures enough { OnOk result (taken ≤ files) }
    ensures sound { OnOk result ((¬ TakesTooMany specs.now files at)
        × (¬ LeavesFiles specs.now files at)) }
    ensures fault { IfErr result (IsCountFaultAt specs.now files at) }
{
    let wanted = u64::from(files);
    let is_last = at + 1 == specs.len();
    if taken > wanted || (is_last && taken < wanted) {
        return Err(ChunkFault::FileCount(at as u32));
    }
    Ok(())
}
