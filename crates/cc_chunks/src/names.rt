// The specs by their names.

ghost use Rattle.std.specs.Prelude.{◌≡◌, ℕ, ◌^◌, ◌<◌, IfOk, OnOk, List, length};
ghost use Rattle.cc_chunks.specs.Faults.{first_of, names_of};
ghost use Rattle.cc_chunks.specs.Numbers.{number_in, number_after};

use crate::spec::ChunkSpec;
use indexmap::IndexMap;
use std::alloc::{AllocError, Global};

/// The number of the first spec with each name.
pub(crate) type Numbers<'a> = IndexMap<&'a str, u32>;

pub(crate) fn first_numbers<'a>(
    alloc: Global,
    specs: &'a [ChunkSpec],
) -> Result<Numbers<'a>, AllocError>
    requires { length specs.now < 2 ^ 32 }
    ensures { IfOk result (λ numbers. (name : List ℕ) → number_in numbers name
        ≡ first_of (names_of specs.now) name) }
{
    let mut numbers = IndexMap::new(alloc);
    for (i, spec) in specs.iter().enumerate() {
        enter(&mut numbers, spec.name.as_str(), i as u32)?;
    }
    Ok(numbers)
}

/// Enters the number of a name that has none yet.
fn enter<'a>(numbers: &mut Numbers<'a>, name: &'a str, number: u32) -> Result<(), AllocError>
    ensures { OnOk result ((other : List ℕ) → number_in numbers.new other
        ≡ number_after (number_in numbers.old) name.now number other) }
{
    if !numbers.contains_key(name) {
        numbers.insert(name, number)?;
    }
    Ok(())
}

pub(crate) fn number_of(numbers: &Numbers<'_>, name: &str) -> Option<u32>
    ensures { result ≡ number_in numbers.now name.now }
{
    numbers.get(name).copied()
}
