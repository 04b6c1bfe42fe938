// The names of the chunks that words ask for.

ghost use Rattle.std.specs.Prelude.{◌≡◌, IfOk};
ghost use Rattle.cc_flags.specs.Words as spec;
ghost use Rattle.cc_flags.specs.Forming as forming;

use crate::flag::Flag;
use crate::item::Item;
use crate::text::split_at_first;
use indexmap::IndexSet;
use std::alloc::{AllocError, Global};

pub(crate) type Names<'a> = IndexSet<&'a str>;

pub(crate) fn chunk_names<'a>(alloc: Global, items: &[Item<'a>]) -> Result<Names<'a>, AllocError>
    ensures { IfOk result (λ names. forming.HaveSame (forming.names_in names)
        (spec.chunk_names (spec.settings_of items.now))) }
{
    let mut names = IndexSet::new(alloc);
    for item in items {
        if let Some(value) = item.value_for(Flag::Chunk) {
            let (name, _) = split_at_first(value, ':');
            names.insert(name)?;
        }
    }
    Ok(names)
}
