// Tables of names.

ghost use Rattle.std.specs.Prelude.{◌≡◌, ◌≤◌, ◌++◌, ◌∷◌, [], not, cond, length, IfOk, OnOk};
ghost use Rattle.cc_driver.specs.Names.{is_in};
ghost use Rattle.cc_driver.specs.Source.{number_of};
ghost use Rattle.cc_driver.specs.FormChecks.{names_in};

use cc_ast::units::Units;
use indexmap::IndexSet;
use std::alloc::AllocError;

/// Names, each once, in the order in which they came.
pub(crate) type NameTable<'a> = IndexSet<&'a [u16]>;

/// Enters a name, and tells whether it is new.
pub(crate) fn enter_name<'a>(table: &mut NameTable<'a>, name: &'a Units) -> Result<bool, AllocError>
    ensures new { IfOk result (λ is_new. is_new ≡ not (is_in name.now (names_in table.old))) }
    ensures names { OnOk result (names_in table.new ≡ cond (is_in name.now (names_in table.old)) (names_in table.old) (names_in table.old ++ name.now ∷ [])) }
{
    let (_, is_new) = table.insert_full(name.list.as_slice())?;
    Ok(is_new)
}

pub(crate) fn has_name(table: &NameTable<'_>, name: &Units) -> bool
    ensures { result ≡ is_in name.now (names_in table.now) }
{
    table.contains(name.list.as_slice())
}

#[tactic(auto, using(crate::proofs::Tables::found_at, crate::proofs::Tables::found_nowhere, crate::proofs::Tables::shown_length))]
/// The place of a name, or how many names there are where it isn't there.
pub(crate) fn name_number(table: &NameTable<'_>, name: &Units) -> usize
    ensures number { result ≡ number_of (names_in table.now) name.now }
    ensures within { result ≤ length (names_in table.now) }
{
    match table.get_index_of(name.list.as_slice()) {
        Some(number) => number,
        None => table.len(),
    }
}
