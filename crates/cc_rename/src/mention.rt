// How often the names of variables are printed, part by part.
ghost use Rattle.std.specs.Prelude.{◌≡◌, [], ◌∷◌, ◌++◌, OnOk};
ghost use Rattle.cc_printer.specs.RawOf.{Frames, places, outside};
ghost use Rattle.cc_printer.specs.Naming.{inside_catches};
ghost use Rattle.cc_rename.specs.Counting.{Took, sums};
ghost use Rattle.cc_rename.specs.Uses.{prints, slot, meant, own_uses, slot_uses};

use crate::frames::{enter_own, places_behind, slot_of};
use crate::tally::{Tally, count_global, count_slot};
use cc_ast::tree::Ref;
use std::alloc::AllocError;

/// A mention or declaration of a variable, behind so many `catch` clauses.
pub(crate) fn count_variable(
    tally: &mut Tally,
    ends: &[usize],
    catches: usize,
    r: Ref,
) -> Result<(), AllocError>
    ensures { OnOk result ((fs : Frames) → ends.now ≡ sums fs → Took tally.old.globals.items tally.old.slots.items tally.new.globals.items tally.new.slots.items (prints (meant (inside_catches catches fs) r) ∷ [])) }
{
    match r {
        Ref::Global(n) => {
            count_global(tally, n as usize)?;
        }
        Ref::Frame(up, place) => {
            let Some(n) = slot_of(ends, catches, up, place) else {
                return Err(AllocError);
            };
            count_slot(tally, n)?;
        }
    }
    Ok(())
}

/// The variable of a `catch` clause behind so many others.
pub(crate) fn count_clause(
    tally: &mut Tally,
    ends: &[usize],
    catches: usize,
) -> Result<(), AllocError>
    ensures { OnOk result ((fs : Frames) → ends.now ≡ sums fs → Took tally.old.globals.items tally.old.slots.items tally.new.globals.items tally.new.slots.items (prints (slot (places (inside_catches catches fs))) ∷ [])) }
{
    let Some(n) = places_behind(ends, 0).checked_add(catches) else {
        return Err(AllocError);
    };
    count_slot(tally, n)?;
    Ok(())
}

/// The own name of a function, where it has one.
pub(crate) fn count_own(tally: &mut Tally, ends: &[usize], own: bool) -> Result<(), AllocError>
    ensures { OnOk result ((fs : Frames) → ends.now ≡ sums fs → Took tally.old.globals.items tally.old.slots.items tally.new.globals.items tally.new.slots.items (own_uses own fs)) }
{
    if own {
        count_slot(tally, places_behind(ends, 0))?;
    }
    Ok(())
}

/// So many parameters, from a slot on.
pub(crate) fn count_params(tally: &mut Tally, from: usize, n: usize) -> Result<(), AllocError>
    ensures { OnOk result (Took tally.old.globals.items tally.old.slots.items tally.new.globals.items tally.new.slots.items (slot_uses from n)) }
{
    for k in 0..n {
        let Some(at) = from.checked_add(k) else {
            return Err(AllocError);
        };
        count_slot(tally, at)?;
    }
    Ok(())
}

/// The own name and the parameters of a function, which is left in the frames outside its own.
pub(crate) fn count_head(
    tally: &mut Tally,
    ends: &mut Vec<usize>,
    own: bool,
    params: u32,
) -> Result<(), AllocError>
    ensures frames { OnOk result ((fs : Frames) → ends.old.items ≡ sums fs → ends.new.items ≡ sums (outside own fs)) }
    ensures counts { OnOk result ((fs : Frames) → ends.old.items ≡ sums fs → Took tally.old.globals.items tally.old.slots.items tally.new.globals.items tally.new.slots.items (own_uses own fs ++ slot_uses (places (outside own fs)) params)) }
{
    count_own(tally, ends.as_slice(), own)?;
    enter_own(ends, own)?;
    count_params(tally, places_behind(ends.as_slice(), 0), params as usize)?;
    Ok(())
}
