// Counts by number, which grow as numbers come.
ghost use Rattle.std.specs.Prelude.{◌≡◌, [], ◌∷◌, OnOk};
ghost use Rattle.cc_rename.specs.Counting.{Reaches, Counts, Took};
ghost use Rattle.cc_rename.specs.Uses.{prints, spans, global, slot};

use std::alloc::AllocError;

/// How often each global and each slot is printed. There are as many counts of slots as slots that
/// are needed.
#[derive(Drop)]
pub(crate) struct Tally {
    pub globals: Vec<u64>,
    pub slots: Vec<u64>,
}

pub(crate) fn reach(counts: &mut Vec<u64>, n: usize) -> Result<(), AllocError>
    ensures { OnOk result (Reaches counts.old.items counts.new.items n) }
{
    while counts.len() < n {
        counts.push(0)?;
    }
    Ok(())
}

pub(crate) fn count(counts: &mut Vec<u64>, n: usize) -> Result<(), AllocError>
    ensures { OnOk result (Counts counts.old.items counts.new.items n) }
{
    let Some(room) = n.checked_add(1) else {
        return Err(AllocError);
    };
    reach(counts, room)?;
    let Some(more) = counts[n].checked_add(1) else {
        return Err(AllocError);
    };
    counts[n] = more;
    Ok(())
}

pub(crate) fn count_global(tally: &mut Tally, n: usize) -> Result<(), AllocError>
    ensures { OnOk result (Took tally.old.globals.items tally.old.slots.items tally.new.globals.items tally.new.slots.items (prints (global n) ∷ [])) }
{
    count(&mut tally.globals, n)?;
    Ok(())
}

pub(crate) fn count_slot(tally: &mut Tally, n: usize) -> Result<(), AllocError>
    ensures { OnOk result (Took tally.old.globals.items tally.old.slots.items tally.new.globals.items tally.new.slots.items (prints (slot n) ∷ [])) }
{
    count(&mut tally.slots, n)?;
    Ok(())
}

pub(crate) fn span(tally: &mut Tally, n: usize) -> Result<(), AllocError>
    ensures { OnOk result (Took tally.old.globals.items tally.old.slots.items tally.new.globals.items tally.new.slots.items (spans n ∷ [])) }
{
    reach(&mut tally.slots, n)?;
    Ok(())
}
