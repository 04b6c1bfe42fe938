// How a run ends, and how an act that breaks a rule ends it.

ghost use Rattle.std.specs.Prelude.{◌≡◌, ℕ, nat_le};
ghost use Rattle.cc_meaning.specs.Acts.{is_fatal};
ghost use Rattle.cc_meaning.specs.Judge.{Act};
ghost use Rattle.cc_acts.specs.Verdicts.{end_at, end_of, mode_of};
ghost use Rattle.cc_acts.specs.Shown.{Settles, ended, spot_of};

use std::alloc::AllocError;

/// Where an act stands: a site of the program, or a turn of the script.
#[derive(Clone, Copy)]
pub enum Spot {
    Site(u32),
    Turn(u32),
}

/// Why a run ends before its last turn: the budget is used up; a reply is asked for and none is
/// left; an act breaks a rule; or, in the plain run, an act has no value to go on with.
#[derive(Clone, Copy)]
pub enum End {
    Spent,
    Waits,
    Broken(u8, Spot),
    Outside(Spot),
}

/// Why an act gives no value: the run ends, or want of memory.
#[derive(Clone, Copy)]
pub enum Stop {
    Ended(End),
    Memory,
}

impl From<AllocError> for Stop {
    ghost use Rattle.cc_acts.specs.declared.stop.Stop.TheVariants.{Memory};
    ghost use Rattle.std.specs.Prelude.{◌≡◌};

    ghost from_gives = { λ _ e. e ≡ Memory };

    fn from(_refused: AllocError) -> Stop {
        Stop::Memory
    }
}

/// The end at an act for which there is no value to go on with.
pub fn fault(plain: bool, rule: u8, spot: Spot) -> End
    ensures { ended result ≡ (mode_of plain).fault rule (spot_of spot) }
{
    if plain {
        End::Outside(spot)
    } else {
        End::Broken(rule, spot)
    }
}

// The end of a run at a rule that is broken, which the plain run heeds where it is fatal.
fn refuse(plain: bool, spot: Spot, fatal: bool, rule: u8) -> Result<(), Stop>
    ensures { Settles result (end_at plain (spot_of spot) fatal rule) }
{
    if plain && !fatal {
        return Ok(());
    }
    Err(Stop::Ended(fault(plain, rule, spot)))
}

/// Ends the run where this is the least rule that an act of the program breaks, and the mode heeds
/// it: the checked run each, and the plain run 1, 2 and 3.
pub fn settle(plain: bool, spot: Spot, rule: Option<u8>) -> Result<(), Stop>
    ensures { (a : Act) → ((r : ℕ) → is_fatal a r ≡ nat_le r 3) → Settles result (end_of plain (spot_of spot) a rule) }
{
    match rule {
        Some(rule) => refuse(plain, spot, rule <= 3, rule),
        None => Ok(()),
    }
}
