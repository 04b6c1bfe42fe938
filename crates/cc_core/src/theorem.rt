// What holds after every list of events.
ghost use Rattle.std.specs.Prelude.{◌≡◌, ℕ, ◌<◌, ◌^◌, List, Some, length, slice_get};
ghost use Rattle.cc_ast.specs.Syntax.{Program};
ghost use Rattle.cc_meaning.specs.Same.{Same};
ghost use Rattle.cc_meaning.specs.WellMade.{WellMade};
ghost use Rattle.cc_core.specs.Work.{Lawful, VisitsAll, after_phases};
ghost use Rattle.cc_core.specs.State.{State, started, reading, undone, pendings};
ghost use Rattle.cc_core.specs.Drawn.{after_claims};
ghost use Rattle.cc_core.specs.Events.{Event, Claims, Closes, event, after_enter, Leads, StoresRewrites, ends, IsOneWorkers};

use crate::rules::Rules;

/// For every source that the first step may be given, whatever events come of any number of
/// workers, and in every state that they lead to: each stored scope is the plan's rewrite of the
/// base's scope; the program that is shown means what the source means, and is well made where the
/// base is; and right after the first close at which no phase follows it is the program that one worker makes.
pub fn every_run<R: Rules>(rules: &R)
    ensures stored { (source : Program) (events : List Event) (s : State) → (R.work rules.now).fits 0 source → length source.scopes < 2 ^ 32 → Leads (R.work rules.now) (started source) events s → StoresRewrites (R.work rules.now) s }
    ensures same { (source : Program) (events : List Event) (s : State) → (R.work rules.now).fits 0 source → length source.scopes < 2 ^ 32 → Leads (R.work rules.now) (started source) events s → Same source (reading (R.work rules.now) s) }
    ensures well_made { (source : Program) (events : List Event) (s : State) → (R.work rules.now).fits 0 source → length source.scopes < 2 ^ 32 → Leads (R.work rules.now) (started source) events s → WellMade s.base → WellMade (reading (R.work rules.now) s) }
    ensures one_worker { (source : Program) (events : List Event) (s : State) → (R.work rules.now).fits 0 source → length source.scopes < 2 ^ 32 → Leads (R.work rules.now) (started source) events s → undone s.slots ≡ 0 → ((k : ℕ) → k < s.closed → ends (R.work rules.now) (after_phases (R.work rules.now) source k) → ⊥) → ends (R.work rules.now) (s.step, s.base) → IsOneWorkers (R.work rules.now) source (reading (R.work rules.now) (event (R.work rules.now) s Closes)) }
{}

/// Where claims alone are made, the claim after k of them is that of the k-th slot that was pending.
pub fn drawn<R: Rules>(rules: &R)
    ensures { (s : State) (k slot : ℕ) → slice_get (pendings s.slots) k ≡ Some slot → event (R.work rules.now) (after_claims k s) Claims ≡ after_enter slot (after_claims k s) }
{}

/// The law, for a proof to call.
pub fn law<R: Rules>(rules: &R)
    ensures lawful { Lawful (R.work rules.now) }
    ensures visits_all { VisitsAll (R.work rules.now) }
{}
