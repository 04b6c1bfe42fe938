// What is missing.

ghost use Rattle.std.specs.Prelude.{◌≡◌, ◌≢◌, [], MatchBool, IfErr, OnOk};
ghost use Rattle.cc_flags.specs.Words as spec;
ghost use Rattle.cc_flags.specs.Faults as faults;
ghost use Rattle.cc_flags.specs.Steps as steps;

use crate::flag::{Call, Flag};
use crate::item::{Item, is_given, is_on, last_value};
use crate::usage::{Usage, UsageKind};

fn has_source(items: &[Item<'_>]) -> bool
    ensures { MatchBool result (spec.sources_of (spec.settings_of items.now) ≢ [])
        (spec.sources_of (spec.settings_of items.now) ≡ []) }
{
    items.iter().any(|item| item.source().is_some())
}

/// Whether there is no source file where one is needed.
fn lacks_source(items: &[Item<'_>]) -> bool
    ensures { MatchBool result (faults.HasNoSource (spec.settings_of items.now))
        (¬ faults.HasNoSource (spec.settings_of items.now)) }
{
    !has_source(items) && !is_given(items, Flag::Synthesize)
}

/// Whether words say where the output goes, or what is to be replayed.
fn has_output(items: &[Item<'_>], call: Call) -> bool
    ensures { result ≡ faults.has_output call (spec.settings_of items.now) }
{
    match call {
        Call::Compile => is_given(items, Flag::JsOutputFile)
            || is_given(items, Flag::Chunk)
            || is_given(items, Flag::Synthesize)
            || is_on(items, Flag::ChecksOnly),
        Call::Replay => last_value(items, Flag::Script).is_some(),
    }
}

/// What is missing first among so many words.
pub(crate) fn check_missing(items: &[Item<'_>], call: Call, count: usize) -> Result<(), Usage>
    ensures sound { OnOk result (steps.HaveAll call (spec.settings_of items.now)) }
    ensures fault { IfErr result (steps.MissingFault call (spec.settings_of items.now) count) }
{
    let at = count;
    if lacks_source(items) {
        let kind = UsageKind::MissingJs;
        return Err(Usage::Word { at, kind });
    }
    if !has_output(items, call) {
        let kind = UsageKind::MissingOutput;
        return Err(Usage::Word { at, kind });
    }
    Ok(())
}
