// The settings of words that have no fault.

ghost use Rattle.std.specs.Prelude.{◌≤◌, count_by, IfErr, IfOk, Option, OnOk};
ghost use Rattle.cc_flags.specs.declared.usage.Usage.{Usage as Fault};
ghost use Rattle.cc_flags.specs.Texts.{texts};
ghost use Rattle.cc_flags.specs.Words as spec;
ghost use Rattle.cc_flags.specs.Faults as faults;
ghost use Rattle.cc_flags.specs.Giving as giving;
ghost use Rattle.cc_flags.specs.Readings as readings;
ghost use Rattle.cc_flags.specs.Steps as steps;

use crate::check::read_values;
use crate::cut::cut_words;
use crate::flag::Call;
use crate::given::Given;
use crate::item::Item;
use crate::limit::check_limits;
use crate::missing::check_missing;
use crate::together::check_together;
use crate::usage::Usage;
use std::alloc::Global;

/// Settings, and what they give beside their texts.
#[derive(Drop)]
pub(crate) struct Settings<'a> {
    pub(crate) items: Vec<Item<'a>>,
    pub(crate) given: Given,
}

/// The first fault of settings that have no fault of a word's form.
fn check_later(items: &[Item<'_>], call: Call, count: usize) -> Result<(), Usage>
    requires order { steps.StandInOrder (spec.settings_of items.now) }
    requires form { (u : Fault) → ¬ faults.FormFault (spec.settings_of items.now) Option.None u }
    ensures few { OnOk result (count_by faults.is_file (spec.settings_of items.now) ≤ 1024) }
    ensures sound { OnOk result ((u : Fault)
        → ¬ faults.HasFault call (spec.settings_of items.now) Option.None count u) }
    ensures first { IfErr result (steps.IsFirstOf
        (faults.HasFault call (spec.settings_of items.now) Option.None count)) }
{
    check_together(items)?;
    check_missing(items, call, count)?;
    check_limits(items)
}

/// The settings of words, or the first fault of the words.
pub(crate) fn read_settings<'a>(
    alloc: Global,
    words: &'a [String],
    call: Call,
) -> Result<Settings<'a>, Usage>
    ensures sound { IfOk result (λ read. readings.AreSound call (texts words.now)
        (spec.settings_of read.items.items)) }
    ensures given { IfOk result (λ read. giving.IsGiven (spec.settings_of read.items.items)
        read.given) }
    ensures few { IfOk result (λ read. count_by faults.is_file
        (spec.settings_of read.items.items) ≤ 1024) }
    ensures first { IfErr result (steps.FaultOrMemory call (texts words.now)) }
{
    let cut = cut_words(alloc, words, call)?;
    let given = read_values(alloc, &cut)?;
    check_later(cut.items.as_slice(), call, words.len())?;
    let items = cut.items;
    Ok(Settings { items, given })
}
