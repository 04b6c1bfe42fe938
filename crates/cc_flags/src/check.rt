// The faults of settings, stage by stage.

ghost use Rattle.std.specs.Prelude.{IfErr, IfOk, OnOk};
ghost use Rattle.cc_flags.specs.declared.usage.Usage.{Usage as Fault};
ghost use Rattle.cc_flags.specs.Words as spec;
ghost use Rattle.cc_flags.specs.Faults as faults;
ghost use Rattle.cc_flags.specs.Forming as forming;
ghost use Rattle.cc_flags.specs.Giving as giving;
ghost use Rattle.cc_flags.specs.Steps as steps;

use crate::cut::Cut;
use crate::given::Given;
use crate::item::Item;
use crate::names::{Names, chunk_names};
use crate::usage::Usage;
use std::alloc::Global;

/// What settings give beside their texts, or the first fault of a word's form.
pub(crate) fn read_values(alloc: Global, cut: &Cut<'_>) -> Result<Given, Usage>
    requires { steps.AreOrdered (spec.settings_of cut.now.items.items) cut.now.stop }
    ensures given { IfOk result (giving.IsGiven (spec.settings_of cut.now.items.items)) }
    ensures sound { OnOk result ((u : Fault)
        → ¬ faults.FormFault (spec.settings_of cut.now.items.items) cut.now.stop u) }
    ensures first { IfErr result (steps.FirstOrMemory
        (faults.FormFault (spec.settings_of cut.now.items.items) cut.now.stop)) }
{
    let given = read_given(alloc, cut.items.as_slice())?;
    match cut.stop {
        Some(stop) => Err(stop.fault()),
        None => Ok(given),
    }
}

/// The same of settings, whatever stop stands behind them.
fn read_given(alloc: Global, items: &[Item<'_>]) -> Result<Given, Usage>
    ensures given { IfOk result (giving.IsGiven (spec.settings_of items.now)) }
    ensures sound { OnOk result (steps.HaveForms (spec.settings_of items.now)) }
    ensures first { IfErr result (steps.FirstForm (spec.settings_of items.now)) }
{
    let names = chunk_names(alloc, items)?;
    read_items(alloc, items, &names)
}

/// The same, where words ask for chunks of these names.
fn read_items(alloc: Global, items: &[Item<'_>], names: &Names<'_>) -> Result<Given, Usage>
    requires { forming.HaveSame (forming.names_in names.now) (spec.chunk_names (spec.settings_of items.now)) }
    ensures given { IfOk result (giving.IsGiven (spec.settings_of items.now)) }
    ensures sound { OnOk result (steps.HaveForms (spec.settings_of items.now)) }
    ensures first { IfErr result (steps.FirstForm (spec.settings_of items.now)) }
{
    let mut given = Given::new(alloc);
    for item in items {
        given.add(alloc, item, names)?;
    }
    Ok(given)
}
