// Limits.

ghost use Rattle.std.specs.Prelude.{◌≡◌, ◌≤◌, count_by, MatchBool, MatchOption, IfErr, OnOk};
ghost use Rattle.cc_flags.specs.declared.usage.Usage.{Usage as Fault};
ghost use Rattle.cc_flags.specs.Words as spec;
ghost use Rattle.cc_flags.specs.Faults as faults;
ghost use Rattle.cc_flags.specs.Steps as steps;

use crate::flag::Flag;
use crate::item::Item;
use crate::number::{decimal_within, is_decimal};
use crate::usage::Usage;
use cc_ast::reading::LimitKind;

const MOST_FILES: usize = 1024;

const MOST_CHUNKS: usize = 256;

pub(crate) const MOST_WORKERS: u64 = 64;

impl Item<'_> {
    /// Whether it names a file that is read.
    fn is_file(&self) -> bool
        ensures { result ≡ faults.is_file (spec.setting_of self.now) }
    {
        match self.flag {
            Some(flag) => flag == Flag::Js || flag == Flag::Externs || flag == Flag::Script,
            None => true,
        }
    }

    fn asks_too_many(&self) -> bool
        ensures { MatchBool result (faults.AsksTooMany (spec.setting_of self.now))
            (¬ faults.AsksTooMany (spec.setting_of self.now)) }
    {
        let Some(value) = self.value_for(Flag::Workers) else {
            return false;
        };
        if !is_decimal(value) {
            return false;
        }
        decimal_within(value, 0, MOST_WORKERS).is_none()
    }

    /// The limit that it passes behind so many files and chunks.
    fn excess(&self, files: usize, chunks: usize) -> Option<LimitKind>
        ensures { MatchOption result (steps.IsWithin files chunks (spec.setting_of self.now))
            (steps.IsExcess files chunks (spec.setting_of self.now)) }
    {
        if self.is_file() && files == MOST_FILES {
            return Some(LimitKind::Files);
        }
        if self.has_flag(Flag::Chunk) && chunks == MOST_CHUNKS {
            return Some(LimitKind::Chunks);
        }
        if self.asks_too_many() {
            return Some(LimitKind::Workers);
        }
        None
    }
}

/// The first limit that is passed.
pub(crate) fn check_limits(items: &[Item<'_>]) -> Result<(), Usage>
    requires { steps.StandInOrder (spec.settings_of items.now) }
    ensures few { OnOk result (count_by faults.is_file (spec.settings_of items.now) ≤ 1024) }
    ensures sound { OnOk result ((u : Fault) → ¬ faults.LimitFault (spec.settings_of items.now) u) }
    ensures first { IfErr result (steps.IsFirstIn (faults.LimitFault (spec.settings_of items.now))) }
{
    let mut files: usize = 0;
    let mut chunks: usize = 0;
    for item in items {
        if let Some(kind) = item.excess(files, chunks) {
            let at = item.at;
            return Err(Usage::Limit { at, kind });
        }
        files += usize::from(item.is_file());
        chunks += usize::from(item.has_flag(Flag::Chunk));
    }
    Ok(())
}
