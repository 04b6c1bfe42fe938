// Flags that don't stand together.

ghost use Rattle.std.specs.Prelude.{◌≡◌, [], ◌∷◌, ◌++◌, Some, List, IfErr, OnOk, ℕ};
ghost use Rattle.cc_flags.specs.Words as spec;
ghost use Rattle.cc_flags.specs.Faults as faults;
ghost use Rattle.cc_flags.specs.Steps as steps;

use crate::flag::Flag;
use crate::item::{Item, is_given};
use crate::usage::{Usage, UsageKind};

/// Which kinds of flags have come: those of one output file, `--chunk`, `--synthesize`, and all
/// that don't stand with it.
#[derive(Clone, Copy)]
struct Met {
    output: bool,
    chunk: bool,
    synthesize: bool,
    other: bool,
}

impl Met {
    fn nothing() -> Met
        ensures { steps.HaveMet [] result }
    {
        Met {
            output: false,
            chunk: false,
            synthesize: false,
            other: false,
        }
    }

    /// Whether the flag doesn't stand with one that has come.
    fn clashes(&self, flag: Flag) -> bool
        ensures { result ≡ steps.clashes flag self.now }
    {
        (flag.is_output() && self.chunk)
            || (flag == Flag::Synthesize && self.other)
            || (self.output && flag == Flag::Chunk)
            || (self.synthesize && flag.is_other())
    }

    /// Whether it clashes, or needs chunks where none are asked for.
    fn refuses(&self, flag: Flag, has_chunks: bool) -> bool
        ensures { result ≡ steps.refuses flag self.now has_chunks }
    {
        self.clashes(flag) || (flag.needs_chunks() && !has_chunks)
    }

    fn add(&mut self, flag: Flag)
        ensures { self.new ≡ steps.met_with flag self.old }
    {
        self.output = self.output || flag.is_output();
        self.chunk = self.chunk || flag == Flag::Chunk;
        self.synthesize = self.synthesize || flag == Flag::Synthesize;
        self.other = self.other || flag.is_other();
    }
}

impl Flag {
    /// Whether it says something of one output file.
    fn is_output(self) -> bool
        ensures { result ≡ faults.is_output self }
    {
        self == Flag::JsOutputFile || self == Flag::OutputWrapper
    }

    /// Whether it doesn't stand with `--synthesize`.
    fn is_other(self) -> bool
        ensures { result ≡ faults.is_other self }
    {
        self != Flag::Workers && self != Flag::Synthesize
    }

    /// Whether it says something of chunks that are asked for.
    fn needs_chunks(self) -> bool
        ensures { result ≡ faults.needs_chunks self }
    {
        self == Flag::ChunkWrapper || self == Flag::ChunkOutputPathPrefix
    }
}

/// The first flag that doesn't stand with an earlier one, or not without chunks.
pub(crate) fn check_together(items: &[Item<'_>]) -> Result<(), Usage>
    requires { steps.StandInOrder (spec.settings_of items.now) }
    ensures sound { OnOk result ((at : ℕ) → ¬ faults.IsTogether (spec.settings_of items.now) at) }
    ensures first { IfErr result (steps.IsFirstIn
        (steps.TogetherFault (spec.settings_of items.now))) }
{
    let has_chunks = is_given(items, Flag::Chunk);
    let mut met = Met::nothing();
    for item in items {
        if let Some(flag) = item.flag {
            if met.refuses(flag, has_chunks) {
                let at = item.at;
                let kind = UsageKind::Together;
                return Err(Usage::Word { at, kind });
            }
            met.add(flag);
        }
    }
    Ok(())
}
