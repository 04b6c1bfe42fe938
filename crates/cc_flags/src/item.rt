// Settings, and what lists of them give.

ghost use Rattle.std.specs.Prelude.{◌≡◌, IfOk};
ghost use Rattle.std.specs.Option.{option_copied};
ghost use Rattle.cc_flags.specs.Texts.{texts};
ghost use Rattle.cc_flags.specs.Words as spec;
ghost use Rattle.cc_flags.specs.Faults as faults;

use crate::flag::Flag;
use std::alloc::{AllocError, Global};

/// A source file, which has no flag, or a flag with its value, if it has one; and the number of
/// its first word.
#[derive(Clone, Copy)]
pub(crate) struct Item<'a> {
    pub(crate) at: usize,
    pub(crate) flag: Option<Flag>,
    pub(crate) value: Option<&'a str>,
}

impl<'a> Item<'a> {
    pub(crate) fn has_flag(&self, flag: Flag) -> bool
        ensures { result ≡ spec.has_flag flag (spec.setting_of self.now) }
    {
        match self.flag {
            Some(own) => own == flag,
            None => false,
        }
    }

    /// The value that it gives to a flag.
    pub(crate) fn value_for(&self, flag: Flag) -> Option<&'a str>
        ensures { option_copied result ≡ spec.value_for flag (spec.setting_of self.now) }
    {
        if self.has_flag(flag) {
            self.value
        } else {
            None
        }
    }

    /// The name of a source file, which stands alone or behind `--js`.
    pub(crate) fn source(&self) -> Option<&'a str>
        ensures { option_copied result ≡ spec.source_for (spec.setting_of self.now) }
    {
        match self.flag {
            Some(flag) => if flag == Flag::Js { self.value } else { None },
            None => self.value,
        }
    }

    /// Whether it turns a switch on.
    fn turns_on(&self, flag: Flag) -> bool
        ensures { result ≡ faults.turns_on flag (spec.setting_of self.now) }
    {
        self.has_flag(flag) && !self.is_off()
    }

    fn is_off(&self) -> bool
        ensures { result ≡ faults.is_off (spec.setting_of self.now) }
    {
        match self.value {
            Some(value) => value == "false",
            None => false,
        }
    }
}

pub(crate) fn is_given(items: &[Item<'_>], flag: Flag) -> bool
    ensures { result ≡ spec.is_given flag (spec.settings_of items.now) }
{
    items.iter().any(|item| item.has_flag(flag))
}

/// Whether a switch is on.
pub(crate) fn is_on(items: &[Item<'_>], flag: Flag) -> bool
    ensures { result ≡ faults.is_on flag (spec.settings_of items.now) }
{
    items.iter().any(|item| item.turns_on(flag))
}

/// The last value that a flag is given.
pub(crate) fn last_value<'a>(items: &[Item<'a>], flag: Flag) -> Option<&'a str>
    ensures { option_copied result ≡ spec.value_of flag (spec.settings_of items.now) }
{
    let mut last = None;
    for item in items {
        if let Some(value) = item.value_for(flag) {
            last = Some(value);
        }
    }
    last
}

/// The values that a flag is given.
pub(crate) fn values(
    alloc: Global,
    items: &[Item<'_>],
    flag: Flag,
) -> Result<Vec<String>, AllocError>
    ensures { IfOk result (λ values. texts values.items
        ≡ spec.values_of flag (spec.settings_of items.now)) }
{
    let mut values = Vec::new(alloc);
    for item in items {
        if let Some(value) = item.value_for(flag) {
            values.push(String::from_str(alloc, value)?)?;
        }
    }
    Ok(values)
}

/// The names of the source files.
pub(crate) fn sources(alloc: Global, items: &[Item<'_>]) -> Result<Vec<String>, AllocError>
    ensures { IfOk result (λ names. texts names.items ≡ spec.sources_of (spec.settings_of items.now)) }
{
    let mut names = Vec::new(alloc);
    for item in items {
        if let Some(name) = item.source() {
            names.push(String::from_str(alloc, name)?)?;
        }
    }
    Ok(names)
}
