// What settings give beside their texts.

ghost use Rattle.std.specs.Prelude.{◌≡◌, [], IfErr, OnOk};
ghost use Rattle.cc_flags.specs.Words as spec;
ghost use Rattle.cc_flags.specs.Forming as forming;
ghost use Rattle.cc_flags.specs.Giving as giving;

use crate::flag::Flag;
use crate::form::{Value, value_of};
use crate::item::Item;
use crate::job::Define;
use crate::names::Names;
use crate::usage::{Usage, UsageKind};
use cc_chunks::ChunkSpec;
use std::alloc::Global;

/// The chunks that settings ask for, their definitions, and those of their flags that may be given
/// once.
#[derive(Drop)]
pub(crate) struct Given {
    pub(crate) chunks: Vec<ChunkSpec>,
    pub(crate) defines: Vec<Define>,
    pub(crate) once: Vec<Flag>,
}

impl Given {
    pub(crate) fn new(alloc: Global) -> Given
        ensures { giving.IsGiven [] result }
    {
        Given {
            chunks: Vec::new(alloc),
            defines: Vec::new(alloc),
            once: Vec::new(alloc),
        }
    }

    /// Adds what one more setting gives, where words ask for chunks of these names.
    pub(crate) fn add(
        &mut self,
        alloc: Global,
        item: &Item<'_>,
        names: &Names<'_>,
    ) -> Result<(), Usage>
        ensures adds { OnOk result (giving.AddsSetting self.old self.new (spec.setting_of item.now)) }
        ensures follows { OnOk result (giving.Follows (forming.names_in names.now) self.old (spec.setting_of item.now)) }
        ensures fault { IfErr result (giving.MayBe (giving.FaultOf (forming.names_in names.now) self.old (spec.setting_of item.now))) }
    {
        let Some(flag) = item.flag else {
            return Ok(());
        };
        let value = value_of(alloc, flag.form(), item.value, names)?;
        self.add_value(value, item.at)?;
        self.add_flag(flag, item.at)
    }

    fn add_value(&mut self, value: Value, at: usize) -> Result<(), Usage>
        ensures adds { OnOk result (giving.AddsValue value self.old self.new) }
        ensures fault { IfErr result (giving.MayBe (giving.IsWrong value at)) }
    {
        match value {
            Value::Wrong => {
                let kind = UsageKind::Value;
                return Err(Usage::Word { at, kind });
            }
            Value::Chunk(spec) => self.chunks.push(spec)?,
            Value::Define(define) => self.defines.push(define)?,
            Value::Plain => {}
        }
        Ok(())
    }

    fn add_flag(&mut self, flag: Flag, at: usize) -> Result<(), Usage>
        ensures adds { OnOk result (giving.AddsFlag flag self.old self.new) }
        ensures fault { IfErr result (giving.MayBe (giving.IsSecond flag at self.old)) }
    {
        if !flag.is_once() {
            return Ok(());
        }
        if has(self.once.as_slice(), flag) {
            let kind = UsageKind::Repeated;
            return Err(Usage::Word { at, kind });
        }
        self.once.push(flag)?;
        Ok(())
    }
}

/// Whether the flags have this one.
fn has(flags: &[Flag], flag: Flag) -> bool
    ensures { result ≡ giving.has flags.now flag }
{
    flags.iter().any(|own| *own == flag)
}
