// The slots of an object, in order of creation.

ghost use Rattle.std.specs.Prelude.{◌≡◌, [], length, slice_get, OnOk, OnErr, is_some, None};
ghost use Rattle.std.specs.Option.{option_copied, option_map};
ghost use Rattle.cc_meaning.specs.Store.{find_slot, set_slot, drop_slot};
ghost use Rattle.cc_value.specs.Bridge.{value_of};
ghost use Rattle.cc_heap.specs.Kinds.{kind_of};
ghost use Rattle.cc_heap.specs.Store.{slot_named};

use crate::slot::{Slot, SlotKind};
use cc_ast::units::Units;
use cc_value::value::Value;
use indexmap::IndexMap;
use std::alloc::{AllocError, Global};
use std::marker::Model;

#[derive(Drop)]
pub(crate) struct Slots {
    by_name: IndexMap<Vec<u16>, Slot>,
}

impl Model for Slots {
    ghost use Rattle.std.specs.Prelude.{List};
    ghost use Rattle.indexmap.specs.IndexMap.{values};
    ghost use Rattle.cc_meaning.specs.State.{Slot};
    ghost use Rattle.cc_heap.specs.Table.{AreNamed};

    ghost Value = { List Slot };

    ghost view = { λ s. values s.by_name };

    ghost invariant = { λ s. AreNamed s.by_name.entries };
}

impl Slots {
    pub(crate) fn new(alloc: Global) -> Slots
        ensures { result ≡ [] }
    {
        Slots {
            by_name: IndexMap::new(alloc),
        }
    }

    pub(crate) fn len(&self) -> usize
        ensures { result ≡ length self.now }
    {
        self.by_name.len()
    }

    pub(crate) fn at(&self, at: usize) -> Option<&Slot>
        ensures { option_copied result ≡ slice_get self.now at }
    {
        match self.by_name.get_index(at) {
            Some((_, slot)) => Some(slot),
            None => None,
        }
    }

    pub(crate) fn get(&self, name: &[u16]) -> Option<&Slot>
        ensures { option_copied result ≡ slot_named self.now name.now }
    {
        self.by_name.get(name)
    }

    /// Puts a value under a name. A slot that is there keeps its place and its kind.
    pub(crate) fn put(
        &mut self,
        alloc: Global,
        name: Units,
        kind: SlotKind,
        value: Value,
    ) -> Result<(), AllocError>
        ensures put { OnOk result (self.new ≡ set_slot self.old name (kind_of kind) (value_of value)) }
        ensures err { OnErr result (self.new ≡ self.old) }
    {
        match self.by_name.get_mut(name.list.as_slice()) {
            Some(slot) => {
                slot.value = value;
                Ok(())
            }
            None => self.add(alloc, Slot { name, kind, value }),
        }
    }

    // A slot of a name that isn't there.
    fn add(&mut self, alloc: Global, slot: Slot) -> Result<(), AllocError>
        requires { slot_named self.old slot.name ≡ None }
        ensures put { OnOk result (self.new ≡ set_slot self.old slot.name slot.kind slot.value) }
        ensures err { OnErr result (self.new ≡ self.old) }
    {
        let key = Vec::from_slice(alloc, slot.name.list.as_slice())?;
        self.by_name.insert(key, slot)?;
        Ok(())
    }

    /// Removes the slot of a name, and tells whether there was one.
    pub(crate) fn remove(&mut self, name: &Units) -> bool
        ensures slots { self.new ≡ drop_slot self.old name.now }
        ensures had { result ≡ is_some (find_slot self.old name.now) }
    {
        self.by_name.shift_remove(name.list.as_slice()).is_some()
    }
}
