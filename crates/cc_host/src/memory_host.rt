//! A host that keeps its files in memory.
ghost use Rattle.std.specs.Prelude.{◌≡◌, ◌↔◌, ◌⊎◌, ◌++◌, [], Some, IsOkUnless, IsTrue, IsNone, IsErrOf, OnOk, OnErr, Contains};
ghost use Rattle.std.specs.Option.{option_copied};
ghost use Rattle.cc_host.specs.Count.{one_more, count_after};
ghost use Rattle.cc_host.specs.Host.{View, Reads, Writes, Tells, file_of, KeepsOtherFiles};
ghost use Rattle.cc_host.specs.MemoryHost.{contents_of, view_of, FailsNext};

use crate::fault_count::count_failure;
use crate::{Host, HostFault};
use std::alloc::{AllocError, Global};
use std::collections::BTreeMap;

/// A host in memory, for tests. Its calls are numbered from 0, whatever they answer. A call fails where
/// its number stands in `fail`, or where it reads a file that isn't there.
#[derive(Drop)]
pub struct MemoryHost {
    pub files: BTreeMap<String, Vec<u8>>,
    /// The numbers of the calls that fail.
    pub fail: Vec<u64>,
    /// How many calls there were.
    pub calls: u64,
    /// How many calls of `read` and `write` failed.
    pub count: u64,
    /// How many calls of `tell` failed.
    pub tell_count: u64,
    pub told: Vec<u8>,
}

impl MemoryHost {
    /// A host with no files, at which no call is picked to fail.
    pub fn new(alloc: Global) -> MemoryHost
        ensures files { result.files.entries ≡ [] }
        ensures fail { result.fail.items ≡ [] }
        ensures told { result.told.items ≡ [] }
        ensures calls { result.calls ≡ 0 }
        ensures count { result.count ≡ 0 }
        ensures tell_count { result.tell_count ≡ 0 }
    {
        MemoryHost {
            files: BTreeMap::new(alloc),
            fail: Vec::new(alloc),
            calls: 0,
            count: 0,
            tell_count: 0,
            told: Vec::new(alloc),
        }
    }

    /// The bytes of a file, where it is there.
    pub fn file(&self, name: &str) -> Option<&[u8]>
        ensures { option_copied result ≡ file_of (contents_of self.now) name.now }
    {
        self.files.get(name).map(Vec::as_slice)
    }

    /// Makes a file hold these bytes. This is no call of the host.
    pub fn set_file(&mut self, name: &str, bytes: &[u8]) -> Result<(), AllocError>
        ensures ok { OnOk result (file_of (contents_of self.new) name.now ≡ Some bytes.now) }
        ensures others { KeepsOtherFiles name.now (contents_of self.old) (contents_of self.new) }
        ensures err { OnErr result (self.new.files.entries ≡ self.old.files.entries) }
        ensures same { self.new ≡ record self.old { files = self.new.files } }
    {
        let alloc = *self.told.allocator();
        let name = String::from_str(alloc, name)?;
        let bytes = Vec::from_slice(alloc, bytes)?;
        self.files.insert(name, bytes)?;
        Ok(())
    }

    /// Counts a call, and tells whether it is one that fails.
    fn begin_call(&mut self) -> bool
        ensures fails { IsTrue result ↔ FailsNext self.old }
        ensures counted { self.new ≡ record self.old { calls = one_more self.old.calls } }
    {
        let fails = self.fail.contains(&self.calls);
        self.calls = self.calls.saturating_add(1);
        fails
    }
}

impl Host for MemoryHost {
    ghost view = { view_of };

    fn read(&mut self, name: &str, into: &mut Vec<u8>) -> Result<(), HostFault>
        ensures reads { Reads name.now (view_of self.old) (view_of self.new)
            into.old.items into.new.items result }
        ensures fails { IsErrOf result HostFault.Failed ↔
            (FailsNext self.old ⊎ IsNone (file_of (contents_of self.old) name.now)) }
        ensures after { self.new ≡ record self.old {
          calls = one_more self.old.calls;
          count = count_after result self.old.count;
        } }
        ensures err { OnErr result (into.new.items ≡ into.old.items) }
    {
        let fails = self.begin_call();
        let answer = match self.file(name) {
            Some(bytes) if !fails => append(into, bytes),
            _ => Err(HostFault::Failed),
        };
        count_failure(&mut self.count, &answer);
        answer
    }

    fn write(&mut self, name: &str, bytes: &[u8]) -> Result<(), HostFault>
        ensures writes { Writes name.now bytes.now (view_of self.old) (view_of self.new) result }
        ensures fails { IsErrOf result HostFault.Failed ↔ FailsNext self.old }
        ensures after { self.new ≡ record self.old {
          files = self.new.files;
          calls = one_more self.old.calls;
          count = count_after result self.old.count;
        } }
        ensures err { OnErr result (self.new.files.entries ≡ self.old.files.entries) }
    {
        let fails = self.begin_call();
        let answer = if fails {
            Err(HostFault::Failed)
        } else {
            self.set_file(name, bytes).map_err(|_| HostFault::Memory)
        };
        count_failure(&mut self.count, &answer);
        answer
    }

    fn tell(&mut self, bytes: &[u8]) -> Result<(), HostFault>
        ensures tells { Tells bytes.now (view_of self.old) (view_of self.new) result }
        ensures fails { IsErrOf result HostFault.Failed ↔ FailsNext self.old }
        ensures after { self.new ≡ record self.old {
          told = self.new.told;
          calls = one_more self.old.calls;
          tell_count = count_after result self.old.tell_count;
        } }
        ensures err { OnErr result (self.new.told.items ≡ self.old.told.items) }
    {
        let fails = self.begin_call();
        let answer = if fails {
            Err(HostFault::Failed)
        } else {
            append(&mut self.told, bytes)
        };
        count_failure(&mut self.tell_count, &answer);
        answer
    }
}

/// Appends the bytes, or runs out of memory and leaves the list as it was.
fn append(list: &mut Vec<u8>, bytes: &[u8]) -> Result<(), HostFault>
    ensures ok { OnOk result (list.new.items ≡ list.old.items ++ bytes.now) }
    ensures err { OnErr result (list.new.items ≡ list.old.items) }
    ensures only_memory { IsOkUnless result HostFault.Memory }
{
    list.extend_from_slice(bytes).map_err(|_| HostFault::Memory)
}
