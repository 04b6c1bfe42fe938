//! The edge over real files and standard output.
ghost use Rattle.std.specs.Prelude.{◌≡◌, ◌+◌, ◌≤◌, vec_len, IsOkUnless};
ghost use Rattle.std.specs.Io.{StartsWith};
ghost use Rattle.cc_host.specs.Count.{count_after};
ghost use Rattle.cc_host.specs.Host.{View, Reads, Writes, Tells};
ghost use Rattle.cc_host.specs.FileHost.{counts_only, read_limit};

use crate::fault_count::count_failure;
use crate::transfer::{read_up_to, write_whole};
use crate::{Host, HostFault};
use std::fs::File;
use std::io;
use std::marker::Model;
use std::rt::Files;

/// The most bytes that are read of a file: one more than a file may have, so that a longer one shows.
const READ_LIMIT: usize = 16_777_217;

/// A host over the files of the system and standard output, by a handle of the runtime. Contracts see
/// its counts alone: which bytes the system gives and takes is trusted. It makes no folder.
#[derive(Drop)]
pub struct FileHost<'r, R> {
    runtime: &'r R,
    faults: u64,
    tell_faults: u64,
}

impl<'r, R> Model for FileHost<'r, R> {
    ghost use Rattle.cc_host.specs.Host.{View};
    ghost use Rattle.cc_host.specs.FileHost.{counts_only};

    ghost Value = { View };

    ghost view = { λ host. counts_only host.faults host.tell_faults };
}

impl<'r, R: Files + Print> FileHost<'r, R> {
    /// A host that has had no fault.
    pub fn new(runtime: &'r R) -> FileHost<'r, R>
        ensures { result ≡ counts_only 0 0 }
    {
        FileHost {
            runtime,
            faults: 0,
            tell_faults: 0,
        }
    }

    /// How many calls of `read` and `write` failed.
    pub fn faults(&self) -> u64
        ensures { result ≡ self.now.faults }
    {
        self.faults
    }

    /// How many calls of `tell` failed.
    pub fn tell_faults(&self) -> u64
        ensures { result ≡ self.now.tell_faults }
    {
        self.tell_faults
    }
}

impl<'r, R: Files + Print> Host for FileHost<'r, R> {
    ghost view = { λ host. host };

    fn read(&mut self, name: &str, into: &mut Vec<u8>) -> Result<(), HostFault>
        ensures reads { Reads name.now self.old self.new into.old.items into.new.items result }
        ensures counted { self.new ≡ counts_only (count_after result self.old.faults) self.old.tell_faults }
        ensures limit { vec_len into.new ≤ vec_len into.old + read_limit }
    {
        let answer = read_file(self.runtime, name, into);
        count_failure(&mut self.faults, &answer);
        answer
    }

    fn write(&mut self, name: &str, bytes: &[u8]) -> Result<(), HostFault>
        ensures writes { Writes name.now bytes.now self.old self.new result }
        ensures counted { self.new ≡ counts_only (count_after result self.old.faults) self.old.tell_faults }
        ensures only_failed { IsOkUnless result HostFault.Failed }
    {
        let answer = write_file(self.runtime, name, bytes);
        count_failure(&mut self.faults, &answer);
        answer
    }

    fn tell(&mut self, bytes: &[u8]) -> Result<(), HostFault>
        ensures tells { Tells bytes.now self.old self.new result }
        ensures counted { self.new ≡ counts_only self.old.faults (count_after result self.old.tell_faults) }
        ensures only_failed { IsOkUnless result HostFault.Failed }
    {
        let answer = write_whole(&mut io::writer(self.runtime), bytes);
        count_failure(&mut self.tell_faults, &answer);
        answer
    }
}

/// Appends the bytes of a file, up to the limit.
fn read_file<R: Files>(runtime: &R, name: &str, into: &mut Vec<u8>) -> Result<(), HostFault>
    ensures begins { StartsWith into.new.items into.old.items }
    ensures limit { vec_len into.new ≤ vec_len into.old + read_limit }
{
    let mut file = File::open(runtime, name).map_err(|_| HostFault::Failed)?;
    read_up_to(&mut file, READ_LIMIT, into)
}

/// Makes a file hold these bytes.
fn write_file<R: Files>(runtime: &R, name: &str, bytes: &[u8]) -> Result<(), HostFault>
    ensures { IsOkUnless result HostFault.Failed }
{
    let mut file = File::create(runtime, name).map_err(|_| HostFault::Failed)?;
    write_whole(&mut file, bytes)
}
