//! The outside world as a trait: a host reads and writes whole files by name, and is told text. Its
//! public contract is that of the trait `Host`, in the words of `specs/Host.antt`: what each call does
//! to the files, to what was told and to two counts of faults, of which one rises at each failure. So
//! whoever is handed a host can say that a fault comes only from there. `MemoryHost` shows all that it
//! holds, and fails at the calls that a test picks. `FileHost` is the edge over real files and standard
//! output, which shows its counts alone.
#![tactic(auto)]

ghost use Rattle.cc_host.specs.Host.{View, Reads, Writes, Tells};

use thiserror::Error;

mod fault_count;
mod file_host;
mod memory_host;
mod transfer;

pub use file_host::FileHost;
pub use memory_host::MemoryHost;

/// Why a call of a host didn't do what it was asked.
#[derive(Clone, Copy, Debug, Error)]
pub enum HostFault {
    /// The host failed, and its count of faults rose.
    #[error("the host failed")]
    Failed,
    /// There was no memory for it, and the host is as it was.
    #[error("out of memory")]
    Memory,
}

/// Files by name, and an output that is told text. After `Failed` in `write` the file may hold anything.
pub trait Host {
    /// What contracts see of the host.
    ghost view: { Self → View };

    /// Appends the bytes of a file to `into`.
    fn read(&mut self, name: &str, into: &mut Vec<u8>) -> Result<(), HostFault>
        ensures reads { Reads name.now (view self.old) (view self.new)
            into.old.items into.new.items result };

    /// Makes the file hold exactly these bytes, whether or not it was there before.
    fn write(&mut self, name: &str, bytes: &[u8]) -> Result<(), HostFault>
        ensures writes { Writes name.now bytes.now (view self.old) (view self.new) result };

    /// Tells the bytes, after all that was told before.
    fn tell(&mut self, bytes: &[u8]) -> Result<(), HostFault>
        ensures tells { Tells bytes.now (view self.old) (view self.new) result };
}
