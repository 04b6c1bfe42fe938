// The files of a job, through a host.
ghost use Rattle.std.specs.Prelude.{◌≡◌, ◌≤◌, IfOk, IfErr, OnOk, Some};
ghost use Rattle.cc_host.specs.Host.{IfShown, file_of};
ghost use Rattle.cc_driver.specs.Compile.{WasRead};
ghost use Rattle.cc_driver.specs.Steps.{OnlyReads, GivesUp, WritesFile};
ghost use Rattle.cc_driver.specs.declared.outcome.Outcome.TheVariants.{Read, Write};

use crate::outcome::Outcome;
use cc_host::{Host, HostFault};
use std::alloc::Global;

/// The whole bytes of the file with this number.
pub fn read_file<H: Host>(
    alloc: Global,
    host: &mut H,
    name: &str,
    number: usize,
) -> Result<Vec<u8>, Outcome>
    ensures steps { OnlyReads (H.view host.old) (H.view host.new) }
    ensures ok { IfOk result (λ text. WasRead (H.view host.old) name.now text.items) }
    ensures err { IfErr result (GivesUp (Read number) (H.view host.old) (H.view host.new)) }
{
    let mut text = Vec::new(alloc);
    match host.read(name, &mut text) {
        Ok(()) => Ok(text),
        Err(HostFault::Failed) => Err(Outcome::Read(number)),
        Err(HostFault::Memory) => Err(Outcome::Memory),
    }
}

/// Writes the output file with this number.
pub fn write_file<H: Host>(
    host: &mut H,
    name: &str,
    text: &[u8],
    number: usize,
) -> Result<(), Outcome>
    ensures steps { WritesFile name.now (H.view host.old) (H.view host.new) }
    ensures ok { OnOk result (IfShown (H.view host.old).shown (H.view host.new).shown (λ old new. file_of new name.now ≡ Some text.now)) }
    ensures err { IfErr result (GivesUp (Write number) (H.view host.old) (H.view host.new)) }
{
    match host.write(name, text) {
        Ok(()) => Ok(()),
        Err(HostFault::Failed) => Err(Outcome::Write(number)),
        Err(HostFault::Memory) => Err(Outcome::Memory),
    }
}
