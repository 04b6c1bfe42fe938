// The lines that are told.
ghost use Rattle.std.specs.Prelude.{◌≡◌, ◌+◌, ◌<◌, [], ◌∷◌, ◌++◌, codes, IfOk, IsTrue};
ghost use Rattle.cc_driver.specs.Compile.{line_of};
ghost use Rattle.cc_driver.specs.Steps.{TriesToTell, stops_job};
ghost use Rattle.cc_driver.specs.declared.outcome.Outcome.TheVariants.{Memory};

use crate::outcome::Outcome;
use crate::words::Job;
use cc_host::{Host, HostFault};
use std::alloc::{AllocError, Global};

/// The line of an answer that ended a job.
pub fn line_after(alloc: Global, job: &Job<'_>, outcome: Outcome) -> Result<Vec<u8>, AllocError>
    requires { IsTrue (stops_job outcome) }
    ensures { IfOk result (λ line. line.items ≡ line_of job.now.externs.now job.now.source.now job.now.output.now outcome) }
{
    match outcome {
        Outcome::Done => Ok(Vec::new(alloc)),
        Outcome::Read(0) => file_line(alloc, b"read ", job.externs),
        Outcome::Read(_) => file_line(alloc, b"read ", job.source),
        Outcome::Write(_) => file_line(alloc, b"write ", job.output),
        Outcome::Unbuilt(part) => unbuilt_line(alloc, part as u8),
        Outcome::Memory => Vec::from_slice(alloc, b"out of memory\n"),
    }
}

fn file_line(alloc: Global, word: &[u8], name: &str) -> Result<Vec<u8>, AllocError>
    ensures { IfOk result (λ line. line.items ≡ word.now ++ name.now ++ 10 ∷ []) }
{
    let mut line = Vec::from_slice(alloc, word)?;
    line.extend_from_slice(name.as_bytes())?;
    line.push(b'\n')?;
    Ok(line)
}

fn unbuilt_line(alloc: Global, part: u8) -> Result<Vec<u8>, AllocError>
    requires { part < 10 }
    ensures { IfOk result (λ line. line.items ≡ codes "unbuilt " ++ (48 + part) ∷ 10 ∷ []) }
{
    let mut line = Vec::from_slice(alloc, b"unbuilt ")?;
    line.push(b'0' + part)?;
    line.push(b'\n')?;
    Ok(line)
}

/// Tells the line of an answer. The answer stays, but for want of memory.
pub fn tell_line<H: Host>(host: &mut H, line: &[u8], outcome: Outcome) -> Outcome
    ensures { TriesToTell line.now outcome (H.view host.old) (H.view host.new) result }
{
    match host.tell(line) {
        Ok(()) => outcome,
        Err(HostFault::Failed) => outcome,
        Err(HostFault::Memory) => tell_memory(host),
    }
}

/// Tells that memory was wanting, which takes none.
pub fn tell_memory<H: Host>(host: &mut H) -> Outcome
    ensures { TriesToTell (line_of [] [] [] Memory) Memory (H.view host.old) (H.view host.new) result }
{
    let _ = host.tell(b"out of memory\n");
    Outcome::Memory
}
