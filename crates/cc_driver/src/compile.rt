// The top call.
ghost use Rattle.std.specs.Prelude.{◌≡◌, map, string_bytes, IsTrue, OnOk, IfErr};
ghost use Rattle.cc_driver.specs.Compile.{Compiles, Completes, line_of};
ghost use Rattle.cc_driver.specs.Headline.{Headline};
ghost use Rattle.cc_driver.specs.Steps.{EndsJob, TriesToTell, stops_job};
ghost use Rattle.cc_driver.specs.declared.outcome.Outcome.TheVariants.{Done};

use crate::files::{read_file, write_file};
use crate::message::{line_after, tell_line, tell_memory};
use crate::outcome::Outcome;
use crate::output::output_of;
use crate::words::{Job, job_of};
use cc_host::Host;
use std::alloc::Global;

/// Compiles the source that the words name into its output file, and tells a line where that fails.
pub fn compile_alone<H: Host>(alloc: Global, words: &[String], host: &mut H) -> Outcome
    ensures compiles { Compiles (map string_bytes words.now) (H.view host.old) (H.view host.new) result }
    ensures completes { Completes (map string_bytes words.now) (H.view host.old) (H.view host.new) result }
    ensures keeps_meaning { result ≡ Done → Headline (map string_bytes words.now) (H.view host.old) (H.view host.new) }
{
    let Some(job) = job_of(words) else {
        return tell_line(host, b"unbuilt 0\n", Outcome::Unbuilt(0));
    };
    match compile_job(alloc, &job, host) {
        Ok(()) => Outcome::Done,
        Err(outcome) => tell_stop(alloc, &job, host, outcome),
    }
}

fn tell_stop<H: Host>(alloc: Global, job: &Job<'_>, host: &mut H, outcome: Outcome) -> Outcome
    requires { IsTrue (stops_job outcome) }
    ensures { TriesToTell (line_of job.now.externs.now job.now.source.now job.now.output.now outcome) outcome (H.view host.old) (H.view host.new) result }
{
    match line_after(alloc, job, outcome) {
        Ok(line) => tell_line(host, line.as_slice(), outcome),
        Err(_) => tell_memory(host),
    }
}

fn compile_job<H: Host>(alloc: Global, job: &Job<'_>, host: &mut H) -> Result<(), Outcome>
    ensures ok { OnOk result (EndsJob job.now.externs.now job.now.source.now job.now.output.now (H.view host.old) (H.view host.new) Done) }
    ensures err { IfErr result (EndsJob job.now.externs.now job.now.source.now job.now.output.now (H.view host.old) (H.view host.new)) }
    ensures stops { IfErr result (λ outcome. IsTrue (stops_job outcome)) }
{
    let externs = read_file(alloc, host, job.externs, 0)?;
    let source = read_file(alloc, host, job.source, 1)?;
    let text = output_of(alloc, externs.as_slice(), source.as_slice())?;
    write_file(host, job.output, text.as_slice(), 0)
}
