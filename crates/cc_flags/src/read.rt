// The jobs of words.

ghost use Rattle.std.specs.Prelude.{◌≡◌, ◌≢◌, ◌≤◌, ◌^◌, ◌<◌, ℕ, true, is_some, option_and_then, count_by, IfErr, IfOk, OnOk, map};
ghost use Rattle.cc_flags.specs.declared.flag.Call.TheVariants as variant;
ghost use Rattle.cc_flags.specs.declared.flag.Flag.TheVariants as flags;
ghost use Rattle.cc_flags.specs.declared.job.Job as the_job;
ghost use Rattle.cc_flags.specs.declared.job.ReplayJob as the_replay;
ghost use Rattle.cc_flags.specs.declared.usage.Usage.{Usage as Fault};
ghost use Rattle.cc_flags.specs.declared.usage.Usage.TheVariants.{Memory};
ghost use Rattle.cc_flags.specs.Texts.{texts};
ghost use Rattle.cc_flags.specs.Words as spec;
ghost use Rattle.cc_flags.specs.Values as values;
ghost use Rattle.cc_flags.specs.Faults as faults;
ghost use Rattle.cc_flags.specs.Giving as giving;
ghost use Rattle.cc_flags.specs.Jobs as jobs;
ghost use Rattle.cc_flags.specs.Readings as readings;

use crate::flag::{Call, Flag};
use crate::form::{bound_of, synthesis_of};
use crate::given::Given;
use crate::item::{Item, is_on, last_value, sources, values};
use crate::job::{Job, ReplayJob, Synthesis};
use crate::limit::MOST_WORKERS;
use crate::number::decimal_within;
use crate::output::output_of;
use crate::settings::{Settings, read_settings};
use crate::usage::Usage;
use cc_chunks::ChunkSpec;
use std::alloc::{AllocError, Global};

/// The greatest cost of a run where no bound is given.
const USUAL_BOUND: u64 = 1_000_000;

/// The chunks that are asked for, or else the chunk `main` with so many sources.
fn or_main(
    alloc: Global,
    mut chunks: Vec<ChunkSpec>,
    sources: usize,
) -> Result<Vec<ChunkSpec>, AllocError>
    requires { sources < 2 ^ 32 }
    ensures { IfOk result (λ all. map values.chunk_in all.items
        ≡ jobs.or_main sources (map values.chunk_in chunks.items)) }
{
    if chunks.is_empty() {
        let name = String::from_str(alloc, "main")?;
        let count = sources as u32;
        let deps = Vec::new(alloc);
        chunks.push(ChunkSpec { name, count, deps })?;
    }
    Ok(chunks)
}

/// How many workers are asked for, or else 1.
fn workers(items: &[Item<'_>]) -> u32
    requires { (at : ℕ) → ¬ faults.IsBeyondWorkers (spec.settings_of items.now) at }
    ensures { result ≡ jobs.number_of (spec.value_of flags.Workers (spec.settings_of items.now)) 1 }
{
    let Some(text) = last_value(items, Flag::Workers) else {
        return 1;
    };
    match decimal_within(text, 0, MOST_WORKERS) {
        Some(count) => count as u32,
        None => 1,
    }
}

/// The greatest cost of the run that is asked for, or else the usual one.
fn bound(items: &[Item<'_>]) -> u64
    requires { (at : ℕ) → ¬ faults.IsOutOfForm (spec.settings_of items.now) at }
    ensures { result ≡ jobs.number_of (spec.value_of flags.Bound (spec.settings_of items.now)) 1000000 }
{
    match last_value(items, Flag::Bound) {
        Some(text) => bound_of(text).unwrap_or(USUAL_BOUND),
        None => USUAL_BOUND,
    }
}

fn synthesis(items: &[Item<'_>]) -> Option<Synthesis>
    ensures { result ≡ option_and_then values.synthesis_of
        (spec.value_of flags.Synthesize (spec.settings_of items.now)) }
{
    synthesis_of(last_value(items, Flag::Synthesize)?)
}

/// The job of settings that give this, and have no fault.
fn job_of(alloc: Global, items: &[Item<'_>], given: Given) -> Result<Job, AllocError>
    requires given { giving.IsGiven (spec.settings_of items.now) given }
    requires few { count_by faults.is_file (spec.settings_of items.now) ≤ 1024 }
    requires workers { (at : ℕ) → ¬ faults.IsBeyondWorkers (spec.settings_of items.now) at }
    ensures { IfOk result (jobs.IsJobOf (spec.settings_of items.now)) }
{
    let sources = sources(alloc, items)?;
    let count = sources.len();
    Ok(Job {
        externs: values(alloc, items, Flag::Externs)?,
        sources,
        chunks: or_main(alloc, given.chunks, count)?,
        output: output_of(alloc, items)?,
        defines: given.defines,
        generate_exports: is_on(items, Flag::GenerateExports),
        checks_only: is_on(items, Flag::ChecksOnly),
        workers: workers(items),
        synthesis: synthesis(items),
    })
}

/// The same for a replay.
fn replay_job_of(alloc: Global, items: &[Item<'_>], given: Given) -> Result<ReplayJob, AllocError>
    requires given { giving.IsGiven (spec.settings_of items.now) given }
    requires few { count_by faults.is_file (spec.settings_of items.now) ≤ 1024 }
    requires formed { (at : ℕ) → ¬ faults.IsOutOfForm (spec.settings_of items.now) at }
    requires script { is_some (spec.value_of flags.Script (spec.settings_of items.now)) ≡ true }
    ensures { IfOk result (jobs.IsReplayJobOf (spec.settings_of items.now)) }
{
    let sources = sources(alloc, items)?;
    let count = sources.len();
    let script = last_value(items, Flag::Script).unwrap_or("");
    Ok(ReplayJob {
        externs: values(alloc, items, Flag::Externs)?,
        sources,
        chunks: or_main(alloc, given.chunks, count)?,
        defines: given.defines,
        generate_exports: is_on(items, Flag::GenerateExports),
        script: String::from_str(alloc, script)?,
        bound: bound(items),
        plain: is_on(items, Flag::Plain),
    })
}

/// The job that the words of a compilation ask for, or the first thing that is wrong with them.
pub fn read_words(alloc: Global, words: &[String]) -> Result<Job, Usage>
    ensures job { IfOk result (readings.IsJob (texts words.now)) }
    ensures sound { OnOk result ((usage : Fault)
        → ¬ readings.IsFirstFault variant.Compile (texts words.now) usage) }

    // Of several faults the first is answered. Memory may be wanting at any time.
    ensures fault { IfErr result (λ usage. usage ≢ Memory
        → readings.IsFirstFault variant.Compile (texts words.now) usage) }
    ensures no_job { IfErr result (λ usage. usage ≢ Memory
        → (job : the_job.Job) → ¬ readings.IsJob (texts words.now) job) }
{
    let Settings { items, given } = read_settings(alloc, words, Call::Compile)?;
    let job = job_of(alloc, items.as_slice(), given)?;
    Ok(job)
}

/// The job that the words of a replay ask for, or the first thing that is wrong with them.
pub fn read_replay(alloc: Global, words: &[String]) -> Result<ReplayJob, Usage>
    ensures job { IfOk result (readings.IsReplayJob (texts words.now)) }
    ensures sound { OnOk result ((usage : Fault)
        → ¬ readings.IsFirstFault variant.Replay (texts words.now) usage) }

    // Of several faults the first is answered. Memory may be wanting at any time.
    ensures fault { IfErr result (λ usage. usage ≢ Memory
        → readings.IsFirstFault variant.Replay (texts words.now) usage) }
    ensures no_job { IfErr result (λ usage. usage ≢ Memory
        → (job : the_replay.ReplayJob) → ¬ readings.IsReplayJob (texts words.now) job) }
{
    let Settings { items, given } = read_settings(alloc, words, Call::Replay)?;
    let job = replay_job_of(alloc, items.as_slice(), given)?;
    Ok(job)
}
