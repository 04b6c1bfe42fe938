// What words ask for, line by line.

use crate::page::Page;
use cc_chunks::ChunkSpec;
use cc_flags::{Define, DefineValue, Job, Output, ReplayJob, Synthesis, Wrapper};
use std::fmt::Debug;

/// More files or chunks than these are shown by their number alone.
const MOST_SHOWN: usize = 64;

/// A job of a compilation. What it has none of has no line.
pub fn add_job(job: &Job, page: &mut Page) {
    add_files(&job.externs, &job.sources, page);
    add_chunks(&job.chunks, page);
    add_output(&job.output, page);
    add_defines(&job.defines, page);
    add_synthesis(&job.synthesis, page);
    add("  exports ", &job.generate_exports, page);
    add(" checks only ", &job.checks_only, page);
    add(" workers ", &job.workers, page);
    page.add("\n");
}

/// A job of a replay.
pub fn add_replay(job: &ReplayJob, page: &mut Page) {
    add_files(&job.externs, &job.sources, page);
    add_chunks(&job.chunks, page);
    add_defines(&job.defines, page);
    add("  exports ", &job.generate_exports, page);
    add(" script ", &job.script, page);
    add(" bound ", &job.bound, page);
    add(" plain ", &job.plain, page);
    page.add("\n");
}

fn add<T: Debug>(word: &str, value: &T, page: &mut Page) {
    page.add(word);
    page.add_value(value);
}

fn add_list(word: &str, list: &Vec<String>, page: &mut Page) {
    if list.len() > MOST_SHOWN {
        add(word, &list.len(), page);
    } else {
        add(word, list, page);
    }
}

fn add_files(externs: &Vec<String>, sources: &Vec<String>, page: &mut Page) {
    add_list("  externs ", externs, page);
    add_list(" sources ", sources, page);
    page.add("\n");
}

fn add_chunks(chunks: &Vec<ChunkSpec>, page: &mut Page) {
    if chunks.len() > MOST_SHOWN {
        add("  chunks ", &chunks.len(), page);
        page.add("\n");
        return;
    }
    for chunk in chunks.as_slice() {
        add_chunk(chunk, page);
    }
}

fn add_chunk(chunk: &ChunkSpec, page: &mut Page) {
    add("  chunk ", &chunk.name, page);
    add(" takes ", &chunk.count, page);
    add(" needs ", &chunk.deps, page);
    page.add("\n");
}

fn add_output(output: &Output, page: &mut Page) {
    match output {
        Output::File { name, wrapper } => add_file(name, wrapper, page),
        Output::Chunks { prefix, wrappers } => add_prefix(prefix, wrappers, page),
        Output::Nothing => page.add("  no output\n"),
    }
}

fn add_file(name: &String, wrapper: &Option<Wrapper>, page: &mut Page) {
    add("  file ", name, page);
    page.add("\n");
    add_wrapper(wrapper, page);
}

fn add_prefix(prefix: &String, wrappers: &Vec<Option<Wrapper>>, page: &mut Page) {
    add("  prefix ", prefix, page);
    page.add("\n");
    add_wrappers(wrappers, page);
}

fn add_wrappers(wrappers: &Vec<Option<Wrapper>>, page: &mut Page) {
    if wrappers.len() > MOST_SHOWN {
        add("  wrappers ", &wrappers.len(), page);
        page.add("\n");
        return;
    }
    for wrapper in wrappers.as_slice() {
        add_wrapper(wrapper, page);
    }
}

fn add_wrapper(wrapper: &Option<Wrapper>, page: &mut Page) {
    match wrapper {
        Some(wrapper) => add_sides(wrapper, page),
        None => page.add("  no wrapper\n"),
    }
}

fn add_sides(wrapper: &Wrapper, page: &mut Page) {
    add("  wrapper ", &wrapper.before, page);
    add(" ", &wrapper.behind, page);
    page.add("\n");
}

fn add_defines(defines: &Vec<Define>, page: &mut Page) {
    for define in defines.as_slice() {
        add("  define ", &define.name, page);
        add_define(&define.value, page);
        page.add("\n");
    }
}

fn add_define(value: &DefineValue, page: &mut Page) {
    match value {
        DefineValue::Truth(truth) => add(" ", truth, page),
        DefineValue::Whole(number) => add(" ", number, page),
        DefineValue::Text(units) => add(" units ", &units.list, page),
    }
}

fn add_synthesis(synthesis: &Option<Synthesis>, page: &mut Page) {
    if let Some(synthesis) = synthesis {
        add("  seed ", &synthesis.seed, page);
        add(" size ", &synthesis.size, page);
        page.add("\n");
    }
}
