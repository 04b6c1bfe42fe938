// Compilations over a host in memory. Each tells whether its line could be read.

use crate::memory::{add_file, add_told};
use crate::page::Page;
use crate::text::{bytes_of, number, words_of};
use cc_driver::compile::compile_alone;
use cc_driver::outcome::Outcome;
use cc_host::MemoryHost;
use std::alloc::Global;
use std::fmt::Write;

const EXTERNS: &[u8] = b"function alert(x){}";

const WORDS: &str = "--externs ext.js --js in.js --js_output_file out.js";

/// `EXTERNS -> SOURCE`: a host with these two files.
pub fn compile(alloc: Global, host: &mut MemoryHost, text: &str, page: &mut Page) -> bool {
    let Some((externs, source)) = text.split_once(" ->") else {
        return false;
    };
    let Some(externs) = bytes_of(alloc, externs) else {
        return false;
    };
    compile_source(alloc, host, externs.as_slice(), source, page)
}

/// The source behind the arrow.
fn compile_source(
    alloc: Global,
    host: &mut MemoryHost,
    externs: &[u8],
    text: &str,
    page: &mut Page,
) -> bool {
    let Some(source) = bytes_of(alloc, text.strip_prefix(' ').unwrap_or("")) else {
        return false;
    };
    compile_files(alloc, host, externs, source.as_slice(), page)
}

fn compile_files(
    alloc: Global,
    host: &mut MemoryHost,
    externs: &[u8],
    source: &[u8],
    page: &mut Page,
) -> bool {
    set_files(alloc, host, externs, source) && compile_words(alloc, host, WORDS, page)
}

fn set_files(alloc: Global, host: &mut MemoryHost, externs: &[u8], source: &[u8]) -> bool {
    *host = MemoryHost::new(alloc);
    host.set_file("ext.js", externs).is_ok() && host.set_file("in.js", source).is_ok()
}

/// A call of a sum with so many operands.
pub fn chain(alloc: Global, host: &mut MemoryHost, text: &str, page: &mut Page) -> bool {
    let Some(count) = number(text) else {
        return false;
    };
    let Some(source) = chain_of(alloc, count) else {
        return false;
    };
    compile_files(alloc, host, EXTERNS, source.as_bytes(), page)
}

fn chain_of(alloc: Global, count: u32) -> Option<String> {
    let Ok(mut source) = String::from_str(alloc, "alert(1") else {
        return None;
    };
    for _ in 1..count {
        if source.push_str("+1").is_err() {
            return None;
        }
    }
    if source.push_str(");").is_err() {
        return None;
    }
    Some(source)
}

/// The name with a number: declares so many names and one more, each of which is printed once, and
/// shows the last declaration as it is written.
pub fn name(alloc: Global, host: &mut MemoryHost, text: &str, page: &mut Page) -> bool {
    let Some(last) = number(text) else {
        return false;
    };
    let Some(source) = declarations(alloc, last) else {
        return false;
    };
    if !set_files(alloc, host, EXTERNS, source.as_bytes()) {
        return false;
    }
    let read = run(alloc, host, WORDS, page);
    add_last(host.file("out.js").unwrap_or(b""), page);
    read
}

fn declarations(alloc: Global, last: u32) -> Option<String> {
    let mut source = String::new(alloc);
    for k in 0..=last {
        if write!(source, "var v{k}={k};").is_err() {
            return None;
        }
    }
    Some(source)
}

/// Shows the last statement of a file.
fn add_last(file: &[u8], page: &mut Page) {
    let mut last: &[u8] = b"";
    for statement in file.split(|byte| *byte == b';') {
        if !statement.is_empty() {
            last = statement;
        }
    }
    page.add("  last");
    page.end_with(last);
}

/// Compiles with these words, and shows the answer.
fn run(alloc: Global, host: &mut MemoryHost, line: &str, page: &mut Page) -> bool {
    let Some(words) = words_of(alloc, line) else {
        return false;
    };
    let outcome = compile_alone(alloc, words.as_slice(), host);
    add_outcome(outcome, page);
    true
}

/// Compiles with these words, and shows the answer, what was told if anything was, and the output file.
pub fn compile_words(alloc: Global, host: &mut MemoryHost, line: &str, page: &mut Page) -> bool {
    let read = run(alloc, host, line, page);
    if !host.told.is_empty() {
        add_told(host, page);
    }
    add_file(host, "out.js", page);
    read
}

fn add_outcome(outcome: Outcome, page: &mut Page) {
    match outcome {
        Outcome::Done => page.add("  done"),
        Outcome::Read(file) => add_part("  read ", file as u64, page),
        Outcome::Write(file) => add_part("  write ", file as u64, page),
        Outcome::Unbuilt(part) => add_part("  unbuilt ", u64::from(part), page),
        Outcome::Memory => page.add("  memory"),
    }
    add_part(", status ", u64::from(outcome.status()), page);
    page.add("\n");
}

fn add_part(word: &str, number: u64, page: &mut Page) {
    page.add(word);
    page.add_number(number);
}
