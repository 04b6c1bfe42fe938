// Steps on a host in memory. Each tells whether its line could be read.

use crate::compiling::compile_words;
use crate::hosts::{copy, read, tell, write};
use crate::page::Page;
use crate::text::{bytes_of, numbers_of, split_word};
use cc_host::MemoryHost;
use std::alloc::Global;

pub fn answer(alloc: Global, host: &mut MemoryHost, line: &str, page: &mut Page) -> bool {
    let (word, rest) = split_word(line);
    match word {
        "new" => begin(alloc, host),
        "set" => set(alloc, host, rest),
        "fail" => fail(alloc, host, rest),
        "compile" => compile_words(alloc, host, rest, page),
        "shows" => shows(host, rest, page),
        _ => call(alloc, host, line, page),
    }
}

fn call(alloc: Global, host: &mut MemoryHost, line: &str, page: &mut Page) -> bool {
    let (word, rest) = split_word(line);
    match word {
        "read" => read(alloc, host, rest, page),
        "write" => write(alloc, host, rest, page),
        "tell" => tell(alloc, host, rest, page),
        "copy" => copy(alloc, host, rest, page),
        _ => false,
    }
}

/// Puts a host with no files in the place of the one that was used.
fn begin(alloc: Global, host: &mut MemoryHost) -> bool {
    *host = MemoryHost::new(alloc);
    true
}

/// `NAME TEXT`: makes a file hold the text, which is no call of the host.
fn set(alloc: Global, host: &mut MemoryHost, text: &str) -> bool {
    let (name, text) = split_word(text);
    let Some(bytes) = bytes_of(alloc, text) else {
        return false;
    };
    host.set_file(name, bytes.as_slice()).is_ok()
}

/// The numbers of calls that fail.
fn fail(alloc: Global, host: &mut MemoryHost, text: &str) -> bool {
    let Some(calls) = numbers_of(alloc, text) else {
        return false;
    };
    for call in calls.as_slice() {
        if host.fail.push(u64::from(*call)).is_err() {
            return false;
        }
    }
    true
}

/// What the host holds: what was `told`, its `counts`, or the file of a name.
fn shows(host: &MemoryHost, name: &str, page: &mut Page) -> bool {
    match name {
        "told" => add_told(host, page),
        "counts" => add_counts(host, page),
        _ => add_file(host, name, page),
    }
    true
}

pub fn add_told(host: &MemoryHost, page: &mut Page) {
    page.add("  told");
    page.end_with(host.told.as_slice());
}

pub fn add_file(host: &MemoryHost, name: &str, page: &mut Page) {
    match host.file(name) {
        Some(bytes) => add_bytes(name, bytes, page),
        None => add_missing(name, page),
    }
}

fn add_bytes(name: &str, bytes: &[u8], page: &mut Page) {
    page.add("  ");
    page.add(name);
    page.end_with(bytes);
}

fn add_missing(name: &str, page: &mut Page) {
    page.add("  no ");
    page.add(name);
    page.add("\n");
}

fn add_counts(host: &MemoryHost, page: &mut Page) {
    page.add("  calls ");
    page.add_number(host.calls);
    page.add(", faults ");
    page.add_number(host.count);
    page.add(", faults of tell ");
    page.add_number(host.tell_count);
    page.add("\n");
}
