// Steps on a host over the files of the folder that the program runs in. Each tells whether its line
// could be read.

use crate::hosts::{BEGIN, add_answer, add_answer_with, read, tell, write};
use crate::page::Page;
use crate::text::{number, split_word};
use cc_host::{FileHost, Host};
use std::alloc::Global;
use std::fs;

type Files<'r> = FileHost<'r, HostRuntime>;

pub fn answer(
    alloc: Global,
    rt: &HostRuntime,
    host: &mut Files<'_>,
    line: &str,
    page: &mut Page,
) -> bool {
    let (word, rest) = split_word(line);
    match word {
        "make" => make(alloc, host, rest, page),
        "same" => same(alloc, host, rest, page),
        "remove" => remove(rt, rest, page),
        "counts" => add_counts(host, page),
        _ => call(alloc, host, line, page),
    }
}

fn call(alloc: Global, host: &mut Files<'_>, line: &str, page: &mut Page) -> bool {
    let (word, rest) = split_word(line);
    match word {
        "read" => read(alloc, host, rest, page),
        "write" => write(alloc, host, rest, page),
        "tell" => tell(alloc, host, rest, page),
        _ => false,
    }
}

/// So many bytes behind those that a list begins with. No chunk whose size is a power of two begins as
/// the one before it.
fn made(alloc: Global, count: u32) -> Option<Vec<u8>> {
    let Ok(mut bytes) = Vec::from_slice(alloc, BEGIN) else {
        return None;
    };
    for place in 0..count {
        if bytes.push((place % 251) as u8).is_err() {
            return None;
        }
    }
    Some(bytes)
}

/// `NAME COUNT`, and the bytes that the count stands for.
fn made_of(alloc: Global, text: &str) -> Option<(&str, Vec<u8>)> {
    let (name, count) = split_word(text);
    let Some(count) = number(count) else {
        return None;
    };
    let Some(bytes) = made(alloc, count) else {
        return None;
    };
    Some((name, bytes))
}

/// `NAME COUNT`: writes a file of so many bytes.
fn make(alloc: Global, host: &mut Files<'_>, text: &str, page: &mut Page) -> bool {
    let Some((name, bytes)) = made_of(alloc, text) else {
        return false;
    };
    let answer = host.write(name, bytes.strip_prefix(BEGIN).unwrap_or(b""));
    add_answer(page, answer);
    true
}

/// `NAME COUNT`: reads a file, and tells whether it is as `make` writes it.
fn same(alloc: Global, host: &mut Files<'_>, text: &str, page: &mut Page) -> bool {
    let Some((name, wanted)) = made_of(alloc, text) else {
        return false;
    };
    compare(alloc, host, name, wanted.as_slice(), page)
}

fn compare(
    alloc: Global,
    host: &mut Files<'_>,
    name: &str,
    wanted: &[u8],
    page: &mut Page,
) -> bool {
    let Ok(mut bytes) = Vec::from_slice(alloc, BEGIN) else {
        return false;
    };
    let answer = host.read(name, &mut bytes);
    add_answer_with(page, answer, bytes.as_slice());
    add_same(bytes.as_slice() == wanted, page);
    true
}

fn add_same(same: bool, page: &mut Page) {
    if same {
        page.add("  as made\n");
    } else {
        page.add("  other bytes\n");
    }
}

/// `NAME`: removes a file.
fn remove(rt: &HostRuntime, name: &str, page: &mut Page) -> bool {
    if fs::remove_file(rt, name).is_ok() {
        page.add("  done\n");
    } else {
        page.add("  failed\n");
    }
    true
}

fn add_counts(host: &Files<'_>, page: &mut Page) -> bool {
    page.add("  faults ");
    page.add_number(host.faults());
    page.add(", faults of tell ");
    page.add_number(host.tell_faults());
    page.add("\n");
    true
}
