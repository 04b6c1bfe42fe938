//! Shows what the driver, its hosts, the words of command lines and the graphs of chunks answer. Each
//! line of standard input is printed as it stands. One that is empty or begins with `#` is no more than
//! that; any other is a case, and its answer stands behind it, indented. A line that can't be read as a
//! case, or that there is no memory for, is answered with `?` and the line, and then the status is 2.
//!
//! A case is a word, and behind it what the word's function says, down from `answer`. In texts `\n`,
//! `\r`, `\t`, `\\`, `\s` for a space and `\xHH` for a byte stand for what they do elsewhere.
#![tactic(auto)]

mod chunks;
mod compiling;
mod files;
mod hosts;
mod memory;
mod page;
mod slow;
mod stream;
mod text;
mod words;

use crate::chunks::Graphs;
use crate::page::Page;
use crate::text::split_word;
use cc_host::{FileHost, MemoryHost};
use std::alloc::Global;
use std::io;
use std::process::ExitCode;

/// What cases leave for those behind them.
#[derive(Drop)]
struct Desk<'r> {
    memory: MemoryHost,
    files: FileHost<'r, HostRuntime>,
    graphs: Graphs,
}

fn answer(rt: &HostRuntime, desk: &mut Desk<'_>, line: &str, page: &mut Page) -> bool {
    let alloc = rt.alloc();
    let (word, rest) = split_word(line);
    match word {
        "memory" => memory::answer(alloc, &mut desk.memory, rest, page),
        "files" => files::answer(alloc, rt, &mut desk.files, rest, page),
        "stream" => stream::answer(alloc, rest, page),
        "graph" => chunks::answer(alloc, &mut desk.graphs, rest, page),
        _ => compilation(alloc, &mut desk.memory, line, page),
    }
}

fn compilation(alloc: Global, host: &mut MemoryHost, line: &str, page: &mut Page) -> bool {
    let (word, rest) = split_word(line);
    match word {
        "compile" => compiling::compile(alloc, host, rest, page),
        "chain" => compiling::chain(alloc, host, rest, page),
        "name" => compiling::name(alloc, host, rest, page),
        _ => command_line(alloc, word, rest, page),
    }
}

fn command_line(alloc: Global, word: &str, rest: &str, page: &mut Page) -> bool {
    match word {
        "words" => words::words(alloc, rest, page),
        "replay" => words::replay(alloc, rest, page),
        "words_and" => words::words_and(alloc, rest, page),
        "replay_and" => words::replay_and(alloc, rest, page),
        _ => false,
    }
}

/// Prints a line and its answer, and tells whether the line could be read.
fn show(rt: &HostRuntime, desk: &mut Desk<'_>, line: &str) -> io::Result<bool> {
    rt.println(line)?;
    if line.is_empty() || line.starts_with('#') {
        return Ok(true);
    }
    let mut page = Page::new(rt.alloc());
    let read = answer(rt, desk, line, &mut page);
    match page.text() {
        Some(text) if read => print_answer(rt, text),
        _ => print_unread(rt, line),
    }
}

fn print_answer(rt: &HostRuntime, text: &str) -> io::Result<bool> {
    rt.print(text)?;
    Ok(true)
}

fn print_unread(rt: &HostRuntime, line: &str) -> io::Result<bool> {
    rt.print("  ? ")?;
    rt.println(line)?;
    Ok(false)
}

fn show_next(rt: &HostRuntime, desk: &mut Desk<'_>, line: io::Result<String>) -> io::Result<bool> {
    let line = line?;
    show(rt, desk, line.as_str())
}

fn show_all(rt: &HostRuntime, desk: &mut Desk<'_>) -> io::Result<bool> {
    let mut all = true;
    for line in rt.lines(rt.alloc()) {
        let read = show_next(rt, desk, line)?;
        all = all && read;
    }
    Ok(all)
}

fn main(rt: HostRuntime) -> io::Result<ExitCode> {
    let mut desk = Desk {
        memory: MemoryHost::new(rt.alloc()),
        files: FileHost::new(&rt),
        graphs: Graphs::new(rt.alloc()),
    };
    let read = show_all(&rt, &mut desk)?;
    Ok(ExitCode::from(if read { 0 } else { 2 }))
}
