// Calls of a host over streams that go a few bytes at a time.

use crate::hosts::{read, tell, write};
use crate::page::Page;
use crate::slow::Slow;
use crate::text::{number, split_word};
use cc_host::FileHost;
use std::alloc::Global;
use std::cell::Cell;

/// `GOOD STEP CALL`: a call of a new host, whose streams give or take at most so many bytes a time, and
/// fail behind so many good calls. How often the streams were called is told, too.
pub fn answer(alloc: Global, text: &str, page: &mut Page) -> bool {
    let (good, rest) = split_word(text);
    let (step, call) = split_word(rest);
    let Some(good) = number(good) else {
        return false;
    };
    let Some(step) = number(step) else {
        return false;
    };
    one_stream(alloc, good, step as usize, call, page)
}

fn one_stream(alloc: Global, good: u32, step: usize, call: &str, page: &mut Page) -> bool {
    let calls = Cell::new(0);
    let slow = Slow {
        calls: &calls,
        good,
        step,
    };
    let read = one_call(alloc, &slow, call, page);
    page.add("  calls ");
    page.add_number(u64::from(calls.get()));
    page.add("\n");
    read
}

fn one_call(alloc: Global, slow: &Slow<'_>, call: &str, page: &mut Page) -> bool {
    let mut host = FileHost::new(slow);
    let (word, rest) = split_word(call);
    match word {
        "read" => read(alloc, &mut host, rest, page),
        "write" => write(alloc, &mut host, rest, page),
        "tell" => tell(alloc, &mut host, rest, page),
        _ => false,
    }
}
