// The words of command lines. Each case tells whether its line could be read.

mod job;

use crate::page::Page;
use crate::text::{number, push_word, split_word, words_of};
use crate::words::job::{add_job, add_replay};
use cc_flags::{Usage, read_replay, read_words};
use std::alloc::Global;
use std::fmt::Debug;

/// The job of a compilation's words, or their first fault.
pub fn words(alloc: Global, text: &str, page: &mut Page) -> bool {
    let Some(words) = words_of(alloc, text) else {
        return false;
    };
    add_reading(alloc, words.as_slice(), page);
    true
}

/// The same with a word so many times.
pub fn words_and(alloc: Global, text: &str, page: &mut Page) -> bool {
    let Some(words) = with_more(alloc, text) else {
        return false;
    };
    add_reading(alloc, words.as_slice(), page);
    true
}

fn add_reading(alloc: Global, words: &[String], page: &mut Page) {
    match read_words(alloc, words) {
        Ok(job) => add_job(&job, page),
        Err(usage) => add_usage(usage, page),
    }
}

/// The job of a replay's words, or their first fault.
pub fn replay(alloc: Global, text: &str, page: &mut Page) -> bool {
    let Some(words) = words_of(alloc, text) else {
        return false;
    };
    add_replay_reading(alloc, words.as_slice(), page);
    true
}

/// The same with a word so many times.
pub fn replay_and(alloc: Global, text: &str, page: &mut Page) -> bool {
    let Some(words) = with_more(alloc, text) else {
        return false;
    };
    add_replay_reading(alloc, words.as_slice(), page);
    true
}

fn add_replay_reading(alloc: Global, words: &[String], page: &mut Page) {
    match read_replay(alloc, words) {
        Ok(job) => add_replay(&job, page),
        Err(usage) => add_usage(usage, page),
    }
}

/// `COUNT WORD WORDS`: these words, and one more so many times.
fn with_more(alloc: Global, text: &str) -> Option<Vec<String>> {
    let (count, rest) = split_word(text);
    let (more, line) = split_word(rest);
    let Some(count) = number(count) else {
        return None;
    };
    let Some(mut words) = words_of(alloc, line) else {
        return None;
    };
    if add_words(alloc, &mut words, count, more) {
        Some(words)
    } else {
        None
    }
}

fn add_words(alloc: Global, words: &mut Vec<String>, count: u32, more: &str) -> bool {
    for _ in 0..count {
        if !push_word(alloc, words, more) {
            return false;
        }
    }
    true
}

fn add_usage(usage: Usage, page: &mut Page) {
    match usage {
        Usage::Word { at, kind } => add_fault(at, " ", &kind, page),
        Usage::Limit { at, kind } => add_fault(at, " limit ", &kind, page),
        Usage::Memory => page.add("  memory\n"),
    }
}

fn add_fault<T: Debug>(at: usize, behind: &str, kind: &T, page: &mut Page) {
    page.add("  ");
    page.add_number(at as u64);
    page.add(behind);
    page.add_value(kind);
    page.add("\n");
}
