//! What the reader answers, case by case: reads lines of standard input, each of which is a word and
//! a text, and prints behind each line what the call answers that the word names. A line that
//! begins with `#` and an empty one are printed as they are. A line that is no case is printed
//! behind a `?`, and the status is 2 then.
#![tactic(auto)]

mod case;
mod doc;
mod file;
mod generated;
mod lexed;
mod lists;
mod names;
mod operators;
mod page;
mod places;
mod refusal;
mod shape;
mod texts;
mod token;
mod types;
mod written;

use crate::case::push_line;
use crate::page::Page;
use std::io;
use std::process::ExitCode;

// Prints each line and what is answered to it; false where one is no case.
fn print_lines(rt: &HostRuntime, input: &str) -> io::Result<bool> {
    let mut page = Page::new(rt.alloc());
    let mut are_cases = true;
    for line in input.lines() {
        are_cases &= push_line(rt.alloc(), &mut page, line);
        page.print(rt)?;
    }
    Ok(are_cases)
}

fn main(rt: HostRuntime) -> io::Result<ExitCode> {
    let input = io::read_to_string(rt.alloc(), rt.reader())?;
    let are_cases = print_lines(&rt, input.as_str())?;
    Ok(ExitCode::from(if are_cases { 0 } else { 2 }))
}
