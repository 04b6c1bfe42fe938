//! Cases of values, of the heap, of the rules of conforming programs, and of small trees that are
//! folded or copied. Each line of standard input makes a part of a program or of a heap, or asks
//! what a public call answers there; the line is printed, and the answer behind it. A line that
//! begins with `#` says what the next ones show. Since a program shares its tables, what makes them
//! stands before what asks for the program. A line that can't be read, that stands elsewhere, or for
//! which there is no memory, is printed behind `?`, and the status is 2.
#![tactic(auto)]

mod acts;
mod answers;
mod docs;
mod escapes;
mod lines;
mod lookups;
mod machine;
mod made;
mod marked;
mod names;
mod operators;
mod share;
mod shown;
mod statements;
mod tables;
mod trees;
mod values;
mod words;

use crate::machine::{Machine, answer};
use std::io;
use std::process::ExitCode;

fn answer_all(
    rt: &(impl Print + AllocGlobal),
    machine: &mut Machine,
    text: &str,
) -> io::Result<u8> {
    let mut status = 0;
    for line in text.lines() {
        if !answer(machine, line) {
            status = 2;
        }
        if let Err(fault) = rt.print(machine.out.as_str()) {
            return Err(fault);
        }
    }
    Ok(status)
}

// Answers each line, and gives the status.
fn answer_text(rt: &(impl Print + AllocGlobal), text: &str) -> io::Result<u8> {
    let mut machine = Machine::new(rt.alloc())?;
    answer_all(rt, &mut machine, text)
}

fn main(rt: HostRuntime) -> io::Result<ExitCode> {
    let text = io::read_to_string(rt.alloc(), rt.stdin())?;
    let status = answer_text(&rt, text.as_str())?;
    Ok(ExitCode::from(status))
}
