//! The optimiser on one processor: compiles the source that its words name, and ends with the status
//! of the answer. Its one call into the product is `cc_driver::compile::compile_alone`, over the real
//! files and standard output.
#![tactic(auto)]

use anyhow::Result;
use cc_driver::compile::compile_alone;
use cc_driver::outcome::Outcome;
use cc_host::FileHost;
use std::alloc::AllocError;
use std::process::ExitCode;
use std::rt::Env;
use std::{env, io};

const HELP: &str = "usage: closure_alone --externs FILE --js FILE --js_output_file FILE

Compiles the source and writes one file. Status 0 where it is written; else one line tells why not.
  --help      prints this text
  --version   prints the version
";

const VERSION: &str = "closure_alone 0.1.0\n";

/// The words behind the program's name.
fn words<R: Env + AllocGlobal>(rt: &R) -> io::Result<Vec<String>> {
    let mut words = Vec::new(rt.alloc());
    for word in env::args(rt)?.skip(1) {
        words.push(word).map_err(AllocError::from)?;
    }
    Ok(words)
}

/// The text that `--help` or `--version` asks for, where it is the only word.
fn answer(words: &[String]) -> Option<&'static str> {
    match words {
        [word] if word.as_str() == "--help" => Some(HELP),
        [word] if word.as_str() == "--version" => Some(VERSION),
        _ => None,
    }
}

/// The status of a compilation with these words.
fn compile(rt: &HostRuntime, words: &[String]) -> u8 {
    let mut host = FileHost::new(rt);
    compile_alone(rt.alloc(), words, &mut host).status()
}

fn main(rt: HostRuntime) -> Result<ExitCode> {
    let status = match words(&rt) {
        Ok(words) => match answer(words.as_slice()) {
            Some(text) => {
                rt.print(text)?;
                0
            }
            None => compile(&rt, words.as_slice()),
        },
        Err(fault) if fault.kind() == io::ErrorKind::OutOfMemory => Outcome::Memory.status(),
        // A word that isn't UTF-8 is none that the compiler knows.
        Err(_) => compile(&rt, &[]),
    };
    Ok(ExitCode::from(status))
}
