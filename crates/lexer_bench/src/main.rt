//! How long the lexer takes: prints the bytes of the file that its first argument names, its
//! tokens, and the microseconds that reading them took.
#![tactic(auto)]

use std::time::Instant;
use std::{env, fs, io};

fn main(rt: HostRuntime) -> io::Result<()> {
    let mut args = env::args(&rt)?;
    let _program = args.next();
    let Some(name) = args.next() else {
        return println!(rt; "which file?");
    };
    let bytes = fs::read(&rt, name.as_str())?;
    let size = bytes.len();
    if size > 16_777_216 {
        return println!(rt; "too long");
    }
    let start = Instant::now(&rt)?;
    let found = cc_lexer::tokens(rt.alloc(), &bytes, 0);
    let spent = start.elapsed(&rt)?;
    let count = match &found {
        Ok(tokens) => tokens.list.len(),
        Err(_) => 0,
    };
    let micros = spent.as_micros();
    println!(rt; "{size} bytes, {count} tokens, {micros} us")
}
