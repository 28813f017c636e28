//! Rounds of lexing and parsing, by the clock.
use crate::fault::lacking;
use crate::front_source::large_source;
use mo_lexer::lex;
use mo_parser::parse;
use std::alloc::Global;
use std::io;
use std::time::{Duration, Instant};

// Measurements, of which the fastest counts.
const TRIES: u32 = 10;

/// Prints a line for each pass with its bytes per second.
pub fn all(rt: &HostRuntime, alloc: Global) -> io::Result<()> {
    let Ok(source) = large_source(alloc) else {
        return Err(lacking());
    };
    let mut lexing = Duration::MAX;
    let mut parsing = Duration::MAX;
    let mut count = 0;
    for _ in 0..TRIES {
        let start = Instant::now(rt)?;
        if let Ok(tokens) = lex(alloc, source.as_slice()) {
            lexing = lexing.min(start.elapsed(rt)?);
            count = tokens.len();
            let start = Instant::now(rt)?;
            if parse(alloc, tokens.as_slice()).is_ok() {
                parsing = parsing.min(start.elapsed(rt)?);
            }
        }
    }
    let size = source.len();
    println!(rt; "{size} bytes, {count} tokens")?;
    report(rt, "lex", size, lexing)?;
    report(rt, "parse", size, parsing)
}

fn report(rt: &HostRuntime, name: &str, size: usize, time: Duration) -> io::Result<()> {
    let speed = size as u128 * 1_000 / time.as_micros().max(1);
    let micros = time.as_micros();
    println!(rt; "{name}: {micros} µs, {speed} thousand bytes a second")
}
