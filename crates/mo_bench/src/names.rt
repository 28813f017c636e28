//! Rounds of the resolution of names, by the clock.
use crate::fault::lacking;
use crate::names_source::source_of;
use mo_lexer::lex;
use mo_order::resolve;
use mo_parser::parse;
use mo_syntax::Tree;
use std::alloc::Global;
use std::io;
use std::time::{Duration, Instant};

// Measurements, of which the fastest counts.
const TRIES: u32 = 10;

// How many names each declaration of a round binds, with its parameters and labels.
const NAMES_A_ROUND: u32 = 5;

fn tree_of(alloc: Global, rounds: u32) -> Option<Tree> {
    let Ok(source) = source_of(alloc, rounds) else {
        return None;
    };
    let Ok(tokens) = lex(alloc, source.as_slice()) else {
        return None;
    };
    parse(alloc, tokens.as_slice()).ok()
}

/// Prints a line for each size with its time.
pub fn all(rt: &HostRuntime, alloc: Global) -> io::Result<()> {
    for rounds in [4_000, 8_000] {
        one_size(rt, alloc, rounds)?;
    }
    Ok(())
}

fn one_size(rt: &HostRuntime, alloc: Global, rounds: u32) -> io::Result<()> {
    let Some(tree) = tree_of(alloc, rounds) else {
        return Err(lacking());
    };
    let mut fastest = Duration::MAX;
    for _ in 0..TRIES {
        let start = Instant::now(rt)?;
        if resolve(alloc, &tree).is_ok() {
            fastest = fastest.min(start.elapsed(rt)?);
        }
    }
    let names = u64::from(rounds) * u64::from(NAMES_A_ROUND);
    let micros = fastest.as_micros();
    println!(rt; "{names} names: {micros} µs")
}
