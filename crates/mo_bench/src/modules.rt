//! Rounds of reading, writing and validating, by the clock.
ghost use Rattle.std.specs.Prelude.{IfOk};
ghost use Rattle.wasm_tree.specs.Spelling.{HasSpelling};
ghost use Rattle.wasm_tree.specs.Binary.{Written};

use crate::fault::{invalid, lacking};
use crate::modules_large::large_module;
use mo_num::Bytes;
use std::alloc::Global;
use std::time::{Duration, Instant};
use std::{fs, io};
use wasm_read::read;
use wasm_tree::Module;
use wasm_valid::validate;
use wasm_write::write;

// Measurements of each, of which the fastest counts.
const TRIES: u32 = 5;

/// The fastest times, and whether each module was written as it was read.
#[derive(Clone, Copy)]
struct Times {
    reading: Duration,
    writing: Duration,
    validating: Duration,
    agree: bool,
}

fn tree_of(alloc: Global, bytes: &[u8]) -> io::Result<Module>
    ensures { IfOk result (λ tree. Written tree bytes.now) }
{
    match read(alloc, bytes) {
        Ok(tree) => Ok(tree),
        Err(_) => Err(invalid()),
    }
}

fn written_of(alloc: Global, tree: &Module) -> io::Result<Bytes>
    requires { HasSpelling (Written tree.now) }
{
    match write(alloc, tree) {
        Ok(bytes) => Ok(bytes),
        Err(_) => Err(lacking()),
    }
}

fn time_reading(rt: &HostRuntime, alloc: Global, bytes: &[u8]) -> io::Result<Duration> {
    let start = Instant::now(rt)?;
    let _tree = tree_of(alloc, bytes)?;
    start.elapsed(rt)
}

fn time_writing(rt: &HostRuntime, alloc: Global, tree: &Module) -> io::Result<Duration>
    requires { HasSpelling (Written tree.now) }
{
    let start = Instant::now(rt)?;
    let _written = written_of(alloc, tree)?;
    start.elapsed(rt)
}

fn time_validating(rt: &HostRuntime, alloc: Global, tree: Module) -> io::Result<Duration> {
    let start = Instant::now(rt)?;
    let Ok(_valid) = validate(alloc, tree) else {
        return Err(invalid());
    };
    start.elapsed(rt)
}

fn is_written_as_read(alloc: Global, tree: &Module, bytes: &[u8]) -> io::Result<bool>
    requires { HasSpelling (Written tree.now) }
{
    Ok(written_of(alloc, tree)?.as_slice() == bytes)
}

fn round(rt: &HostRuntime, alloc: Global, bytes: &[u8], times: &mut Times) -> io::Result<()> {
    times.reading = times.reading.min(time_reading(rt, alloc, bytes)?);
    let tree = tree_of(alloc, bytes)?;
    times.writing = times.writing.min(time_writing(rt, alloc, &tree)?);
    times.agree = times.agree && is_written_as_read(alloc, &tree, bytes)?;
    times.validating = times.validating.min(time_validating(rt, alloc, tree)?);
    Ok(())
}

fn rounds(rt: &HostRuntime, alloc: Global, bytes: &[u8]) -> io::Result<()> {
    let mut times = Times {
        reading: Duration::MAX,
        writing: Duration::MAX,
        validating: Duration::MAX,
        agree: true,
    };
    for _ in 0..TRIES {
        round(rt, alloc, bytes, &mut times)?;
    }
    let size = bytes.len();
    report(rt, "read", size, times.reading)?;
    report(rt, "write", size, times.writing)?;
    report(rt, "validate", size, times.validating)?;
    let agree = times.agree;
    println!(rt; "{size} bytes, valid, and written as they were read: {agree}")
}

/// Writes the module to the file, for other tools, and prints a line for each call with its bytes per second.
pub fn all(rt: &HostRuntime, alloc: Global, file: &str) -> io::Result<()> {
    let Ok(bytes) = large_module(alloc) else {
        return Err(lacking());
    };
    fs::write(rt, file, bytes.as_slice())?;
    rounds(rt, alloc, bytes.as_slice())
}

fn report(rt: &HostRuntime, name: &str, size: usize, time: Duration) -> io::Result<()> {
    let speed = size as u128 * 1_000 / time.as_micros().max(1);
    let millis = time.as_millis();
    println!(rt; "{name}: {millis} ms, {speed} thousand bytes a second")
}
