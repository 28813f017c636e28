//! Low modules as WebAssembly, and the time that it takes.
ghost use Rattle.std.specs.Prelude.{IfOk};
ghost use Rattle.low_ir.specs.Flat.{flat_module};
ghost use Rattle.low_ir.specs.Formed.{IsFormedModule};
ghost use Rattle.wasm_emit.specs.Emit.{emitted};
ghost use Rattle.first_run_time.specs.RunTime.{run_time};
ghost use Rattle.wasm_tree.specs.Binary.{Written};
ghost use Rattle.wasm_tree.specs.Spelling.{HasSpelling};

use crate::large::large_module;
use first_run_time::run_time_module;
use low_ir::LowModule;
use mo_num::{Bytes, Memory};
use std::alloc::Global;
use std::io::ErrorKind;
use std::time::{Duration, Instant};
use std::{fs, io};
use wasm_emit::to_wasm;
use wasm_tree::Module;
use wasm_write::write;

// Measurements, of which the fastest counts.
const TRIES: u32 = 5;

// Of five instructions each.
const PARTS: u32 = 200_000;

fn lacking() -> io::Error {
    io::Error::from(ErrorKind::OutOfMemory)
}

fn translated(alloc: Global, low: &LowModule) -> Result<Module, Memory>
    requires { IsFormedModule low.now }
    ensures { IfOk result (λ tree. HasSpelling (Written tree)) }
{
    to_wasm(alloc, low)
}

fn bytes_of(alloc: Global, low: &LowModule) -> Result<Bytes, Memory>
    requires { IsFormedModule low.now }
{
    let tree = translated(alloc, low)?;
    write(alloc, &tree)
}

fn run_time_bytes(alloc: Global) -> Result<Bytes, Memory>
    ensures { IfOk result (λ bytes. Written (emitted (flat_module run_time)) bytes) }
{
    let tree = run_time_module(alloc)?;
    write(alloc, &tree)
}

/// Writes the module of the first run time to the file, and prints its size.
pub fn write_run_time(rt: &HostRuntime, alloc: Global, file: &str) -> io::Result<()> {
    let Ok(bytes) = run_time_bytes(alloc) else {
        return Err(lacking());
    };
    fs::write(rt, file, bytes.as_slice())?;
    let size = bytes.len();
    println!(rt; "{size} bytes")
}

fn time_once(rt: &HostRuntime, alloc: Global, low: &LowModule) -> io::Result<Duration>
    requires { IsFormedModule low.now }
{
    let start = Instant::now(rt)?;
    let Ok(_tree) = translated(alloc, low) else {
        return Err(lacking());
    };
    start.elapsed(rt)
}

fn fastest(rt: &HostRuntime, alloc: Global, low: &LowModule) -> io::Result<Duration>
    requires { IsFormedModule low.now }
{
    let mut time = Duration::MAX;
    for _ in 0..TRIES {
        time = time.min(time_once(rt, alloc, low)?);
    }
    Ok(time)
}

fn report(rt: &HostRuntime, size: usize, time: Duration) -> io::Result<()> {
    let speed = size as u128 * 1_000 / time.as_micros().max(1);
    let millis = time.as_millis();
    println!(rt; "to_wasm: {size} bytes, {millis} ms, {speed} thousand bytes a second")
}

/// Translates a low module of a million instructions, prints a line with the time and with the bytes a second of what is written, and
/// writes it to the file.
pub fn measure(rt: &HostRuntime, alloc: Global, file: &str) -> io::Result<()> {
    let Ok(low) = large_module(alloc, PARTS) else {
        return Err(lacking());
    };
    let time = fastest(rt, alloc, &low)?;
    let Ok(bytes) = bytes_of(alloc, &low) else {
        return Err(lacking());
    };
    fs::write(rt, file, bytes.as_slice())?;
    report(rt, bytes.len(), time)
}
