//! Messages, by the clock.
use crate::fault::lacking;
use crate::message_values::{Sample, records, text};
use candid_decode::decode;
use candid_encode::encode_checked;
use std::alloc::Global;
use std::io;
use std::time::{Duration, Instant};

// Measurements, of which the fastest counts.
const TRIES: u32 = 10;

/// Prints a line for each direction of each message.
pub fn all(rt: &HostRuntime, alloc: Global) -> io::Result<()> {
    let Some(list) = records(alloc, 100_000) else {
        return Err(lacking());
    };
    report(rt, alloc, "100000 records", &list)?;
    let Some(letters) = text(alloc, 2_097_152) else {
        return Err(lacking());
    };
    report(rt, alloc, "a text of 2 MiB", &letters)
}

fn report(rt: &HostRuntime, alloc: Global, name: &str, sample: &Sample) -> io::Result<()> {
    let (types, ids) = (&sample.types, sample.ids.as_slice());
    let mut writing = Duration::MAX;
    let mut reading = Duration::MAX;
    let mut size = 0;
    for _ in 0..TRIES {
        let start = Instant::now(rt)?;
        let Ok(message) = encode_checked(alloc, types, ids, sample.values.as_slice()) else {
            return Err(lacking());
        };
        writing = writing.min(start.elapsed(rt)?);
        let start = Instant::now(rt)?;
        if decode(alloc, types, ids, message.as_slice()).is_ok() {
            reading = reading.min(start.elapsed(rt)?);
        }
        size = message.len();
    }
    line(rt, name, "encode", size, writing)?;
    line(rt, name, "decode", size, reading)
}

fn line(rt: &HostRuntime, name: &str, call: &str, size: usize, time: Duration) -> io::Result<()> {
    let micros = time.as_micros();
    let speed = size as u128 / micros.max(1);
    println!(rt; "{name}: {call}: {size} bytes, {micros} µs, {speed} MB/s")
}
