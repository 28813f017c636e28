//! Rounds of each kernel and of its plain loop, and of reading numbers, by the clock.
ghost use Rattle.std.specs.Prelude.{◌≡◌, ◌≤◌, ◌<◌, IfOk, length, vec_len};

use crate::fault::lacking;
use crate::kernels_plain as plain;
use byte_lanes::{ascii_prefix, first_difference, line_starts};
use mo_num::{Bytes, Memory, leb_read, leb_write};
use std::alloc::{AllocError, Global};
use std::io;
use std::time::{Duration, Instant};

// Bytes in the text.
const SIZE: usize = 1_048_576;

// How often each loop runs over the text in one measurement.
const ROUNDS: u32 = 20;

// Measurements of each loop, of which the fastest counts: others may use the machine meanwhile.
const TRIES: u32 = 20;

/// Prints a line for each kernel: its bytes per second, those of its plain loop, and whether their answers agree.
/// Each runs over the whole text: the two texts differ in their last byte, and all is ASCII.
pub fn all(rt: &HostRuntime, alloc: Global) -> io::Result<()> {
    let mut text = text(alloc)?;
    let mut copy = text.clone()?;
    if let Some(last) = copy.last_mut() {
        *last = 0;
    }
    differences(rt, &mut text, &mut copy)?;
    prefixes(rt, &mut text)?;
    starts(rt, alloc, &mut text)?;
    numbers(rt, alloc)
}

// ASCII text in lines of 0 to 63 bytes, whose lengths no processor foresees.
fn text(alloc: Global) -> Result<Vec<u8>, AllocError>
    ensures { IfOk result (λ bytes. vec_len bytes ≡ SIZE) }
{
    let mut bytes = vec![in alloc; b'a'; SIZE]?;
    let mut seed = 1u32;
    let mut left = 0;
    for byte in bytes.iter_mut() {
        if left == 0 {
            *byte = b'\n';
            seed = seed.wrapping_mul(1_664_525).wrapping_add(1_013_904_223);
            left = seed >> 26;
        } else {
            left -= 1;
        }
    }
    Ok(bytes)
}

fn differences(rt: &HostRuntime, a: &mut [u8], b: &mut [u8]) -> io::Result<()>
    requires { length a.old ≡ length b.old }
{
    let mut fast = Duration::MAX;
    let mut slow = Duration::MAX;
    let mut sum = 0u64;
    for _ in 0..TRIES {
        let start = Instant::now(rt)?;
        for round in 0..ROUNDS {
            turn(a, round);
            turn(b, round);
            sum = sum.wrapping_add(first_difference(a, b).unwrap_or(0) as u64);
        }
        fast = fast.min(start.elapsed(rt)?);
        let start = Instant::now(rt)?;
        for round in 0..ROUNDS {
            turn(a, round);
            turn(b, round);
            sum = sum.wrapping_sub(plain::difference(a, b).unwrap_or(0) as u64);
        }
        slow = slow.min(start.elapsed(rt)?);
    }
    report(rt, "first_difference", fast, slow, sum == 0)
}

fn prefixes(rt: &HostRuntime, bytes: &mut [u8]) -> io::Result<()> {
    let mut fast = Duration::MAX;
    let mut slow = Duration::MAX;
    let mut sum = 0u64;
    for _ in 0..TRIES {
        let start = Instant::now(rt)?;
        for round in 0..ROUNDS {
            turn(bytes, round);
            sum = sum.wrapping_add(ascii_prefix(bytes) as u64);
        }
        fast = fast.min(start.elapsed(rt)?);
        let start = Instant::now(rt)?;
        for round in 0..ROUNDS {
            turn(bytes, round);
            sum = sum.wrapping_sub(plain::ascii(bytes) as u64);
        }
        slow = slow.min(start.elapsed(rt)?);
    }
    report(rt, "ascii_prefix", fast, slow, sum == 0)
}

fn starts(rt: &HostRuntime, alloc: Global, bytes: &mut [u8]) -> io::Result<()>
    requires { length bytes.old ≤ 1048576 }
{
    let mut fast = Duration::MAX;
    let mut slow = Duration::MAX;
    let mut sum = 0u64;
    for _ in 0..TRIES {
        let start = Instant::now(rt)?;
        for round in 0..ROUNDS {
            turn(bytes, round);
            sum = sum.wrapping_add(line_starts(alloc, bytes)?.len() as u64);
        }
        fast = fast.min(start.elapsed(rt)?);
        let start = Instant::now(rt)?;
        for round in 0..ROUNDS {
            turn(bytes, round);
            sum = sum.wrapping_sub(plain::starts(alloc, bytes)?.len() as u64);
        }
        slow = slow.min(start.elapsed(rt)?);
    }
    report(rt, "line_starts", fast, slow, sum == 0)
}

// Reads numbers of one to five bytes each, one behind another.
fn numbers(rt: &HostRuntime, alloc: Global) -> io::Result<()> {
    let Ok(spelled) = spelled(alloc) else {
        return Err(lacking());
    };
    let mut fast = Duration::MAX;
    let mut count = 0u64;
    for _ in 0..TRIES {
        let start = Instant::now(rt)?;
        count = 0;
        for _ in 0..ROUNDS {
            count = count.wrapping_add(numbers_in(spelled.as_slice()));
        }
        fast = fast.min(start.elapsed(rt)?);
    }
    let speed = per_second(spelled.len(), fast);
    let each = count / ROUNDS as u64;
    println!(rt; "leb_read: {speed} bytes a second, {each} numbers of 32 bits")
}

// About as many bytes as the text has.
fn spelled(alloc: Global) -> Result<Bytes, Memory> {
    let mut bytes = Bytes::new(alloc);
    let mut seed = 1u32;
    for _ in 0..SIZE / 3 {
        seed = seed.wrapping_mul(1_664_525).wrapping_add(1_013_904_223);
        leb_write((seed >> (seed >> 27)) as u128, &mut bytes)?;
    }
    Ok(bytes)
}

// How many numbers stand in the bytes.
fn numbers_in(bytes: &[u8]) -> u64 {
    let mut rest = bytes;
    let mut count = 0u64;
    for _ in 0..bytes.len() {
        match leb_read(rest, 32) {
            Ok((_, size)) => match rest.get(size..) {
                Some(after) => {
                    count = count.wrapping_add(1);
                    rest = after;
                }
                None => return count,
            },
            Err(_) => return count,
        }
    }
    count
}

// Writes a byte, so that no round can be left out.
fn turn(bytes: &mut [u8], round: u32) {
    if let Some(byte) = bytes.get_mut(round as usize) {
        *byte = b'b';
    }
}

fn report(
    rt: &HostRuntime,
    name: &str,
    fast: Duration,
    slow: Duration,
    agree: bool,
) -> io::Result<()> {
    let fast = per_second(SIZE, fast);
    let slow = per_second(SIZE, slow);
    println!(rt; "{name}: {fast} bytes a second, plain loop {slow}, answers agree: {agree}")
}

fn per_second(size: usize, time: Duration) -> u128 {
    size as u128 * ROUNDS as u128 * 1_000_000_000 / time.as_nanos().max(1)
}
