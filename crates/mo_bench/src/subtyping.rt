//! Questions, by the clock.
use crate::fault::lacking;
use crate::subtyping_question::{Question, lists, objects};
use mo_subtype::{Verdict, subtype};
use std::alloc::Global;
use std::io;
use std::time::{Duration, Instant};

// Measurements, of which the fastest counts.
const TRIES: u32 = 10;

/// Prints a line for each question.
pub fn all(rt: &HostRuntime, alloc: Global) -> io::Result<()> {
    report_lists(rt, alloc, 500, 500)?;
    report_lists(rt, alloc, 1_000, 1_000)?;
    report_lists(rt, alloc, 1, 1_000)?;
    report_lists(rt, alloc, 1, 2_000)?;
    report_objects(rt, alloc, 10_000)?;
    report_objects(rt, alloc, 20_000)
}

// Asks whether one list is below another that has as many types in all.
fn report_lists(rt: &HostRuntime, alloc: Global, low: u32, high: u32) -> io::Result<()> {
    let Ok(question) = lists(alloc, low, high) else {
        return Err(lacking());
    };
    let (micros, pairs) = measured(rt, alloc, &question)?;
    let nodes = question.types.len();
    println!(rt; "{nodes} types, {pairs} pairs: {micros} µs")
}

// Asks whether one object is below another of as many fields.
fn report_objects(rt: &HostRuntime, alloc: Global, fields: u32) -> io::Result<()> {
    let Ok(question) = objects(alloc, fields) else {
        return Err(lacking());
    };
    let (micros, pairs) = measured(rt, alloc, &question)?;
    println!(rt; "2 objects of {fields} fields, {pairs} pairs: {micros} µs")
}

// The microseconds that the question takes, and the pairs that its answer rests on.
fn measured(rt: &HostRuntime, alloc: Global, question: &Question) -> io::Result<(u128, usize)> {
    let mut time = Duration::MAX;
    let mut pairs = 0;
    for _ in 0..TRIES {
        let start = Instant::now(rt)?;
        if let Ok(Verdict::Yes(found)) = subtype(
            alloc,
            &question.types,
            question.low,
            question.high,
        ) {
            time = time.min(start.elapsed(rt)?);
            pairs = found.len();
        }
    }
    Ok((time.as_micros(), pairs))
}
