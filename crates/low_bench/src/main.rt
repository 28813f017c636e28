//! Writes the module of the first run time, and measures the translation of low code, by the clock.
#![tactic(auto)]

mod large;
mod translation;

use std::{env, io};

fn main(rt: HostRuntime) -> io::Result<()> {
    let mut words = env::args(&rt)?;
    let _ = words.next();
    let what = words.next();
    let file = words.next();
    match (&what, &file) {
        (Some(what), Some(file)) => with_file(&rt, what.as_str(), file.as_str()),
        _ => usage(&rt),
    }
}

fn with_file(rt: &HostRuntime, what: &str, file: &str) -> io::Result<()> {
    if what == "run_time" {
        translation::write_run_time(rt, rt.alloc(), file)
    } else if what == "large" {
        translation::measure(rt, rt.alloc(), file)
    } else {
        usage(rt)
    }
}

fn usage(rt: &HostRuntime) -> io::Result<()> {
    println!(rt; "usage: low_bench run_time FILE or large FILE")
}
