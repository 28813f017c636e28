//! Prints the program of nested expressions that a source is elaborated to, for checks from outside.
//!
//! `core_lines SRC` prints lines of JSON, each an array with its kind first: `["type", NODE]` for each type, in the order of their
//! numbers, `["group", SEES, [BODY..]]` for each group of functions, `["method", NAME, QUERY, [PARAMETER..], [RESULT..], BODY]`,
//! `["stable", NAME, TYPE]`, `["save", BODY]` and `["start", BODY]`. A body is `[PARAMETERS, NODES, EXPRESSION]`. Names, texts and
//! blobs are in hexadecimal digits; types are numbers. A status other than 0 is told on the error stream.
#![tactic(auto)]

mod actions;
mod expressions;
mod pieces;
mod programs;
mod stop;
mod types;

use crate::programs::put_core;
use crate::stop::Stop;
use mo_elab::elab;
use mo_front::{FrontFault, front, line_and_column};
use mo_num::Bytes;
use outer::{Content, Files, OutsideFault, RealFiles, RealSink, Sink};
use std::alloc::Global;
use std::process::ExitCode;
use std::{env, io};

/// The most bytes that are read of a source.
const MOST_BYTES: u64 = 67_108_865;

// The source's bytes.
fn contents(alloc: Global, files: &mut impl Files, name: &str) -> Result<Bytes, Stop> {
    match files.read(alloc, name, MOST_BYTES) {
        Ok(Content::Whole(bytes)) => Ok(bytes),
        Ok(Content::Missing) => Err(Stop::NoFile),
        Ok(Content::TooLong) => Err(Stop::Usage),
        Err(OutsideFault::Failed) => Err(Stop::ReadFault),
        Err(OutsideFault::Memory) => Err(Stop::Memory),
    }
}

// Why a source has no program.
fn refused(alloc: Global, source: &[u8], fault: FrontFault) -> Stop {
    if matches!(fault, FrontFault::Memory) {
        return Stop::Memory;
    }
    match line_and_column(alloc, source, fault.place()) {
        Ok((line, column)) => Stop::Refused {
            fault,
            line,
            column,
        },
        Err(_) => Stop::Memory,
    }
}

// The lines of the program of a source.
fn lines_of(alloc: Global, source: &[u8]) -> Result<Bytes, Stop> {
    let typed = match front(alloc, source) {
        Ok(typed) => typed,
        Err(fault) => return Err(refused(alloc, source, fault)),
    };
    let core = elab(alloc, &typed)?;
    let mut lines = Bytes::new(alloc);
    put_core(alloc, &core, &mut lines)?;
    Ok(lines)
}

// The one word after the program's name.
fn word_of(alloc: Global, args: env::Args) -> Result<String, Stop> {
    let mut words = Vec::new(alloc);
    for word in args.skip(1) {
        words.push(word)?;
    }
    match words.pop() {
        Some(word) => {
            if words.is_empty() {
                Ok(word)
            } else {
                Err(Stop::Usage)
            }
        }
        None => Err(Stop::Usage),
    }
}

fn read_word(rt: &HostRuntime) -> Result<String, Stop> {
    match env::args(rt) {
        Ok(args) => word_of(rt.alloc(), args),
        Err(_) => Err(Stop::Usage),
    }
}

fn run(rt: &HostRuntime) -> Result<(), Stop> {
    let alloc = rt.alloc();
    let name = read_word(rt)?;
    let mut files = RealFiles::new(rt);
    let source = contents(alloc, &mut files, name.as_str())?;
    let lines = lines_of(alloc, source.as_slice())?;
    let mut out = RealSink::new(io::writer(rt));
    match out.put(lines.as_slice()) {
        Ok(()) => Ok(()),
        Err(OutsideFault::Failed) => Err(Stop::WriteFault),
        Err(OutsideFault::Memory) => Err(Stop::Memory),
    }
}

fn main(rt: HostRuntime) -> ExitCode {
    match run(&rt) {
        Ok(()) => ExitCode::from(0),
        Err(stop) => {
            let mut err = RealSink::new(rt.stderr());
            ExitCode::from(stop.tell(rt.alloc(), &mut err).code())
        }
    }
}
