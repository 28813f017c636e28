//! Runs one library call on words and files, and prints what it answers: so that a test is a file of data.
//!
//! `mo_probe COMMAND WORD..`: a word that names a file stands for what the file holds, any other word for itself. The
//! answer goes to the output, a fault too, with status 0. The status is 2 where the words are no command, and 5 where
//! there was no memory.
#![tactic(auto)]

use mo_num::Bytes;
use outer::{Content, Files, RealFiles};
use probe_base::Stop;
use std::alloc::Global;
use std::env;
use std::process::ExitCode;

/// The most bytes that a file may hold: one more than a module may have, so that it is `read` that refuses it.
const MOST_BYTES: u64 = 67_108_865;

// What a word stands for.
fn argument(alloc: Global, files: &mut impl Files, word: &str) -> Result<Bytes, Stop> {
    match files.read(alloc, word, MOST_BYTES)? {
        Content::Whole(bytes) => Ok(bytes),
        Content::Missing => Ok(Bytes::from_slice(alloc, word.as_bytes())?),
        Content::TooLong => Err(Stop::Usage),
    }
}

// The first word, and what the others stand for.
fn read_words(
    alloc: Global,
    files: &mut impl Files,
    words: env::Args,
) -> Result<(String, Vec<Bytes>), Stop> {
    let mut words = words.skip(1);
    let command = words.next().ok_or(Stop::Usage)?;
    let mut arguments = Vec::new(alloc);
    for word in words {
        let argument = argument(alloc, files, word.as_str())?;
        if arguments.push(argument).is_err() {
            return Err(Stop::Memory);
        }
    }
    Ok((command, arguments))
}

// What the first crate of commands that has this one answers.
fn answer(alloc: Global, command: &str, arguments: &[Bytes]) -> Result<String, Stop> {
    match front_probe::answer(alloc, command, arguments) {
        Err(Stop::Usage) => {}
        answer => return answer,
    }
    match types_probe::answer(alloc, command, arguments) {
        Err(Stop::Usage) => {}
        answer => return answer,
    }
    match fault_probe::answer(alloc, command, arguments) {
        Err(Stop::Usage) => modules_probe::answer(alloc, command, arguments),
        answer => answer,
    }
}

fn run(alloc: Global, files: &mut impl Files, words: env::Args) -> Result<String, Stop> {
    let (command, arguments) = read_words(alloc, files, words)?;
    answer(alloc, command.as_str(), arguments.as_slice())
}

fn main(rt: HostRuntime) -> ExitCode {
    let Ok(words) = env::args(&rt) else {
        return ExitCode::from(Stop::Usage.code());
    };
    let mut files = RealFiles::new(&rt);
    match run(rt.alloc(), &mut files, words) {
        Ok(text) => match print!(rt; "{text}") {
            Ok(()) => ExitCode::from(0),
            Err(_) => ExitCode::from(Stop::Memory.code()),
        },
        Err(stop) => ExitCode::from(stop.code()),
    }
}
