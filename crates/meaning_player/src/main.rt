//! Plays scripts by the meaning of programs: the stepper of typed programs in the place of the modules that are written for them.
//!
//! `meaning_player TURNS SCRIPT SRC..` prints the transcript of the script's events on the actors of the sources, as `mo run SCRIPT SRC..`
//! is to do. It knows no limits of steps, stack and heap: an event one of whose executions does not end within so many turns gives
//! the line `still`, and is the last. Every other status than 0 is told on the error stream, and has the number that `mo` gives it.
#![tactic(auto)]

mod playing;
mod sources;
mod stop;
mod telling;

use crate::playing::play;
use crate::sources::{contents, programs};
use crate::stop::Stop;
use crate::telling::tell;
use outer::{RealFiles, RealSink};
use play_script::{read_number, read_script};
use std::alloc::Global;
use std::io::ErrorKind;
use std::process::ExitCode;
use std::{env, io};

// The words after the program's name.
fn words_of(alloc: Global, args: env::Args) -> Result<Vec<String>, Stop> {
    let mut made = Vec::new(alloc);
    for word in args.skip(1) {
        made.push(word)?;
    }
    Ok(made)
}

// Why there are no words: one of them is not UTF-8, or there was no memory for them.
fn without_words(error: &io::Error) -> Stop {
    if error.kind() == ErrorKind::OutOfMemory {
        Stop::Memory
    } else {
        Stop::Usage
    }
}

fn read_words(rt: &HostRuntime) -> Result<Vec<String>, Stop> {
    match env::args(rt) {
        Ok(args) => words_of(rt.alloc(), args),
        Err(error) => Err(without_words(&error)),
    }
}

// The script is read first, then each source in order, and then the events run.
fn run(rt: &HostRuntime) -> Result<(), Stop> {
    let alloc = rt.alloc();
    let words = read_words(rt)?;
    let [turns, script, sources @ ..] = words.as_slice() else {
        return Err(Stop::Usage);
    };
    let Some(turns) = read_number(turns.as_bytes()) else {
        return Err(Stop::Usage);
    };
    let Ok(count) = u32::try_from(sources.len()) else {
        return Err(Stop::Usage);
    };
    let mut files = RealFiles::new(rt);
    let text = contents(alloc, &mut files, script.as_str(), 0)?;
    let events = match read_script(alloc, text.as_slice(), count) {
        Ok(events) => events,
        Err(fault) => return Err(Stop::of_script(fault)),
    };
    let made = programs(alloc, &mut files, sources)?;
    let mut out = RealSink::new(io::writer(rt));
    play(alloc, made.as_slice(), events.as_slice(), turns, &mut out)?;
    Ok(())
}

fn main(rt: HostRuntime) -> ExitCode {
    match run(&rt) {
        Ok(()) => ExitCode::from(0),
        Err(stop) => {
            let mut err = RealSink::new(rt.stderr());
            ExitCode::from(tell(rt.alloc(), stop, &mut err).code())
        }
    }
}
