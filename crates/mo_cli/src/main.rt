//! The command line of the compiler.
#![tactic(auto)]

mod help;

use crate::help::{HELP, VERSION};
use mo_command::{Status, run_mo, tell};
use mo_explain::explain;
use outer::{RealFiles, RealSink, Sink};
use std::alloc::{AllocError, Global};
use std::io::ErrorKind;
use std::process::ExitCode;
use std::{env, io};

// The words after the program's name.
fn words_of(alloc: Global, args: env::Args) -> Result<Vec<String>, AllocError> {
    let mut words = Vec::new(alloc);
    for word in args.skip(1) {
        words.push(word)?;
    }
    Ok(words)
}

// How the program ends where it gets no words: one of them is not UTF-8, or there was no memory for them.
fn without_words(error: &io::Error) -> Status {
    if error.kind() == ErrorKind::OutOfMemory {
        Status::NoMemory
    } else {
        Status::Usage
    }
}

fn read_args(alloc: Global, args: io::Result<env::Args>) -> Result<Vec<String>, Status> {
    match args {
        Ok(args) => match words_of(alloc, args) {
            Ok(words) => Ok(words),
            Err(_) => Err(Status::NoMemory),
        },
        Err(error) => Err(without_words(&error)),
    }
}

// What `--help` or `--version` alone prints.
fn notice(words: &[String]) -> Option<&'static str> {
    match words {
        [word] => {
            if word.as_str() == "--help" {
                Some(HELP)
            } else if word.as_str() == "--version" {
                Some(VERSION)
            } else {
                None
            }
        }
        _ => None,
    }
}

// The source of `explain SRC`.
fn explained(words: &[String]) -> Option<&str> {
    match words {
        [command, source] => {
            if command.as_str() == "explain" {
                Some(source.as_str())
            } else {
                None
            }
        }
        _ => None,
    }
}

// Tells how an explanation ends, where that is not said on the output.
fn told<E: Sink>(alloc: Global, status: Status, err: &mut E) -> Status {
    match status {
        Status::Done | Status::Refused { .. } => status,
        _ => tell(alloc, status, err),
    }
}

fn main(rt: HostRuntime) -> ExitCode {
    let alloc = rt.alloc();
    let mut err = RealSink::new(rt.stderr());
    let words = match read_args(alloc, env::args(&rt)) {
        Ok(words) => words,
        Err(status) => return ExitCode::from(tell(alloc, status, &mut err).code()),
    };
    if let Some(text) = notice(words.as_slice()) {
        return match print!(rt; "{text}") {
            Ok(()) => ExitCode::from(Status::Done.code()),
            Err(_) => ExitCode::from(Status::WriteFault.code()),
        };
    }
    let mut files = RealFiles::new(&rt);
    let mut out = RealSink::new(io::writer(&rt));
    let status = match explained(words.as_slice()) {
        Some(source) => told(
            alloc,
            explain(alloc, source, &mut files, &mut out),
            &mut err,
        ),
        None => run_mo(alloc, words.as_slice(), &mut files, &mut out, &mut err),
    };
    ExitCode::from(status.code())
}
