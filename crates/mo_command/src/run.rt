//! The top call.
ghost use Rattle.std.specs.Prelude.{◌≡◌, map, string_bytes, None};
ghost use Rattle.mo_command.specs.Held.{outside};
ghost use Rattle.mo_command.specs.Ends.{BuildEnds, Ends, EndsAsAsked};
ghost use Rattle.mo_command.specs.Lines.{Tells};

use crate::check::check;
use crate::compile::{CompileFault, compile};
use crate::line::tell;
use crate::replay::replay;
use crate::status::{Input, Status};
use mo_words::{Command, read_words};
use outer::{Content, Files, OutsideFault, Sink};
use query_source::LONGEST_SOURCE;
use std::alloc::Global;

fn build<F: Files>(alloc: Global, source: &str, out: &str, files: &mut F) -> Status
    ensures { BuildEnds source.now out.now
        (outside (F.names files.old) (F.read_faults files.old) (F.write_faults files.old) None 0)
        (outside (F.names files.new) (F.read_faults files.new) (F.write_faults files.new) None 0) result }
{
    match files.read(alloc, source, LONGEST_SOURCE as u64) {
        Err(OutsideFault::Failed) => Status::ReadFault,
        Err(OutsideFault::Memory) => Status::NoMemory,
        Ok(Content::Missing) => Status::NoFile { place: 0 },
        Ok(Content::TooLong) => Status::Refused { source: 0 },
        Ok(Content::Whole(text)) => match compile(alloc, text.as_slice()) {
            Err(CompileFault::NotYet) => Status::Refused { source: 0 },
            Err(CompileFault::Memory) => Status::NoMemory,
            Ok(bytes) => match files.write(out, bytes.as_slice()) {
                Ok(()) => Status::Done,
                Err(OutsideFault::Failed) => Status::WriteFault,
                Err(OutsideFault::Memory) => Status::NoMemory,
            },
        },
    }
}

fn work<F: Files, O: Sink>(alloc: Global, words: &[String], files: &mut F, out: &mut O) -> Status
    ensures { Ends (map string_bytes words.now)
        (outside (F.names files.old) (F.read_faults files.old) (F.write_faults files.old) (O.shown out.old) (O.faults out.old))
        (outside (F.names files.new) (F.read_faults files.new) (F.write_faults files.new) (O.shown out.new) (O.faults out.new)) result }
{
    match read_words(words) {
        None => Status::Usage,
        Some(
            Command::Build {
                source,
                out: module,
            },
        ) => build(alloc, source, module, files),
        Some(Command::Check { source }) => check(alloc, source, files, out),
        Some(Command::Play(order)) => replay(alloc, Input::Modules, order, files, out),
        Some(Command::Run(order)) => replay(alloc, Input::Sources, order, files, out),
    }
}

/// Does what the words after the program's name say: `build SRC OUT`, `check SRC`, `play [options] SCRIPT MODULE..` or
/// `run [options] SCRIPT SRC..`. Each line goes to the output or to the error stream by one put.
///
/// With status Done, `check` found an accepted source, and put one line for each `switch` that misses a value, in the order of the source; `build` found an accepted source, and OUT holds bytes of a valid module that does what the actor of its
/// program does; `play` found valid modules and a script, and put the transcript of the host's run over them; `run` found
/// accepted sources and a script, and put the transcript of a run of their actors. No other name changed. Each other status
/// has its cause, and leaves the output as it was, or with a prefix of such a transcript.
pub fn run_mo<F: Files, O: Sink, E: Sink>(
    alloc: Global,
    words: &[String],
    files: &mut F,
    out: &mut O,
    err: &mut E,
) -> Status
    ensures ends { Ends (map string_bytes words.now)
        (outside (F.names files.old) (F.read_faults files.old) (F.write_faults files.old) (O.shown out.old) (O.faults out.old))
        (outside (F.names files.new) (F.read_faults files.new) (F.write_faults files.new) (O.shown out.new) (O.faults out.new)) result }
    ensures as_asked { EndsAsAsked (map string_bytes words.now)
        (outside (F.names files.old) (F.read_faults files.old) (F.write_faults files.old) (O.shown out.old) (O.faults out.old))
        (outside (F.names files.new) (F.read_faults files.new) (F.write_faults files.new) (O.shown out.new) (O.faults out.new)) result }
    ensures err { Tells (E.shown err.old) (E.shown err.new) (E.faults err.old) (E.faults err.new) result }
{
    let status = work(alloc, words, files, out);
    tell(alloc, status, err)
}
