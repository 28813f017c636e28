//! Whether a source is accepted.
ghost use Rattle.std.specs.Prelude.{◌≡◌, ◌≢◌, ℕ, List, Option};
ghost use Rattle.typed_tree.specs.WellTyped.{WellTyped};
ghost use Rattle.mo_front.specs.Fronts.{Accepted, RefusedBy};
ghost use Rattle.mo_command.specs.Checked.{Judges};
ghost use Rattle.mo_command.specs.Ends.{CheckEnds};
ghost use Rattle.mo_command.specs.Held.{outside};

use crate::replay::end_of;
use crate::status::Status;
use crate::uncovered::{put_lines, uncovered_lines};
use mo_front::{FrontFault, front, line_and_column};
use mo_lexer::{LexFault, MOST_BYTES};
use mo_num::Memory;
use outer::{Content, Files, OutsideFault, Sink};
use std::alloc::Global;
use typed_tree::Program;

// The status of a source that a fault refuses, with the line and the column of its place.
fn refused(alloc: Global, source: &[u8], fault: FrontFault) -> Status
    requires cause { fault ≢ FrontFault.Memory }
    requires refused { RefusedBy source.now fault }
    ensures { (shown : Option (List ℕ)) (faults : ℕ) → Judges source.now shown shown faults faults result }
{
    match line_and_column(alloc, source, fault.place()) {
        Ok((line, column)) => Status::NotAccepted {
            fault,
            line,
            column,
        },
        Err(Memory) => Status::NoMemory,
    }
}

// Puts the lines of an accepted source.
fn show<O: Sink>(alloc: Global, source: &[u8], made: &Program, out: &mut O) -> Status
    requires accepted { Accepted source.now made.now }
    requires typed { WellTyped made.now }
    ensures { Judges source.now (O.shown out.old) (O.shown out.new) (O.faults out.old) (O.faults out.new) result }
{
    match uncovered_lines(alloc, source, made) {
        Ok(lines) => end_of(put_lines(lines.as_slice(), out)),
        Err(Memory) => Status::NoMemory,
    }
}

fn judge<O: Sink>(alloc: Global, source: &[u8], out: &mut O) -> Status
    ensures { Judges source.now (O.shown out.old) (O.shown out.new) (O.faults out.old) (O.faults out.new) result }
{
    match front(alloc, source) {
        Ok(made) => show(alloc, source, &made, out),
        Err(FrontFault::Memory) => Status::NoMemory,
        Err(fault) => refused(alloc, source, fault),
    }
}

/// Checks the source in a file, and puts a line for each `switch` that misses a value.
pub(crate) fn check<F: Files, O: Sink>(
    alloc: Global,
    source: &str,
    files: &mut F,
    out: &mut O,
) -> Status
    ensures ends { CheckEnds source.now
        (outside (F.names files.old) (F.read_faults files.old) (F.write_faults files.old) (O.shown out.old) (O.faults out.old))
        (outside (F.names files.new) (F.read_faults files.new) (F.write_faults files.new) (O.shown out.new) (O.faults out.new)) result }
    ensures names { F.names files.new ≡ F.names files.old }
{
    match files.read(alloc, source, MOST_BYTES as u64) {
        Err(OutsideFault::Failed) => Status::ReadFault,
        Err(OutsideFault::Memory) => Status::NoMemory,
        Ok(Content::Missing) => Status::NoFile { place: 0 },
        Ok(Content::TooLong) => Status::NotAccepted {
            fault: FrontFault::Lex(LexFault::SourceTooLong),
            line: 1,
            column: 1,
        },
        Ok(Content::Whole(text)) => judge(alloc, text.as_slice(), out),
    }
}
