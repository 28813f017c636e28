//! What is said of the source in a file.
ghost use Rattle.std.specs.Prelude.{◌≡◌, IfOk};
ghost use Rattle.mo_command.specs.Held.{outside};
ghost use Rattle.mo_explain.specs.Ends.{ExplainEnds, IsSaid, IsSaidOfLong, IsTooLong, Puts, Says};

use fault_meanings::lex_meaning;
use mo_command::Status;
use mo_lexer::{LexFault, MOST_BYTES};
use mo_num::{Bytes, Memory};
use outer::{Content, Files, OutsideFault, Sink};
use source_explanation::{Explanation, explain_source};
use std::alloc::Global;

// Puts a text. The run ends with this status where all of it was put.
fn put<O: Sink>(text: &[u8], status: Status, out: &mut O) -> Status
    ensures { Puts text.now status (O.shown out.old) (O.shown out.new) (O.faults out.old) (O.faults out.new) result }
{
    match out.put(text) {
        Ok(()) => status,
        Err(OutsideFault::Failed) => Status::WriteFault,
        Err(OutsideFault::Memory) => Status::NoMemory,
    }
}

// What is said of a source that is too long to be read.
fn too_long(alloc: Global) -> Result<Bytes, Memory>
    ensures { IfOk result IsTooLong }
{
    let mut made = Bytes::from_slice(alloc, b"1:1 Lex.SourceTooLong\n")?;
    made.extend(lex_meaning(LexFault::SourceTooLong))?;
    made.push(b'\n')?;
    Ok(made)
}

fn explain_long<O: Sink>(alloc: Global, out: &mut O) -> Status
    ensures { Says (λ accepted text. IsSaidOfLong accepted text) (O.shown out.old) (O.shown out.new) (O.faults out.old) (O.faults out.new) result }
{
    match too_long(alloc) {
        Ok(text) => put(text.as_slice(), Status::Refused { source: 0 }, out),
        Err(Memory) => Status::NoMemory,
    }
}

fn explain_text<O: Sink>(alloc: Global, source: &[u8], out: &mut O) -> Status
    ensures { Says (IsSaid source.now) (O.shown out.old) (O.shown out.new) (O.faults out.old) (O.faults out.new) result }
{
    match explain_source(alloc, source) {
        Ok(Explanation::Refused(text)) => put(text.as_slice(), Status::Refused { source: 0 }, out),
        Ok(Explanation::Accepted(text)) => put(text.as_slice(), Status::Done, out),
        Err(Memory) => Status::NoMemory,
    }
}

/// Explains the source in a file: of one that is refused it puts the line with a mark under the place of the fault and what the fault means,
/// of one that is accepted each `switch` that misses a value, with a case that is missed. It is one put.
pub fn explain<F: Files, O: Sink>(alloc: Global, source: &str, files: &mut F, out: &mut O) -> Status
    ensures ends { ExplainEnds source.now
        (outside (F.names files.old) (F.read_faults files.old) (F.write_faults files.old) (O.shown out.old) (O.faults out.old))
        (outside (F.names files.new) (F.read_faults files.new) (F.write_faults files.new) (O.shown out.new) (O.faults out.new)) result }
    ensures names { F.names files.new ≡ F.names files.old }
{
    match files.read(alloc, source, MOST_BYTES as u64) {
        Err(OutsideFault::Failed) => Status::ReadFault,
        Err(OutsideFault::Memory) => Status::NoMemory,
        Ok(Content::Missing) => Status::NoFile { place: 0 },
        Ok(Content::TooLong) => explain_long(alloc, out),
        Ok(Content::Whole(text)) => explain_text(alloc, text.as_slice(), out),
    }
}
