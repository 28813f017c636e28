//! What is said of a stop.
use crate::stop::Stop;
use mo_front::FrontFault;
use mo_num::{Bytes, Memory};
use outer::Sink;
use play_script::{ScriptFault, put_decimal};
use std::alloc::Global;

// The line of a source that is refused.
fn refused_line(
    alloc: Global,
    source: usize,
    fault: FrontFault,
    line: u32,
    column: u32,
) -> Result<Bytes, Memory> {
    let mut text = Bytes::from_slice(alloc, b"refused ")?;
    put_decimal(source as u64, &mut text)?;
    text.extend(b" ")?;
    text.extend(fault.group())?;
    text.extend(b".")?;
    text.extend(fault.name())?;
    text.extend(b" ")?;
    put_decimal(line as u64, &mut text)?;
    text.extend(b":")?;
    put_decimal(column as u64, &mut text)?;
    text.extend(b"\n")?;
    Ok(text)
}

// The line of a text that is no script.
fn script_line(alloc: Global, fault: ScriptFault) -> Result<Bytes, Memory> {
    let text = format!(in alloc; "bad script: {fault}\n")?;
    Bytes::from_slice(alloc, text.as_bytes())
}

// The line of a file that is not there.
fn missing_line(alloc: Global, place: usize) -> Result<Bytes, Memory> {
    let mut text = Bytes::from_slice(alloc, b"no file ")?;
    put_decimal(place as u64, &mut text)?;
    text.extend(b"\n")?;
    Ok(text)
}

fn line_of(alloc: Global, stop: Stop) -> Result<Bytes, Memory> {
    match stop {
        Stop::Refused {
            source,
            fault,
            line,
            column,
        } => refused_line(alloc, source, fault, line, column),
        Stop::Usage => Bytes::from_slice(alloc, b"usage: meaning_player TURNS SCRIPT SRC..\n"),
        Stop::ReadFault => Bytes::from_slice(alloc, b"read fault\n"),
        Stop::WriteFault => Bytes::from_slice(alloc, b"write fault\n"),
        Stop::Memory => Bytes::from_slice(alloc, b"no memory\n"),
        Stop::BadScript(fault) => script_line(alloc, fault),
        Stop::NoFile { place } => missing_line(alloc, place),
    }
}

/// Puts the line of the stop, and answers what the program ends with: want of memory where there is none for the line.
pub(crate) fn tell<E: Sink>(alloc: Global, stop: Stop, err: &mut E) -> Stop {
    let (stop, put) = match line_of(alloc, stop) {
        Ok(line) => (stop, err.put(line.as_slice())),
        Err(Memory) => (Stop::Memory, err.put(b"no memory\n")),
    };
    // Of a put that fails nothing more can be said.
    let _ = put;
    stop
}
