//! Why nothing is printed.
use mo_front::FrontFault;
use mo_num::{Bytes, Memory};
use outer::Sink;
use play_script::put_decimal;
use std::alloc::{AllocError, AllocFailed, Global};

/// Why nothing is printed. Lines and columns are numbered from 1.
#[derive(Clone, Copy, Debug, PartialEq, Eq)]
pub(crate) enum Stop {
    /// The source is refused, on this line and in this column.
    Refused {
        fault: FrontFault,
        line: u32,
        column: u32,
    },
    /// The words are no source.
    Usage,
    ReadFault,
    WriteFault,
    Memory,
    /// The source's file is not there.
    NoFile,
}

impl From<AllocError> for Stop {
    fn from(_: AllocError) -> Stop {
        Stop::Memory
    }
}

impl<T: Drop> From<AllocFailed<T>> for Stop {
    fn from(_: AllocFailed<T>) -> Stop {
        Stop::Memory
    }
}

impl From<Memory> for Stop {
    fn from(_: Memory) -> Stop {
        Stop::Memory
    }
}

// The line of a source that is refused.
fn refused_line(alloc: Global, fault: FrontFault, line: u32, column: u32) -> Result<Bytes, Memory> {
    let mut text = Bytes::from_slice(alloc, b"refused ")?;
    text.extend(fault.group())?;
    text.extend(b".")?;
    text.extend(fault.name())?;
    text.extend(b" ")?;
    put_decimal(line as u64, &mut text)?;
    text.extend(b":")?;
    put_decimal(column as u64, &mut text)?;
    text.extend(b"\n")?;
    Ok(text)
}

impl Stop {
    /// The status, as `mo` gives it.
    pub(crate) fn code(self) -> u8 {
        match self {
            Stop::Refused { .. } => 1,
            Stop::Usage => 2,
            Stop::ReadFault => 3,
            Stop::WriteFault => 4,
            Stop::Memory => 5,
            Stop::NoFile => 8,
        }
    }

    // What is said of it.
    fn line(self, alloc: Global) -> Result<Bytes, Memory> {
        match self {
            Stop::Refused {
                fault,
                line,
                column,
            } => refused_line(alloc, fault, line, column),
            Stop::Usage => Bytes::from_slice(alloc, b"usage: core_lines SRC\n"),
            Stop::ReadFault => Bytes::from_slice(alloc, b"read fault\n"),
            Stop::WriteFault => Bytes::from_slice(alloc, b"write fault\n"),
            Stop::Memory => Bytes::from_slice(alloc, b"no memory\n"),
            Stop::NoFile => Bytes::from_slice(alloc, b"no file\n"),
        }
    }

    /// Puts the line of the stop, and answers what the program ends with: want of memory where there is none for the line.
    pub(crate) fn tell<E: Sink>(self, alloc: Global, err: &mut E) -> Stop {
        let (stop, put) = match self.line(alloc) {
            Ok(line) => (self, err.put(line.as_slice())),
            Err(Memory) => (Stop::Memory, err.put(b"no memory\n")),
        };
        // Of a put that fails nothing more can be said.
        let _ = put;
        stop
    }
}
