//! Why no more is played.
use mo_front::FrontFault;
use mo_num::Memory;
use play_script::ScriptFault;
use std::alloc::{AllocError, AllocFailed};

/// Why no more is played. Sources and files are numbered from 0, lines and columns from 1.
#[derive(Clone, Copy, Debug, PartialEq, Eq)]
pub(crate) enum Stop {
    /// The source with this number is refused, on this line and in this column.
    Refused {
        source: usize,
        fault: FrontFault,
        line: u32,
        column: u32,
    },
    /// The words are no turns, script and sources.
    Usage,
    ReadFault,
    WriteFault,
    Memory,
    /// The script's file holds no script; the fault is not want of memory.
    BadScript(ScriptFault),
    /// A file is not there: the one with this place in the order of reading.
    NoFile {
        place: usize,
    },
}

impl Stop {
    /// The status.
    pub(crate) fn code(self) -> u8 {
        match self {
            Stop::Refused { .. } => 1,
            Stop::Usage => 2,
            Stop::ReadFault => 3,
            Stop::WriteFault => 4,
            Stop::Memory => 5,
            Stop::BadScript(_) => 6,
            Stop::NoFile { .. } => 8,
        }
    }

    /// What the fault of a script comes to.
    pub(crate) fn of_script(fault: ScriptFault) -> Stop {
        match fault {
            ScriptFault::Memory => Stop::Memory,
            other => Stop::BadScript(other),
        }
    }
}

impl From<AllocError> for Stop {
    fn from(_: AllocError) -> Stop {
        Stop::Memory
    }
}

impl<T: Drop> From<AllocFailed<T>> for Stop {
    fn from(_: AllocFailed<T>) -> Stop {
        Stop::Memory
    }
}

impl From<Memory> for Stop {
    fn from(_: Memory) -> Stop {
        Stop::Memory
    }
}
