//! How a run ends.
ghost use Rattle.std.specs.Prelude.{◌≡◌};

use mo_front::FrontFault;
use mo_play::ModuleFault;
use play_script::ScriptFault;

/// The files that a script is replayed over.
#[derive(Clone, Copy, Debug, PartialEq, Eq)]
pub enum Input {
    /// Modules, for `play`.
    Modules,
    /// Sources, for `run`.
    Sources,
}

/// How the program ends, and why. Numbers count from 0, lines from 1.
#[derive(Clone, Copy, Debug, PartialEq, Eq)]
pub enum Status {
    /// The words' work is done.
    Done,
    /// The source with this number is not accepted.
    Refused {
        source: usize,
    },
    /// The words are none of the forms.
    Usage,
    /// A read failed.
    ReadFault,
    /// A write failed, or a put on the output.
    WriteFault,
    /// There was no memory.
    NoMemory,
    /// The script's file holds no script; the fault is not want of memory.
    BadScript(ScriptFault),
    /// The script's line asks `run` for what it does not do yet.
    NotYet {
        line: u32,
    },
    /// The file of the module with this number holds no valid module.
    BadModule {
        number: usize,
        fault: ModuleFault,
    },
    /// A file that a word names for reading is not there: the one with this place in the order of reading.
    NoFile {
        place: usize,
    },
    /// The source that is checked is refused by this fault, which is on this line and in this column, both from 1.
    NotAccepted {
        fault: FrontFault,
        line: u32,
        column: u32,
    },
}

impl Status {
    ghost use Rattle.mo_command.specs.Codes.{code_of};

    /// The exit status of the program.
    pub fn code(self) -> u8
        ensures { result ≡ code_of self }
    {
        match self {
            Status::Done => 0,
            Status::Refused { .. } => 1,
            Status::Usage => 2,
            Status::ReadFault => 3,
            Status::WriteFault => 4,
            Status::NoMemory => 5,
            Status::BadScript(_) => 6,
            Status::NotYet { .. } => 6,
            Status::BadModule { .. } => 7,
            Status::NoFile { .. } => 8,
            Status::NotAccepted { .. } => 1,
        }
    }
}
