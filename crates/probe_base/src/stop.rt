//! Why a command has no answer.
ghost use Rattle.std.specs.Prelude.{◌≡◌};
ghost use Rattle.probe_base.specs.declared.stop.Stop.{Stop};

use mo_num::Memory;
use outer::OutsideFault;
use std::alloc::AllocError;

/// Why a command has no answer.
#[derive(Debug, Drop)]
pub enum Stop {
    /// The words are no command.
    Usage,
    /// There was no memory, or a file could not be read.
    Memory,
}

impl Stop {
    /// The exit status.
    pub fn code(&self) -> u8
        ensures usage { self.now ≡ Stop.Usage → result ≡ 2 }
        ensures memory { self.now ≡ Stop.Memory → result ≡ 5 }
    {
        match self {
            Stop::Usage => 2,
            Stop::Memory => 5,
        }
    }
}

impl From<AllocError> for Stop {
    fn from(_: AllocError) -> Self {
        Stop::Memory
    }
}

impl From<Memory> for Stop {
    fn from(_: Memory) -> Self {
        Stop::Memory
    }
}

impl From<OutsideFault> for Stop {
    fn from(_: OutsideFault) -> Self {
        Stop::Memory
    }
}
