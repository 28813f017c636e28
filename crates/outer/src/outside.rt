//! The outside as a program sees it.
ghost use Rattle.std.specs.Prelude.{◌≡◌, List, ℕ, Option, IfOk, IfSome, OnOk, OnErr, IsErrOf};
ghost use Rattle.std.specs.Io.KnownBytes.{Appends};
ghost use Rattle.outer.specs.declared.outside.OutsideFault.TheVariants.{Memory as memory_fault};

use mo_num::{Bytes, Memory};
use std::alloc::Global;
use thiserror::Error;

/// Why a call did not do its work.
#[derive(Clone, Copy, Debug, PartialEq, Eq, Error)]
pub enum OutsideFault {
    /// The outside refused, or broke off. Answered only where the object's count of faults rose in the call.
    #[error("a read, a write or a put failed")]
    Failed,
    /// There was no memory, and nothing outside changed.
    #[error("there was no memory")]
    Memory,
}

impl From<Memory> for OutsideFault {
    ghost from_gives = { λ _ e. e ≡ memory_fault };

    fn from(_: Memory) -> Self {
        OutsideFault::Memory
    }
}

/// What a name holds.
#[derive(Drop)]
pub enum Content {
    /// All the bytes of the name.
    Whole(Bytes),
    /// More bytes than were asked for.
    TooLong,
    /// There is no such name.
    Missing,
}

/// Files by their names.
///
/// Its meaning is a map from names to bytes, where that is told, and two counts of faults, of its reads and of its
/// writes. No count ever falls. A count that stands at 2^64 - 1 stays there, and is said to rise.
pub trait Files {
    ghost use Rattle.outer.specs.Causes.{HasCause};
    ghost use Rattle.outer.specs.Names.{NameMap, IsContent, KeepsOthers, HoldsNow};

    /// What each name holds, where that is told.
    ghost names: { Self → Option NameMap };

    /// How often a read failed.
    ghost read_faults: { Self → ℕ };

    /// How often a write failed.
    ghost write_faults: { Self → ℕ };

    /// What the name holds: `Missing` exactly where there is no such name, `TooLong` exactly where it holds more than
    /// `limit` bytes, else all its bytes. No name changes, whatever the answer. `Failed` comes only where the count of
    /// reads rose in this call.
    fn read(&mut self, alloc: Global, name: &str, limit: u64) -> Result<Content, OutsideFault>
        ensures content { IfOk result (λ content. IfSome (names self.old) (λ held. IsContent limit (held name.now) content)) }
        ensures same { names self.new ≡ names self.old }
        ensures cause { HasCause (read_faults self.old) (read_faults self.new) result }
        ensures other_count { write_faults self.new ≡ write_faults self.old };

    /// Lets the name hold exactly these bytes. No other name changes, whatever the answer: after `Failed` the name itself
    /// may hold anything or be gone, after `Memory` it is as it was. `Failed` comes only where the count of writes rose
    /// in this call.
    fn write(&mut self, name: &str, bytes: &[u8]) -> Result<(), OutsideFault>
        ensures written { OnOk result (HoldsNow (names self.new) name.now bytes.now) }
        ensures others { KeepsOthers (names self.old) (names self.new) name.now }
        ensures memory { IsErrOf result OutsideFault.Memory → names self.new ≡ names self.old }
        ensures cause { HasCause (write_faults self.old) (write_faults self.new) result }
        ensures other_count { read_faults self.new ≡ read_faults self.old };
}

/// A place to put bytes.
///
/// Its meaning is the bytes put so far, where that is told, and a count of faults, which never falls.
pub trait Sink {
    ghost use Rattle.outer.specs.Causes.{HasCause};
    ghost use Rattle.outer.specs.Sinks.{AppendsPrefix};

    /// The bytes put so far, where that is told.
    ghost shown: { Self → Option (List ℕ) };

    /// How often a put failed.
    ghost faults: { Self → ℕ };

    /// Puts the piece behind what is there. After `Failed` a prefix of the piece was put, after `Memory` nothing.
    /// `Failed` comes only where the count rose in this call.
    fn put(&mut self, piece: &[u8]) -> Result<(), OutsideFault>
        ensures appended { OnOk result (Appends (shown self.old) (shown self.new) piece.now) }
        ensures front { OnErr result (AppendsPrefix (shown self.old) (shown self.new) piece.now) }
        ensures memory { IsErrOf result OutsideFault.Memory → shown self.new ≡ shown self.old }
        ensures cause { HasCause (faults self.old) (faults self.new) result };
}
