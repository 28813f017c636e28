//! What a canister or an actor answers to its events.
use mo_num::{Bytes, Principal, Sequence};

/// One item of a transcript.
#[derive(Drop)]
pub enum Item {
    /// The first module is installed.
    Installed,
    /// Another module has taken its place.
    Upgraded,
    /// A line that the code printed.
    Print(Bytes),
    /// A call that the code makes. Calls are numbered from 0.
    Call {
        number: u64,
        callee: Principal,
        method: Bytes,
        bytes: Bytes,
    },
    /// The reply to the incoming call with this number, counted from 0.
    Replied {
        number: u64,
        bytes: Bytes,
    },
    /// The rejection of the incoming call with this number. The text is UTF-8.
    Rejected {
        number: u64,
        code: u32,
        text: Bytes,
    },
    /// An execution broke off, and what it changed is undone.
    Trapped(Word),
    /// The event meant nothing, and changed nothing.
    Ignored,
}

/// Why an execution broke off.
#[derive(Drop)]
pub enum Word {
    /// It passed its limit of steps.
    Steps,
    /// It passed its limit of stack words.
    Stack,
    /// It passed its limit of pages.
    Heap,
    /// It reached `unreachable`.
    Unreachable,
    /// It left the memory, a table or stable memory.
    Bounds,
    /// It divided by zero.
    Divide,
    /// A division or a conversion left its type.
    Overflow,
    /// An indirect call found no function of its type.
    Indirect,
    /// The code or the host gave this text, in UTF-8 where the code did so.
    Text(Bytes),
}

/// The items of a transcript, in order.
pub type Items = Sequence<Item>;
