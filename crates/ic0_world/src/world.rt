//! What the host keeps for one execution of a canister (IC interface specification, sections Abstract canisters and The IC interface for canisters).
use crate::ExecutionKind;
use mo_num::{Bytes, Principal, Sequence};
use page_store::Pages;

/// A function of the table by its place there, and the number that it is called with.
#[derive(Clone, Copy, Debug, PartialEq, Eq)]
pub struct Callback {
    pub function: u32,
    pub environment: u32,
}

/// A call that the canister makes.
#[derive(Drop)]
pub struct OutgoingCall {
    pub callee: Principal,
    pub method: Bytes,
    pub argument: Bytes,
    pub on_reply: Callback,
    pub on_reject: Callback,
    pub on_cleanup: Option<Callback>,
}

/// The answer to the incoming call.
#[derive(Drop)]
pub enum Answer {
    Replied(Bytes),
    /// With its code and its text, which is UTF-8.
    Rejected(u32, Bytes),
}

/// One execution: how it was entered, what it was given, and what it has done so far.
#[derive(Drop)]
pub struct World {
    pub kind: ExecutionKind,
    /// The canister's own principal.
    pub own: Principal,
    pub caller: Principal,
    /// The argument, or in the callback of a reply the reply's data.
    pub argument: Bytes,
    /// The code of the reject in its callback, else 0.
    pub reject_code: u32,
    pub reject_text: Bytes,
    /// Whether the incoming call was answered before.
    pub answered: bool,
    /// How many calls were open before.
    pub open_before: u32,
    pub reply_data: Bytes,
    pub answer: Option<Answer>,
    /// The call that is being prepared.
    pub prepared: Option<OutgoingCall>,
    /// The calls that were made, in order.
    pub performed: Sequence<OutgoingCall>,
    pub prints: Sequence<Bytes>,
    /// Stable memory, with the most pages that it may have.
    pub stable: Pages,
    /// Whether stable memory was refused to grow.
    pub stable_refused: bool,
    /// The text of the trap that ended the execution.
    pub trap_text: Bytes,
}
