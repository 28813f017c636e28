//! The state of a canister between events.
ghost use Rattle.std.specs.Prelude.{◌≡◌, ◌≤◌, length, Option};

use canister_calls::Calls;
use canister_execution::{Memories, Message};
use mo_num::{Bytes, Principal};
use std::alloc::Global;

/// What a canister is between events (IC interface specification, section Abstract behavior). It holds the number of its
/// module in a list that is the same at each event.
#[derive(Drop)]
pub struct State {
    pub own: Principal,
    pub installed: Option<u32>,
    pub memories: Memories,
    pub calls: Calls,
    pub alloc: Global,
}

impl State {
    ghost use Rattle.canister_host.specs.State as host;
    ghost use Rattle.canister_calls.specs.Calling.{state_with, without, during};
    ghost use Rattle.canister_messages.specs.States.{message_of};

    // What an execution for an incoming call is told, while another call of the canister may be answered.
    pub(crate) fn message(&self, owner: u64, answering: Option<u64>, argument: Bytes) -> Message
        requires { length self.now.calls.waiting.items ≤ 500 }
        ensures is { (c : Option host.Canister) → result ≡ message_of owner argument (during answering (state_with c self.now.calls)) }
        ensures open { result.open_before ≡ length (without answering self.now.calls.waiting.items) }
    {
        Message {
            caller: self.calls.caller(self.alloc, owner),
            argument,
            reject_code: 0,
            reject_text: Bytes::new(self.alloc),
            answered: self.calls.is_answered(owner),
            open_before: self.calls.open_count(answering),
        }
    }
}
