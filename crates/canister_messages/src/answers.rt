//! Answers to outgoing calls.
ghost use Rattle.std.specs.Prelude.{◌≡◌, ◌≤◌, ◌+◌, ◌<◌, ◌^◌, ◌++◌, ◌∷◌, [], ℕ, Some, None, false, List, length, IfOk, OnOk, OnErr};
ghost use Rattle.wasm_tree.specs.declared.module_parts.Module.{Module};
ghost use Rattle.wasm_instance.specs.Fits.{IsInstanceOf};
ghost use Rattle.canister_host.specs.declared.calls.OpenCall.{OpenCall};
ghost use Rattle.canister_host.specs.State as host;
ghost use Rattle.canister_host.specs.HostRun.{clean_up, closing, enter_callback, outcome, printed, callback_kind, callback_of};
ghost use Rattle.canister_calls.specs.Awaiting.{awaiting_of};
ghost use Rattle.canister_calls.specs.Calling.{state_with, without, during};
ghost use Rattle.canister_messages.specs.Received.{received_of, received_message};
ghost use Rattle.canister_messages.specs.Left.{callback_left, cleanup_left};
ghost use Rattle.canister_messages.specs.States.{state_at, canister_at, limits_of, CanRun, IsAsBefore, KeepsRest};

use crate::ends::printed;
use crate::state::State;
use canister_calls::{Awaiting, push_prints};
use canister_execution::{Effects, Message};
use ic0_world::{Callback, ExecutionKind};
use mo_num::{Bytes, Memory, Sequence};
use play_script::{Item, Items, Word};
use wasm_valid::Valid;

/// The answer to an outgoing call: a reply, or a rejection with its code and its text.
#[derive(Drop)]
pub enum Received {
    Reply(Bytes),
    Reject(u32, Bytes),
}

// The message with the answer that is received.
fn with_received(received: Received, message: Message) -> Message
    ensures { result ≡ received_message (received_of received) message }
{
    match received {
        Received::Reply(bytes) => Message {
            argument: bytes,
            ..message
        },
        Received::Reject(code, text) => Message {
            reject_code: code,
            reject_text: text,
            ..message
        },
    }
}

fn kind_of(received: &Received) -> ExecutionKind
    ensures { result ≡ callback_kind (received_of received.now) }
{
    match received {
        Received::Reply(_) => ExecutionKind::Reply,
        Received::Reject(_, _) => ExecutionKind::Reject,
    }
}

fn callback_for(received: &Received, call: Awaiting) -> Callback
    ensures { (c : OpenCall) → awaiting_of c ≡ call → result ≡ callback_of (received_of received.now) c.call }
{
    match received {
        Received::Reply(_) => call.on_reply,
        Received::Reject(_, _) => call.on_reject,
    }
}

impl State {
    /// Runs the callback of the answered call with this number.
    pub fn enter_callback(
        &mut self,
        tree: &Valid,
        number: u64,
        call: Awaiting,
        received: Received,
    ) -> Result<Items, Memory>
        requires runs { CanRun tree.now self.old }
        requires made { self.old.calls.made + 500 < 2 ^ 64 }
        requires few { length (without (Some number) self.old.calls.waiting.items) ≤ 500 }
        ensures ok { (c : OpenCall) → awaiting_of c ≡ call → IfOk result (λ items. enter_callback (limits_of self.old) self.old.own (received_of received) (canister_at tree.now self.old.memories.kept) c (during (Some number) (state_at tree.now self.old)) ≡ outcome items (state_at tree.now self.new)) }
        ensures err { OnErr result (IsAsBefore self.old self.new) }
        ensures runs { OnOk result (CanRun tree.now self.new) }
        ensures made { OnOk result (self.new.calls.made ≤ self.old.calls.made + 500) }
        ensures rest { KeepsRest self.old self.new }
    {
        let kind = kind_of(&received);
        let callback = callback_for(&received, call);
        let asked = self.message(call.owner, Some(number), Bytes::new(self.alloc));
        let message = with_received(received, asked);
        match self
            .memories
            .call_back(self.alloc, &self.own, tree, kind, callback, message)
        {
            Ok(effects) => self.end_callback(tree, number, call, effects),
            Err(Memory) => Err(Memory),
        }
    }

    // What an execution of a callback leaves.
    fn end_callback(
        &mut self,
        tree: &Valid,
        number: u64,
        call: Awaiting,
        effects: Effects,
    ) -> Result<Items, Memory>
        requires there { self.old.memories.is_lost ≡ false }
        requires fits { IsInstanceOf tree.now self.old.memories.kept.instance }
        requires left { IsInstanceOf tree.now self.old.memories.standing.instance }
        requires waiting { length self.old.calls.waiting.items ≤ 500 }
        requires made { self.old.calls.made + length effects.performed < 2 ^ 64 }
        requires few { length effects.performed + length (without (Some number) self.old.calls.waiting.items) ≤ 500 }
        ensures ok { (c : OpenCall) → awaiting_of c ≡ call → IfOk result (λ items. callback_left (limits_of self.old) self.old.own (canister_at tree.now self.old.memories.kept) (canister_at tree.now self.old.memories.standing) c effects (during (Some number) (state_at tree.now self.old)) effects.trap ≡ outcome items (state_at tree.now self.new)) }
        ensures err { OnErr result (IsAsBefore self.old self.new) }
        ensures runs { OnOk result (CanRun tree.now self.new) }
        ensures made { OnOk result (self.new.calls.made ≤ self.old.calls.made + 500) }
        ensures rest { KeepsRest self.old self.new }
    {
        let Effects {
            prints,
            performed,
            answer,
            trap,
        } = effects;
        let items = match printed(self.alloc, prints) {
            Ok(items) => items,
            Err(Memory) => return Err(Memory),
        };
        match trap {
            None => self.finish(call.owner, Some(number), false, performed, answer, items),
            Some(word) => self.clean_up(tree, number, call, word, items),
        }
    }

    // What follows a callback that gave these items and broke off: its cleanup, if it has one.
    fn clean_up(
        &mut self,
        tree: &Valid,
        number: u64,
        call: Awaiting,
        word: Word,
        items: Items,
    ) -> Result<Items, Memory>
        requires there { self.old.memories.is_lost ≡ false }
        requires fits { IsInstanceOf tree.now self.old.memories.kept.instance }
        requires waiting { length self.old.calls.waiting.items ≤ 500 }
        requires few { length (without (Some number) self.old.calls.waiting.items) ≤ 500 }
        ensures ok { (c : OpenCall) (prints : List (List ℕ)) → awaiting_of c ≡ call → items ≡ printed prints → IfOk result (λ done. clean_up (limits_of self.old) self.old.own (canister_at tree.now self.old.memories.kept) c word prints (during (Some number) (state_at tree.now self.old)) ≡ outcome done (state_at tree.now self.new)) }
        ensures err { OnErr result (IsAsBefore self.old self.new) }
        ensures runs { OnOk result (CanRun tree.now self.new) }
        ensures made { OnOk result (self.new.calls.made ≤ self.old.calls.made + 500) }
        ensures rest { KeepsRest self.old self.new }
    {
        match call.on_cleanup {
            None => self.break_off(call.owner, Some(number), word, items),
            Some(callback) => {
                self.memories.restore();
                self.run_cleanup(tree, number, call.owner, callback, word, items)
            }
        }
    }

    // Runs a cleanup, behind what the callback printed.
    fn run_cleanup(
        &mut self,
        tree: &Valid,
        number: u64,
        owner: u64,
        callback: Callback,
        word: Word,
        items: Items,
    ) -> Result<Items, Memory>
        requires runs { CanRun tree.now self.old }
        requires few { length (without (Some number) self.old.calls.waiting.items) ≤ 500 }
        ensures ok { (c : OpenCall) (prints : List (List ℕ)) → c.owner ≡ owner → c.call.on_cleanup ≡ Some callback → items ≡ printed prints → IfOk result (λ done. clean_up (limits_of self.old) self.old.own (canister_at tree.now self.old.memories.kept) c word prints (during (Some number) (state_at tree.now self.old)) ≡ outcome done (state_at tree.now self.new)) }
        ensures err { OnErr result (IsAsBefore self.old self.new) }
        ensures runs { OnOk result (CanRun tree.now self.new) }
        ensures made { OnOk result (self.new.calls.made ≤ self.old.calls.made + 500) }
        ensures rest { KeepsRest self.old self.new }
    {
        let message = self.message(owner, Some(number), Bytes::new(self.alloc));
        let kind = ExecutionKind::Cleanup;
        match self
            .memories
            .call_back(self.alloc, &self.own, tree, kind, callback, message)
        {
            Ok(effects) => self.end_cleanup(number, owner, word, effects, items),
            Err(Memory) => Err(Memory),
        }
    }

    // What an execution of a cleanup leaves, behind what the callback printed.
    fn end_cleanup(
        &mut self,
        number: u64,
        owner: u64,
        word: Word,
        effects: Effects,
        mut items: Items,
    ) -> Result<Items, Memory>
        requires there { self.old.memories.is_lost ≡ false }
        requires few { length (without (Some number) self.old.calls.waiting.items) ≤ 500 }
        ensures ok { (m : Module) → IfOk result (λ done. cleanup_left owner items word (canister_at m self.old.memories.standing) effects (during (Some number) (state_at m self.old)) effects.trap ≡ outcome done (state_at m self.new)) }
        ensures err { OnErr result (IsAsBefore self.old self.new) }
        ensures runs { (m : Module) → IsInstanceOf m self.old.memories.kept.instance → IsInstanceOf m self.old.memories.standing.instance → OnOk result (CanRun m self.new) }
        ensures made { OnOk result (self.new.calls.made ≤ self.old.calls.made + 500) }
        ensures rest { KeepsRest self.old self.new }
    {
        let Effects { prints, trap, .. } = effects;
        match push_prints(prints, &mut items) {
            Ok(()) => {}
            Err(Memory) => return Err(Memory),
        }
        match items.push(Item::Trapped(word)) {
            Ok(()) => {}
            Err(Memory) => return Err(Memory),
        }
        match trap {
            None => self.leave(owner, Some(number), items),
            Some(second) => self.break_off(owner, Some(number), second, items),
        }
    }

    // Keeps what a cleanup has done.
    fn leave(&mut self, owner: u64, answering: Option<u64>, items: Items) -> Result<Items, Memory>
        requires there { self.old.memories.is_lost ≡ false }
        requires few { length (without answering self.old.calls.waiting.items) ≤ 500 }
        ensures ok { (m : Module) → IfOk result (λ done. closing owner items (during answering (state_with (Some (canister_at m self.old.memories.standing)) self.old.calls)) ≡ outcome done (state_at m self.new)) }
        ensures err { OnErr result (IsAsBefore self.old self.new) }
        ensures runs { (m : Module) → IsInstanceOf m self.old.memories.standing.instance → OnOk result (CanRun m self.new) }
        ensures made { OnOk result (self.new.calls.made ≤ self.old.calls.made + 500) }
        ensures rest { KeepsRest self.old self.new }
    {
        match self
            .calls
            .finish_broken(self.alloc, owner, answering, items)
        {
            Ok(items) => {
                self.memories.commit();
                Ok(items)
            }
            Err(Memory) => Err(Memory),
        }
    }
}
