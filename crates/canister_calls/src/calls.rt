//! The calls that a canister has had, and those that it waits for.
ghost use Rattle.std.specs.Prelude.{◌≡◌, ◌≤◌, ◌+◌, ◌<◌, ◌^◌, ◌++◌, ◌∷◌, [], Option, Some, None, true, false, ◌==◌, codes, cond, not, find, option_map, length, vec_len, nat_eq, slice_get, slice_set, IfOk, OnOk, OnErr};
ghost use Rattle.std.specs.List.{filter, list_any};
ghost use Rattle.std.specs.Vec.{vec_capacity};
ghost use Rattle.play_script.specs.declared.item.Item.TheVariants as item;

use crate::items::{open_calls, push_answer, push_rejection};
use canister_host::{IncomingCall, OpenCall};
use ic0_world::{Answer, Callback, OutgoingCall};
use mo_num::{Memory, Principal, Sequence, principal_of};
use play_script::Items;
use std::alloc::Global;

/// The incoming calls, how many outgoing calls were made, and those that are open.
#[derive(Drop)]
pub struct Calls {
    pub incoming: Vec<IncomingCall>,
    pub made: u64,
    pub waiting: Vec<OpenCall>,
}

/// The empty principal.
pub fn nobody(alloc: Global) -> Principal
    ensures { result ≡ [] }
{
    match principal_of(alloc, &[]) {
        Some(principal) => principal,
        None => unreachable!(),
    }
}

// How many have another number.
fn count_others(calls: &[OpenCall], number: u64) -> usize
    ensures value { result ≡ length (filter (λ other. not (nat_eq other.number number)) calls.now) }
    ensures few { result ≤ length calls.now }
{
    calls.iter().filter(|call| call.number != number).count()
}

// Whether one with another number is of this owner.
fn has_other(calls: &[OpenCall], owner: u64, number: u64) -> bool
    ensures { result ≡ list_any (λ call. nat_eq call.owner owner) (filter (λ other. not (nat_eq other.number number)) calls.now) }
{
    calls
        .iter()
        .filter(|call| call.number != number)
        .any(|call| call.owner == owner)
}

// Whether one is of this owner.
fn has_any(calls: &[OpenCall], owner: u64) -> bool
    ensures { result ≡ list_any (λ call. nat_eq call.owner owner) calls.now }
{
    calls.iter().any(|call| call.owner == owner)
}

fn remove_call(calls: &mut Vec<OpenCall>, number: u64)
    ensures items { calls.new.items ≡ filter (λ other. not (nat_eq other.number number)) calls.old.items }
    ensures len { vec_len calls.new ≤ vec_len calls.old }
    ensures capacity { vec_capacity calls.new ≡ vec_capacity calls.old }
{
    calls.retain(|call| call.number != number);
}

// Adds the rejection for want of an answer, if it is due.
fn push_no_answer(alloc: Global, owner: u64, is_left: bool, items: &mut Items) -> Result<(), Memory>
    ensures { OnOk result (items.new ≡ cond is_left (items.old ++ item.Rejected owner 5 (codes "no answer") ∷ []) items.old) }
{
    if is_left {
        push_rejection(alloc, owner, 5, b"no answer", items)
    } else {
        Ok(())
    }
}

/// What is done with the answer to an open call.
#[derive(Clone, Copy)]
pub struct Awaiting {
    /// The number of the incoming call that it was made for.
    pub owner: u64,
    pub on_reply: Callback,
    pub on_reject: Callback,
    pub on_cleanup: Option<Callback>,
}

impl Calls {
    ghost use Rattle.canister_host.specs.State as host;
    ghost use Rattle.canister_host.specs.HostRun.{caller_of, is_answered, answered_call, set_answered, numbered, lacks_answer, closing, refuse, outcome};
    ghost use Rattle.canister_calls.specs.Awaiting.{awaiting_of};
    ghost use Rattle.canister_calls.specs.Calling.{state_with, without, during, finished, SameCalls};

    /// Who made the incoming call with this number; nobody where there is none.
    pub fn caller(&self, alloc: Global, owner: u64) -> Principal
        ensures { result ≡ caller_of (slice_get self.now.incoming.items owner) }
    {
        match self.incoming.as_slice().get(owner as usize) {
            Some(call) => call.caller.copy(),
            None => nobody(alloc),
        }
    }

    /// Whether the incoming call with this number is answered.
    pub fn is_answered(&self, owner: u64) -> bool
        ensures { result ≡ is_answered (slice_get self.now.incoming.items owner) }
    {
        match self.incoming.as_slice().get(owner as usize) {
            Some(call) => call.answered,
            None => true,
        }
    }

    /// How many calls are open, but for the one that is answered.
    pub fn open_count(&self, answering: Option<u64>) -> u32
        requires { length self.now.waiting.items ≤ 500 }
        ensures { result ≡ length (without answering self.now.waiting.items) }
    {
        match answering {
            None => self.waiting.len() as u32,
            Some(number) => count_others(self.waiting.as_slice(), number) as u32,
        }
    }

    /// What is done with the answer to the open call with this number, if there is one.
    pub fn awaiting(&self, number: u64) -> Option<Awaiting>
        ensures { result ≡ option_map awaiting_of (find (λ call. nat_eq call.number number) self.now.waiting.items) }
    {
        match self.waiting.iter().find(|call| call.number == number) {
            Some(call) => Some(Awaiting {
                owner: call.owner,
                on_reply: call.call.on_reply,
                on_reject: call.call.on_reject,
                on_cleanup: call.call.on_cleanup,
            }),
            None => None,
        }
    }

    // Whether a call of this owner is open, but for the one that is answered.
    fn is_waiting(&self, owner: u64, answering: Option<u64>) -> bool
        ensures { result ≡ list_any (λ call. nat_eq call.owner owner) (without answering self.now.waiting.items) }
    {
        match answering {
            None => has_any(self.waiting.as_slice(), owner),
            Some(number) => has_other(self.waiting.as_slice(), owner, number),
        }
    }

    // Whether the incoming call is to be rejected, since it has no answer and no open call of its own.
    fn lacks_answer(&self, owner: u64, answering: Option<u64>) -> bool
        ensures { result ≡ lacks_answer owner (during answering (state_with None self.now)) }
    {
        !self.is_answered(owner) && !self.is_waiting(owner, answering)
    }

    fn set_answered(&mut self, owner: u64)
        ensures incoming { self.new.incoming.items ≡ slice_set self.old.incoming.items owner (answered_call (slice_get self.old.incoming.items owner)) }
        ensures made { self.new.made ≡ self.old.made }
        ensures waiting { self.new.waiting.items ≡ self.old.waiting.items }
    {
        let index = owner as usize;
        if index < self.incoming.len() {
            self.incoming[index].answered = true;
        }
    }

    // The answered call is no longer open.
    fn close(&mut self, answering: Option<u64>)
        ensures waiting { self.new.waiting.items ≡ without answering self.old.waiting.items }
        ensures incoming { self.new.incoming.items ≡ self.old.incoming.items }
        ensures made { self.new.made ≡ self.old.made }
        ensures len { vec_len self.new.waiting ≤ vec_len self.old.waiting }
        ensures capacity { vec_capacity self.new.waiting ≡ vec_capacity self.old.waiting }
    {
        if let Some(number) = answering {
            remove_call(&mut self.waiting, number);
        }
    }

    // Opens calls, behind those that are open but for the answered one. After want of memory nothing has changed.
    fn open(&mut self, answering: Option<u64>, mut opened: Vec<OpenCall>) -> Result<(), Memory>
        ensures waiting { OnOk result (self.new.waiting.items ≡ without answering self.old.waiting.items ++ opened.items) }
        ensures err { OnErr result (self.new.waiting.items ≡ self.old.waiting.items) }
        ensures incoming { self.new.incoming.items ≡ self.old.incoming.items }
        ensures made { self.new.made ≡ self.old.made }
    {
        self.waiting.reserve(opened.len())?;
        self.close(answering);
        self.waiting.append(&mut opened).unwrap();
        Ok(())
    }

    // Whether the incoming call is to be rejected after an execution that gave an answer or not, and made so many calls.
    fn is_left_without(
        &self,
        owner: u64,
        answering: Option<u64>,
        answers: bool,
        count: usize,
    ) -> bool
        ensures { result ≡ cond answers false (cond (count == 0) (lacks_answer owner (during answering (state_with None self.now))) false) }
    {
        !answers && count == 0 && self.lacks_answer(owner, answering)
    }

    /// What a finished execution for an incoming call leaves, behind these items: the calls that it made are open, the one
    /// that was answered is not, and its answer is given. After want of memory nothing has changed.
    pub fn finish(
        &mut self,
        alloc: Global,
        owner: u64,
        answering: Option<u64>,
        performed: Sequence<OutgoingCall>,
        answer: Option<Answer>,
        mut items: Items,
    ) -> Result<Items, Memory>
        requires { self.old.made + length performed < 2 ^ 64 }
        ensures ok { IfOk result (λ done. (c : Option host.Canister) → finished owner items performed answer (during answering (state_with c self.old)) ≡ outcome done (state_with c self.new)) }
        ensures err { OnErr result (SameCalls self.old self.new) }
        ensures waiting { OnOk result (self.new.waiting.items ≡ without answering self.old.waiting.items ++ numbered owner self.old.made performed) }
        ensures made { OnOk result (self.new.made ≡ self.old.made + length performed) }
    {
        let opened = open_calls(alloc, owner, self.made, performed, &mut items)?;
        let count = opened.len();
        let answers = push_answer(owner, answer, &mut items)?;
        let is_left = self.is_left_without(owner, answering, answers, count);
        push_no_answer(alloc, owner, is_left, &mut items)?;
        self.open(answering, opened)?;
        self.made += count as u64;
        self.answer_if(owner, answers);
        self.answer_if(owner, is_left);
        Ok(items)
    }

    /// What an execution that broke off leaves, behind these items: the call that was answered is no longer open. After
    /// want of memory nothing has changed.
    pub fn finish_broken(
        &mut self,
        alloc: Global,
        owner: u64,
        answering: Option<u64>,
        mut items: Items,
    ) -> Result<Items, Memory>
        ensures ok { IfOk result (λ done. (c : Option host.Canister) → closing owner items (during answering (state_with c self.old)) ≡ outcome done (state_with c self.new)) }
        ensures err { OnErr result (SameCalls self.old self.new) }
        ensures waiting { OnOk result (self.new.waiting.items ≡ without answering self.old.waiting.items) }
        ensures made { OnOk result (self.new.made ≡ self.old.made) }
    {
        let is_left = self.lacks_answer(owner, answering);
        push_no_answer(alloc, owner, is_left, &mut items)?;
        self.close(answering);
        self.answer_if(owner, is_left);
        Ok(items)
    }

    /// Rejects the incoming call at once. After want of memory nothing has changed.
    pub fn refuse(
        &mut self,
        alloc: Global,
        owner: u64,
        code: u32,
        text: &[u8],
    ) -> Result<Items, Memory>
        ensures ok { (c : Option host.Canister) → IfOk result (λ done. refuse owner code text.now (state_with c self.old) ≡ outcome done (state_with c self.new)) }
        ensures err { OnErr result (SameCalls self.old self.new) }
        ensures waiting { OnOk result (self.new.waiting.items ≡ self.old.waiting.items) }
        ensures made { OnOk result (self.new.made ≡ self.old.made) }
    {
        let mut items = Sequence::new(alloc);
        push_rejection(alloc, owner, code, text, &mut items)?;
        self.set_answered(owner);
        Ok(items)
    }

    fn answer_if(&mut self, owner: u64, is_answered: bool)
        ensures incoming { self.new.incoming.items ≡ cond is_answered (slice_set self.old.incoming.items owner (answered_call (slice_get self.old.incoming.items owner))) self.old.incoming.items }
        ensures made { self.new.made ≡ self.old.made }
        ensures waiting { self.new.waiting.items ≡ self.old.waiting.items }
    {
        if is_answered {
            self.set_answered(owner);
        }
    }
}
