//! What each function of `ic0` does.
ghost use Rattle.std.specs.Prelude.{◌≡◌, ◌+◌, ◌++◌, ◌∷◌, ◌<◌, nat_le, MatchOption, length, List, [], ℕ, Ok, Err, Some, None, true, false};
ghost use Rattle.std.specs.List.{list_all};
ghost use Rattle.std.specs.Str.{is_utf8};
ghost use Rattle.ic0_world.specs.Act as act;
ghost use Rattle.ic0_world.specs.Act.{Does, Copied, Gives};

use crate::memory::{copy, range};
use crate::{Answer, Callback, Ic0, OutgoingCall, World};
use mo_num::{Bytes, Memory, principal_of};
use page_store::KeptPages;
use std::alloc::Global;
use std::str;

/// Why a call of the host gives nothing.
#[derive(Clone, Copy, Debug, PartialEq, Eq)]
pub enum CallEnd {
    /// The execution traps, and the world has the trap's text.
    Trap,
    /// There was no memory.
    Memory,
}

impl From<Memory> for CallEnd {
    ghost use Rattle.std.specs.Prelude.{◌≡◌};
    ghost use Rattle.ic0_world.specs.declared.call.CallEnd.TheVariants as end;

    ghost from_gives = { λ _ e. e ≡ end.Memory };

    fn from(_: Memory) -> Self {
        CallEnd::Memory
    }
}

// A result that the code gets, or none.
type Called = Result<Option<u64>, CallEnd>;

/// The code of an explicit rejection.
const CANISTER_REJECT: u32 = 4;

const MESSAGE_LIMIT: usize = 2_097_152;

const OPEN_CALL_LIMIT: u128 = 500;

fn at32(args: &[u64], place: usize) -> u32
    ensures { result ≡ act.at32 args.now place }
{
    (at64(args, place) % 0x1_0000_0000) as u32
}

fn at64(args: &[u64], place: usize) -> u64
    ensures { result ≡ act.at64 args.now place }
{
    match args.get(place) {
        Some(arg) => *arg,
        None => 0,
    }
}

// The callback whose function and environment are the arguments from this place on.
fn callback_at(args: &[u64], place: usize) -> Callback
    requires { place < 8 }
    ensures { result ≡ act.callback (act.at32 args.now place) (act.at32 args.now (place + 1)) }
{
    Callback {
        function: at32(args, place),
        environment: at32(args, place + 1),
    }
}

// The range of the memory whose place and size are the arguments from this place on.
fn range_at<'a>(args: &[u64], place: usize, memory: &'a KeptPages) -> Option<&'a [u8]>
    requires { place < 8 }
    ensures { MatchOption result (act.is_inside (act.at32 args.now place) (act.at32 args.now (place + 1)) memory.now.bytes ≡ false) (λ found. (act.is_inside (act.at32 args.now place) (act.at32 args.now (place + 1)) memory.now.bytes ≡ true) × (found.now ≡ act.range (act.at32 args.now place) (act.at32 args.now (place + 1)) memory.now.bytes)) }
{
    range(
        memory.bytes(),
        at32(args, place) as u64,
        at32(args, place + 1) as u64,
    )
}

// The same where both are of 64 bits.
fn range64_at<'a>(args: &[u64], place: usize, memory: &'a KeptPages) -> Option<&'a [u8]>
    requires { place < 8 }
    ensures { MatchOption result (act.is_inside (act.at64 args.now place) (act.at64 args.now (place + 1)) memory.now.bytes ≡ false) (λ found. (act.is_inside (act.at64 args.now place) (act.at64 args.now (place + 1)) memory.now.bytes ≡ true) × (found.now ≡ act.range (act.at64 args.now place) (act.at64 args.now (place + 1)) memory.now.bytes)) }
{
    range(memory.bytes(), at64(args, place), at64(args, place + 1))
}

// A size or a code as an i32, of which none has more bits.
fn as_i32(value: u64) -> Option<u64>
    ensures { result ≡ act.as_i32 value }
{
    Some(value % 0x1_0000_0000)
}

// Whether so many bytes more stay within the limit of a message.
fn fits(len: usize, more: usize) -> bool
    ensures { result ≡ nat_le (len + more) act.longest_message }
{
    len as u128 + more as u128 <= MESSAGE_LIMIT as u128
}

fn is_text(bytes: &[u8]) -> bool
    ensures { result ≡ is_utf8 bytes.now }
{
    str::from_utf8(bytes).is_ok()
}

fn is_method(name: &[u8]) -> bool
    ensures { result ≡ act.is_method name.now }
{
    !name.is_empty() && are_visible(name)
}

fn are_visible(bytes: &[u8]) -> bool
    ensures { result ≡ list_all act.is_visible bytes.now }
{
    for byte in bytes {
        if !(33..=126).contains(byte) {
            return false;
        }
    }
    true
}

impl World {
    /// Calls the function with its arguments in order, over the memory of the canister: where it is allowed it does what
    /// it does, and else the execution traps.
    pub fn call(
        &mut self,
        alloc: Global,
        function: Ic0,
        args: &[u64],
        memory: &mut KeptPages,
    ) -> Called
        ensures does { Does (act.call function args.now memory.old.bytes self.old) result memory.new.bytes self.new }
        ensures unchanged { result ≡ Err CallEnd.Trap → memory.new ≡ memory.old }
        ensures size { length memory.new.bytes ≡ length memory.old.bytes }
        ensures kept { memory.new.kept ≡ memory.old.kept }
        ensures limit { memory.new.limit ≡ memory.old.limit }
    {
        if self.kind.allows(function) {
            self.act(alloc, function, args, memory)
        } else {
            Err(self.misuse(alloc))
        }
    }

    fn act(&mut self, alloc: Global, function: Ic0, args: &[u64], memory: &mut KeptPages) -> Called
        ensures does { Does (act.act function args.now memory.old.bytes self.old) result memory.new.bytes self.new }
        ensures unchanged { result ≡ Err CallEnd.Trap → memory.new ≡ memory.old }
        ensures size { length memory.new.bytes ≡ length memory.old.bytes }
        ensures kept { memory.new.kept ≡ memory.old.kept }
        ensures limit { memory.new.limit ≡ memory.old.limit }
    {
        let (first, second, third) = (at32(args, 0), at32(args, 1), at32(args, 2));
        match function {
            Ic0::MsgArgDataSize => Ok(as_i32(self.argument.len() as u64)),
            Ic0::MsgArgDataCopy => {
                let copied = copy(
                    self.argument.as_slice(),
                    first as u64,
                    second as u64,
                    third as u64,
                    memory,
                );
                self.after_copy(alloc, copied)
            }
            Ic0::MsgCallerSize => Ok(as_i32(self.caller.bytes().len() as u64)),
            Ic0::MsgCallerCopy => {
                let copied = copy(
                    self.caller.bytes(),
                    first as u64,
                    second as u64,
                    third as u64,
                    memory,
                );
                self.after_copy(alloc, copied)
            }
            Ic0::MsgReplyDataAppend => match range_at(args, 0, memory) {
                Some(more) => self.append_reply(alloc, more),
                None => Err(self.misuse(alloc)),
            },
            Ic0::MsgReject => match range_at(args, 0, memory) {
                Some(text) => self.reject(alloc, text),
                None => Err(self.misuse(alloc)),
            },
            Ic0::MsgReply => self.reply(alloc),
            Ic0::MsgRejectCode => Ok(as_i32(self.reject_code as u64)),
            Ic0::MsgRejectMsgSize => Ok(as_i32(self.reject_text.len() as u64)),
            Ic0::MsgRejectMsgCopy => {
                let copied = copy(
                    self.reject_text.as_slice(),
                    first as u64,
                    second as u64,
                    third as u64,
                    memory,
                );
                self.after_copy(alloc, copied)
            }
            Ic0::CanisterSelfSize => Ok(as_i32(self.own.bytes().len() as u64)),
            Ic0::CanisterSelfCopy => {
                let copied = copy(
                    self.own.bytes(),
                    first as u64,
                    second as u64,
                    third as u64,
                    memory,
                );
                self.after_copy(alloc, copied)
            }
            Ic0::CallNew => self.new_call(alloc, args, memory),
            Ic0::CallOnCleanup => self.set_cleanup(alloc, callback_at(args, 0)),
            Ic0::CallDataAppend => match range_at(args, 0, memory) {
                Some(more) => self.append_argument(alloc, more),
                None => Err(self.misuse(alloc)),
            },
            Ic0::CallPerform => self.perform(alloc),
            Ic0::StableSize => Ok(Some(self.stable.size() as u64)),
            Ic0::StableGrow => self.grow_stable(at64(args, 0)),
            Ic0::StableRead => {
                let copied = copy(
                    self.stable.bytes(),
                    at64(args, 0),
                    at64(args, 1),
                    at64(args, 2),
                    memory,
                );
                self.after_copy(alloc, copied)
            }
            Ic0::StableWrite => match range64_at(args, 1, memory) {
                Some(these) => self.write_stable(alloc, at64(args, 0), these),
                None => Err(self.misuse(alloc)),
            },
            Ic0::DebugPrint => match range_at(args, 0, memory) {
                Some(text) => self.print(alloc, text),
                None => Err(self.misuse(alloc)),
            },
            Ic0::Trap => match range_at(args, 0, memory) {
                Some(text) => Err(self.trap(alloc, text)),
                None => Err(self.misuse(alloc)),
            },
        }
    }

    // Ends the execution with the text.
    fn trap(&mut self, alloc: Global, text: &[u8]) -> CallEnd
        ensures { (memory : List ℕ) → Does (act.trapped_with text.now self.old) (Err result) memory self.new }
    {
        match Bytes::from_slice(alloc, text) {
            Ok(text) => {
                self.trap_text = text;
                CallEnd::Trap
            }
            Err(Memory) => CallEnd::Memory,
        }
    }

    // Ends the execution because of what the interface forbids.
    fn misuse(&mut self, alloc: Global) -> CallEnd
        ensures { (memory : List ℕ) → Does (act.misuse self.old) (Err result) memory self.new }
    {
        self.trap(alloc, b"ic0 misuse")
    }

    fn after_copy(&mut self, alloc: Global, copied: bool) -> Called
        ensures { (destination offset size : ℕ) (bytes old new : List ℕ) → Copied copied destination offset size bytes old new → Does (act.copies destination offset size bytes old self.old) result new self.new }
    {
        if copied {
            Ok(None)
        } else {
            Err(self.misuse(alloc))
        }
    }

    // Whether the incoming call is answered, before or in this execution.
    fn is_answered(&self) -> bool
        ensures { result ≡ act.is_answered self.now }
    {
        self.answered || self.answer.is_some()
    }

    fn append_reply(&mut self, alloc: Global, more: &[u8]) -> Called
        ensures { (memory : List ℕ) → Does (act.append_reply more.now memory self.old) result memory self.new }
    {
        if !self.is_answered() && fits(self.reply_data.len(), more.len()) {
            self.reply_data.extend(more)?;
            Ok(None)
        } else {
            Err(self.misuse(alloc))
        }
    }

    // Answers the call, unless it is answered.
    fn answer(&mut self, alloc: Global, answer: Answer) -> Called
        ensures { (memory : List ℕ) → Does (act.answers answer memory self.old) result memory self.new }
    {
        if self.is_answered() {
            return Err(self.misuse(alloc));
        }
        self.answer = Some(answer);
        Ok(None)
    }

    fn reply(&mut self, alloc: Global) -> Called
        ensures { (memory : List ℕ) → Does (act.answers (Answer.Replied self.old.reply_data) memory self.old) result memory self.new }
    {
        let data = Bytes::from_slice(alloc, self.reply_data.as_slice())?;
        self.answer(alloc, Answer::Replied(data))
    }

    fn reject(&mut self, alloc: Global, text: &[u8]) -> Called
        ensures { (memory : List ℕ) → Does (act.rejects text.now memory self.old) result memory self.new }
    {
        if !is_text(text) || text.len() > MESSAGE_LIMIT {
            return Err(self.misuse(alloc));
        }
        let text = Bytes::from_slice(alloc, text)?;
        self.answer(alloc, Answer::Rejected(CANISTER_REJECT, text))
    }

    fn new_call(&mut self, alloc: Global, args: &[u64], memory: &KeptPages) -> Called
        ensures { Does (act.act Ic0.CallNew args.now memory.now.bytes self.old) result memory.now.bytes self.new }
    {
        let Some(callee) = range_at(args, 0, memory) else {
            return Err(self.misuse(alloc));
        };
        let Some(method) = range_at(args, 2, memory) else {
            return Err(self.misuse(alloc));
        };
        let on_reply = callback_at(args, 4);
        let on_reject = callback_at(args, 6);
        self.prepare(alloc, callee, method, on_reply, on_reject)
    }

    // Begins a call, in place of one that was not performed.
    fn prepare(
        &mut self,
        alloc: Global,
        callee: &[u8],
        method: &[u8],
        on_reply: Callback,
        on_reject: Callback,
    ) -> Called
        ensures { (memory : List ℕ) → Does (act.new_call callee.now method.now on_reply on_reject memory self.old) result memory self.new }
    {
        match principal_of(alloc, callee) {
            Some(callee) if is_method(method) => {
                self.prepared = Some(OutgoingCall {
                    callee,
                    method: Bytes::from_slice(alloc, method)?,
                    argument: Bytes::new(alloc),
                    on_reply,
                    on_reject,
                    on_cleanup: None,
                });
                Ok(None)
            }
            _ => Err(self.misuse(alloc)),
        }
    }

    fn set_cleanup(&mut self, alloc: Global, callback: Callback) -> Called
        ensures { (memory : List ℕ) → Does (act.with_prepared self.old (λ call. act.set_cleanup callback call memory self.old)) result memory self.new }
    {
        match &mut self.prepared {
            None => Err(self.misuse(alloc)),
            Some(call) => {
                if call.on_cleanup.is_some() {
                    return Err(self.misuse(alloc));
                }
                call.on_cleanup = Some(callback);
                Ok(None)
            }
        }
    }

    fn append_argument(&mut self, alloc: Global, more: &[u8]) -> Called
        ensures { (memory : List ℕ) → Does (act.with_prepared self.old (λ call. act.append_argument more.now call memory self.old)) result memory self.new }
    {
        match &mut self.prepared {
            None => Err(self.misuse(alloc)),
            Some(call) => {
                if !fits(call.argument.len(), more.len()) {
                    return Err(self.misuse(alloc));
                }
                call.argument.extend(more)?;
                Ok(None)
            }
        }
    }

    // Makes the prepared call, or refuses it where as many calls as may be are open.
    fn perform(&mut self, alloc: Global) -> Called
        ensures { (memory : List ℕ) → Does (act.with_prepared self.old (λ call. act.perform call memory self.old)) result memory self.new }
    {
        match self.prepared.take() {
            None => Err(self.misuse(alloc)),
            Some(call) => {
                if self.open_before as u128 + (self.performed.len() as u128) < OPEN_CALL_LIMIT {
                    self.performed.push(call)?;
                    Ok(Some(0))
                } else {
                    Ok(Some(2))
                }
            }
        }
    }

    fn grow_stable(&mut self, by: u64) -> Called
        ensures { (memory : List ℕ) → Does (act.grow_stable by memory self.old) result memory self.new }
    {
        let size = self.stable.size();
        match self.stable.grow(by.min(u32::MAX as u64) as u32) {
            Some(_) => Ok(Some(size as u64)),
            None => {
                self.stable_refused = true;
                Ok(Some(u64::MAX))
            }
        }
    }

    fn write_stable(&mut self, alloc: Global, offset: u64, these: &[u8]) -> Called
        ensures { (memory : List ℕ) → Does (act.write_stable offset these.now memory self.old) result memory self.new }
    {
        if self.stable.write(offset, these) {
            Ok(None)
        } else {
            Err(self.misuse(alloc))
        }
    }

    fn print(&mut self, alloc: Global, text: &[u8]) -> Called
        ensures { (memory : List ℕ) → Does (Gives None memory (record self.old { prints = self.old.prints ++ text.now ∷ [] })) result memory self.new }
    {
        self.prints.push(Bytes::from_slice(alloc, text)?)?;
        Ok(None)
    }
}
