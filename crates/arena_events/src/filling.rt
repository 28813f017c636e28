//! What a future is filled with.
ghost use Rattle.std.specs.Prelude.{◌≡◌, List, IfOk};
ghost use Rattle.mo_types.specs.Graph.{Slot};
ghost use Rattle.mo_machine.specs.Values.{Made as MadeOf, gathered};
ghost use Rattle.mo_meaning.specs.Actor.{reject_code};
ghost use Rattle.mo_values.specs.Shapes.{Tuple};
ghost use Rattle.value_arena.specs.Growth.{AreWithin, IsValueAdded};
ghost use Rattle.arena_states.specs.Standing.{list_of};
ghost use Rattle.arena_events.specs.Filling.{AreGiven, filled_at, packed, place_of, received_as};

use arena_actors::{Filled, Made, copied_bytes, copied_filled, copied_types};
use arena_executions::Given;
use arena_reading::read_values;
use mo_num::{Bytes, Memory, Sequence};
use mo_types::{TypeGraph, TypeId};
use mo_values::ErrorCode;
use std::alloc::Global;
use value_arena::{Arena, ValueHead, ValueId};

/// What comes in for an outgoing call.
#[derive(Clone, Copy)]
pub enum Received<'b> {
    /// The bytes of a reply.
    Reply(&'b Bytes),
    /// The code of a reject and its text.
    Reject(u32, &'b Bytes),
}

// The place of the call of a number, as far as it can be one.
pub(crate) fn place_of(first: u64, number: u64) -> Option<u64>
    ensures { result ≡ place_of first number }
{
    number.checked_sub(first)
}

// What the future of this number was filled with: neither a value nor an error, where it is open or lost, or is none.
fn filled_at(alloc: Global, first: u64, made: &[Made], future: u64) -> Result<Filled, Memory>
    ensures { IfOk result (λ f. f ≡ filled_at first made.now future) }
{
    let Some(place) = place_of(first, future) else {
        return Ok(Filled::Neither);
    };
    match made.get(place as usize) {
        Some(call) => match &call.state {
            Filled::Open => Ok(Filled::Neither),
            Filled::Lost => Ok(Filled::Neither),
            _ => copied_filled(alloc, &call.state),
        },
        None => Ok(Filled::Neither),
    }
}

/// What the future of a call is filled with. A reply to `__resume` gives the answer of the future that it resumes.
pub(crate) fn filled_by(
    alloc: Global,
    first: u64,
    made: &[Made],
    call: &Made,
    received: Received,
) -> Result<Filled, Memory>
    ensures { IfOk result (λ f. f ≡ received_as first made.now call.now received.entry) }
{
    match received {
        Received::Reply(bytes) => match call.resumes {
            Some(future) => filled_at(alloc, first, made, future),
            None => {
                let types = copied_types(alloc, call.results.as_slice())?;
                Ok(Filled::Replied(types, copied_bytes(alloc, bytes)?))
            }
        },
        Received::Reject(code, text) => Ok(Filled::Rejected(code, copied_bytes(alloc, text)?)),
    }
}

// The code of an error by the number of a reject: Motoko base library, `Error.ErrorCode`.
fn reject_code(code: u32) -> ErrorCode
    ensures { result ≡ reject_code code }
{
    match code {
        1 => ErrorCode::SystemFatal,
        2 => ErrorCode::SystemTransient,
        3 => ErrorCode::DestinationInvalid,
        4 => ErrorCode::CanisterReject,
        5 => ErrorCode::CanisterError,
        _ => ErrorCode::Future(code),
    }
}

// The tuple of values.
fn tuple_of(alloc: Global, arena: &mut Arena, values: &[ValueId]) -> Result<ValueId, Memory>
    requires { AreWithin arena.old values.now }
    ensures { IfOk result (λ v. IsValueAdded arena.old (λ groups. MadeOf Tuple (gathered (list_of groups arena.old values.now))) v arena.new) }
{
    let list = Vec::from_slice(alloc, values)?;
    let parts = Sequence::from_vec(list);
    arena.make(ValueHead::Tuple, parts)
}

// One value, or the tuple of several.
fn packed(alloc: Global, arena: &mut Arena, values: &[ValueId]) -> Result<ValueId, Memory>
    requires { AreWithin arena.old values.now }
    ensures { IfOk result (λ v. IsValueAdded arena.old (λ groups. packed (list_of groups arena.old values.now)) v arena.new) }
{
    if values.len() == 1 {
        Ok(values[0])
    } else {
        tuple_of(alloc, arena, values)
    }
}

// The value that the bytes of a reply are read as, or none where they do not read.
fn given_reply(
    alloc: Global,
    arena: &mut Arena,
    types: &TypeGraph,
    ids: &Sequence<TypeId>,
    bytes: &Bytes,
) -> Result<Option<Given>, Memory>
    ensures { IfOk result (λ o. AreGiven types.now (Filled.Replied ids.now bytes.now) arena.old o arena.new) }
{
    let read = read_values(alloc, arena, types, ids.as_slice(), bytes.as_slice())?;
    match read {
        Some(values) => {
            let value = packed(alloc, arena, values.as_slice())?;
            Ok(Some(Given::Gets(value)))
        }
        None => Ok(None),
    }
}

// The error that a reject is.
fn given_reject(
    alloc: Global,
    arena: &mut Arena,
    code: u32,
    text: &Bytes,
) -> Result<Option<Given>, Memory>
    ensures { IfOk result (λ o. (types : List Slot) → AreGiven types (Filled.Rejected code text.now) arena.old o arena.new) }
{
    let text = copied_bytes(alloc, text)?;
    let head = ValueHead::Error(reject_code(code), text);
    let error = arena.make(head, Sequence::new(alloc))?;
    Ok(Some(Given::Fails(error)))
}

/// What a future was filled with, where a body goes on with it: none where there is no value and no error, or where the bytes of
/// a reply do not read.
pub(crate) fn given(
    alloc: Global,
    arena: &mut Arena,
    types: &TypeGraph,
    filled: &Filled,
) -> Result<Option<Given>, Memory>
    ensures { IfOk result (λ o. AreGiven types.now filled.now arena.old o arena.new) }
{
    match filled {
        Filled::Replied(ids, bytes) => given_reply(alloc, arena, types, ids, bytes),
        Filled::Rejected(code, text) => given_reject(alloc, arena, *code, text),
        Filled::Open => Ok(None),
        Filled::Neither => Ok(None),
        Filled::Lost => Ok(None),
    }
}
