//! Messages.
ghost use Rattle.std.specs.Prelude.{◌≡◌, ℕ, IfOk, Some, []};
ghost use Rattle.mo_meaning.specs.Coding.{Coding, IsFaithful};
ghost use Rattle.mo_machine.specs.Messages.{message_of};
ghost use Rattle.mo_machine.specs.Values.{listed};
ghost use Rattle.typed_tree.specs.Language.{Functions};
ghost use Rattle.value_arena.specs.Growth.{AreWithin};
ghost use Rattle.value_arena.specs.Meaning.{values_of};
ghost use Rattle.arena_equality.specs.Own.{AreOwnLabels};
ghost use Rattle.arena_coding.specs.Coded.{IsMessage};

use crate::listing::all_parts;
use candid_encode::{Refusal, encode, encode_checked};
use mo_num::{Bytes, Memory};
use mo_types::{TypeGraph, TypeId};
use std::alloc::Global;
use value_arena::{Arena, ValueId};

/// What the message of values comes to.
#[derive(Drop)]
pub enum Message {
    /// Its bytes, at most 2,097,152 of them.
    Written(Bytes),
    /// It has more bytes than that, or there are fewer values than types.
    TooLong,
    /// They are no values of these types.
    Missing,
}

// The most bytes of a message: IC interface specification, section "Resource limits".
const MOST_BYTES: usize = 2_097_152;

// A message that is not too long.
fn if_short(bytes: Bytes) -> Message
    ensures { IsMessage (Some bytes) result }
{
    if bytes.len() > MOST_BYTES {
        return Message::TooLong;
    }
    Message::Written(bytes)
}

/// The message of these values at these types: exactly that of each faithful coding. Takes no native stack by the values.
pub fn message_of(
    alloc: Global,
    arena: &Arena,
    types: &TypeGraph,
    ids: &[TypeId],
    values: &[ValueId],
) -> Result<Message, Memory>
    requires labels { AreOwnLabels types.now }
    requires values { AreWithin arena.now values.now }
    ensures { IfOk result (λ m. (groups : ℕ → Functions) (coding : Coding) → IsFaithful coding → IsMessage (message_of coding types.now ids.now (listed (values_of groups arena.now values.now))) m) }
{
    match all_parts(alloc, arena, types, ids, values)? {
        None => Ok(Message::Missing),
        Some(parts) => match encode_checked(alloc, types, ids, parts.as_slice()) {
            Ok(bytes) => Ok(if_short(bytes)),
            Err(Refusal::OtherValues) => Ok(Message::TooLong),
            Err(Refusal::Memory) => Err(Memory),
        },
    }
}

/// The message of no values.
pub fn empty_message(alloc: Global, types: &TypeGraph) -> Result<Bytes, Memory>
    ensures { IfOk result (λ bytes. (coding : Coding) → IsFaithful coding → message_of coding types.now [] [] ≡ Some bytes) }
{
    encode(alloc, types, &[], &[])
}
