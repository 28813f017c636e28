//! The replies of constant queries, as the module's data.
ghost use Rattle.std.specs.Prelude.{◌≡◌, IfOk};
ghost use Rattle.std.specs.List.{concat};
ghost use Rattle.query_module.specs.Message.{empty_message, IsNatMessage};
ghost use Rattle.query_module.specs.Tree.{AreReplies};

use mo_num::{Bytes, Memory, Sequence, leb_write};
use query_source::Method;
use std::alloc::Global;

/// The number as a Candid message: the magic bytes, no types, one argument of type nat, and the number
/// (Candid specification, section Binary Format).
fn message(alloc: Global, number: u64) -> Result<Bytes, Memory>
    ensures { IfOk result (λ bytes. IsNatMessage number bytes) }
{
    let mut bytes = Bytes::from_slice(alloc, b"DIDL\0\x01\x7d")?;
    leb_write(u128::from(number), &mut bytes)?;
    Ok(bytes)
}

/// No types and no arguments (Candid specification, section Binary Format).
fn empty_message(alloc: Global) -> Result<Bytes, Memory>
    ensures { IfOk result (λ bytes. bytes ≡ empty_message) }
{
    Bytes::from_slice(alloc, b"DIDL\0\0")
}

/// The reply of `__resume`, and then those of the methods, in turn.
pub fn replies(alloc: Global, methods: &[Method]) -> Result<Sequence<Bytes>, Memory>
    ensures { IfOk result (λ replies. AreReplies methods.now replies) }
{
    let mut replies = Sequence::new(alloc);
    replies.push(empty_message(alloc)?)?;
    for method in methods {
        replies.push(message(alloc, method.number)?)?;
    }
    Ok(replies)
}

/// The bytes of the replies, one reply after another.
pub fn joined(alloc: Global, replies: &[Bytes]) -> Result<Bytes, Memory>
    ensures { IfOk result (λ bytes. bytes ≡ concat replies.now) }
{
    let mut bytes = Bytes::new(alloc);
    for reply in replies {
        bytes.extend(reply.as_slice())?;
    }
    Ok(bytes)
}
