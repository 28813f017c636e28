//! The items of an event.
ghost use Rattle.std.specs.Prelude.{◌≡◌, ◌+◌, ◌<◌, ◌^◌, ◌++◌, ◌∷◌, [], codes, length, map, IfOk, OnOk};
ghost use Rattle.play_script.specs.declared.item.Item.TheVariants as item;
ghost use Rattle.canister_host.specs.HostRun.{printed, numbered, call_item, answer_items, is_answer};

use canister_host::OpenCall;
use ic0_world::{Answer, OutgoingCall};
use mo_num::{Bytes, Memory, Sequence};
use play_script::{Item, Items};
use std::alloc::Global;

/// Adds what was printed.
pub fn push_prints(prints: Sequence<Bytes>, items: &mut Items) -> Result<(), Memory>
    ensures { OnOk result (items.new ≡ items.old ++ printed prints) }
{
    for line in prints.into_vec() {
        items.push(Item::Print(line))?;
    }
    Ok(())
}

/// Adds a rejection by the host.
pub fn push_rejection(
    alloc: Global,
    owner: u64,
    code: u32,
    text: &[u8],
    items: &mut Items,
) -> Result<(), Memory>
    ensures { OnOk result (items.new ≡ items.old ++ item.Rejected owner code text.now ∷ []) }
{
    let text = Bytes::from_slice(alloc, text)?;
    items.push(Item::Rejected {
        number: owner,
        code,
        text,
    })
}

/// Adds the answer that an execution gave, if it gave one, and says whether it did.
pub fn push_answer(owner: u64, answer: Option<Answer>, items: &mut Items) -> Result<bool, Memory>
    ensures items { OnOk result (items.new ≡ items.old ++ answer_items owner answer) }
    ensures answers { IfOk result (λ answers. answers ≡ is_answer answer) }
{
    match answer {
        None => Ok(false),
        Some(Answer::Replied(bytes)) => {
            items.push(Item::Replied {
                number: owner,
                bytes,
            })?;
            Ok(true)
        }
        Some(Answer::Rejected(code, text)) => {
            items.push(Item::Rejected {
                number: owner,
                code,
                text,
            })?;
            Ok(true)
        }
    }
}

// The item of a call with this number.
fn item_of_call(alloc: Global, number: u64, call: &OutgoingCall) -> Result<Item, Memory>
    ensures { IfOk result (λ made. made ≡ item.Call number call.now.callee call.now.method call.now.argument) }
{
    Ok(Item::Call {
        number,
        callee: call.callee.copy(),
        method: Bytes::from_slice(alloc, call.method.as_slice())?,
        bytes: Bytes::from_slice(alloc, call.argument.as_slice())?,
    })
}

/// The calls that an execution made, numbered from the first number on, with their items.
pub fn open_calls(
    alloc: Global,
    owner: u64,
    first: u64,
    performed: Sequence<OutgoingCall>,
    items: &mut Items,
) -> Result<Vec<OpenCall>, Memory>
    requires { first + length performed < 2 ^ 64 }
    ensures calls { IfOk result (λ opened. opened.items ≡ numbered owner first performed) }
    ensures items { OnOk result (items.new ≡ items.old ++ map call_item (numbered owner first performed)) }
{
    let mut opened = Vec::new(alloc);
    let mut number = first;
    for call in performed.into_vec() {
        items.push(item_of_call(alloc, number, &call)?)?;
        opened.push(OpenCall {
            number,
            owner,
            call,
        })?;
        number += 1;
    }
    Ok(opened)
}
