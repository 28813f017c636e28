//! The items of an event.
ghost use Rattle.std.specs.Prelude.{◌≡◌, ◌++◌, ◌∷◌, [], map, IfOk};
ghost use Rattle.play_script.specs.declared.item.Item.TheVariants as item;
ghost use Rattle.play_script.specs.declared.item.Word.TheVariants as word;
ghost use Rattle.arena_outcomes.specs.Books.{answer_items, call_items, completed_items};

use crate::lists::plus;
use crate::ran::{Done, Ending};
use arena_executions::Outgoing;
use mo_num::{Bytes, Memory, principal_of};
use play_script::{Item, Items, Word};
use std::alloc::Global;

/// One item more.
pub fn with_item(items: Items, item: Item) -> Result<Items, Memory>
    ensures { IfOk result (λ all. all ≡ items ++ item ∷ []) }
{
    let mut all = items;
    all.push(item)?;
    Ok(all)
}

/// Behind these items, the lines that were printed.
pub fn with_prints(alloc: Global, items: Items, prints: &[Bytes]) -> Result<Items, Memory>
    ensures { IfOk result (λ all. all ≡ items ++ map item.Print prints.now) }
{
    let mut all = items;
    for line in prints {
        let line = Bytes::from_slice(alloc, line.as_slice())?;
        all.push(Item::Print(line))?;
    }
    Ok(all)
}

/// The items of an execution that traps with this text, behind its prints.
pub fn trap_items(
    alloc: Global,
    items: Items,
    prints: &[Bytes],
    text: Bytes,
) -> Result<Items, Memory>
    ensures { IfOk result (λ all. all ≡ items ++ map item.Print prints.now ++ item.Trapped (word.Text text) ∷ []) }
{
    let all = with_prints(alloc, items, prints)?;
    with_item(all, Item::Trapped(Word::Text(text)))
}

// The item of a call. A callee is a principal, so that it never has more bytes than one.
fn call_item(alloc: Global, number: u64, call: &Outgoing) -> Result<Item, Memory>
    ensures { IfOk result (λ made. made ≡ item.Call number call.now.callee call.now.method call.now.argument) }
{
    let Some(callee) = principal_of(alloc, call.callee.as_slice()) else {
        return Err(Memory);
    };
    let method = Bytes::from_slice(alloc, call.method.as_slice())?;
    let bytes = Bytes::from_slice(alloc, call.argument.as_slice())?;
    Ok(Item::Call {
        number,
        callee,
        method,
        bytes,
    })
}

// Behind these items, the calls that an execution made, from this number on.
fn with_calls(alloc: Global, items: Items, first: u64, calls: &[Outgoing]) -> Result<Items, Memory>
    ensures { IfOk result (λ all. all ≡ items ++ call_items first calls.now) }
{
    let mut all = items;
    let mut number = first;
    for call in calls {
        all.push(call_item(alloc, number, call)?)?;
        number = plus(number, 1)?;
    }
    Ok(all)
}

// Behind these items, the answer to the incoming call, if one is given.
fn with_answer<'a>(
    alloc: Global,
    items: Items,
    owner: u64,
    ending: &Ending<'a>,
) -> Result<Items, Memory>
    ensures { IfOk result (λ all. all ≡ items ++ answer_items owner ending.now) }
{
    match ending {
        Ending::Replies(bytes) => {
            let bytes = Bytes::from_slice(alloc, bytes.as_slice())?;
            with_item(
                items,
                Item::Replied {
                    number: owner,
                    bytes,
                },
            )
        }
        Ending::Rejects(text) => {
            let text = Bytes::from_slice(alloc, text.as_slice())?;
            with_item(
                items,
                Item::Rejected {
                    number: owner,
                    code: 4,
                    text,
                },
            )
        }
        Ending::Waits(..) => Ok(items),
        Ending::Sleeps => Ok(items),
        Ending::Unchanged => Ok(items),
    }
}

/// The items of a query that completes: its calls do not go out.
pub fn query_items<'a>(
    alloc: Global,
    items: Items,
    owner: u64,
    done: &Done<'a>,
) -> Result<Items, Memory>
    ensures { IfOk result (λ all. all ≡ items ++ map item.Print done.now.prints ++ answer_items owner done.now.ending) }
{
    let all = with_prints(alloc, items, done.prints.as_slice())?;
    with_answer(alloc, all, owner, &done.ending)
}

/// The items of an execution that completes.
pub(crate) fn items_of<'a>(
    alloc: Global,
    items: Items,
    owner: u64,
    done: &Done<'a>,
) -> Result<Items, Memory>
    ensures { IfOk result (λ all. all ≡ items ++ completed_items owner done.now) }
{
    let first = plus(done.actor.first, done.actor.made.len() as u64)?;
    let all = with_prints(alloc, items, done.prints.as_slice())?;
    let all = with_calls(alloc, all, first, done.calls.as_slice())?;
    with_answer(alloc, all, owner, &done.ending)
}
