//! Incoming calls that lack their answer.
ghost use Rattle.std.specs.Prelude.{◌≡◌, slice_get, Some, IfOk};
ghost use Rattle.std.specs.List.{list_any};
ghost use Rattle.arena_outcomes.specs.Books.{closed, is_answered, is_open, is_owned, rejected, starved};

use crate::items::with_item;
use crate::lists::with_activation;
use crate::ran::Over;
use arena_actors::{Activation, Filled, Made};
use mo_num::{Bytes, Memory};
use play_script::Item;
use std::alloc::Global;

// Whether an incoming call is answered.
fn is_answered<'a>(activation: &Activation<'a>) -> bool
    ensures { result ≡ is_answered (Some activation.now) }
{
    match activation {
        Activation::Answered => true,
        Activation::Dead => false,
        Activation::WaitsFor(..) => false,
        Activation::WaitsForNothing => false,
    }
}

// Whether the incoming call of this number is answered. One that never came counts as answered.
fn is_answered_at<'a>(came: &[Activation<'a>], owner: u64) -> bool
    ensures { result ≡ is_answered (slice_get came.now owner) }
{
    match came.get(owner as usize) {
        Some(activation) => is_answered(activation),
        None => true,
    }
}

/// Whether an outgoing call is open.
pub fn is_open(state: &Filled) -> bool
    ensures { result ≡ is_open state.now }
{
    match state {
        Filled::Open => true,
        Filled::Replied(..) => false,
        Filled::Rejected(..) => false,
        Filled::Neither => false,
        Filled::Lost => false,
    }
}

// Whether an outgoing call is open and has this owner.
fn is_owned(owner: u64, call: &Made) -> bool
    ensures { result ≡ is_owned owner call.now }
{
    is_open(&call.state) && call.owner == owner
}

// Whether the owner has an open outgoing call.
fn owns_open(owner: u64, made: &[Made]) -> bool
    ensures { result ≡ list_any (λ m. is_owned owner m) made.now }
{
    for call in made {
        if is_owned(owner, call) {
            return true;
        }
    }
    false
}

// Whether the incoming call is unanswered, and no open call is left that could bring its answer.
fn is_starved<'a>(owner: u64, made: &[Made], came: &[Activation<'a>]) -> bool
    ensures { result ≡ starved owner made.now came.now }
{
    if is_answered_at(came, owner) {
        return false;
    }
    !owns_open(owner, made)
}

// The incoming call is rejected, and counts as answered.
fn rejected<'a>(alloc: Global, owner: u64, over: Over<'a>) -> Result<Over<'a>, Memory>
    ensures { IfOk result (λ o. o ≡ rejected owner over.entry) }
{
    let Over { items, actor } = over;
    let text = Bytes::from_slice(alloc, b"no answer")?;
    let item = Item::Rejected {
        number: owner,
        code: 5,
        text,
    };
    let items = with_item(items, item)?;
    Ok(Over {
        items,
        actor: with_activation(actor, owner, Activation::Answered),
    })
}

/// The incoming call is rejected if it is starved: IC interface specification, section "Call context starvation".
pub fn close<'a>(alloc: Global, owner: u64, over: Over<'a>) -> Result<Over<'a>, Memory>
    ensures { IfOk result (λ o. o ≡ closed owner over.entry) }
{
    if is_starved(
        owner,
        over.actor.made.as_slice(),
        over.actor.came.as_slice(),
    ) {
        rejected(alloc, owner, over)
    } else {
        Ok(over)
    }
}
