//! What stands around the place that is split.
ghost use Rattle.std.specs.Prelude.{◌≡◌, ◌∷◌, IfOk, OnOk, [], Some};
ghost use Rattle.core_laws.specs.Around.{farther as farther_of, handler as handler_of, out_by as out_of, target as target_of, way as way_of};
ghost use Rattle.suspend_split.specs.Kinds.{inner, kind, stacked};

use core_ir::{Handler, Way};
use mo_num::Memory;
use std::alloc::Global;
use std::marker::Model;

/// What stands around a place. The slot takes the value or error, if it is looked at.
#[derive(Clone, Copy, Debug, PartialEq, Eq)]
pub(crate) enum Around {
    /// A construct of this segment that no jump leaves.
    Other,
    LabelHere(Option<u32>),
    /// The segment behind it, and the slot.
    LabelAt(u32, Option<u32>),
    HandlerHere(u32),
    /// The segment of the handler, and the slot.
    HandlerAt(u32, u32),
}

/// All that stands around a place, which contracts see from the inside out.
pub(crate) struct Surroundings {
    kinds: Vec<Around>,
}

impl Drop for Surroundings {
    fn drop(self) {
        let Surroundings { kinds: _kinds } = self;
    }
}

impl Model for Surroundings {
    ghost use Rattle.std.specs.Prelude.{List, []};
    ghost use Rattle.core_laws.specs.Around.{Kind};
    ghost use Rattle.suspend_split.specs.Kinds.{stacked};

    ghost Value = { List Kind };

    ghost view = { λ s. stacked [] s.kinds.items };
}

impl Surroundings {
    // Nothing. Takes no memory.
    pub(crate) fn new(alloc: Global) -> Surroundings
        ensures { result ≡ [] }
    {
        Surroundings {
            kinds: Vec::new(alloc),
        }
    }

    // From here on this stands around too.
    pub(crate) fn enter(&mut self, around: Around) -> Result<(), Memory>
        ensures { OnOk result (self.new ≡ kind around ∷ self.old) }
    {
        self.kinds.push(around)?;
        Ok(())
    }

    // Out of the innermost one.
    pub(crate) fn leave(&mut self)
        ensures { self.new ≡ inner self.old }
    {
        self.kinds.pop();
    }

    // Where a break goes that leaves so many labels and the next one.
    pub(crate) fn way(&self, labels: u32) -> Result<Way, Memory>
        ensures { IfOk result (λ way. way ≡ way_of self.now labels) }
    {
        way(&self.kinds, labels)
    }

    // The slot of that label.
    pub(crate) fn target(&self, labels: u32) -> Option<u32>
        ensures { result ≡ target_of self.now labels }
    {
        target(&self.kinds, labels)
    }

    // What takes an error.
    pub(crate) fn handler(&self) -> Result<Option<Handler>, Memory>
        ensures { IfOk result (λ handler. handler ≡ handler_of self.now) }
    {
        handler(&self.kinds)
    }
}

// From inside a further construct.
fn out_by(way: Way) -> Result<Way, Memory>
    ensures { IfOk result (λ out. out ≡ out_of way) }
{
    match way {
        Way::Near(out) => match out.checked_add(1) {
            Some(out) => Ok(Way::Near(out)),
            None => Err(Memory),
        },
        Way::Far(segment) => Ok(Way::Far(segment)),
    }
}

fn farther(handler: Option<Handler>) -> Result<Option<Handler>, Memory>
    ensures { IfOk result (λ out. out ≡ farther_of handler) }
{
    match handler {
        Some(handler) => Ok(Some(Handler {
            slot: handler.slot,
            way: out_by(handler.way)?,
        })),
        None => Ok(None),
    }
}

fn way(kinds: &[Around], labels: u32) -> Result<Way, Memory>
    ensures { IfOk result (λ way. way ≡ way_of (stacked [] kinds.now) labels) }
{
    let Some((last, rest)) = kinds.split_last() else {
        return Ok(Way::Near(0));
    };
    match last {
        Around::Other => out_by(way(rest, labels)?),
        Around::HandlerHere(_) => out_by(way(rest, labels)?),
        Around::HandlerAt(_, _) => way(rest, labels),
        Around::LabelHere(_) => {
            if labels == 0 {
                return Ok(Way::Near(0));
            }
            out_by(way(rest, labels - 1)?)
        }
        Around::LabelAt(segment, _) => {
            if labels == 0 {
                return Ok(Way::Far(*segment));
            }
            way(rest, labels - 1)
        }
    }
}

fn target(kinds: &[Around], labels: u32) -> Option<u32>
    ensures { result ≡ target_of (stacked [] kinds.now) labels }
{
    let Some((last, rest)) = kinds.split_last() else {
        return None;
    };
    match last {
        Around::Other => target(rest, labels),
        Around::HandlerHere(_) => target(rest, labels),
        Around::HandlerAt(_, _) => target(rest, labels),
        Around::LabelHere(slot) => {
            if labels == 0 {
                return *slot;
            }
            target(rest, labels - 1)
        }
        Around::LabelAt(_, slot) => {
            if labels == 0 {
                return *slot;
            }
            target(rest, labels - 1)
        }
    }
}

fn handler(kinds: &[Around]) -> Result<Option<Handler>, Memory>
    ensures { IfOk result (λ handler. handler ≡ handler_of (stacked [] kinds.now)) }
{
    let Some((last, rest)) = kinds.split_last() else {
        return Ok(None);
    };
    match last {
        Around::Other => farther(handler(rest)?),
        Around::LabelHere(_) => farther(handler(rest)?),
        Around::LabelAt(_, _) => handler(rest),
        Around::HandlerHere(slot) => Ok(Some(Handler {
            slot: *slot,
            way: Way::Near(0),
        })),
        Around::HandlerAt(segment, slot) => Ok(Some(Handler {
            slot: *slot,
            way: Way::Far(*segment),
        })),
    }
}
