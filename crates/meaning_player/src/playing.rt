//! Events, and the lines of their items.
ghost use Rattle.std.specs.Prelude.{IfOk};
ghost use Rattle.std.specs.Io.KnownBytes.{Appends};
ghost use Rattle.stepper.specs.Standing.{AreOwned, IsSound};
ghost use Rattle.meaning_player.specs.Played.{ArePlayed, ArePut, IsPlayed};

use crate::stop::Stop;
use mo_num::principal_of;
use outer::{OutsideFault, Sink};
use play_script::{Event, Item, item_text};
use std::alloc::Global;
use stepper::{Stepped, Stepper};
use typed_tree::Program;

/// The principal of the actor that is played.
const OWN_PRINCIPAL: [u8; 10] = [0, 0, 0, 0, 0, 0, 0, 1, 1, 1];

// One line.
fn put_line<O: Sink>(line: &[u8], out: &mut O) -> Result<(), Stop>
    ensures { IfOk result (λ u. Appends (O.shown out.old) (O.shown out.new) line.now) }
{
    match out.put(line) {
        Ok(()) => Ok(()),
        Err(OutsideFault::Failed) => Err(Stop::WriteFault),
        Err(OutsideFault::Memory) => Err(Stop::Memory),
    }
}

// The lines of items.
fn put_items<O: Sink>(alloc: Global, items: &[Item], out: &mut O) -> Result<(), Stop>
    ensures { IfOk result (λ u. ArePut items.now (O.shown out.old) (O.shown out.new)) }
{
    for item in items {
        let line = item_text(alloc, item)?;
        put_line(line.as_slice(), out)?;
    }
    Ok(())
}

// The lines of one event, and whether others may come.
fn play_event<'a, O: Sink>(
    alloc: Global,
    stepper: &mut Stepper<'a>,
    event: &Event,
    turns: u64,
    out: &mut O,
) -> Result<bool, Stop>
    requires { IsSound stepper.old }
    ensures sound { IfOk result (λ goes_on. IsSound stepper.new) }
    ensures played { IfOk result (λ goes_on. IsPlayed event.now turns stepper.old stepper.new goes_on (O.shown out.old) (O.shown out.new)) }
{
    match stepper.event(alloc, event, turns)? {
        Stepped::Items(items) => {
            put_items(alloc, items.as_slice(), out)?;
            Ok(true)
        }
        Stepped::Still => {
            put_line(b"still\n", out)?;
            Ok(false)
        }
        // Only for a second installation, which no script has.
        Stepped::NoCourse => {
            put_line(b"no course\n", out)?;
            Ok(false)
        }
    }
}

/// Puts the lines of what the events come to, with so many turns for each execution, and answers whether all of them came to
/// something.
pub(crate) fn play<O: Sink>(
    alloc: Global,
    programs: &[Program],
    events: &[Event],
    turns: u64,
    out: &mut O,
) -> Result<bool, Stop>
    requires { AreOwned programs.now }
    ensures { IfOk result (λ whole. ArePlayed programs.now events.now whole (O.shown out.old) (O.shown out.new)) }
{
    let Some(own) = principal_of(alloc, &OWN_PRINCIPAL) else {
        return Err(Stop::Memory);
    };
    let mut stepper = Stepper::new(programs, &own);
    for event in events {
        if !play_event(alloc, &mut stepper, event, turns, out)? {
            return Ok(false);
        }
    }
    Ok(true)
}
