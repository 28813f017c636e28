//! The lines of a transcript, put one by one.
ghost use Rattle.std.specs.Prelude.{◌≡◌, ◌≤◌, ◌^◌, All, codes, length, drop};
ghost use Rattle.std.specs.List.{AllByRecursion};
ghost use Rattle.outer.specs.Causes.{HasCause};
ghost use Rattle.play_script.specs.Events.{IsFit, NamesModuleBelow, IsNoInstall, Suits};
ghost use Rattle.play_script.specs.Items.{ItemText, ItemsText};
ghost use Rattle.play_script.specs.Numbers.{bytes_text};
ghost use Rattle.canister_host.specs.HostRun.{items_from};
ghost use Rattle.canister.specs.Executed.{execution_limits};
ghost use Rattle.canister.specs.Shown.{shown, limits_of_canister, IsCanisterOf};
ghost use Rattle.mo_play.specs.Transcripts.{own_principal, IsTranscript, IsPut};

use canister::Canister;
use mo_num::{Memory, Principal, principal_of};
use outer::{OutsideFault, Sink};
use play_script::{Event, Item, item_text};
use std::alloc::Global;
use wasm_instance::Limits;
use wasm_valid::Valid;

/// The canister's own principal.
const OWN_PRINCIPAL: [u8; 10] = [0, 0, 0, 0, 0, 0, 0, 1, 1, 1];

// Puts the item's line, with its newline, by one put.
fn put_item<O: Sink>(alloc: Global, item: &Item, out: &mut O) -> Result<(), OutsideFault>
    ensures put { IsPut (ItemText item.now) (O.shown out.old) (O.shown out.new) result }
    ensures cause { HasCause (O.faults out.old) (O.faults out.new) result }
{
    match item_text(alloc, item) {
        Ok(line) => out.put(line.as_slice()),
        Err(Memory) => Err(OutsideFault::Memory),
    }
}

// Puts the items' lines in turn. After an error a prefix of the lines was put.
fn put_items<O: Sink>(alloc: Global, items: &[Item], out: &mut O) -> Result<(), OutsideFault>
    ensures put { IsPut (ItemsText items.now) (O.shown out.old) (O.shown out.new) result }
    ensures cause { HasCause (O.faults out.old) (O.faults out.new) result }
{
    for item in items {
        match put_item(alloc, item, out) {
            Ok(()) => {}
            Err(fault) => return Err(fault),
        }
    }
    Ok(())
}

// Gives the canister the events in turn, and puts the lines of each before the next one.
fn play_events<O: Sink>(
    alloc: Global,
    canister: &mut Canister,
    modules: &[Valid],
    events: &[Event],
    out: &mut O,
) -> Result<(), OutsideFault>
    requires sound { IsCanisterOf modules.now canister.old }
    requires new { canister.old.events ≡ 0 }
    requires fit { AllByRecursion IsFit events.now }
    requires below { AllByRecursion (NamesModuleBelow (length modules.now)) events.now }
    requires first { AllByRecursion IsNoInstall (drop 1 events.now) }
    requires few { length events.now ≤ 2 ^ 53 }
    ensures put { IsPut (ItemsText (items_from modules.now (limits_of_canister canister.old) canister.old.own events.now (shown modules.now canister.old))) (O.shown out.old) (O.shown out.new) result }
    ensures cause { HasCause (O.faults out.old) (O.faults out.new) result }
{
    for event in events {
        let items = match canister.event(modules, event) {
            Ok(items) => items,
            Err(Memory) => return Err(OutsideFault::Memory),
        };
        match put_items(alloc, items.as_slice(), out) {
            Ok(()) => {}
            Err(fault) => return Err(fault),
        }
    }
    Ok(())
}

// The principal of the canister that is played.
fn own_principal(alloc: Global) -> Principal
    ensures own { result ≡ own_principal }
    ensures text { bytes_text result ≡ codes "00000000000000010101" }
{
    match principal_of(alloc, &OWN_PRINCIPAL) {
        Some(principal) => principal,
        None => unreachable!(),
    }
}

/// Plays the events on a canister under these limits, whose own principal is 00000000000000010101: puts the line of each
/// item, with its newline, by one put, those of each event before the next one begins. After an error a prefix of the
/// transcript was put. The modules are valid, and the events are a script for so many of them.
pub fn play<O: Sink>(
    alloc: Global,
    modules: &[Valid],
    limits: Limits,
    events: &[Event],
    out: &mut O,
) -> Result<(), OutsideFault>
    requires pages { limits.pages ≤ 65536 }
    requires fit { All IsFit events.now }
    requires suits { Suits (length modules.now) events.now }
    requires few { length events.now ≤ 2 ^ 53 }
    ensures put { IsPut (IsTranscript modules.now (execution_limits limits) events.now) (O.shown out.old) (O.shown out.new) result }
    ensures cause { HasCause (O.faults out.old) (O.faults out.new) result }
{
    let mut canister = match Canister::new(alloc, limits, own_principal(alloc)) {
        Ok(canister) => canister,
        Err(Memory) => return Err(OutsideFault::Memory),
    };
    play_events(alloc, &mut canister, modules, events, out)
}
