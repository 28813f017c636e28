//! Scripts.
ghost use Rattle.std.specs.Prelude.{◌≡◌, ◌++◌, ◌∷◌, [], ℕ, List, IfOk, IfErr};
ghost use Rattle.play_script.specs.declared.event.Event.{Event};
ghost use Rattle.play_script.specs.Scripts.{AreGood, ScriptOf};
ghost use Rattle.play_script.specs.Told.{LineTold};
ghost use Rattle.play_script.specs.Faults.{FaultOf, fault_at};

use crate::Events;
use crate::line::{LineFault, is_skipped, read_event};
use crate::words::split_line;
use std::alloc::Global;
use thiserror::Error;

/// The most bytes of a script: 64 MiB.
const SCRIPT_LIMIT: usize = 67_108_864;

/// Why a text is no script. Lines are counted from 1.
#[derive(Clone, Copy, Debug, PartialEq, Eq, Error)]
pub enum ScriptFault {
    /// A line of another form, or a second install.
    #[error("line {0}: no event of a script, or a second installation")]
    BadLine(u32),
    /// The first event is no install, or there is no event, which is said of line 0.
    #[error("line {0}: the first event has to be an installation")]
    NotInstalled(u32),
    /// The number of a module that is not there.
    #[error("line {0}: there is no module of this number")]
    ModuleNumber(u32),
    /// Bytes of more than 2 MiB.
    #[error("line {0}: a message of more than 2097152 bytes")]
    MessageTooLong(u32),
    /// More than 64 MiB.
    #[error("the script has more than 67108864 bytes")]
    ScriptTooLong,
    /// Want of memory.
    #[error("there is no memory")]
    Memory,
}

/// The events of a script, whose numbers are those of so many modules.
pub fn read_script(alloc: Global, text: &[u8], modules: u32) -> Result<Events, ScriptFault>
    ensures ok { IfOk result (ScriptOf text.now modules) }
    ensures err { IfErr result (FaultOf text.now modules) }
    ensures only { IfErr result (λ fault. (events : List Event) → ScriptOf text.now modules events → fault ≡ ScriptFault.Memory) }
{
    if text.len() > SCRIPT_LIMIT {
        return Err(ScriptFault::ScriptTooLong);
    }
    let mut events = Events::new(alloc);
    let mut rest = text;
    let mut number = 0;
    while !rest.is_empty() {
        let (line, others) = split_line(rest);
        number += 1;
        match read_line(alloc, line, modules, &mut events) {
            Ok(()) => rest = others,
            Err(fault) => return Err(fault_of(fault, number)),
        }
    }
    if events.is_empty() {
        return Err(ScriptFault::NotInstalled(0));
    }
    Ok(events)
}

// Adds the line's event, unless it is skipped.
fn read_line(alloc: Global, line: &[u8], modules: u32, events: &mut Events) -> Result<(), LineFault>
    ensures { (lines : List (List ℕ)) → AreGood modules lines events.old → LineTold modules lines line.now events.old events.new result }
{
    if is_skipped(line) {
        return Ok(());
    }
    let begun = !events.is_empty();
    match read_event(alloc, line, begun, modules) {
        Ok(event) => Ok(events.push(event)?),
        Err(fault) => Err(fault),
    }
}

fn fault_of(fault: LineFault, line: u32) -> ScriptFault
    ensures { result ≡ fault_at fault line }
{
    match fault {
        LineFault::Bad => ScriptFault::BadLine(line),
        LineFault::TooLong => ScriptFault::MessageTooLong(line),
        LineFault::NoModule => ScriptFault::ModuleNumber(line),
        LineFault::NotInstalled => ScriptFault::NotInstalled(line),
        LineFault::Memory => ScriptFault::Memory,
    }
}
