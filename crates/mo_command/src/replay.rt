//! The work of `play` and `run`: the script is read and decoded, then each file in order is read and judged, and then the
//! events run.
ghost use Rattle.std.specs.Prelude.{◌≡◌, ◌≤◌, ◌<◌, ◌^◌, ℕ, List, length, map, string_bytes, IfOk, IfErr, IfSome, IsTrue, ◌↔◌, MatchOption, slice_get, Some};
ghost use Rattle.std.specs.List.{AllZip, AllByRecursion};
ghost use Rattle.play_script.specs.Scripts.{script_limit, ScriptOf};
ghost use Rattle.canister.specs.Executed.{execution_limits};
ghost use Rattle.mo_command.specs.Held.{outside, HasBytes, Holds};
ghost use Rattle.mo_command.specs.Replays.{limits_of, Gives, IsScript, IsTaken};
ghost use Rattle.mo_command.specs.Stopped.{limit_of, long_status, script_status, put_status, IsFirstUntaken, AreGiven, ArePlayable, IsOrdered, TextStops, ScriptStops, BytesStop, FileStops, FilesStop};
ghost use Rattle.mo_command.specs.Ends.{ReplayEnds};

use crate::compile::{CompileFault, compile};
use crate::status::{Input, Status};
use mo_num::{Memory, Sequence};
use mo_play::{JudgeFault, ModuleFault, judge, play};
use mo_words::{Options, Replay};
use outer::{Content, Files, OutsideFault, Sink};
use play_script::{Event, Events, ScriptFault, event_line, read_script};
use std::alloc::Global;
use wasm_instance::Limits;
use wasm_read::ReadFault;
use wasm_valid::Valid;

/// The most bytes of a script and of a module: 64 MiB.
const FILE_LIMIT: u64 = 67_108_864;

/// The most bytes of a source.
const SOURCE_LIMIT: u64 = 4_096;

/// A call's argument without values, in Candid.
const EMPTY_MESSAGE: &[u8] = b"DIDL\0\0";

// The most bytes that are read of a file.
fn limit_of(input: Input) -> u64
    ensures { result ≡ limit_of input }
{
    match input {
        Input::Modules => FILE_LIMIT,
        Input::Sources => SOURCE_LIMIT,
    }
}

// Whether `run` takes the event.
fn is_taken(event: &Event) -> bool
    ensures { IsTrue result ↔ IsTaken event.now }
{
    match event {
        Event::Call { bytes, .. } => bytes.as_slice() == EMPTY_MESSAGE,
        Event::Upgrade(_) => false,
        Event::Install(_) => true,
        Event::Reply { .. } => true,
        Event::Reject { .. } => true,
    }
}

// The module that the bytes are, or one of the source that they are.
fn module_of(alloc: Global, input: Input, bytes: &[u8], number: usize) -> Result<Valid, Status>
    ensures ok { IfOk result (λ m. Gives input bytes.now m) }
    ensures err { IfErr result (BytesStop input number bytes.now) }
{
    match input {
        Input::Modules => match judge(alloc, bytes) {
            Ok(valid) => Ok(valid),
            Err(JudgeFault::Bad(fault)) => Err(Status::BadModule { number, fault }),
            Err(JudgeFault::Memory) => Err(Status::NoMemory),
        },
        Input::Sources => match compile(alloc, bytes) {
            Err(CompileFault::NotYet) => Err(Status::Refused { source: number }),
            Err(CompileFault::Memory) => Err(Status::NoMemory),
            Ok(module) => match judge(alloc, module.as_slice()) {
                Ok(valid) => Ok(valid),
                Err(JudgeFault::Memory) => Err(Status::NoMemory),
                // What was compiled is a valid module.
                Err(JudgeFault::Bad(_)) => unreachable!(),
            },
        },
    }
}

// A file of more bytes than it may have.
fn too_long(input: Input, number: usize) -> Status
    ensures { result ≡ long_status input number }
{
    match input {
        Input::Modules => Status::BadModule {
            number,
            fault: ModuleFault::Read(ReadFault::TooLarge),
        },
        Input::Sources => Status::Refused { source: number },
    }
}

// What the file with this number gives.
fn read_file<F: Files>(
    alloc: Global,
    input: Input,
    name: &str,
    number: usize,
    files: &mut F,
) -> Result<Valid, Status>
    requires { number < 2 ^ 32 }
    ensures ok { IfOk result (λ m. Holds (F.names files.old) name.now (λ bytes. Gives input bytes m)) }
    ensures err { IfErr result (FileStops input number (F.names files.old) name.now (F.read_faults files.old) (F.read_faults files.new)) }
    ensures names { F.names files.new ≡ F.names files.old }
    ensures reads { F.read_faults files.old ≤ F.read_faults files.new }
    ensures writes { F.write_faults files.new ≡ F.write_faults files.old }
{
    match files.read(alloc, name, limit_of(input)) {
        Err(OutsideFault::Failed) => Err(Status::ReadFault),
        Err(OutsideFault::Memory) => Err(Status::NoMemory),
        Ok(Content::Missing) => Err(Status::NoFile { place: number + 1 }),
        Ok(Content::TooLong) => Err(too_long(input, number)),
        Ok(Content::Whole(bytes)) => module_of(alloc, input, bytes.as_slice(), number),
    }
}

// The number, counted from 0, of the first event that `run` does not take.
fn first_untaken(events: &[Event]) -> Option<usize>
    ensures { MatchOption result (AllByRecursion IsTaken events.now) (IsFirstUntaken events.now) }
{
    for (index, event) in events.iter().enumerate() {
        if !is_taken(event) {
            return Some(index);
        }
    }
    None
}

// The events, where `run` takes them.
fn taken(text: &[u8], events: Events) -> Result<Events, Status>
    requires { length text.now ≤ script_limit }
    ensures ok { IfOk result (λ taken. (taken ≡ events) × AllByRecursion IsTaken events) }
    ensures err { IfErr result (λ status. (count : ℕ) → ScriptOf text.now count events → TextStops Input.Sources count text.now status) }
{
    match first_untaken(events.as_slice()) {
        None => Ok(events),
        Some(index) => Err(Status::NotYet {
            line: event_line(text, index),
        }),
    }
}

fn bad_script(fault: ScriptFault) -> Status
    ensures { result ≡ script_status fault }
{
    match fault {
        ScriptFault::Memory => Status::NoMemory,
        other => Status::BadScript(other),
    }
}

// The events of the text, where it is a script for so many files.
fn events_of(alloc: Global, input: Input, text: &[u8], count: u32) -> Result<Events, Status>
    ensures ok { IfOk result (λ events. IsScript input count events text.now) }
    ensures err { IfErr result (TextStops input count text.now) }
{
    let events = match read_script(alloc, text, count) {
        Ok(events) => events,
        Err(fault) => return Err(bad_script(fault)),
    };
    match input {
        Input::Modules => Ok(events),
        Input::Sources => taken(text, events),
    }
}

// The events of the script's file.
fn read_events<F: Files>(
    alloc: Global,
    input: Input,
    script: &str,
    count: u32,
    files: &mut F,
) -> Result<Events, Status>
    ensures playable { IfOk result (ArePlayable count) }
    ensures ok { IfOk result (λ events. Holds (F.names files.old) script.now (IsScript input count events)) }
    ensures err { IfErr result (ScriptStops input count (F.names files.old) script.now (F.read_faults files.old) (F.read_faults files.new)) }
    ensures names { F.names files.new ≡ F.names files.old }
    ensures reads { F.read_faults files.old ≤ F.read_faults files.new }
    ensures writes { F.write_faults files.new ≡ F.write_faults files.old }
{
    match files.read(alloc, script, FILE_LIMIT) {
        Err(OutsideFault::Failed) => Err(Status::ReadFault),
        Err(OutsideFault::Memory) => Err(Status::NoMemory),
        Ok(Content::Missing) => Err(Status::NoFile { place: 0 }),
        Ok(Content::TooLong) => Err(Status::BadScript(ScriptFault::ScriptTooLong)),
        Ok(Content::Whole(text)) => events_of(alloc, input, text.as_slice(), count),
    }
}

// What the files give, in turn.
fn read_files<F: Files>(
    alloc: Global,
    input: Input,
    names: &[String],
    files: &mut F,
) -> Result<Sequence<Valid>, Status>
    requires { length names.now ≤ 16 }
    ensures ok { IfOk result (λ modules. IfSome (F.names files.old) (λ held. AreGiven input held (map string_bytes names.now) modules)) }
    ensures count { IfOk result (λ modules. length modules ≡ length names.now) }
    ensures err { IfErr result (FilesStop input (map string_bytes names.now) (F.names files.old) (F.read_faults files.old) (F.read_faults files.new)) }
    ensures names { F.names files.new ≡ F.names files.old }
    ensures reads { F.read_faults files.old ≤ F.read_faults files.new }
    ensures writes { F.write_faults files.new ≡ F.write_faults files.old }
{
    let mut modules = Sequence::new(alloc);
    for (number, name) in names.iter().enumerate() {
        match read_file(alloc, input, name.as_str(), number, files) {
            Ok(module) => match modules.push(module) {
                Ok(()) => {}
                Err(Memory) => return Err(Status::NoMemory),
            },
            Err(status) => return Err(status),
        }
    }
    Ok(modules)
}

// The limits of the options.
fn limits(options: Options) -> Limits
    ensures limits { execution_limits result ≡ limits_of options }
    ensures pages { result.pages ≡ options.pages }
{
    Limits {
        steps: options.steps,
        pages: options.pages,
        stack: options.stack,
    }
}

/// The status after lines were put.
pub(crate) fn end_of(put: Result<(), OutsideFault>) -> Status
    ensures { result ≡ put_status put }
{
    match put {
        Ok(()) => Status::Done,
        Err(OutsideFault::Failed) => Status::WriteFault,
        Err(OutsideFault::Memory) => Status::NoMemory,
    }
}

/// Replays the script over the files.
pub fn replay<F: Files, O: Sink>(
    alloc: Global,
    input: Input,
    order: Replay<'_>,
    files: &mut F,
    out: &mut O,
) -> Status
    requires { IsOrdered order.options (length order.files.now) }
    ensures ends { ReplayEnds input order.entry.options order.entry.script.now (map string_bytes order.entry.files.now)
        (outside (F.names files.old) (F.read_faults files.old) (F.write_faults files.old) (O.shown out.old) (O.faults out.old))
        (outside (F.names files.new) (F.read_faults files.new) (F.write_faults files.new) (O.shown out.new) (O.faults out.new)) result }
    ensures names { F.names files.new ≡ F.names files.old }
{
    let count = order.files.len() as u32;
    let events = match read_events(alloc, input, order.script, count, files) {
        Ok(events) => events,
        Err(status) => return status,
    };
    let modules = match read_files(alloc, input, order.files, files) {
        Ok(modules) => modules,
        Err(status) => return status,
    };
    end_of(play(
        alloc,
        modules.as_slice(),
        limits(order.options),
        events.as_slice(),
        out,
    ))
}
