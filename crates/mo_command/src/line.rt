//! The line that each status puts on the error stream.
ghost use Rattle.std.specs.Prelude.{◌≡◌, ◌≢◌, ◌⊎◌, ◌++◌, ℕ, List, IfOk, IfErr, MatchOption, OnOk};
ghost use Rattle.mo_command.specs.Lines.{fault_name, IsFaultLine, script_name, script_line, module_name, Numbered, IsLine, Tells};

use crate::status::Status;
use mo_front::FrontFault;
use mo_num::{Bytes, Memory};
use mo_play::ModuleFault;
use outer::{OutsideFault, Sink};
use play_script::{ScriptFault, put_decimal};
use std::alloc::Global;
use wasm_read::ReadFault;
use wasm_tree::Rule;

fn script_name(fault: ScriptFault) -> &'static [u8]
    ensures { result.now ≡ script_name fault }
{
    match fault {
        ScriptFault::BadLine(_) => b"BadLine",
        ScriptFault::NotInstalled(_) => b"NotInstalled",
        ScriptFault::ModuleNumber(_) => b"ModuleNumber",
        ScriptFault::MessageTooLong(_) => b"MessageTooLong",
        ScriptFault::ScriptTooLong => b"ScriptTooLong",
        ScriptFault::Memory => b"Memory",
    }
}

// The number of the line, or 0 for the whole.
fn script_line(fault: ScriptFault) -> u32
    ensures { result ≡ script_line fault }
{
    match fault {
        ScriptFault::BadLine(line) => line,
        ScriptFault::NotInstalled(line) => line,
        ScriptFault::ModuleNumber(line) => line,
        ScriptFault::MessageTooLong(line) => line,
        ScriptFault::ScriptTooLong => 0,
        ScriptFault::Memory => 0,
    }
}

fn module_name(fault: ModuleFault) -> &'static [u8]
    ensures { result.now ≡ module_name fault }
{
    match fault {
        ModuleFault::Read(fault) => read_name(fault),
        ModuleFault::Valid(rule) => rule_name(rule),
    }
}

fn read_name(fault: ReadFault) -> &'static [u8]
    ensures { result.now ≡ module_name (ModuleFault.Read fault) }
{
    match fault {
        ReadFault::TooLarge => b"Read.TooLarge",
        ReadFault::NotWasm => b"Read.NotWasm",
        ReadFault::Malformed => b"Read.Malformed",
        ReadFault::Floats => b"Read.Floats",
        ReadFault::Memory => b"Read.Memory",
    }
}

fn rule_name(rule: Rule) -> &'static [u8]
    ensures { result.now ≡ module_name (ModuleFault.Valid rule) }
{
    match rule {
        Rule::Index => b"Valid.Index",
        Rule::Operand => b"Valid.Operand",
        Rule::Result => b"Valid.Result",
        Rule::Label => b"Valid.Label",
        Rule::Align => b"Valid.Align",
        Rule::Constant => b"Valid.Constant",
        Rule::Mutable => b"Valid.Mutable",
        Rule::Import => b"Valid.Import",
        Rule::Export => b"Valid.Export",
        Rule::Start => b"Valid.Start",
        Rule::Memory => b"Valid.Memory",
        Rule::Table => b"Valid.Table",
        Rule::Size => b"Valid.Size",
    }
}

/// A number with text before and behind it.
pub(crate) fn numbered(
    alloc: Global,
    front: &[u8],
    number: u64,
    back: &[u8],
) -> Result<Bytes, Memory>
    ensures { IfOk result (Numbered front.now number back.now) }
{
    let mut line = Bytes::from_slice(alloc, front)?;
    put_decimal(number, &mut line)?;
    line.extend(back)?;
    Ok(line)
}

fn bad_script_line(alloc: Global, fault: ScriptFault) -> Result<Bytes, Memory>
    ensures { IfOk result (IsLine (Status.BadScript fault)) }
{
    let mut front = Bytes::from_slice(alloc, b"bad script ")?;
    front.extend(script_name(fault))?;
    front.extend(b" ")?;
    numbered(alloc, front.as_slice(), script_line(fault) as u64, b"\n")
}

fn bad_module_line(alloc: Global, number: usize, fault: ModuleFault) -> Result<Bytes, Memory>
    ensures { IfOk result (IsLine (Status.BadModule number fault)) }
{
    let mut back = Bytes::from_slice(alloc, b" ")?;
    back.extend(module_name(fault))?;
    back.extend(b"\n")?;
    numbered(alloc, b"bad module ", number as u64, back.as_slice())
}

// Puts the name of a fault by its layer.
fn put_fault(fault: FrontFault, line: &mut Bytes) -> Result<(), Memory>
    ensures { OnOk result (line.new ≡ line.old ++ fault_name fault) }
{
    line.extend(fault.group())?;
    line.extend(b".")?;
    line.extend(fault.name())
}

fn fault_line(alloc: Global, fault: FrontFault, row: u32, column: u32) -> Result<Bytes, Memory>
    ensures { IfOk result (IsFaultLine fault row column) }
{
    let mut front = Bytes::from_slice(alloc, b"refused 0 ")?;
    put_fault(fault, &mut front)?;
    front.extend(b" ")?;
    let back = numbered(alloc, b":", column as u64, b"\n")?;
    numbered(alloc, front.as_slice(), row as u64, back.as_slice())
}

// The status's line, which only Done lacks.
fn line_of(alloc: Global, status: Status) -> Result<Option<Bytes>, Memory>
    ensures line { IfOk result (λ line. MatchOption line (status ≡ Status.Done) (IsLine status)) }
    ensures memory { IfErr result (λ _. status ≢ Status.Done) }
{
    let line = match status {
        Status::Done => return Ok(None),
        Status::Refused { source } => numbered(
            alloc,
            b"refused ",
            source as u64,
            b" Build.NotYet 1:1\n",
        )?,
        Status::Usage => Bytes::from_slice(alloc, b"usage\n")?,
        Status::ReadFault => Bytes::from_slice(alloc, b"read fault\n")?,
        Status::WriteFault => Bytes::from_slice(alloc, b"write fault\n")?,
        Status::NoMemory => Bytes::from_slice(alloc, b"no memory\n")?,
        Status::BadScript(fault) => bad_script_line(alloc, fault)?,
        Status::NotYet { line } => numbered(alloc, b"bad script NotYet ", line as u64, b"\n")?,
        Status::BadModule { number, fault } => bad_module_line(alloc, number, fault)?,
        Status::NoFile { place } => numbered(alloc, b"no file ", place as u64, b"\n")?,
        Status::NotAccepted {
            fault,
            line,
            column,
        } => fault_line(alloc, fault, line, column)?,
    };
    Ok(Some(line))
}

// Puts the line. A put that fails keeps the status; want of memory is a status of its own.
fn put_line<E: Sink>(status: Status, line: &[u8], err: &mut E) -> Status
    requires { IsLine status line.now }
    ensures same { (result ≡ status) ⊎ (result ≡ Status.NoMemory) }
    ensures tells { Tells (E.shown err.old) (E.shown err.new) (E.faults err.old) (E.faults err.new) result }
{
    match err.put(line) {
        Ok(()) => status,
        Err(OutsideFault::Failed) => status,
        Err(OutsideFault::Memory) => Status::NoMemory,
    }
}

/// Puts the status's line by one put, and answers the status with which the program ends. Where memory is wanting for the
/// line, that status is NoMemory.
pub fn tell<E: Sink>(alloc: Global, status: Status, err: &mut E) -> Status
    ensures same { (result ≡ status) ⊎ ((status ≢ Status.Done) × (result ≡ Status.NoMemory)) }
    ensures tells { Tells (E.shown err.old) (E.shown err.new) (E.faults err.old) (E.faults err.new) result }
{
    match line_of(alloc, status) {
        Ok(None) => Status::Done,
        Ok(Some(line)) => put_line(status, line.as_slice(), err),
        Err(Memory) => put_line(Status::NoMemory, b"no memory\n", err),
    }
}
