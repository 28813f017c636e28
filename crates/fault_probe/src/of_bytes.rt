//! Faults of files, scripts and modules.
use crate::lines;
use mo_play::{JudgeFault, ModuleFault};
use outer::OutsideFault;
use play_script::ScriptFault;
use probe_base::Stop;
use std::alloc::{AllocError, Global};
use wasm_layout::LayoutFault;
use wasm_read::ReadFault;
use wasm_store::LoadTrap;
use wasm_tree::Rule;
use wasm_valid::ValidFault;

fn of_scripts(alloc: Global) -> Result<String, AllocError> {
    lines(
        alloc,
        &[
            ScriptFault::BadLine(7),
            ScriptFault::NotInstalled(7),
            ScriptFault::ModuleNumber(7),
            ScriptFault::MessageTooLong(7),
            ScriptFault::ScriptTooLong,
            ScriptFault::Memory,
        ],
    )
}

fn of_reading(alloc: Global) -> Result<String, AllocError> {
    lines(
        alloc,
        &[
            ReadFault::TooLarge,
            ReadFault::NotWasm,
            ReadFault::Malformed,
            ReadFault::Floats,
            ReadFault::Memory,
        ],
    )
}

fn of_validation(alloc: Global) -> Result<String, AllocError> {
    lines(
        alloc,
        &[
            ValidFault::Broken {
                rule: Rule::Operand,
                function: Some(7),
            },
            ValidFault::Broken {
                rule: Rule::Memory,
                function: None,
            },
            ValidFault::Memory,
        ],
    )
}

fn of_modules(alloc: Global) -> Result<String, AllocError> {
    lines(
        alloc,
        &[
            ModuleFault::Read(ReadFault::Floats),
            ModuleFault::Valid(Rule::Operand),
        ],
    )
}

fn of_judging(alloc: Global) -> Result<String, AllocError> {
    lines(
        alloc,
        &[
            JudgeFault::Bad(ModuleFault::Valid(Rule::Operand)),
            JudgeFault::Memory,
        ],
    )
}

/// The messages of a type.
pub(crate) fn messages(alloc: Global, kind: &[u8]) -> Result<String, Stop> {
    let text = match kind {
        b"OutsideFault" => lines(alloc, &[OutsideFault::Failed, OutsideFault::Memory])?,
        b"ScriptFault" => of_scripts(alloc)?,
        b"ReadFault" => of_reading(alloc)?,
        b"ValidFault" => of_validation(alloc)?,
        b"LayoutFault" => lines(alloc, &[LayoutFault::TooLarge, LayoutFault::Memory])?,
        b"LoadTrap" => lines(alloc, &[LoadTrap::Heap, LoadTrap::Bounds])?,
        b"ModuleFault" => of_modules(alloc)?,
        b"JudgeFault" => of_judging(alloc)?,
        _ => return Err(Stop::Usage),
    };
    Ok(text)
}
