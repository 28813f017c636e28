//! Files, and the programs of sources.
ghost use Rattle.std.specs.Prelude.{IfOk};
ghost use Rattle.stepper.specs.Standing.{AreOwned};
ghost use Rattle.typed_tree.specs.WellTyped.{WellTyped};

use crate::stop::Stop;
use mo_front::{FrontFault, front, line_and_column};
use mo_num::Bytes;
use outer::{Content, Files, OutsideFault};
use std::alloc::Global;
use typed_tree::Program;

/// The most bytes that are read of a file: one more than a script may have, so that its reader refuses it.
const MOST_BYTES: u64 = 67_108_865;

/// What a file holds, the one with this place in the order of reading.
pub(crate) fn contents(
    alloc: Global,
    files: &mut impl Files,
    name: &str,
    place: usize,
) -> Result<Bytes, Stop> {
    match files.read(alloc, name, MOST_BYTES) {
        Ok(Content::Whole(bytes)) => Ok(bytes),
        Ok(Content::Missing) => Err(Stop::NoFile { place }),
        Ok(Content::TooLong) => Err(Stop::Usage),
        Err(OutsideFault::Failed) => Err(Stop::ReadFault),
        Err(OutsideFault::Memory) => Err(Stop::Memory),
    }
}

// Why there is no program of the source with this number.
fn refused(alloc: Global, source: &[u8], number: usize, fault: FrontFault) -> Stop {
    match line_and_column(alloc, source, fault.place()) {
        Ok((line, column)) => Stop::Refused {
            source: number,
            fault,
            line,
            column,
        },
        Err(_) => Stop::Memory,
    }
}

// Whether the fault is want of memory, which refuses nothing.
fn is_memory(fault: FrontFault) -> bool {
    matches!(fault, FrontFault::Memory)
}

// The program of the source with this number.
fn program(alloc: Global, source: &[u8], number: usize) -> Result<Program, Stop>
    ensures { IfOk result WellTyped }
{
    match front(alloc, source) {
        Ok(program) => Ok(program),
        Err(fault) => {
            if is_memory(fault) {
                Err(Stop::Memory)
            } else {
                Err(refused(alloc, source, number, fault))
            }
        }
    }
}

/// The programs of the sources in these files.
pub(crate) fn programs(
    alloc: Global,
    files: &mut impl Files,
    names: &[String],
) -> Result<Vec<Program>, Stop>
    ensures { IfOk result (λ made. AreOwned made.items) }
{
    let mut made = Vec::new(alloc);
    for (number, name) in names.iter().enumerate() {
        let source = contents(alloc, files, name.as_str(), number.saturating_add(1))?;
        let typed = program(alloc, source.as_slice(), number)?;
        made.push(typed)?;
    }
    Ok(made)
}
