//! One low module of routines, entries and what surrounds them.
ghost use Rattle.std.specs.Prelude.{◌≡◌, ◌≤◌, length, IfOk, OnOk, IfErr};
ghost use Rattle.std.specs.List.{AllByRecursion};
ghost use Rattle.run_time_link.specs.Linking.{linked, FrameFits, Widens, Refuses};

use crate::frames::frame_words;
use crate::parts::{exports, functions, types};
use low_ir::{LowGlobal, LowModule, LowOp, Routine, Routines};
use mo_num::{Bytes, Memory, Sequence};
use std::alloc::Global;
use wasm_tree::ValueType;

/// The most stack words of a routine's frame.
const MOST_FRAME_WORDS: u128 = 64;

/// A function that the host enters: the name of its export, its locals and its body.
#[derive(Drop)]
pub struct Entry {
    pub name: Bytes,
    pub locals: Sequence<ValueType>,
    pub body: Sequence<LowOp>,
}

/// What a module has besides its functions: the functions that indirect calls find, the globals, and the memory at first.
#[derive(Drop)]
pub struct Surroundings {
    pub table: Sequence<u32>,
    pub globals: Sequence<LowGlobal>,
    pub pages: u32,
    pub bytes: Bytes,
}

/// Why nothing was linked.
#[derive(Clone, Copy, Debug, PartialEq, Eq)]
pub enum LinkFault {
    /// There was no memory.
    Memory,
    /// The frame of the routine of this line takes more stack words than a routine may.
    Frame(u32),
}

// The line of a routine whose frame is too large.
fn wide_line(routines: &[Routine]) -> Option<u32>
    ensures { Widens routines.now result }
{
    for routine in routines {
        let words = frame_words(
            routine.params.len(),
            routine.locals.len(),
            routine.body.as_slice(),
        );
        if words > MOST_FRAME_WORDS {
            return Some(routine.line);
        }
    }
    None
}

fn joined(
    alloc: Global,
    routines: &[Routine],
    entries: &[Entry],
    around: Surroundings,
) -> Result<LowModule, Memory>
    requires routines { length routines.now ≤ 50000 }
    requires entries { length entries.now ≤ 50000 }
    ensures { IfOk result (λ low. low ≡ linked routines.now entries.now around) }
{
    let Surroundings {
        table,
        globals,
        pages,
        bytes,
    } = around;
    Ok(LowModule {
        types: types(alloc, routines)?,
        functions: functions(alloc, routines, entries)?,
        table,
        globals,
        pages,
        bytes,
        exports: exports(alloc, 22 + routines.len() as u32, entries)?,
    })
}

/// The module of the routines, in their order behind the host's functions, and of the entries, which the host enters by their names.
/// A routine whose frame takes more than 64 stack words is refused.
pub fn link(
    alloc: Global,
    routines: &Routines,
    entries: &[Entry],
    around: Surroundings,
) -> Result<LowModule, LinkFault>
    requires routines { length routines.now ≤ 50000 }
    requires entries { length entries.now ≤ 50000 }
    ensures ok { IfOk result (λ low. low ≡ linked routines.now entries.now around) }
    ensures frames { OnOk result (AllByRecursion FrameFits routines.now) }
    ensures err { IfErr result (λ fault. Refuses routines.now fault) }
{
    match wide_line(routines.as_slice()) {
        Some(line) => Err(LinkFault::Frame(line)),
        None => match joined(alloc, routines.as_slice(), entries, around) {
            Ok(module) => Ok(module),
            Err(_) => Err(LinkFault::Memory),
        },
    }
}
