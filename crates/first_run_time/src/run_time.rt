//! The run time as a low module.
ghost use Rattle.std.specs.Prelude.{◌≡◌, IfOk};
ghost use Rattle.wasm_tree.specs.Binary.{Written};
ghost use Rattle.wasm_tree.specs.Spelling.{HasSpelling};
ghost use Rattle.low_ir.specs.Flat.{flat_module};
ghost use Rattle.low_ir.specs.Formed.{IsFormedModule};
ghost use Rattle.wasm_emit.specs.Emit.{emitted};
ghost use Rattle.first_run_time.specs.RunTime as run_times;

use crate::entries::{copy, digits, order, same};
use low_ir::{Builder, LowGlobal, LowModule, Routines, copied};
use memory_routines::{allocation, comparison, copying, numeral, ordering};
use mo_num::{Bytes, Memory, Sequence};
use run_time_link::{Entry, LinkFault, Surroundings, link};
use std::alloc::Global;
use wasm_emit::to_wasm;
use wasm_tree::Module;

/// The number of the function that allocates.
const ALLOCATES: u32 = 22;

/// Where the heap begins, behind what the memory holds at first.
const HEAP_BEGIN: i32 = 64;

fn routines(alloc: Global) -> Result<Routines, Memory>
    ensures { IfOk result (λ r. r ≡ run_times.routines) }
{
    let mut builder = Builder::new(alloc);
    builder.push(allocation(alloc, 0)?)?;
    builder.push(copying(alloc, 1, ALLOCATES)?)?;
    builder.push(comparison(alloc, 2)?)?;
    builder.push(ordering(alloc, 3)?)?;
    builder.push(numeral(alloc, 4)?)?;
    Ok(builder.finish())
}

fn entries(alloc: Global) -> Result<Sequence<Entry>, Memory>
    ensures { IfOk result (λ all. all ≡ run_times.entries) }
{
    let mut entries = Sequence::new(alloc);
    entries.push(digits(alloc)?)?;
    entries.push(copy(alloc)?)?;
    entries.push(same(alloc)?)?;
    entries.push(order(alloc)?)?;
    Ok(entries)
}

fn surroundings(alloc: Global) -> Result<Surroundings, Memory>
    ensures { IfOk result (λ it. it ≡ run_times.around) }
{
    Ok(Surroundings {
        table: copied(alloc, &[22, 23, 24, 25, 26])?,
        globals: copied(alloc, &[LowGlobal::Word(HEAP_BEGIN)])?,
        pages: 1,
        bytes: Bytes::from_slice(alloc, b"argument too short")?,
    })
}

fn joined(
    alloc: Global,
    routines: &Routines,
    entries: &Sequence<Entry>,
    around: Surroundings,
) -> Result<LowModule, Memory>
    requires routines { routines.now ≡ run_times.routines }
    requires entries { entries.now ≡ run_times.entries }
    requires around { around ≡ run_times.around }
    ensures { IfOk result (λ low. low ≡ flat_module run_times.run_time) }
{
    match link(alloc, routines, entries.as_slice(), around) {
        Ok(module) => Ok(module),
        Err(_) => Err(Memory),
    }
}

/// The module of the first run time, which is formed.
pub fn first_run_time(alloc: Global) -> Result<LowModule, Memory>
    ensures is { IfOk result (λ low. low ≡ flat_module run_times.run_time) }
    ensures formed { IfOk result (λ low. IsFormedModule low) }
{
    let routines = routines(alloc)?;
    let entries = entries(alloc)?;
    let around = surroundings(alloc)?;
    joined(alloc, &routines, &entries, around)
}

/// The first run time as WebAssembly: the module of which the laws on queries speak. It has a spelling.
pub fn run_time_module(alloc: Global) -> Result<Module, Memory>
    ensures is { IfOk result (λ tree. tree ≡ emitted (flat_module run_times.run_time)) }
    ensures spelled { IfOk result (λ tree. HasSpelling (Written tree)) }
{
    let low = first_run_time(alloc)?;
    to_wasm(alloc, &low)
}
