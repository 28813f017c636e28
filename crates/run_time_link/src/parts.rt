//! The parts of a linked module.
ghost use Rattle.std.specs.Prelude.{◌≡◌, ◌≤◌, ◌∷◌, ◌++◌, ◌+◌, [], length, map, IfOk};
ghost use Rattle.wasm_tree.specs.Imports.{entry_type};
ghost use Rattle.run_time_link.specs.Linking.{type_of_routine, functions_from, entry_function, exports_from, first_signature};

use crate::linking::Entry;
use low_ir::{LowExport, LowFunction, Routine, copied};
use mo_num::{Bytes, Memory, Sequence};
use std::alloc::Global;
use wasm_tree::{FunctionType, ValueType};

// The numbers of the types behind those of the host's functions.
const ENTRY_SIGNATURE: u32 = 22;

const FIRST_SIGNATURE: u32 = 23;

fn routine_type(alloc: Global, routine: &Routine) -> Result<FunctionType, Memory>
    ensures { IfOk result (λ t. t ≡ type_of_routine routine.now) }
{
    let mut results = Sequence::new(alloc);
    if let Some(kind) = routine.result {
        results.push(kind)?;
    }
    Ok(FunctionType {
        params: copied(alloc, routine.params.as_slice())?,
        results,
    })
}

fn plain_type(alloc: Global) -> FunctionType
    ensures { result ≡ entry_type }
{
    FunctionType {
        params: Sequence::new(alloc),
        results: Sequence::new(alloc),
    }
}

/// The type of the entries, and those of the routines.
pub(crate) fn types(alloc: Global, routines: &[Routine]) -> Result<Sequence<FunctionType>, Memory>
    ensures { IfOk result (λ types. types ≡ entry_type ∷ map type_of_routine routines.now) }
{
    let mut types = Sequence::new(alloc);
    types.push(plain_type(alloc))?;
    for routine in routines {
        types.push(routine_type(alloc, routine)?)?;
    }
    Ok(types)
}

fn routine_functions(alloc: Global, routines: &[Routine]) -> Result<Sequence<LowFunction>, Memory>
    requires { length routines.now ≤ 50000 }
    ensures { IfOk result (λ functions. functions ≡ functions_from first_signature routines.now) }
{
    let mut functions = Sequence::new(alloc);
    let mut signature = FIRST_SIGNATURE;
    for routine in routines {
        functions.push(LowFunction {
            signature,
            locals: copied(alloc, routine.locals.as_slice())?,
            body: copied(alloc, routine.body.as_slice())?,
        })?;
        signature += 1;
    }
    Ok(functions)
}

fn function_of_entry(alloc: Global, entry: &Entry) -> Result<LowFunction, Memory>
    ensures { IfOk result (λ function. function ≡ entry_function entry.now) }
{
    Ok(LowFunction {
        signature: ENTRY_SIGNATURE,
        locals: copied(alloc, entry.locals.as_slice())?,
        body: copied(alloc, entry.body.as_slice())?,
    })
}

/// The functions of the routines, and then those of the entries.
pub(crate) fn functions(
    alloc: Global,
    routines: &[Routine],
    entries: &[Entry],
) -> Result<Sequence<LowFunction>, Memory>
    requires { length routines.now ≤ 50000 }
    ensures { IfOk result (λ functions. functions ≡ functions_from first_signature routines.now ++ map entry_function entries.now) }
{
    let mut functions = routine_functions(alloc, routines)?;
    for entry in entries {
        functions.push(function_of_entry(alloc, entry)?)?;
    }
    Ok(functions)
}

/// The exports of the entries, whose functions have the numbers from this one on.
pub(crate) fn exports(
    alloc: Global,
    first: u32,
    entries: &[Entry],
) -> Result<Sequence<LowExport>, Memory>
    requires first { first ≤ 60000 }
    requires entries { length entries.now ≤ 50000 }
    ensures { IfOk result (λ exports. exports ≡ exports_from first entries.now) }
{
    let mut exports = Sequence::new(alloc);
    let mut function = first;
    for entry in entries {
        exports.push(LowExport {
            name: Bytes::from_slice(alloc, entry.name.as_slice())?,
            function,
        })?;
        function += 1;
    }
    Ok(exports)
}
