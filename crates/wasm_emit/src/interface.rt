//! The interface of the host, all of which an emitted module imports.
ghost use Rattle.std.specs.Prelude.{◌≡◌, ◌≤◌, ◌++◌, length, map, IfOk};
ghost use Rattle.canister_host.specs.Types.{type_of_function};
ghost use Rattle.low_ir.specs.Numbering.{host_types};
ghost use Rattle.wasm_emit.specs.Emit.{host_imports, imports_named};

use ic0_world::Ic0;
use low_ir::copied;
use mo_num::{Bytes, Memory, Sequence};
use std::alloc::Global;
use wasm_tree::{FunctionType, Import, ImportKind, ValueType};

const WORD: ValueType = ValueType::I32;

const LONG: ValueType = ValueType::I64;

fn params(function: Ic0) -> &'static [ValueType]
    ensures { result.now ≡ (type_of_function function).params }
{
    match function {
        Ic0::MsgArgDataSize
        | Ic0::MsgCallerSize
        | Ic0::MsgReply
        | Ic0::MsgRejectCode
        | Ic0::MsgRejectMsgSize
        | Ic0::CanisterSelfSize
        | Ic0::CallPerform
        | Ic0::StableSize => &[],
        Ic0::MsgReplyDataAppend
        | Ic0::MsgReject
        | Ic0::CallOnCleanup
        | Ic0::CallDataAppend
        | Ic0::DebugPrint
        | Ic0::Trap => &[WORD, WORD],
        Ic0::MsgArgDataCopy | Ic0::MsgCallerCopy | Ic0::MsgRejectMsgCopy | Ic0::CanisterSelfCopy =>
            &[WORD, WORD, WORD],
        Ic0::CallNew => &[WORD, WORD, WORD, WORD, WORD, WORD, WORD, WORD],
        Ic0::StableGrow => &[LONG],
        Ic0::StableRead | Ic0::StableWrite => &[LONG, LONG, LONG],
    }
}

fn results(function: Ic0) -> &'static [ValueType]
    ensures { result.now ≡ (type_of_function function).results }
{
    match function {
        Ic0::MsgArgDataSize
        | Ic0::MsgCallerSize
        | Ic0::MsgRejectCode
        | Ic0::MsgRejectMsgSize
        | Ic0::CanisterSelfSize
        | Ic0::CallPerform => &[WORD],
        Ic0::StableSize | Ic0::StableGrow => &[LONG],
        Ic0::MsgArgDataCopy
        | Ic0::MsgCallerCopy
        | Ic0::MsgReplyDataAppend
        | Ic0::MsgReject
        | Ic0::MsgReply
        | Ic0::MsgRejectMsgCopy
        | Ic0::CanisterSelfCopy
        | Ic0::CallNew
        | Ic0::CallOnCleanup
        | Ic0::CallDataAppend
        | Ic0::StableRead
        | Ic0::StableWrite
        | Ic0::DebugPrint
        | Ic0::Trap => &[],
    }
}

fn host_type(alloc: Global, function: Ic0) -> Result<FunctionType, Memory>
    ensures { IfOk result (λ t. t ≡ type_of_function function) }
{
    Ok(FunctionType {
        params: copied(alloc, params(function))?,
        results: copied(alloc, results(function))?,
    })
}

fn types_of(alloc: Global, functions: &[Ic0]) -> Result<Sequence<FunctionType>, Memory>
    ensures { IfOk result (λ types. types ≡ map type_of_function functions.now) }
{
    let mut types = Sequence::new(alloc);
    for function in functions {
        types.push(host_type(alloc, *function)?)?;
    }
    Ok(types)
}

fn copied_type(alloc: Global, t: &FunctionType) -> Result<FunctionType, Memory>
    ensures { IfOk result (λ copy. copy ≡ t.now) }
{
    Ok(FunctionType {
        params: copied(alloc, t.params.as_slice())?,
        results: copied(alloc, t.results.as_slice())?,
    })
}

/// The types of the host's functions, and these.
pub(crate) fn types(alloc: Global, own: &[FunctionType]) -> Result<Sequence<FunctionType>, Memory>
    ensures { IfOk result (λ types. types ≡ host_types ++ own.now) }
{
    let mut types = types_of(alloc, &Ic0::ALL)?;
    for t in own {
        types.push(copied_type(alloc, t)?)?;
    }
    Ok(types)
}

fn imports_of(alloc: Global, functions: &[Ic0]) -> Result<Sequence<Import>, Memory>
    requires { length functions.now ≤ 1000 }
    ensures { IfOk result (λ imports. imports ≡ imports_named 0 functions.now) }
{
    let mut imports = Sequence::new(alloc);
    for (place, function) in functions.iter().enumerate() {
        imports.push(Import {
            module: Bytes::from_slice(alloc, b"ic0")?,
            name: Bytes::from_slice(alloc, function.name())?,
            kind: ImportKind::Function(place as u32),
        })?;
    }
    Ok(imports)
}

/// All functions of the host.
pub(crate) fn host_imports(alloc: Global) -> Result<Sequence<Import>, Memory>
    ensures { IfOk result (λ imports. imports ≡ host_imports) }
{
    imports_of(alloc, &Ic0::ALL)
}
