//! The parts of a module of constant queries.
ghost use Rattle.std.specs.Prelude.{◌≡◌, ◌≤◌, ◌<◌, ◌^◌, [], ◌∷◌, length, IfOk};
ghost use Rattle.std.specs.List.{concat};
ghost use Rattle.wasm_tree.specs.Imports.{bytes_type, entry_type};
ghost use Rattle.query_module.specs.Tree.{query_types, ic0_import, query_imports, query_body, query_function, functions_from, query_export, exports_from, resume_export, query_exports, query_memory, query_data};

use mo_num::{Bytes, Memory, Sequence};
use query_source::Method;
use std::alloc::Global;
use wasm_tree::{
    DataSegment, Export, ExportKind, Expression, Function, FunctionType, Import, ImportKind,
    Limits, Op, Plain, ValueType,
};

// The indices of the two types.
const BYTES_TYPE: u32 = 0;

const ENTRY_TYPE: u32 = 1;

// The indices of functions: the two that are imported, that of `__resume`, and the first one of a method.
const DATA_APPEND: u32 = 0;

const REPLY: u32 = 1;

const RESUME_FUNCTION: u32 = 2;

const FIRST_METHOD: u32 = 3;

// Takes a part of the memory.
fn bytes_type(alloc: Global) -> Result<FunctionType, Memory>
    ensures { IfOk result (λ t. t ≡ bytes_type) }
{
    let mut params = Sequence::new(alloc);
    params.push(ValueType::I32)?;
    params.push(ValueType::I32)?;
    Ok(FunctionType {
        params,
        results: Sequence::new(alloc),
    })
}

// Takes nothing.
fn entry_type(alloc: Global) -> FunctionType
    ensures { result ≡ entry_type }
{
    FunctionType {
        params: Sequence::new(alloc),
        results: Sequence::new(alloc),
    }
}

/// The types of functions.
pub fn types(alloc: Global) -> Result<Sequence<FunctionType>, Memory>
    ensures { IfOk result (λ types. types ≡ query_types) }
{
    let mut types = Sequence::new(alloc);
    types.push(bytes_type(alloc)?)?;
    types.push(entry_type(alloc))?;
    Ok(types)
}

// A function of the host, by its name and the index of its type.
fn ic0_import(alloc: Global, name: &[u8], signature: u32) -> Result<Import, Memory>
    ensures { IfOk result (λ import. import ≡ ic0_import name.now signature) }
{
    Ok(Import {
        module: Bytes::from_slice(alloc, b"ic0")?,
        name: Bytes::from_slice(alloc, name)?,
        kind: ImportKind::Function(signature),
    })
}

/// The two functions of the host that reply.
pub fn imports(alloc: Global) -> Result<Sequence<Import>, Memory>
    ensures { IfOk result (λ imports. imports ≡ query_imports) }
{
    let mut imports = Sequence::new(alloc);
    imports.push(ic0_import(alloc, b"msg_reply_data_append", BYTES_TYPE)?)?;
    imports.push(ic0_import(alloc, b"msg_reply", ENTRY_TYPE)?)?;
    Ok(imports)
}

// Replies with a part of the memory.
fn body(alloc: Global, offset: usize, size: usize) -> Result<Expression, Memory>
    requires offset { offset < 2 ^ 31 }
    requires size { size < 2 ^ 31 }
    ensures { IfOk result (λ body. body ≡ query_body offset size) }
{
    let mut body = Sequence::new(alloc);
    body.push(Op::Plain(Plain::I32Const(offset as i32)))?;
    body.push(Op::Plain(Plain::I32Const(size as i32)))?;
    body.push(Op::Call(DATA_APPEND))?;
    body.push(Op::Call(REPLY))?;
    Ok(body)
}

fn function(alloc: Global, offset: usize, size: usize) -> Result<Function, Memory>
    requires offset { offset < 2 ^ 31 }
    requires size { size < 2 ^ 31 }
    ensures { IfOk result (λ function. function ≡ query_function offset size) }
{
    Ok(Function {
        signature: ENTRY_TYPE,
        locals: Sequence::new(alloc),
        body: body(alloc, offset, size)?,
    })
}

/// The functions of the replies, which stand in the memory one after another.
pub fn functions(alloc: Global, replies: &[Bytes]) -> Result<Sequence<Function>, Memory>
    requires { length (concat replies.now) < 2 ^ 31 }
    ensures { IfOk result (λ functions. functions ≡ functions_from 0 replies.now) }
{
    let mut functions = Sequence::new(alloc);
    let mut offset = 0;
    for reply in replies {
        let size = reply.len();
        functions.push(function(alloc, offset, size)?)?;
        offset += size;
    }
    Ok(functions)
}

// The export of a query method, whose function has this index.
fn query_export(alloc: Global, method: &[u8], index: u32) -> Result<Export, Memory>
    ensures { IfOk result (λ export. export ≡ query_export method.now index) }
{
    let mut name = Bytes::from_slice(alloc, b"canister_query ")?;
    name.extend(method)?;
    Ok(Export {
        name,
        kind: ExportKind::Function(index),
    })
}

// The export of `__resume`, whose function is the first of the module's own.
fn resume_export(alloc: Global) -> Result<Export, Memory>
    ensures { IfOk result (λ export. export ≡ resume_export) }
{
    Ok(Export {
        name: Bytes::from_slice(alloc, b"canister_update __resume")?,
        kind: ExportKind::Function(RESUME_FUNCTION),
    })
}

/// The exports of `__resume` and of the methods, whose functions stand in the same order.
pub fn exports(alloc: Global, methods: &[Method]) -> Result<Sequence<Export>, Memory>
    requires { length methods.now ≤ 1000 }
    ensures { IfOk result (λ exports. exports ≡ query_exports methods.now) }
{
    let mut exports = Sequence::new(alloc);
    exports.push(resume_export(alloc)?)?;
    for (place, method) in methods.iter().enumerate() {
        let index = FIRST_METHOD + place as u32;
        exports.push(query_export(alloc, method.name.as_slice(), index)?)?;
    }
    Ok(exports)
}

/// The memory: one page, which the host may bound.
pub fn memories(alloc: Global) -> Result<Sequence<Limits>, Memory>
    ensures { IfOk result (λ memories. memories ≡ query_memory ∷ []) }
{
    let mut memories = Sequence::new(alloc);
    memories.push(Limits { min: 1, max: None })?;
    Ok(memories)
}

/// The bytes, for the begin of the memory.
pub fn data(alloc: Global, bytes: Bytes) -> Result<Sequence<DataSegment>, Memory>
    ensures { IfOk result (λ segments. segments ≡ query_data bytes ∷ []) }
{
    let mut offset = Sequence::new(alloc);
    offset.push(Op::Plain(Plain::I32Const(0)))?;
    let mut segments = Sequence::new(alloc);
    segments.push(DataSegment {
        memory: 0,
        offset,
        bytes,
    })?;
    Ok(segments)
}
