//! The parts of an emitted module.
ghost use Rattle.std.specs.Prelude.{◌≡◌, ◌∷◌, [], map, IfOk};
ghost use Rattle.wasm_emit.specs.Emit.{emitted_export, emitted_function, emitted_global, begin};

use crate::instruction::body;
use low_ir::{LowExport, LowFunction, LowGlobal};
use mo_num::{Bytes, Memory, Sequence};
use std::alloc::Global as Allocator;
use wasm_tree::{
    Export, ExportKind, Expression, Function, Global, GlobalType, Locals, Op, Plain, ValueType,
};

fn locals(alloc: Allocator, kinds: &[ValueType]) -> Result<Sequence<Locals>, Memory>
    ensures { IfOk result (λ locals. locals ≡ map (λ k. record { count = 1; kind = k }) kinds.now) }
{
    let mut locals = Sequence::new(alloc);
    for kind in kinds {
        locals.push(Locals {
            count: 1,
            kind: *kind,
        })?;
    }
    Ok(locals)
}

fn function(alloc: Allocator, low: &LowFunction) -> Result<Function, Memory>
    ensures { IfOk result (λ function. function ≡ emitted_function low.now) }
{
    Ok(Function {
        signature: low.signature,
        locals: locals(alloc, low.locals.as_slice())?,
        body: body(alloc, low.body.as_slice())?,
    })
}

/// The functions.
pub(crate) fn functions(alloc: Allocator, low: &[LowFunction]) -> Result<Sequence<Function>, Memory>
    ensures { IfOk result (λ functions. functions ≡ map emitted_function low.now) }
{
    let mut functions = Sequence::new(alloc);
    for it in low {
        functions.push(function(alloc, it)?)?;
    }
    Ok(functions)
}

fn one_op(alloc: Allocator, op: Op) -> Result<Expression, Memory>
    ensures { IfOk result (λ ops. ops ≡ op ∷ []) }
{
    let mut ops = Sequence::new(alloc);
    ops.push(op)?;
    Ok(ops)
}

fn global(alloc: Allocator, low: LowGlobal) -> Result<Global, Memory>
    ensures { IfOk result (λ global. global ≡ emitted_global low) }
{
    let (kind, constant) = match low {
        LowGlobal::Word(z) => (ValueType::I32, Plain::I32Const(z)),
        LowGlobal::Long(z) => (ValueType::I64, Plain::I64Const(z)),
    };
    Ok(Global {
        kind: GlobalType {
            kind,
            mutable: true,
        },
        init: one_op(alloc, Op::Plain(constant))?,
    })
}

/// The globals.
pub(crate) fn globals(alloc: Allocator, low: &[LowGlobal]) -> Result<Sequence<Global>, Memory>
    ensures { IfOk result (λ globals. globals ≡ map emitted_global low.now) }
{
    let mut globals = Sequence::new(alloc);
    for it in low {
        globals.push(global(alloc, *it)?)?;
    }
    Ok(globals)
}

fn export(alloc: Allocator, low: &LowExport) -> Result<Export, Memory>
    ensures { IfOk result (λ export. export ≡ emitted_export low.now) }
{
    Ok(Export {
        name: Bytes::from_slice(alloc, low.name.as_slice())?,
        kind: ExportKind::Function(low.function),
    })
}

/// The exports.
pub(crate) fn exports(alloc: Allocator, low: &[LowExport]) -> Result<Sequence<Export>, Memory>
    ensures { IfOk result (λ exports. exports ≡ map emitted_export low.now) }
{
    let mut exports = Sequence::new(alloc);
    for it in low {
        exports.push(export(alloc, it)?)?;
    }
    Ok(exports)
}

/// The place 0 of a table or a memory.
pub(crate) fn begin(alloc: Allocator) -> Result<Expression, Memory>
    ensures { IfOk result (λ ops. ops ≡ begin) }
{
    one_op(alloc, Op::Plain(Plain::I32Const(0)))
}
