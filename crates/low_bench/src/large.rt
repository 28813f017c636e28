//! A low module of a million instructions.
ghost use Rattle.std.specs.Prelude.{◌≡◌, ◌≤◌, ◌++◌, IfOk, OnOk};
ghost use Rattle.low_ir.specs.Flat.{flat, flat_module};
ghost use Rattle.low_ir.specs.Formed.{IsFormedModule};
ghost use Rattle.low_ir.specs.Rows.{number_type};
ghost use Rattle.low_bench.specs.Large as larges;

use low_ir::{LowFunction, LowModule, LowOp, Operand, Operation, copied};
use mo_num::{Bytes, Memory, Sequence};
use std::alloc::Global;
use wasm_tree::{BinaryOperator, FunctionType, LoadKind, StoreKind, ValueType};

const WORD: ValueType = ValueType::I32;

fn number_type(alloc: Global) -> Result<FunctionType, Memory>
    ensures { IfOk result (λ t. t ≡ number_type) }
{
    Ok(FunctionType {
        params: copied(alloc, &[WORD])?,
        results: copied(alloc, &[WORD])?,
    })
}

fn append(out: &mut Sequence<LowOp>, ops: &[LowOp]) -> Result<(), Memory>
    ensures { OnOk result (out.new ≡ out.old ++ ops.now) }
{
    for op in ops {
        out.push(*op)?;
    }
    Ok(())
}

fn body(alloc: Global, parts: u32) -> Result<Sequence<LowOp>, Memory>
    ensures { IfOk result (λ body. body ≡ flat (larges.parts parts)) }
{
    let part = [
        LowOp::Set(1, Operation::Load(LoadKind::I32, Operand::Local(0), 0)),
        LowOp::Set(
            1,
            Operation::Binary(
                WORD,
                BinaryOperator::Add,
                Operand::Local(1),
                Operand::Word(12345),
            ),
        ),
        LowOp::Store(StoreKind::I32, Operand::Local(0), 4, Operand::Local(1)),
        LowOp::Argument(Operand::Local(1)),
        LowOp::Call(Some(1), 22),
    ];
    let mut body = Sequence::new(alloc);
    let mut left = parts;
    while left > 0 {
        append(&mut body, &part)?;
        left -= 1;
    }
    body.push(LowOp::Return(Some(Operand::Local(0))))?;
    Ok(body)
}

fn module_of(alloc: Global, parts: u32) -> Result<LowModule, Memory>
    ensures { IfOk result (λ low. low ≡ flat_module (larges.large parts)) }
{
    let mut types = Sequence::new(alloc);
    types.push(number_type(alloc)?)?;
    let mut functions = Sequence::new(alloc);
    functions.push(LowFunction {
        signature: 22,
        locals: copied(alloc, &[WORD])?,
        body: body(alloc, parts)?,
    })?;
    Ok(LowModule {
        types,
        functions,
        table: Sequence::new(alloc),
        globals: Sequence::new(alloc),
        pages: 1,
        bytes: Bytes::new(alloc),
        exports: Sequence::new(alloc),
    })
}

/// One function of five instructions for each part, and one more.
pub fn large_module(alloc: Global, parts: u32) -> Result<LowModule, Memory>
    requires { parts ≤ 200000 }
    ensures { IfOk result (λ low. IsFormedModule low) }
{
    module_of(alloc, parts)
}
