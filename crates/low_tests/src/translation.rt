//! A module of one function is translated, valid, and has the frame that low code says.
ghost use Rattle.std.specs.Prelude.{◌≡◌, IfOk};
ghost use Rattle.low_ir.specs.Flat.{flat, flat_module};
ghost use Rattle.low_ir.specs.Rows.{number_type};
ghost use Rattle.low_tests.specs.Small.{add_one, small};

use low_ir::{LowFunction, LowModule, LowOp, Operand, Operation};
use mo_num::{Bytes, Memory, Sequence};
use std::alloc::Global;
use std::test::Fail;
use wasm_emit::to_wasm;
use wasm_tree::{BinaryOperator, FunctionType, ValueType};
use wasm_valid::validate;

fn number_type(alloc: Global) -> Result<FunctionType, Memory>
    ensures { IfOk result (λ t. t ≡ number_type) }
{
    let mut params = Sequence::new(alloc);
    params.push(ValueType::I32)?;
    let mut results = Sequence::new(alloc);
    results.push(ValueType::I32)?;
    Ok(FunctionType { params, results })
}

fn add_one(alloc: Global) -> Result<Sequence<LowOp>, Memory>
    ensures { IfOk result (λ body. body ≡ flat add_one) }
{
    let mut body = Sequence::new(alloc);
    body.push(LowOp::Set(
        0,
        Operation::Binary(
            ValueType::I32,
            BinaryOperator::Add,
            Operand::Local(0),
            Operand::Word(1),
        ),
    ))?;
    body.push(LowOp::Return(Some(Operand::Local(0))))?;
    Ok(body)
}

fn small_module(alloc: Global) -> Result<LowModule, Memory>
    ensures { IfOk result (λ low. low ≡ flat_module small) }
{
    let mut types = Sequence::new(alloc);
    types.push(number_type(alloc)?)?;
    let mut functions = Sequence::new(alloc);
    functions.push(LowFunction {
        signature: 22,
        locals: Sequence::new(alloc),
        body: add_one(alloc)?,
    })?;
    Ok(LowModule {
        types,
        functions,
        table: Sequence::new(alloc),
        globals: Sequence::new(alloc),
        pages: 1,
        bytes: Bytes::new(alloc),
        exports: Sequence::new(alloc),
    })
}

#[test]
fn a_small_module_is_translated(rt: HostRuntime) -> Result<(), Fail> {
    let low = small_module(rt.alloc())?;
    let module = to_wasm(rt.alloc(), &low)?;
    assert_eq!(rt; module.imports.len(), 22);
    let valid = validate(rt.alloc(), module)?;
    assert_eq!(rt; valid.frame_words(22), Some(11));
    Ok(())
}
