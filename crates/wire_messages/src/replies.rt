//! Functions that reply, for the builder of a run time.
ghost use Rattle.std.specs.Prelude.{◌≡◌, ◌++◌, ◌∷◌, [], ◌≤◌, length, IfOk, OnOk};
ghost use Rattle.wasm_tree.specs.declared.types.ValueType.TheVariants.{I32};
ghost use Rattle.memory_routines.specs.Built.{built};
ghost use Rattle.mo_types.specs.Layout as layout;
ghost use Rattle.wire_messages.specs.Lists.{header_ops, next_ops, value_ops, values_ops, wired_ops};
ghost use Rattle.wire_messages.specs.Replies as spec;

use crate::Wired;
use low_ir::{LowOp, Operand, Operation, Routine, copied};
use mo_num::{Kind, Memory, Sequence};
use std::alloc::Global;
use wasm_tree::{BinaryOperator, LoadKind, StoreKind, ValueType};

/// The place of a kind among the kinds.
pub(crate) fn kind_number(kind: Kind) -> u32
    ensures number { result ≡ layout.kind_number kind }
    ensures few { result ≤ 9 }
{
    match kind {
        Kind::Nat => 0,
        Kind::Int => 1,
        Kind::Nat8 => 2,
        Kind::Nat16 => 3,
        Kind::Nat32 => 4,
        Kind::Nat64 => 5,
        Kind::Int8 => 6,
        Kind::Int16 => 7,
        Kind::Int32 => 8,
        Kind::Int64 => 9,
    }
}

/// Adds the stores of a header's bytes.
fn push_header(ops: &mut Sequence<LowOp>, header: &[u8]) -> Result<(), Memory>
    requires { length header.now ≤ 65536 }
    ensures { OnOk result (ops.new ≡ ops.old ++ header_ops header.now 0) }
{
    let mut place: u32 = 0;
    for byte in header {
        ops.push(LowOp::Store(
            StoreKind::I32To8,
            Operand::Local(0),
            place,
            Operand::Word(*byte as i32),
        ))?;
        place += 1;
    }
    Ok(())
}

/// Adds the step to the next word.
fn push_next(ops: &mut Sequence<LowOp>) -> Result<(), Memory>
    ensures { OnOk result (ops.new ≡ ops.old ++ next_ops) }
{
    ops.push(LowOp::Set(
        1,
        Operation::Binary(
            ValueType::I32,
            BinaryOperator::Add,
            Operand::Local(1),
            Operand::Word(8),
        ),
    ))
}

/// Adds a call of a function that writes.
fn push_value(ops: &mut Sequence<LowOp>, writes: u32) -> Result<(), Memory>
    ensures { OnOk result (ops.new ≡ ops.old ++ value_ops writes) }
{
    ops.push(LowOp::Set(2, Operation::Load(LoadKind::I64, Operand::Local(1), 0)))?;
    ops.push(LowOp::Argument(Operand::Local(0)))?;
    ops.push(LowOp::Argument(Operand::Local(2)))?;
    ops.push(LowOp::Call(Some(0), writes))?;
    push_next(ops)
}

/// Adds what writes a value of a type.
fn push_wired(ops: &mut Sequence<LowOp>, first: u32, wired: Wired) -> Result<(), Memory>
    requires { first ≤ 100000 }
    ensures { OnOk result (ops.new ≡ ops.old ++ wired_ops first wired) }
{
    match wired {
        Wired::Number(kind) => push_value(ops, first + kind_number(kind)),
        Wired::Truth => push_value(ops, first + 10),
        Wired::Unit => push_next(ops),
    }
}

/// Adds what writes values of types.
fn push_values(ops: &mut Sequence<LowOp>, first: u32, types: &[Wired]) -> Result<(), Memory>
    requires { first ≤ 100000 }
    ensures { OnOk result (ops.new ≡ ops.old ++ values_ops first types.now) }
{
    for wired in types {
        push_wired(ops, first, *wired)?;
    }
    Ok(())
}

/// Writes the message of results of these types from their words, with this header: the functions that write stand in the module from
/// one on, those of the kinds of numbers in their order and that of truth values. Asked: at most 65,536 bytes of a header, and a first
/// function that a module may have.
pub fn reply(
    alloc: Global,
    line: u32,
    first: u32,
    header: &[u8],
    types: &[Wired],
) -> Result<Routine, Memory>
    requires header { length header.now ≤ 65536 }
    requires first { first ≤ 100000 }
    ensures { IfOk result (λ routine. routine ≡ built line (I32 ∷ I32 ∷ []) (spec.reply first header.now types.now 0)) }
{
    let mut body = Sequence::new(alloc);
    push_header(&mut body, header)?;
    body.push(LowOp::Set(
        0,
        Operation::Binary(
            ValueType::I32,
            BinaryOperator::Add,
            Operand::Local(0),
            Operand::Word(header.len() as i32),
        ),
    ))?;
    push_values(&mut body, first, types)?;
    body.push(LowOp::Return(Some(Operand::Local(0))))?;
    Ok(Routine {
        line,
        params: copied(alloc, &[ValueType::I32, ValueType::I32])?,
        locals: copied(alloc, &[ValueType::I64])?,
        result: Some(ValueType::I32),
        body,
    })
}
