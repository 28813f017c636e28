//! What each instruction of low code becomes.
ghost use Rattle.std.specs.Prelude.{◌≡◌, ◌++◌, IfOk, OnOk};
ghost use Rattle.wasm_tree.specs.Rules.{load_align, store_align};
ghost use Rattle.wasm_emit.specs.Emit.{operand_op, operation_ops, ops_of, all_ops};

use low_ir::{LowOp, Operand, Operation};
use mo_num::{Memory, Sequence};
use std::alloc::Global;
use wasm_tree::{
    Comparison, Expression, LoadKind, MemoryArgument, Op, Plain, StoreKind, ValueType,
};

// The numbers of `stable64_grow` and of `trap` in the host's interface.
const STABLE_GROW: u32 = 17;

const HOST_TRAP: u32 = 21;

fn append(out: &mut Sequence<Op>, ops: &[Op]) -> Result<(), Memory>
    ensures { OnOk result (out.new ≡ out.old ++ ops.now) }
{
    for op in ops {
        out.push(*op)?;
    }
    Ok(())
}

fn operand_op(operand: Operand) -> Op
    ensures { result ≡ operand_op operand }
{
    match operand {
        Operand::Local(x) => Op::Plain(Plain::LocalGet(x)),
        Operand::Word(z) => Op::Plain(Plain::I32Const(z)),
        Operand::Long(z) => Op::Plain(Plain::I64Const(z)),
    }
}

// The greatest alignment of a load, as an exponent of 2.
fn load_align(kind: LoadKind) -> u32
    ensures { result ≡ load_align kind }
{
    match kind {
        LoadKind::I32From8S | LoadKind::I32From8U | LoadKind::I64From8S | LoadKind::I64From8U => 0,
        LoadKind::I32From16S | LoadKind::I32From16U | LoadKind::I64From16S | LoadKind::I64From16U =>
            1,
        LoadKind::I32 | LoadKind::I64From32S | LoadKind::I64From32U => 2,
        LoadKind::I64 => 3,
    }
}

fn store_align(kind: StoreKind) -> u32
    ensures { result ≡ store_align kind }
{
    match kind {
        StoreKind::I32To8 | StoreKind::I64To8 => 0,
        StoreKind::I32To16 | StoreKind::I64To16 => 1,
        StoreKind::I32 | StoreKind::I64To32 => 2,
        StoreKind::I64 => 3,
    }
}

fn append_operation(out: &mut Sequence<Op>, operation: Operation) -> Result<(), Memory>
    ensures { OnOk result (out.new ≡ out.old ++ operation_ops operation) }
{
    match operation {
        Operation::Copy(a) => append(out, &[operand_op(a)]),
        Operation::IsZero(kind, a) => {
            append(out, &[operand_op(a), Op::Plain(Plain::EqualsZero(kind))])
        }
        Operation::Compare(kind, o, a, b) => append(
            out,
            &[
                operand_op(a),
                operand_op(b),
                Op::Plain(Plain::Compare(kind, o)),
            ],
        ),
        Operation::Unary(kind, o, a) => {
            append(out, &[operand_op(a), Op::Plain(Plain::Unary(kind, o))])
        }
        Operation::Binary(kind, o, a, b) => append(
            out,
            &[
                operand_op(a),
                operand_op(b),
                Op::Plain(Plain::Binary(kind, o)),
            ],
        ),
        Operation::Convert(o, a) => append(out, &[operand_op(a), Op::Plain(Plain::Convert(o))]),
        Operation::Load(kind, a, offset) => {
            let argument = MemoryArgument {
                align: load_align(kind),
                offset,
            };
            append(
                out,
                &[operand_op(a), Op::Plain(Plain::Load(kind, argument))],
            )
        }
        Operation::Global(x) => append(out, &[Op::Plain(Plain::GlobalGet(x))]),
        Operation::Size => append(out, &[Op::Plain(Plain::MemorySize)]),
    }
}

// The instructions that one of low code becomes.
fn append_op(out: &mut Sequence<Op>, op: LowOp) -> Result<(), Memory>
    ensures { OnOk result (out.new ≡ out.old ++ ops_of op) }
{
    match op {
        LowOp::Set(x, o) => {
            append_operation(out, o)?;
            append(out, &[Op::Plain(Plain::LocalSet(x))])
        }
        LowOp::SetGlobal(x, a) => append(out, &[operand_op(a), Op::Plain(Plain::GlobalSet(x))]),
        LowOp::Store(kind, a, offset, b) => {
            let argument = MemoryArgument {
                align: store_align(kind),
                offset,
            };
            append(
                out,
                &[
                    operand_op(a),
                    operand_op(b),
                    Op::Plain(Plain::Store(kind, argument)),
                ],
            )
        }
        LowOp::Grow(a) => append(
            out,
            &[
                operand_op(a),
                Op::Plain(Plain::MemoryGrow),
                Op::Plain(Plain::I32Const(-1)),
                Op::Plain(Plain::Compare(ValueType::I32, Comparison::Eq)),
                Op::If(None),
                Op::Unreachable,
                Op::End,
            ],
        ),
        LowOp::GrowStable(a) => append(
            out,
            &[
                operand_op(a),
                Op::Call(STABLE_GROW),
                Op::Plain(Plain::I64Const(-1)),
                Op::Plain(Plain::Compare(ValueType::I64, Comparison::Eq)),
                Op::If(None),
                Op::Unreachable,
                Op::End,
            ],
        ),
        LowOp::Trap(a, b) => append(
            out,
            &[
                operand_op(a),
                operand_op(b),
                Op::Call(HOST_TRAP),
                Op::Unreachable,
            ],
        ),
        LowOp::Block => append(out, &[Op::Block(None)]),
        LowOp::Loop => append(out, &[Op::Loop(None)]),
        LowOp::If(a) => append(out, &[operand_op(a), Op::If(None)]),
        LowOp::Else => append(out, &[Op::Else]),
        LowOp::End => append(out, &[Op::End]),
        LowOp::Branch(label) => append(out, &[Op::Br(label)]),
        LowOp::BranchIf(a, label) => append(out, &[operand_op(a), Op::BrIf(label)]),
        LowOp::Argument(a) => append(out, &[operand_op(a)]),
        LowOp::Call(None, f) => append(out, &[Op::Call(f)]),
        LowOp::Call(Some(x), f) => append(out, &[Op::Call(f), Op::Plain(Plain::LocalSet(x))]),
        LowOp::CallIndirect(None, x, a) => append(out, &[operand_op(a), Op::CallIndirect(x)]),
        LowOp::CallIndirect(Some(local), x, a) => append(
            out,
            &[
                operand_op(a),
                Op::CallIndirect(x),
                Op::Plain(Plain::LocalSet(local)),
            ],
        ),
        LowOp::Return(None) => append(out, &[Op::Return]),
        LowOp::Return(Some(a)) => append(out, &[operand_op(a), Op::Return]),
    }
}

/// The instructions of a body, one after another.
pub(crate) fn body(alloc: Global, ops: &[LowOp]) -> Result<Expression, Memory>
    ensures { IfOk result (λ body. body ≡ all_ops ops.now) }
{
    let mut body = Sequence::new(alloc);
    for op in ops {
        append_op(&mut body, *op)?;
    }
    Ok(body)
}
