//! Types and instructions (WebAssembly Core 1.0, sections 5.3 and 5.4).
ghost use Rattle.std.specs.Prelude.{◌≡◌};
ghost use Rattle.exact_reading.specs.Reading.{Tells};
ghost use Rattle.wasm_read.specs.Shapes.{shape_at};
ghost use Rattle.wasm_read.specs.Codes.{value_type_at, block_type_at, indirect_at, op_by, op_at};

use crate::fault::Fault;
use crate::number::{after, read_s32, read_s64, read_u32};
use crate::shape::{SHAPES, Shape};
use wasm_tree::{MemoryArgument, Op, Plain, ValueType};

/// The type of a value. Two codes are those of float types.
pub fn read_value_type(bytes: &[u8]) -> Result<(ValueType, &[u8]), Fault>
    ensures { Tells (λ x. (x.0, x.1.now)) result (value_type_at bytes.now) }
{
    match bytes {
        [] => Err(Fault::Malformed),
        [0x7f, rest @ ..] => Ok((ValueType::I32, rest)),
        [0x7e, rest @ ..] => Ok((ValueType::I64, rest)),
        [0x7d, ..] => Err(Fault::Floats),
        [0x7c, ..] => Err(Fault::Floats),
        _ => Err(Fault::Malformed),
    }
}

/// The result of a block, if any.
fn read_block_type(bytes: &[u8]) -> Result<(Option<ValueType>, &[u8]), Fault>
    ensures { Tells (λ x. (x.0, x.1.now)) result (block_type_at bytes.now) }
{
    match bytes {
        [] => Err(Fault::Malformed),
        [0x40, rest @ ..] => Ok((None, rest)),
        [0x7f, rest @ ..] => Ok((Some(ValueType::I32), rest)),
        [0x7e, rest @ ..] => Ok((Some(ValueType::I64), rest)),
        [0x7d, ..] => Err(Fault::Floats),
        [0x7c, ..] => Err(Fault::Floats),
        _ => Err(Fault::Malformed),
    }
}

fn read_indirect(bytes: &[u8]) -> Result<(u32, &[u8]), Fault>
    ensures { Tells (λ x. (x.0, x.1.now)) result (indirect_at bytes.now) }
{
    let (signature, rest) = read_u32(bytes)?;
    Ok((signature, after(0x00, rest)?))
}

#[tactic(auto, unfolding(crate::specs::Shapes::shape_at))]
fn shape_of(byte: u8) -> Shape
    ensures { result ≡ shape_at byte }
{
    SHAPES[byte as usize]
}

fn read_shaped(shape: Shape, rest: &[u8]) -> Result<(Op, &[u8]), Fault>
    ensures { Tells (λ x. (x.0, x.1.now)) result (op_by shape rest.now) }
{
    match shape {
        Shape::Whole(op) => Ok((op, rest)),
        Shape::Load(kind) => {
            let (align, rest) = read_u32(rest)?;
            let (offset, rest) = read_u32(rest)?;
            let argument = MemoryArgument { align, offset };
            Ok((Op::Plain(Plain::Load(kind, argument)), rest))
        }
        Shape::Store(kind) => {
            let (align, rest) = read_u32(rest)?;
            let (offset, rest) = read_u32(rest)?;
            let argument = MemoryArgument { align, offset };
            Ok((Op::Plain(Plain::Store(kind, argument)), rest))
        }
        Shape::Block => {
            let (kind, rest) = read_block_type(rest)?;
            Ok((Op::Block(kind), rest))
        }
        Shape::Loop => {
            let (kind, rest) = read_block_type(rest)?;
            Ok((Op::Loop(kind), rest))
        }
        Shape::If => {
            let (kind, rest) = read_block_type(rest)?;
            Ok((Op::If(kind), rest))
        }
        Shape::Br => {
            let (label, rest) = read_u32(rest)?;
            Ok((Op::Br(label), rest))
        }
        Shape::BrIf => {
            let (label, rest) = read_u32(rest)?;
            Ok((Op::BrIf(label), rest))
        }
        Shape::BrTable => {
            let (count, rest) = read_u32(rest)?;
            Ok((Op::BrTable(count), rest))
        }
        Shape::Call => {
            let (function, rest) = read_u32(rest)?;
            Ok((Op::Call(function), rest))
        }
        Shape::LocalGet => {
            let (local, rest) = read_u32(rest)?;
            Ok((Op::Plain(Plain::LocalGet(local)), rest))
        }
        Shape::LocalSet => {
            let (local, rest) = read_u32(rest)?;
            Ok((Op::Plain(Plain::LocalSet(local)), rest))
        }
        Shape::LocalTee => {
            let (local, rest) = read_u32(rest)?;
            Ok((Op::Plain(Plain::LocalTee(local)), rest))
        }
        Shape::GlobalGet => {
            let (global, rest) = read_u32(rest)?;
            Ok((Op::Plain(Plain::GlobalGet(global)), rest))
        }
        Shape::GlobalSet => {
            let (global, rest) = read_u32(rest)?;
            Ok((Op::Plain(Plain::GlobalSet(global)), rest))
        }
        Shape::CallIndirect => {
            let (signature, rest) = read_indirect(rest)?;
            Ok((Op::CallIndirect(signature), rest))
        }
        Shape::MemorySize => {
            let rest = after(0x00, rest)?;
            Ok((Op::Plain(Plain::MemorySize), rest))
        }
        Shape::MemoryGrow => {
            let rest = after(0x00, rest)?;
            Ok((Op::Plain(Plain::MemoryGrow), rest))
        }
        Shape::I32Const => {
            let (value, rest) = read_s32(rest)?;
            Ok((Op::Plain(Plain::I32Const(value)), rest))
        }
        Shape::I64Const => {
            let (value, rest) = read_s64(rest)?;
            Ok((Op::Plain(Plain::I64Const(value)), rest))
        }
        Shape::Float => Err(Fault::Floats),
        Shape::Unknown => Err(Fault::Malformed),
    }
}

/// One instruction, without the labels of a `br_table`.
#[tactic(auto, unfolding(crate::specs::Codes::op_at))]
pub fn read_op(bytes: &[u8]) -> Result<(Op, &[u8]), Fault>
    ensures { Tells (λ x. (x.0, x.1.now)) result (op_at bytes.now) }
{
    match bytes {
        [] => Err(Fault::Malformed),
        [byte, rest @ ..] => read_shaped(shape_of(*byte), rest),
    }
}
