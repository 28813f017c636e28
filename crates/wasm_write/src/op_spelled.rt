//! How instructions are spelled (WebAssembly Core 1.0, section 5.4).
ghost use Rattle.std.specs.Prelude.{◌≡◌, OnOk};
ghost use Rattle.wasm_tree.specs.Spelling.{AppendsLeast, IsByte, IsS32, IsS64, IsU32, Then};
ghost use Rattle.wasm_tree.specs.Binary.{IsAccess, IsBlockType, IsOp, IsPlain};

use crate::opcodes::{
    binary_code, comparison_code, conversion_code, equals_zero_code, load_code, store_code,
    unary_code,
};
use crate::spell::{Itself, Spell, put_exactly, put_index, put_s32, put_s64, put_u32};
use mo_num::{Bytes, Memory};
use std::alloc::Global;
use wasm_tree::{MemoryArgument, Op, Plain, ValueType};

fn put_byte(code: u8, out: &mut Bytes) -> Result<(), Memory>
    ensures { OnOk result (AppendsLeast (IsByte code) out.old out.new) }
{
    put_exactly(&[code], out)
}

fn put_block_type(kind: Option<ValueType>, out: &mut Bytes) -> Result<(), Memory>
    ensures { OnOk result (AppendsLeast (IsBlockType kind) out.old out.new) }
{
    match kind {
        None => put_byte(0x40, out),
        Some(ValueType::I32) => put_byte(0x7f, out),
        Some(ValueType::I64) => put_byte(0x7e, out),
    }
}

fn put_block(code: u8, kind: Option<ValueType>, out: &mut Bytes) -> Result<(), Memory>
    ensures { OnOk result (AppendsLeast (Then (IsByte code) (IsBlockType kind)) out.old out.new) }
{
    put_byte(code, out)?;
    put_block_type(kind, out)?;
    Ok(())
}

fn put_access(code: u8, access: MemoryArgument, out: &mut Bytes) -> Result<(), Memory>
    ensures { OnOk result (AppendsLeast (IsAccess code access) out.old out.new) }
{
    put_byte(code, out)?;
    put_u32(access.align, out)?;
    put_u32(access.offset, out)?;
    Ok(())
}

fn put_i32(number: &i32, out: &mut Bytes) -> Result<(), Memory>
    ensures { OnOk result (AppendsLeast (Then (IsByte 0x41) (IsS32 number.now)) out.old out.new) }
{
    put_byte(0x41, out)?;
    put_s32(number, out)?;
    Ok(())
}

fn put_i64(number: &i64, out: &mut Bytes) -> Result<(), Memory>
    ensures { OnOk result (AppendsLeast (Then (IsByte 0x42) (IsS64 number.now)) out.old out.new) }
{
    put_byte(0x42, out)?;
    put_s64(number, out)?;
    Ok(())
}

fn put_indirect(signature: u32, out: &mut Bytes) -> Result<(), Memory>
    ensures { OnOk result (AppendsLeast (Then (IsByte 0x11) (Then (IsU32 signature) (IsByte 0x00))) out.old out.new) }
{
    put_byte(0x11, out)?;
    put_u32(signature, out)?;
    put_byte(0x00, out)?;
    Ok(())
}

fn put_plain(plain: &Plain, out: &mut Bytes) -> Result<(), Memory>
    ensures { OnOk result (AppendsLeast (IsPlain plain.now) out.old out.new) }
{
    match plain {
        Plain::Nop => put_byte(0x01, out),
        Plain::Drop => put_byte(0x1a, out),
        Plain::Select => put_byte(0x1b, out),
        Plain::LocalGet(local) => put_index(0x20, *local, out),
        Plain::LocalSet(local) => put_index(0x21, *local, out),
        Plain::LocalTee(local) => put_index(0x22, *local, out),
        Plain::GlobalGet(global) => put_index(0x23, *global, out),
        Plain::GlobalSet(global) => put_index(0x24, *global, out),
        Plain::Load(kind, access) => put_access(load_code(*kind), *access, out),
        Plain::Store(kind, access) => put_access(store_code(*kind), *access, out),
        Plain::MemorySize => put_exactly(&[0x3f, 0x00], out),
        Plain::MemoryGrow => put_exactly(&[0x40, 0x00], out),
        Plain::I32Const(number) => put_i32(number, out),
        Plain::I64Const(number) => put_i64(number, out),
        Plain::EqualsZero(kind) => put_byte(equals_zero_code(*kind), out),
        Plain::Compare(kind, comparison) => put_byte(comparison_code(*kind, *comparison), out),
        Plain::Unary(kind, operator) => put_byte(unary_code(*kind, *operator), out),
        Plain::Binary(kind, operator) => put_byte(binary_code(*kind, *operator), out),
        Plain::Convert(conversion) => put_byte(conversion_code(*conversion), out),
    }
}

/// The instruction's code and its immediates.
pub(crate) fn put_op(op: &Op, out: &mut Bytes) -> Result<(), Memory>
    ensures { OnOk result (AppendsLeast (IsOp op.now) out.old out.new) }
{
    match op {
        Op::Plain(plain) => put_plain(plain, out),
        Op::Unreachable => put_byte(0x00, out),
        Op::Block(kind) => put_block(0x02, *kind, out),
        Op::Loop(kind) => put_block(0x03, *kind, out),
        Op::If(kind) => put_block(0x04, *kind, out),
        Op::Else => put_byte(0x05, out),
        Op::End => put_byte(0x0b, out),
        Op::Br(label) => put_index(0x0c, *label, out),
        Op::BrIf(label) => put_index(0x0d, *label, out),
        Op::BrTable(count) => put_index(0x0e, *count, out),
        Op::Target(label) => put_u32(*label, out),
        Op::Return => put_byte(0x0f, out),
        Op::Call(function) => put_index(0x10, *function, out),
        Op::CallIndirect(signature) => put_indirect(*signature, out),
    }
}

impl Spell<Itself> for Op {
    ghost spelled = { IsOp };

    fn put(&self, _alloc: Global, out: &mut Bytes) -> Result<(), Memory> {
        put_op(self, out)
    }
}
