//! How types and expressions are spelled (WebAssembly Core 1.0, sections 5.3 and 5.4.7).
ghost use Rattle.std.specs.Prelude.{◌≡◌, OnOk};
ghost use Rattle.wasm_tree.specs.Spelling.{AppendsLeast, HasSpelling};
ghost use Rattle.wasm_tree.specs.Binary.{IsValueType, IsFunctionType, IsLimits, IsTable, IsGlobalType, mutability_code, IsExpression};

use crate::spell::{Itself, Spell, Table, put_each, put_exactly, put_u32, put_vector};
use mo_num::{Bytes, Memory};
use std::alloc::Global;
use wasm_tree::{Expression, FunctionType, GlobalType, Limits, ValueType};

impl Spell<Itself> for ValueType {
    ghost spelled = { IsValueType };

    fn put(&self, _alloc: Global, out: &mut Bytes) -> Result<(), Memory> {
        let code = match self {
            ValueType::I32 => 0x7f,
            ValueType::I64 => 0x7e,
        };
        put_exactly(&[code], out)?;
        Ok(())
    }
}

impl Spell<Itself> for FunctionType {
    ghost spelled = { IsFunctionType };

    fn put(&self, alloc: Global, out: &mut Bytes) -> Result<(), Memory> {
        put_exactly(&[0x60], out)?;
        put_vector(alloc, &self.params, out)?;
        put_vector(alloc, &self.results, out)?;
        Ok(())
    }
}

impl Spell<Itself> for Limits {
    ghost spelled = { IsLimits };

    fn put(&self, _alloc: Global, out: &mut Bytes) -> Result<(), Memory> {
        match self.max {
            None => {
                put_exactly(&[0x00], out)?;
                put_u32(self.min, out)?;
                Ok(())
            }
            Some(max) => {
                put_exactly(&[0x01], out)?;
                put_u32(self.min, out)?;
                put_u32(max, out)?;
                Ok(())
            }
        }
    }
}

impl Spell<Table> for Limits {
    ghost spelled = { IsTable };

    fn put(&self, alloc: Global, out: &mut Bytes) -> Result<(), Memory> {
        put_exactly(&[0x70], out)?;
        put_limits(alloc, self, out)?;
        Ok(())
    }
}

pub(crate) fn put_limits(alloc: Global, limits: &Limits, out: &mut Bytes) -> Result<(), Memory>
    requires { HasSpelling (IsLimits limits.now) }
    ensures { OnOk result (AppendsLeast (IsLimits limits.now) out.old out.new) }
{
    <Limits as Spell<Itself>>::put(limits, alloc, out)
}

impl Spell<Itself> for GlobalType {
    ghost spelled = { IsGlobalType };

    fn put(&self, alloc: Global, out: &mut Bytes) -> Result<(), Memory> {
        self.kind.put(alloc, out)?;
        put_exactly(&[code_of(self.mutable)], out)?;
        Ok(())
    }
}

fn code_of(mutable: bool) -> u8
    ensures { result ≡ mutability_code mutable }
{
    if mutable { 0x01 } else { 0x00 }
}

/// The instructions, and `end`.
pub(crate) fn put_expression(alloc: Global, ops: &Expression, out: &mut Bytes) -> Result<(), Memory>
    requires { HasSpelling (IsExpression ops.now) }
    ensures { OnOk result (AppendsLeast (IsExpression ops.now) out.old out.new) }
{
    put_each(alloc, ops, out)?;
    put_exactly(&[0x0b], out)?;
    Ok(())
}
