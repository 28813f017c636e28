//! How the parts of a module are spelled (WebAssembly Core 1.0, section 5.5).
ghost use Rattle.std.specs.Prelude.{OnOk};
ghost use Rattle.wasm_tree.specs.Spelling.{AppendsLeast, HasSpelling, IsU32};
ghost use Rattle.wasm_tree.specs.Binary.{IsName, IsImportKind, IsImport, IsSignature, IsGlobal, IsExportKind, IsExport, IsElement, IsLocals, IsCode, IsData};

use crate::code_spelled::{put_expression, put_limits};
use crate::spell::{
    Itself, Signature, Spell, Table, put_bytes, put_exactly, put_index, put_sized, put_u32,
    put_vector,
};
use mo_num::{Bytes, Memory};
use std::alloc;
use wasm_tree::{
    DataSegment, ElementSegment, Export, ExportKind, Function, Global, Import, ImportKind, Locals,
};

/// The number of bytes, and the bytes.
fn put_name(name: &Bytes, out: &mut Bytes) -> Result<(), Memory>
    requires { HasSpelling (IsName name.now) }
    ensures { OnOk result (AppendsLeast (IsName name.now) out.old out.new) }
{
    put_bytes(name, out)
}

impl Spell<Itself> for ImportKind {
    ghost spelled = { IsImportKind };

    fn put(&self, alloc: alloc::Global, out: &mut Bytes) -> Result<(), Memory> {
        match self {
            ImportKind::Function(signature) => put_index(0x00, *signature, out),
            ImportKind::Table(limits) => {
                put_exactly(&[0x01], out)?;
                <_ as Spell<Table>>::put(limits, alloc, out)?;
                Ok(())
            }
            ImportKind::Memory(limits) => {
                put_exactly(&[0x02], out)?;
                put_limits(alloc, limits, out)?;
                Ok(())
            }
            ImportKind::Global(kind) => {
                put_exactly(&[0x03], out)?;
                kind.put(alloc, out)?;
                Ok(())
            }
        }
    }
}

impl Spell<Itself> for Import {
    ghost spelled = { IsImport };

    fn put(&self, alloc: alloc::Global, out: &mut Bytes) -> Result<(), Memory> {
        put_name(&self.module, out)?;
        put_name(&self.name, out)?;
        self.kind.put(alloc, out)?;
        Ok(())
    }
}

impl Spell<Signature> for Function {
    ghost spelled = { IsSignature };

    fn put(&self, _alloc: alloc::Global, out: &mut Bytes) -> Result<(), Memory> {
        put_u32(self.signature, out)?;
        Ok(())
    }
}

impl Spell<Itself> for Global {
    ghost spelled = { IsGlobal };

    fn put(&self, alloc: alloc::Global, out: &mut Bytes) -> Result<(), Memory> {
        self.kind.put(alloc, out)?;
        put_expression(alloc, &self.init, out)?;
        Ok(())
    }
}

impl Spell<Itself> for ExportKind {
    ghost spelled = { IsExportKind };

    fn put(&self, _alloc: alloc::Global, out: &mut Bytes) -> Result<(), Memory> {
        match self {
            ExportKind::Function(index) => put_index(0x00, *index, out),
            ExportKind::Table(index) => put_index(0x01, *index, out),
            ExportKind::Memory(index) => put_index(0x02, *index, out),
            ExportKind::Global(index) => put_index(0x03, *index, out),
        }
    }
}

impl Spell<Itself> for Export {
    ghost spelled = { IsExport };

    fn put(&self, alloc: alloc::Global, out: &mut Bytes) -> Result<(), Memory> {
        put_name(&self.name, out)?;
        self.kind.put(alloc, out)?;
        Ok(())
    }
}

impl Spell<Itself> for u32 {
    ghost spelled = { IsU32 };

    fn put(&self, _alloc: alloc::Global, out: &mut Bytes) -> Result<(), Memory> {
        put_u32(*self, out)
    }
}

impl Spell<Itself> for ElementSegment {
    ghost spelled = { IsElement };

    fn put(&self, alloc: alloc::Global, out: &mut Bytes) -> Result<(), Memory> {
        put_u32(self.table, out)?;
        put_expression(alloc, &self.offset, out)?;
        put_vector(alloc, &self.functions, out)?;
        Ok(())
    }
}

impl Spell<Itself> for Locals {
    ghost spelled = { IsLocals };

    fn put(&self, alloc: alloc::Global, out: &mut Bytes) -> Result<(), Memory> {
        put_u32(self.count, out)?;
        self.kind.put(alloc, out)?;
        Ok(())
    }
}

impl Spell<Itself> for Function {
    ghost spelled = { IsCode };

    fn put(&self, alloc: alloc::Global, out: &mut Bytes) -> Result<(), Memory> {
        let mut body = Bytes::new(alloc);
        put_vector(alloc, &self.locals, &mut body)?;
        put_expression(alloc, &self.body, &mut body)?;
        put_sized(&body, out)?;
        Ok(())
    }
}

impl Spell<Itself> for DataSegment {
    ghost spelled = { IsData };

    fn put(&self, alloc: alloc::Global, out: &mut Bytes) -> Result<(), Memory> {
        put_u32(self.memory, out)?;
        put_expression(alloc, &self.offset, out)?;
        put_bytes(&self.bytes, out)?;
        Ok(())
    }
}
