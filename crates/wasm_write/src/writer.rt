//! A module as bytes.
ghost use Rattle.std.specs.Prelude.{OnOk, IfOk};
ghost use Rattle.wasm_tree.specs.Spelling.{AppendsLeast, HasSpelling, IsLeast};
ghost use Rattle.wasm_tree.specs.Binary.{IsStart, Written};

use crate::spell::{
    Itself, Signature, Table, put_exactly, put_section, put_u32, put_vector_section,
};
use mo_num::{Bytes, Memory};
use std::alloc::Global;
use wasm_tree::Module;

/// The shortest bytes that spell the module: each number in as few bytes as it takes, no section that may be
/// left out, no custom section (WebAssembly Core 1.0, section 5.5). The module must have a spelling: its names
/// are text, its code nests, and no vector or section is past what 32 bits count.
pub fn write(alloc: Global, tree: &Module) -> Result<Bytes, Memory>
    requires { HasSpelling (Written tree.now) }
    ensures { IfOk result (λ bytes. IsLeast (Written tree.now) bytes) }
{
    let mut out = Bytes::new(alloc);
    put_module(alloc, tree, &mut out)?;
    Ok(out)
}

// The sections in order. An early return has nothing to drop here.
fn put_module(alloc: Global, tree: &Module, out: &mut Bytes) -> Result<(), Memory>
    requires { HasSpelling (Written tree.now) }
    ensures { OnOk result (AppendsLeast (Written tree.now) out.old out.new) }
{
    put_exactly(b"\0asm\x01\0\0\0", out)?;
    put_vector_section::<Itself, _>(alloc, 1, &tree.types, out)?;
    put_vector_section::<Itself, _>(alloc, 2, &tree.imports, out)?;
    put_vector_section::<Signature, _>(alloc, 3, &tree.functions, out)?;
    put_vector_section::<Table, _>(alloc, 4, &tree.tables, out)?;
    put_vector_section::<Itself, _>(alloc, 5, &tree.memories, out)?;
    put_vector_section::<Itself, _>(alloc, 6, &tree.globals, out)?;
    put_vector_section::<Itself, _>(alloc, 7, &tree.exports, out)?;
    put_start(alloc, tree.start, out)?;
    put_vector_section::<Itself, _>(alloc, 9, &tree.elements, out)?;
    put_vector_section::<Itself, _>(alloc, 10, &tree.functions, out)?;
    put_vector_section::<Itself, _>(alloc, 11, &tree.segments, out)?;
    Ok(())
}

// The section of the start function, which stands only where there is one.
fn put_start(alloc: Global, start: Option<u32>, out: &mut Bytes) -> Result<(), Memory>
    ensures { OnOk result (AppendsLeast (IsStart start) out.old out.new) }
{
    match start {
        None => Ok(()),
        Some(function) => {
            let mut contents = Bytes::new(alloc);
            put_u32(function, &mut contents)?;
            put_section(8, &contents, out)?;
            Ok(())
        }
    }
}
