//! Modules as texts.
use probe_base::Stop;
use std::alloc::{AllocError, Global};
use wasm_read::read;
use wasm_tree::{
    DataSegment, ElementSegment, Export, Function, FunctionType, Global as GlobalPart, Import,
    Limits, Module, Op,
};

/// A line for each part of the module and for each instruction, or the fault.
pub(crate) fn read_module(alloc: Global, bytes: &[u8]) -> Result<String, Stop> {
    let mut out = String::new(alloc);
    match read(alloc, bytes) {
        Err(fault) => out.push_str(format!(in alloc; "{fault:?}\n")?.as_str())?,
        Ok(module) => put_module(alloc, &mut out, &module)?,
    }
    Ok(out)
}

fn put_module(alloc: Global, out: &mut String, module: &Module) -> Result<(), AllocError> {
    put_types(alloc, out, module.types.as_slice())?;
    put_imports(alloc, out, module.imports.as_slice())?;
    put_functions(alloc, out, module.functions.as_slice())?;
    put_limits(alloc, out, "table", module.tables.as_slice())?;
    put_limits(alloc, out, "memory", module.memories.as_slice())?;
    put_globals(alloc, out, module.globals.as_slice())?;
    put_exports(alloc, out, module.exports.as_slice())?;
    put_start(alloc, out, module.start)?;
    put_elements(alloc, out, module.elements.as_slice())?;
    put_segments(alloc, out, module.segments.as_slice())
}

fn put_types(alloc: Global, out: &mut String, types: &[FunctionType]) -> Result<(), AllocError> {
    for kind in types {
        let (params, results) = (kind.params.as_slice(), kind.results.as_slice());
        out.push_str(format!(in alloc; "type {params:?} {results:?}\n")?.as_str())?;
    }
    Ok(())
}

fn put_name(alloc: Global, out: &mut String, name: &[u8]) -> Result<(), AllocError> {
    out.push_str(String::from_utf8_lossy(alloc, name)?.as_str())?;
    out.push(' ')
}

fn put_imports(alloc: Global, out: &mut String, imports: &[Import]) -> Result<(), AllocError> {
    for import in imports {
        let kind = import.kind;
        out.push_str("import ")?;
        put_name(alloc, out, import.module.as_slice())?;
        put_name(alloc, out, import.name.as_slice())?;
        out.push_str(format!(in alloc; "{kind:?}\n")?.as_str())?;
    }
    Ok(())
}

fn put_code(alloc: Global, out: &mut String, ops: &[Op]) -> Result<(), AllocError> {
    for op in ops {
        out.push_str(format!(in alloc; "  {op:?}\n")?.as_str())?;
    }
    Ok(())
}

fn put_functions(
    alloc: Global,
    out: &mut String,
    functions: &[Function],
) -> Result<(), AllocError> {
    for function in functions {
        let (signature, locals) = (function.signature, function.locals.as_slice());
        out.push_str(format!(in alloc; "function {signature} {locals:?}\n")?.as_str())?;
        put_code(alloc, out, function.body.as_slice())?;
    }
    Ok(())
}

fn put_limits(
    alloc: Global,
    out: &mut String,
    what: &str,
    sizes: &[Limits],
) -> Result<(), AllocError> {
    for size in sizes {
        out.push_str(format!(in alloc; "{what} {size:?}\n")?.as_str())?;
    }
    Ok(())
}

fn put_globals(alloc: Global, out: &mut String, globals: &[GlobalPart]) -> Result<(), AllocError> {
    for global in globals {
        let kind = global.kind;
        out.push_str(format!(in alloc; "global {kind:?}\n")?.as_str())?;
        put_code(alloc, out, global.init.as_slice())?;
    }
    Ok(())
}

fn put_exports(alloc: Global, out: &mut String, exports: &[Export]) -> Result<(), AllocError> {
    for export in exports {
        let kind = export.kind;
        out.push_str("export ")?;
        put_name(alloc, out, export.name.as_slice())?;
        out.push_str(format!(in alloc; "{kind:?}\n")?.as_str())?;
    }
    Ok(())
}

fn put_start(alloc: Global, out: &mut String, start: Option<u32>) -> Result<(), AllocError> {
    match start {
        None => Ok(()),
        Some(function) => out.push_str(format!(in alloc; "start {function}\n")?.as_str()),
    }
}

fn put_elements(
    alloc: Global,
    out: &mut String,
    elements: &[ElementSegment],
) -> Result<(), AllocError> {
    for element in elements {
        let (table, functions) = (element.table, element.functions.as_slice());
        out.push_str(format!(in alloc; "elements {table} {functions:?}\n")?.as_str())?;
        put_code(alloc, out, element.offset.as_slice())?;
    }
    Ok(())
}

fn put_segments(
    alloc: Global,
    out: &mut String,
    segments: &[DataSegment],
) -> Result<(), AllocError> {
    for segment in segments {
        let (memory, bytes) = (segment.memory, segment.bytes.as_slice());
        out.push_str(format!(in alloc; "data {memory} {bytes:?}\n")?.as_str())?;
        put_code(alloc, out, segment.offset.as_slice())?;
    }
    Ok(())
}
