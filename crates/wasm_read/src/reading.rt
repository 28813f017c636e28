//! Whole modules (WebAssembly Core 1.0, section 5.5.15).
ghost use Rattle.std.specs.Prelude.{◌≡◌, ◌≤◌, length, Ok, IfOk};
ghost use Rattle.wasm_tree.specs.Binary.{header, Written};
ghost use Rattle.wasm_tree.specs.declared.module_parts.Module.{Module};
ghost use Rattle.exact_reading.specs.Reading.{Tells, Gives};
ghost use Rattle.exact_reading.specs.Prefix.{prefix_at};
ghost use Rattle.wasm_read.specs.declared.fault.Fault.TheVariants.{NotWasm};
ghost use Rattle.wasm_read.specs.Sections.{Answers, contents_at, stores_at, parts_at, module_at};

use crate::fault::{Fault, ReadFault};
use crate::part::{
    DataSegments, Elements, Exports, FunctionTypes, Globals, Imports, Indices, Memories, Tables,
};
use crate::section::{read_code_section, read_end, read_section, read_start};
use exact_reading::Stop;
use mo_num::Sequence;
use std::alloc::Global;
use wasm_tree::{
    DataSegment, ElementSegment, Export, Function, FunctionType, Import, Limits, Module,
};

/// The sections from the start function on.
#[derive(Drop)]
struct Contents {
    start: Option<u32>,
    elements: Sequence<ElementSegment>,
    functions: Sequence<Function>,
    segments: Sequence<DataSegment>,
}

/// The sections from the tables on.
#[derive(Drop)]
struct Stores {
    tables: Sequence<Limits>,
    memories: Sequence<Limits>,
    globals: Sequence<wasm_tree::Global>,
    exports: Sequence<Export>,
    contents: Contents,
}

#[tactic(auto, unfolding(crate::specs::Sections::contents_at))]
fn read_contents(alloc: Global, signatures: &[u32], bytes: &[u8]) -> Result<Contents, Stop<Fault>>
    ensures { Gives (λ x. (x.start, (x.elements, (x.functions, (x.segments, tt))))) result (contents_at signatures.now bytes.now) }
{
    let (start, rest) = read_start(bytes)?;
    let (elements, rest) = read_section::<ElementSegment, Elements>(alloc, 9, rest)?;
    let (functions, rest) = read_code_section(alloc, signatures, rest)?;
    let (segments, rest) = read_section::<DataSegment, DataSegments>(alloc, 11, rest)?;
    read_end(rest)?;
    Ok(Contents {
        start,
        elements,
        functions,
        segments,
    })
}

#[tactic(auto, unfolding(crate::specs::Sections::stores_at))]
fn read_stores(alloc: Global, signatures: &[u32], bytes: &[u8]) -> Result<Stores, Stop<Fault>>
    ensures { Gives (λ x. (x.tables, (x.memories, (x.globals, (x.exports, (x.contents.start, (x.contents.elements, (x.contents.functions, (x.contents.segments, tt))))))))) result (stores_at signatures.now bytes.now) }
{
    let (tables, rest) = read_section::<Limits, Tables>(alloc, 4, bytes)?;
    let (memories, rest) = read_section::<Limits, Memories>(alloc, 5, rest)?;
    let (globals, rest) = read_section::<wasm_tree::Global, Globals>(alloc, 6, rest)?;
    let (exports, rest) = read_section::<Export, Exports>(alloc, 7, rest)?;
    let contents = read_contents(alloc, signatures, rest)?;
    Ok(Stores {
        tables,
        memories,
        globals,
        exports,
        contents,
    })
}

#[tactic(auto, unfolding(crate::specs::Sections::sections_at))]
fn read_sections(alloc: Global, bytes: &[u8]) -> Result<Module, Stop<Fault>>
    ensures { Gives (λ x. x) result (parts_at bytes.now) }
{
    let (types, rest) = read_section::<FunctionType, FunctionTypes>(alloc, 1, bytes)?;
    let (imports, rest) = read_section::<Import, Imports>(alloc, 2, rest)?;
    let (signatures, rest) = read_section::<u32, Indices>(alloc, 3, rest)?;
    let Stores {
        tables,
        memories,
        globals,
        exports,
        contents,
    } = read_stores(alloc, signatures.as_slice(), rest)?;
    let Contents {
        start,
        elements,
        functions,
        segments,
    } = contents;
    Ok(Module {
        types,
        imports,
        functions,
        tables,
        memories,
        globals,
        exports,
        start,
        elements,
        segments,
    })
}

/// What comes after the header.
fn read_header(bytes: &[u8]) -> Result<&[u8], Fault>
    ensures { Tells (λ x. x.now) result (prefix_at NotWasm NotWasm header bytes.now) }
{
    match bytes {
        [0x00, 0x61, 0x73, 0x6d, 0x01, 0x00, 0x00, 0x00, rest @ ..] => Ok(rest),
        _ => Err(Fault::NotWasm),
    }
}

/// How many bytes a module may have.
pub const LARGEST_MODULE: usize = 67_108_864;

#[tactic(auto, unfolding(crate::specs::Sections::module_at))]
fn read_module(alloc: Global, bytes: &[u8]) -> Result<Module, Stop<Fault>>
    ensures { Gives (λ x. x) result (module_at bytes.now) }
{
    if bytes.len() > LARGEST_MODULE {
        return Err(Stop::Fault(Fault::TooLarge));
    }
    read_sections(alloc, read_header(bytes)?)
}

fn read_exactly(alloc: Global, bytes: &[u8]) -> Result<Module, ReadFault>
    ensures { Answers result (module_at bytes.now) }
{
    match read_module(alloc, bytes) {
        Ok(module) => Ok(module),
        Err(Stop::Memory) => Err(ReadFault::Memory),
        Err(Stop::Fault(Fault::TooLarge)) => Err(ReadFault::TooLarge),
        Err(Stop::Fault(Fault::NotWasm)) => Err(ReadFault::NotWasm),
        Err(Stop::Fault(Fault::Malformed)) => Err(ReadFault::Malformed),
        Err(Stop::Fault(Fault::Floats)) => Err(ReadFault::Floats),
    }
}

/// The module that the bytes spell.
///
/// Tested in this order: whether there are at most 67,108,864 bytes, whether they begin with the header, and then field
/// by field whether each keeps its rule. The memory taken is for what was read, and nothing recurses on the nesting of
/// blocks.
pub fn read(alloc: Global, bytes: &[u8]) -> Result<Module, ReadFault>
    // What is read is spelled by the bytes.
    ensures found { IfOk result (λ m. Written m bytes.now) }
    // What is spelled by so few bytes is read, unless memory runs out.
    ensures only { (m : Module) → length bytes.now ≤ 67108864 → Written m bytes.now → Answers result (Ok m) }
    // Which fault it is.
    ensures exact { Answers result (module_at bytes.now) }
{
    read_exactly(alloc, bytes)
}
