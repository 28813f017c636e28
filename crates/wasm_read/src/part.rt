//! The parts of a module (WebAssembly Core 1.0, sections 5.3 and 5.5).
ghost use Rattle.std.specs.Prelude.{◌≡◌};
ghost use Rattle.exact_reading.specs.Reading.{Tells, made, both};
ghost use Rattle.wasm_read.specs.Fields.{u32_at};
ghost use Rattle.wasm_read.specs.Parts.{from_to, limits_at, table_at, mutable_at, global_type_at, import_kind_at, export_kind_at};

use crate::expression::read_expression;
use crate::fault::Fault;
use crate::instruction::read_value_type;
use crate::number::{after, read_bytes, read_name, read_u32};
use crate::vector::{Item, read_vector};
use exact_reading::Stop;
use std::alloc::Global;
use wasm_tree::{
    DataSegment, ElementSegment, Export, ExportKind, FunctionType, GlobalType, Import, ImportKind,
    Limits, ValueType,
};

fn read_range(bytes: &[u8]) -> Result<(Limits, &[u8]), Fault>
    ensures { Tells (λ x. (x.0, x.1.now)) result (made from_to (both u32_at u32_at) bytes.now) }
{
    let (min, rest) = read_u32(bytes)?;
    let (max, rest) = read_u32(rest)?;
    let max = Some(max);
    Ok((Limits { min, max }, rest))
}

/// The least and perhaps the greatest size.
#[tactic(auto, unfolding(crate::specs::Parts::limits_at))]
fn read_limits(bytes: &[u8]) -> Result<(Limits, &[u8]), Fault>
    ensures { Tells (λ x. (x.0, x.1.now)) result (limits_at bytes.now) }
{
    match bytes {
        [] => Err(Fault::Malformed),
        [0x00, rest @ ..] => {
            let (min, rest) = read_u32(rest)?;
            Ok((Limits { min, max: None }, rest))
        }
        [0x01, rest @ ..] => read_range(rest),
        _ => Err(Fault::Malformed),
    }
}

/// A table of functions.
#[tactic(auto, unfolding(crate::specs::Parts::table_at))]
fn read_table(bytes: &[u8]) -> Result<(Limits, &[u8]), Fault>
    ensures { Tells (λ x. (x.0, x.1.now)) result (table_at bytes.now) }
{
    read_limits(after(0x70, bytes)?)
}

fn read_mutable(bytes: &[u8]) -> Result<(bool, &[u8]), Fault>
    ensures { Tells (λ x. (x.0, x.1.now)) result (mutable_at bytes.now) }
{
    match bytes {
        [] => Err(Fault::Malformed),
        [0x00, rest @ ..] => Ok((false, rest)),
        [0x01, rest @ ..] => Ok((true, rest)),
        _ => Err(Fault::Malformed),
    }
}

#[tactic(auto, unfolding(crate::specs::Parts::global_type_at))]
fn read_global_type(bytes: &[u8]) -> Result<(GlobalType, &[u8]), Fault>
    ensures { Tells (λ x. (x.0, x.1.now)) result (global_type_at bytes.now) }
{
    let (kind, rest) = read_value_type(bytes)?;
    let (mutable, rest) = read_mutable(rest)?;
    Ok((GlobalType { kind, mutable }, rest))
}

#[tactic(auto, unfolding(crate::specs::Parts::import_kind_at))]
fn read_import_kind(bytes: &[u8]) -> Result<(ImportKind, &[u8]), Fault>
    ensures { Tells (λ x. (x.0, x.1.now)) result (import_kind_at bytes.now) }
{
    match bytes {
        [] => Err(Fault::Malformed),
        [0x00, rest @ ..] => {
            let (signature, rest) = read_u32(rest)?;
            Ok((ImportKind::Function(signature), rest))
        }
        [0x01, rest @ ..] => {
            let (limits, rest) = read_table(rest)?;
            Ok((ImportKind::Table(limits), rest))
        }
        [0x02, rest @ ..] => {
            let (limits, rest) = read_limits(rest)?;
            Ok((ImportKind::Memory(limits), rest))
        }
        [0x03, rest @ ..] => {
            let (kind, rest) = read_global_type(rest)?;
            Ok((ImportKind::Global(kind), rest))
        }
        _ => Err(Fault::Malformed),
    }
}

#[tactic(auto, unfolding(crate::specs::Parts::export_kind_at))]
fn read_export_kind(bytes: &[u8]) -> Result<(ExportKind, &[u8]), Fault>
    ensures { Tells (λ x. (x.0, x.1.now)) result (export_kind_at bytes.now) }
{
    match bytes {
        [] => Err(Fault::Malformed),
        [0x00, rest @ ..] => {
            let (index, rest) = read_u32(rest)?;
            Ok((ExportKind::Function(index), rest))
        }
        [0x01, rest @ ..] => {
            let (index, rest) = read_u32(rest)?;
            Ok((ExportKind::Table(index), rest))
        }
        [0x02, rest @ ..] => {
            let (index, rest) = read_u32(rest)?;
            Ok((ExportKind::Memory(index), rest))
        }
        [0x03, rest @ ..] => {
            let (index, rest) = read_u32(rest)?;
            Ok((ExportKind::Global(index), rest))
        }
        _ => Err(Fault::Malformed),
    }
}

/// The types of values.
pub struct ValueTypes;

impl Item<ValueType> for ValueTypes {
    ghost use Rattle.wasm_read.specs.Codes.{value_type_at};

    ghost at = { value_type_at };

    fn read_item(_alloc: Global, bytes: &[u8]) -> Result<(ValueType, &[u8]), Stop<Fault>> {
        Ok(read_value_type(bytes)?)
    }
}

/// Indices.
pub struct Indices;

impl Item<u32> for Indices {
    ghost use Rattle.wasm_read.specs.Fields.{u32_at};

    ghost at = { u32_at };

    fn read_item(_alloc: Global, bytes: &[u8]) -> Result<(u32, &[u8]), Stop<Fault>> {
        Ok(read_u32(bytes)?)
    }
}

/// The types of functions.
pub struct FunctionTypes;

impl Item<FunctionType> for FunctionTypes {
    ghost use Rattle.wasm_read.specs.Parts.{function_type_at};

    ghost at = { function_type_at };

    #[tactic(auto, unfolding(crate::specs::Parts::function_type_at))]
    fn read_item(alloc: Global, bytes: &[u8]) -> Result<(FunctionType, &[u8]), Stop<Fault>> {
        let rest = after(0x60, bytes)?;
        let (params, rest) = read_vector::<ValueType, ValueTypes>(alloc, rest)?;
        let (results, rest) = read_vector::<ValueType, ValueTypes>(alloc, rest)?;
        Ok((FunctionType { params, results }, rest))
    }
}

/// Tables.
pub struct Tables;

impl Item<Limits> for Tables {
    ghost use Rattle.wasm_read.specs.Parts.{table_at};

    ghost at = { table_at };

    fn read_item(_alloc: Global, bytes: &[u8]) -> Result<(Limits, &[u8]), Stop<Fault>> {
        Ok(read_table(bytes)?)
    }
}

/// Memories.
pub struct Memories;

impl Item<Limits> for Memories {
    ghost use Rattle.wasm_read.specs.Parts.{limits_at};

    ghost at = { limits_at };

    fn read_item(_alloc: Global, bytes: &[u8]) -> Result<(Limits, &[u8]), Stop<Fault>> {
        Ok(read_limits(bytes)?)
    }
}

/// Imports.
pub struct Imports;

impl Item<Import> for Imports {
    ghost use Rattle.wasm_read.specs.Parts.{import_at};

    ghost at = { import_at };

    #[tactic(auto, unfolding(crate::specs::Parts::import_at))]
    fn read_item(alloc: Global, bytes: &[u8]) -> Result<(Import, &[u8]), Stop<Fault>> {
        let (module, rest) = read_name(alloc, bytes)?;
        let (name, rest) = read_name(alloc, rest)?;
        let (kind, rest) = read_import_kind(rest)?;
        Ok((Import { module, name, kind }, rest))
    }
}

/// Globals.
pub struct Globals;

impl Item<wasm_tree::Global> for Globals {
    ghost use Rattle.wasm_read.specs.Parts.{global_at};

    ghost at = { global_at };

    #[tactic(auto, unfolding(crate::specs::Parts::global_at))]
    fn read_item(alloc: Global, bytes: &[u8]) -> Result<(wasm_tree::Global, &[u8]), Stop<Fault>> {
        let (kind, rest) = read_global_type(bytes)?;
        let (init, rest) = read_expression(alloc, rest)?;
        Ok((wasm_tree::Global { kind, init }, rest))
    }
}

/// Exports.
pub struct Exports;

impl Item<Export> for Exports {
    ghost use Rattle.wasm_read.specs.Parts.{export_at};

    ghost at = { export_at };

    #[tactic(auto, unfolding(crate::specs::Parts::export_at))]
    fn read_item(alloc: Global, bytes: &[u8]) -> Result<(Export, &[u8]), Stop<Fault>> {
        let (name, rest) = read_name(alloc, bytes)?;
        let (kind, rest) = read_export_kind(rest)?;
        Ok((Export { name, kind }, rest))
    }
}

/// Functions of a table.
pub struct Elements;

impl Item<ElementSegment> for Elements {
    ghost use Rattle.wasm_read.specs.Parts.{element_at};

    ghost at = { element_at };

    #[tactic(auto, unfolding(crate::specs::Parts::element_at))]
    fn read_item(alloc: Global, bytes: &[u8]) -> Result<(ElementSegment, &[u8]), Stop<Fault>> {
        let (table, rest) = read_u32(bytes)?;
        let (offset, rest) = read_expression(alloc, rest)?;
        let (functions, rest) = read_vector::<u32, Indices>(alloc, rest)?;
        Ok((
            ElementSegment {
                table,
                offset,
                functions,
            },
            rest,
        ))
    }
}

/// Bytes of a memory.
pub struct DataSegments;

impl Item<DataSegment> for DataSegments {
    ghost use Rattle.wasm_read.specs.Parts.{data_at};

    ghost at = { data_at };

    #[tactic(auto, unfolding(crate::specs::Parts::data_at))]
    fn read_item(alloc: Global, bytes: &[u8]) -> Result<(DataSegment, &[u8]), Stop<Fault>> {
        let (memory, rest) = read_u32(bytes)?;
        let (offset, rest) = read_expression(alloc, rest)?;
        let (bytes, rest) = read_bytes(alloc, rest)?;
        Ok((
            DataSegment {
                memory,
                offset,
                bytes,
            },
            rest,
        ))
    }
}
