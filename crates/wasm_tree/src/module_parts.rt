//! The parts of a module (WebAssembly Core 1.0, section 2.5).
use crate::{Expression, FunctionType, GlobalType, Limits, ValueType};
use mo_num::{Bytes, Sequence};

/// What is imported (section 2.5.11).
#[derive(Clone, Copy, Debug, PartialEq, Eq)]
pub enum ImportKind {
    /// A function whose type has this index.
    Function(u32),
    Table(Limits),
    Memory(Limits),
    Global(GlobalType),
}

/// Something of another module, by the module's name and its own.
#[derive(Drop)]
pub struct Import {
    pub module: Bytes,
    pub name: Bytes,
    pub kind: ImportKind,
}

/// So many locals of one type, each 0 at first (section 5.4.6 of the binary format).
#[derive(Clone, Copy, Debug, PartialEq, Eq)]
pub struct Locals {
    pub count: u32,
    pub kind: ValueType,
}

/// A function: the index of its type, its locals besides the parameters, and its body (section 2.5.3).
#[derive(Drop)]
pub struct Function {
    pub signature: u32,
    pub locals: Sequence<Locals>,
    pub body: Expression,
}

/// A global with its initialiser (section 2.5.6).
#[derive(Drop)]
pub struct Global {
    pub kind: GlobalType,
    pub init: Expression,
}

/// What is exported, by its index among its kind (section 2.5.10).
#[derive(Clone, Copy, Debug, PartialEq, Eq)]
pub enum ExportKind {
    Function(u32),
    Table(u32),
    Memory(u32),
    Global(u32),
}

/// Something that the host may use, by its name.
#[derive(Drop)]
pub struct Export {
    pub name: Bytes,
    pub kind: ExportKind,
}

/// Functions that stand in a table from an offset on (section 2.5.7).
#[derive(Drop)]
pub struct ElementSegment {
    pub table: u32,
    pub offset: Expression,
    pub functions: Sequence<u32>,
}

/// Bytes that stand in a memory from an offset on (section 2.5.8).
#[derive(Drop)]
pub struct DataSegment {
    pub memory: u32,
    pub offset: Expression,
    pub bytes: Bytes,
}

/// A module. Indices of functions, tables, memories and globals count the imported ones first.
pub struct Module {
    pub types: Sequence<FunctionType>,
    pub imports: Sequence<Import>,
    pub functions: Sequence<Function>,
    pub tables: Sequence<Limits>,
    pub memories: Sequence<Limits>,
    pub globals: Sequence<Global>,
    pub exports: Sequence<Export>,
    pub start: Option<u32>,
    pub elements: Sequence<ElementSegment>,
    pub segments: Sequence<DataSegment>,
}

// Written here, so that it is proved here, and not again in each crate that lets a module go.
impl Drop for Module {
    fn drop(self) {
        let Module {
            types: _types,
            imports: _imports,
            functions: _functions,
            tables: _tables,
            memories: _memories,
            globals: _globals,
            exports: _exports,
            start: _start,
            elements: _elements,
            segments: _segments,
        } = self;
    }
}
