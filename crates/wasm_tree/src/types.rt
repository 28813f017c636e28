//! Types (WebAssembly Core 1.0, section 2.3).
use mo_num::Sequence;

/// The type of a value (section 2.3.1).
#[derive(Clone, Copy, Debug, PartialEq, Eq)]
pub enum ValueType {
    I32,
    I64,
}

/// The type of a function: its parameters and its results (section 2.3.3).
#[derive(Drop)]
pub struct FunctionType {
    pub params: Sequence<ValueType>,
    pub results: Sequence<ValueType>,
}

/// The sizes of a memory in pages of 65,536 bytes, or of a table in entries (section 2.3.4).
#[derive(Clone, Copy, Debug, PartialEq, Eq)]
pub struct Limits {
    pub min: u32,
    pub max: Option<u32>,
}

/// The type of a global, and whether it may be set (section 2.3.7).
#[derive(Clone, Copy, Debug, PartialEq, Eq)]
pub struct GlobalType {
    pub kind: ValueType,
    pub mutable: bool,
}
