//! WebAssembly modules as trees: their parts, and what their bytes, their rules and their meaning are.
//!
//! Within the profile of the project: WebAssembly Core 1.0 without floats.
#![tactic(auto)]

mod module_parts;
mod op;
mod rule;
mod trap;
mod types;

pub use module_parts::{
    DataSegment, ElementSegment, Export, ExportKind, Function, Global, Import, ImportKind, Locals,
    Module,
};
pub use op::{
    BinaryOperator, Comparison, Conversion, Expression, LoadKind, MemoryArgument, Op, Plain,
    StoreKind, UnaryOperator,
};
pub use rule::Rule;
pub use trap::Trap;
pub use types::{FunctionType, GlobalType, Limits, ValueType};
