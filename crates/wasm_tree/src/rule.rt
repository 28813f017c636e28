//! The rules of validation, by name.

/// A rule that a module may break (WebAssembly Core 1.0, section 3, and what the host asks of a module).
#[derive(Clone, Copy, Debug, PartialEq, Eq)]
pub enum Rule {
    /// A type, function, local, global, table or memory with this index is there.
    Index,
    /// An instruction finds its operands.
    Operand,
    /// A block ends with its result and nothing else, and a type has at most one result.
    Result,
    /// A label with this index is there.
    Label,
    /// An access is aligned to no more than its size.
    Align,
    /// An initialiser is a constant of the type that is asked for.
    Constant,
    /// A global that is set is mutable.
    Mutable,
    /// An import is a function of `ic0` with its type.
    Import,
    /// The names of exports differ, and those by which the host enters are functions from nothing to nothing.
    Export,
    /// The start function is from nothing to nothing.
    Start,
    /// There is at most one memory, of sizes in order and of at most 65,536 pages.
    Memory,
    /// There is at most one table, of sizes in order.
    Table,
    /// The module is not larger than the profile admits.
    Size,
}
