//! How an execution may trap.

/// The cause of a trap (WebAssembly Core 1.0, section 4, and the limits that a host hands to an execution).
#[derive(Clone, Copy, Debug, PartialEq, Eq)]
pub enum Trap {
    /// The instruction past the limit of steps.
    Steps,
    /// A frame that does not fit into the stack words.
    Stack,
    /// `unreachable`.
    Unreachable,
    /// A load, a store or a segment outside the memory or the table.
    Bounds,
    /// A division by 0.
    DivideByZero,
    /// A quotient that its type does not hold.
    Overflow,
    /// An indirect call of a missing entry, or of one of another type.
    Indirect,
    /// A trap of an imported function.
    Host,
}
