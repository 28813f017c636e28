//! What is done with values at once.
use mo_num::Bytes;
use mo_types::Datum;
use mo_values::Operation;

/// What is done with the values of operands at once: an operation of the table that all languages share, or what needs the
/// store or prints. It gives a value, prints a text or traps; operands of another number or form have no answer.
#[derive(Drop)]
pub enum Primitive {
    Operate(Operation),
    /// The operand itself.
    Copy,
    /// Whether the operand is this literal of its type.
    Is(Datum),
    /// A new cell that holds the operand.
    New,
    /// What a cell holds.
    Read,
    /// `c := a`
    Write,
    /// `a[i] := b`; the bound is tested last.
    WriteElement,
    /// `Array.init(n, a)`
    ArrayInit,
    /// `Array.freeze(a)`
    ArrayFreeze,
    /// `Array.thaw(a)`
    ArrayThaw,
    /// Whether the operand is an array whose first element is a cell, as those of mutable arrays are.
    IsMutable,
    /// `next` of `t.chars()`: the cell with its place in characters, and the text.
    NextChar,
    /// `Debug.print(t)`
    Print,
}

/// A form that a value may have, with one value inside it.
#[derive(Drop)]
pub enum Constructor {
    /// `?a`; a value without it is `null`.
    Present,
    /// `#t a`; a value without it has another tag.
    Tagged(Bytes),
}
