//! The operations on values: one table for all languages of the compiler.
use mo_num::{Bytes, Kind, Operator, Sequence};
use mo_types::TypeId;

/// How two scalars are compared: Motoko language manual, section "Relational operators".
#[derive(Clone, Copy, Debug, PartialEq, Eq)]
pub enum Comparison {
    /// `<`
    Less,
    /// `<=`
    LessOrEqual,
    /// `>`
    Greater,
    /// `>=`
    GreaterOrEqual,
}

/// A type of values without parts that literals stand for. Numbers, characters and texts have an order: that of numbers,
/// and that of scalar values.
#[derive(Clone, Copy, Debug, PartialEq, Eq)]
pub enum Scalar {
    Bool,
    Number(Kind),
    Char,
    Text,
    Blob,
}

/// An operator that wraps around: Motoko language manual, section "Binary operators".
#[derive(Clone, Copy, Debug, PartialEq, Eq)]
pub enum Wrapping {
    /// `+%`
    AddWrap,
    /// `-%`
    SubWrap,
    /// `*%`
    MulWrap,
}

/// What is done with the values of operands. It gives a value or traps; operands of another number, form or type have no
/// answer.
#[derive(Drop)]
pub enum Operation {
    /// `a + b`, `a - b`, `a * b`, `a / b`, `a % b` and `a ** b`, of two numbers of the kind.
    Arithmetic(Operator, Kind),
    /// `a +% b`, `a -% b` and `a *% b`, where the kind has a width.
    Wrap(Wrapping, Kind),
    /// `-a`
    Negate(Kind),
    /// `a < b` and its kin.
    Compare(Comparison, Scalar),
    /// Whether two scalars are the same, as a literal pattern asks.
    Same(Scalar),
    /// `a == b` at a type.
    Equal(TypeId),
    /// `a != b` at a type.
    Unequal(TypeId),
    /// `not a`
    Not,
    /// `assert a`
    Assert,
    /// `a # b`
    Concat,
    /// `t.size()`: the number of characters of a text.
    TextSize,
    /// A number in decimal digits, as `Nat.toText` and `Int.toText` write it.
    ToText(Kind),
    /// `(a, .., b)`, and `()` of no operands.
    MakeTuple,
    /// `?a`
    MakeOption,
    /// `#t a`
    MakeTag(Bytes),
    /// `[a, .., b]`
    MakeArray,
    /// `{x = a; ..; y = b}`: the labels, in the order of the operands.
    MakeObject(Sequence<Bytes>),
    /// `a.0`, counted from 0.
    Project(u32),
    /// `a.x` of an object; of a `var` field it is the cell.
    Field(Bytes),
    /// `a[i]`; of a mutable array it is the cell.
    Element,
    /// `a.size()` of an array.
    ArraySize,
    /// `a.f` of an actor.
    Method(Bytes),
    /// `Principal.fromActor(a)`
    PrincipalOf,
    /// `Error.reject(t)`
    RejectError,
    /// `Error.message(e)`
    Message,
    /// `Error.code(e)`
    Code,
    /// `Debug.trap(t)`
    Trap,
    /// Traps with this text, as a `switch` of which no case matches.
    Fail(Bytes),
}
