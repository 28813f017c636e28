//! Instructions as a flat list.
use wasm_tree::{
    BinaryOperator, Comparison, Conversion, LoadKind, StoreKind, UnaryOperator, ValueType,
};

/// What an instruction reads: a local, or a constant.
#[derive(Clone, Copy)]
pub enum Operand {
    Local(u32),
    Word(i32),
    Long(i64),
}

/// What gives a value.
#[derive(Clone, Copy)]
pub enum Operation {
    Copy(Operand),
    /// 1 where the operand is 0, else 0.
    IsZero(ValueType, Operand),
    /// 1 where the comparison holds, else 0.
    Compare(ValueType, Comparison, Operand, Operand),
    Unary(ValueType, UnaryOperator, Operand),
    Binary(ValueType, BinaryOperator, Operand, Operand),
    Convert(Conversion, Operand),
    /// From the address and this offset.
    Load(LoadKind, Operand, u32),
    Global(u32),
    /// The pages of the memory.
    Size,
}

/// One instruction. A construct is its opening and closing marks, so that code of any nesting is a list; the arguments of a call
/// stand before it. No block has a result: a function's value goes out by `Return`.
#[derive(Clone, Copy)]
pub enum LowOp {
    /// A local becomes what the operation gives.
    Set(u32, Operation),
    SetGlobal(u32, Operand),
    /// To the address and this offset, the value.
    Store(StoreKind, Operand, u32, Operand),
    /// The memory grows by so many pages, or the execution ends for want of memory.
    Grow(Operand),
    /// The stable memory grows by so many pages, or the execution ends for want of memory.
    GrowStable(Operand),
    /// The execution ends with a text, which stands in the memory at this address in so many bytes.
    Trap(Operand, Operand),
    Block,
    Loop,
    /// The first side where the operand is not 0.
    If(Operand),
    Else,
    End,
    /// To the label of the construct that is so many outward.
    Branch(u32),
    /// Where the operand is not 0.
    BranchIf(Operand, u32),
    /// The next argument of the call that follows.
    Argument(Operand),
    /// The local of the result, if the function has one, and the function's number.
    Call(Option<u32>, u32),
    /// The local of the result, the number of the type, and the place in the table.
    CallIndirect(Option<u32>, u32, Operand),
    Return(Option<Operand>),
}
