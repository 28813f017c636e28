//! Instructions as a flat list (WebAssembly Core 1.0, section 2.4).
use crate::ValueType;
use mo_num::Sequence;

/// How two integers compare (section 2.4.1). `S` takes them as signed, `U` as unsigned.
#[derive(Clone, Copy, Debug, PartialEq, Eq)]
pub enum Comparison {
    Eq,
    Ne,
    LtS,
    LtU,
    GtS,
    GtU,
    LeS,
    LeU,
    GeS,
    GeU,
}

/// From one integer to another of the same type.
#[derive(Clone, Copy, Debug, PartialEq, Eq)]
pub enum UnaryOperator {
    Clz,
    Ctz,
    Popcnt,
}

/// From two integers to another of the same type. `S` takes them as signed, `U` as unsigned.
#[derive(Clone, Copy, Debug, PartialEq, Eq)]
pub enum BinaryOperator {
    Add,
    Sub,
    Mul,
    DivS,
    DivU,
    RemS,
    RemU,
    And,
    Or,
    Xor,
    Shl,
    ShrS,
    ShrU,
    Rotl,
    Rotr,
}

/// From an integer of the one type to one of the other.
#[derive(Clone, Copy, Debug, PartialEq, Eq)]
pub enum Conversion {
    /// `i32.wrap_i64`.
    Wrap,
    /// `i64.extend_i32_s`.
    ExtendS,
    /// `i64.extend_i32_u`.
    ExtendU,
}

/// What a load reads, and to what it extends it (section 2.4.4).
#[derive(Clone, Copy, Debug, PartialEq, Eq)]
pub enum LoadKind {
    I32,
    I64,
    I32From8S,
    I32From8U,
    I32From16S,
    I32From16U,
    I64From8S,
    I64From8U,
    I64From16S,
    I64From16U,
    I64From32S,
    I64From32U,
}

/// What a store writes: an integer, or its low bits.
#[derive(Clone, Copy, Debug, PartialEq, Eq)]
pub enum StoreKind {
    I32,
    I64,
    I32To8,
    I32To16,
    I64To8,
    I64To16,
    I64To32,
}

/// The alignment of an access as an exponent of 2, and what is added to its address.
#[derive(Clone, Copy, Debug, PartialEq, Eq)]
pub struct MemoryArgument {
    pub align: u32,
    pub offset: u32,
}

/// An instruction after which the next one comes.
#[derive(Clone, Copy, Debug, PartialEq, Eq)]
pub enum Plain {
    Nop,
    Drop,
    Select,
    LocalGet(u32),
    LocalSet(u32),
    LocalTee(u32),
    GlobalGet(u32),
    GlobalSet(u32),
    Load(LoadKind, MemoryArgument),
    Store(StoreKind, MemoryArgument),
    MemorySize,
    MemoryGrow,
    I32Const(i32),
    I64Const(i64),
    /// `eqz`.
    EqualsZero(ValueType),
    Compare(ValueType, Comparison),
    Unary(ValueType, UnaryOperator),
    Binary(ValueType, BinaryOperator),
    Convert(Conversion),
}

/// One instruction. A structured instruction is its own opening and closing marks, so that code of any nesting is a
/// list, and `br_table` is followed by its labels.
#[derive(Clone, Copy, Debug, PartialEq, Eq)]
pub enum Op {
    Plain(Plain),
    Unreachable,
    /// Each block has at most one result.
    Block(Option<ValueType>),
    Loop(Option<ValueType>),
    If(Option<ValueType>),
    Else,
    End,
    Br(u32),
    BrIf(u32),
    /// How many labels follow, besides the default one, which comes last.
    BrTable(u32),
    /// A label of a `br_table`.
    Target(u32),
    Return,
    /// `call` of the function with this index.
    Call(u32),
    /// `call_indirect` of a function whose type has this index.
    CallIndirect(u32),
}

/// The instructions of a body or an initialiser, without the last `end` (section 2.4.7).
pub type Expression = Sequence<Op>;
