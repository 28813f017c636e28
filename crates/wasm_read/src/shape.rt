//! What follows the first byte of an instruction (WebAssembly Core 1.0, section 5.4).
use wasm_tree::{
    BinaryOperator, Comparison, Conversion, LoadKind, Op, Plain, StoreKind, UnaryOperator,
    ValueType,
};

/// What follows a first byte.
#[derive(Clone, Copy)]
pub enum Shape {
    /// Nothing: the byte is all of this instruction.
    Whole(Op),
    /// An alignment and an offset.
    Load(LoadKind),
    Store(StoreKind),
    /// The type of a block.
    Block,
    Loop,
    If,
    /// A number.
    Br,
    BrIf,
    BrTable,
    Call,
    LocalGet,
    LocalSet,
    LocalTee,
    GlobalGet,
    GlobalSet,
    /// A number and the byte 0.
    CallIndirect,
    /// The byte 0.
    MemorySize,
    MemoryGrow,
    /// A signed number.
    I32Const,
    I64Const,
    /// An instruction on floats, which no module of the profile has.
    Float,
    /// No instruction.
    Unknown,
}

/// What follows each first byte.
pub static SHAPES: [Shape; 256] = [
    Shape::Whole(Op::Unreachable), // 00
    Shape::Whole(Op::Plain(Plain::Nop)), // 01
    Shape::Block, // 02
    Shape::Loop, // 03
    Shape::If, // 04
    Shape::Whole(Op::Else), // 05
    Shape::Unknown, // 06
    Shape::Unknown, // 07
    Shape::Unknown, // 08
    Shape::Unknown, // 09
    Shape::Unknown, // 0a
    Shape::Whole(Op::End), // 0b
    Shape::Br, // 0c
    Shape::BrIf, // 0d
    Shape::BrTable, // 0e
    Shape::Whole(Op::Return), // 0f
    Shape::Call, // 10
    Shape::CallIndirect, // 11
    Shape::Unknown, // 12
    Shape::Unknown, // 13
    Shape::Unknown, // 14
    Shape::Unknown, // 15
    Shape::Unknown, // 16
    Shape::Unknown, // 17
    Shape::Unknown, // 18
    Shape::Unknown, // 19
    Shape::Whole(Op::Plain(Plain::Drop)), // 1a
    Shape::Whole(Op::Plain(Plain::Select)), // 1b
    Shape::Unknown, // 1c
    Shape::Unknown, // 1d
    Shape::Unknown, // 1e
    Shape::Unknown, // 1f
    Shape::LocalGet, // 20
    Shape::LocalSet, // 21
    Shape::LocalTee, // 22
    Shape::GlobalGet, // 23
    Shape::GlobalSet, // 24
    Shape::Unknown, // 25
    Shape::Unknown, // 26
    Shape::Unknown, // 27
    Shape::Load(LoadKind::I32), // 28
    Shape::Load(LoadKind::I64), // 29
    Shape::Float, // 2a
    Shape::Float, // 2b
    Shape::Load(LoadKind::I32From8S), // 2c
    Shape::Load(LoadKind::I32From8U), // 2d
    Shape::Load(LoadKind::I32From16S), // 2e
    Shape::Load(LoadKind::I32From16U), // 2f
    Shape::Load(LoadKind::I64From8S), // 30
    Shape::Load(LoadKind::I64From8U), // 31
    Shape::Load(LoadKind::I64From16S), // 32
    Shape::Load(LoadKind::I64From16U), // 33
    Shape::Load(LoadKind::I64From32S), // 34
    Shape::Load(LoadKind::I64From32U), // 35
    Shape::Store(StoreKind::I32), // 36
    Shape::Store(StoreKind::I64), // 37
    Shape::Float, // 38
    Shape::Float, // 39
    Shape::Store(StoreKind::I32To8), // 3a
    Shape::Store(StoreKind::I32To16), // 3b
    Shape::Store(StoreKind::I64To8), // 3c
    Shape::Store(StoreKind::I64To16), // 3d
    Shape::Store(StoreKind::I64To32), // 3e
    Shape::MemorySize, // 3f
    Shape::MemoryGrow, // 40
    Shape::I32Const, // 41
    Shape::I64Const, // 42
    Shape::Float, // 43
    Shape::Float, // 44
    Shape::Whole(Op::Plain(Plain::EqualsZero(ValueType::I32))), // 45
    Shape::Whole(Op::Plain(Plain::Compare(ValueType::I32, Comparison::Eq))), // 46
    Shape::Whole(Op::Plain(Plain::Compare(ValueType::I32, Comparison::Ne))), // 47
    Shape::Whole(Op::Plain(Plain::Compare(ValueType::I32, Comparison::LtS))), // 48
    Shape::Whole(Op::Plain(Plain::Compare(ValueType::I32, Comparison::LtU))), // 49
    Shape::Whole(Op::Plain(Plain::Compare(ValueType::I32, Comparison::GtS))), // 4a
    Shape::Whole(Op::Plain(Plain::Compare(ValueType::I32, Comparison::GtU))), // 4b
    Shape::Whole(Op::Plain(Plain::Compare(ValueType::I32, Comparison::LeS))), // 4c
    Shape::Whole(Op::Plain(Plain::Compare(ValueType::I32, Comparison::LeU))), // 4d
    Shape::Whole(Op::Plain(Plain::Compare(ValueType::I32, Comparison::GeS))), // 4e
    Shape::Whole(Op::Plain(Plain::Compare(ValueType::I32, Comparison::GeU))), // 4f
    Shape::Whole(Op::Plain(Plain::EqualsZero(ValueType::I64))), // 50
    Shape::Whole(Op::Plain(Plain::Compare(ValueType::I64, Comparison::Eq))), // 51
    Shape::Whole(Op::Plain(Plain::Compare(ValueType::I64, Comparison::Ne))), // 52
    Shape::Whole(Op::Plain(Plain::Compare(ValueType::I64, Comparison::LtS))), // 53
    Shape::Whole(Op::Plain(Plain::Compare(ValueType::I64, Comparison::LtU))), // 54
    Shape::Whole(Op::Plain(Plain::Compare(ValueType::I64, Comparison::GtS))), // 55
    Shape::Whole(Op::Plain(Plain::Compare(ValueType::I64, Comparison::GtU))), // 56
    Shape::Whole(Op::Plain(Plain::Compare(ValueType::I64, Comparison::LeS))), // 57
    Shape::Whole(Op::Plain(Plain::Compare(ValueType::I64, Comparison::LeU))), // 58
    Shape::Whole(Op::Plain(Plain::Compare(ValueType::I64, Comparison::GeS))), // 59
    Shape::Whole(Op::Plain(Plain::Compare(ValueType::I64, Comparison::GeU))), // 5a
    Shape::Float, // 5b
    Shape::Float, // 5c
    Shape::Float, // 5d
    Shape::Float, // 5e
    Shape::Float, // 5f
    Shape::Float, // 60
    Shape::Float, // 61
    Shape::Float, // 62
    Shape::Float, // 63
    Shape::Float, // 64
    Shape::Float, // 65
    Shape::Float, // 66
    Shape::Whole(Op::Plain(Plain::Unary(ValueType::I32, UnaryOperator::Clz))), // 67
    Shape::Whole(Op::Plain(Plain::Unary(ValueType::I32, UnaryOperator::Ctz))), // 68
    Shape::Whole(Op::Plain(Plain::Unary(ValueType::I32, UnaryOperator::Popcnt))), // 69
    Shape::Whole(Op::Plain(Plain::Binary(ValueType::I32, BinaryOperator::Add))), // 6a
    Shape::Whole(Op::Plain(Plain::Binary(ValueType::I32, BinaryOperator::Sub))), // 6b
    Shape::Whole(Op::Plain(Plain::Binary(ValueType::I32, BinaryOperator::Mul))), // 6c
    Shape::Whole(Op::Plain(Plain::Binary(ValueType::I32, BinaryOperator::DivS))), // 6d
    Shape::Whole(Op::Plain(Plain::Binary(ValueType::I32, BinaryOperator::DivU))), // 6e
    Shape::Whole(Op::Plain(Plain::Binary(ValueType::I32, BinaryOperator::RemS))), // 6f
    Shape::Whole(Op::Plain(Plain::Binary(ValueType::I32, BinaryOperator::RemU))), // 70
    Shape::Whole(Op::Plain(Plain::Binary(ValueType::I32, BinaryOperator::And))), // 71
    Shape::Whole(Op::Plain(Plain::Binary(ValueType::I32, BinaryOperator::Or))), // 72
    Shape::Whole(Op::Plain(Plain::Binary(ValueType::I32, BinaryOperator::Xor))), // 73
    Shape::Whole(Op::Plain(Plain::Binary(ValueType::I32, BinaryOperator::Shl))), // 74
    Shape::Whole(Op::Plain(Plain::Binary(ValueType::I32, BinaryOperator::ShrS))), // 75
    Shape::Whole(Op::Plain(Plain::Binary(ValueType::I32, BinaryOperator::ShrU))), // 76
    Shape::Whole(Op::Plain(Plain::Binary(ValueType::I32, BinaryOperator::Rotl))), // 77
    Shape::Whole(Op::Plain(Plain::Binary(ValueType::I32, BinaryOperator::Rotr))), // 78
    Shape::Whole(Op::Plain(Plain::Unary(ValueType::I64, UnaryOperator::Clz))), // 79
    Shape::Whole(Op::Plain(Plain::Unary(ValueType::I64, UnaryOperator::Ctz))), // 7a
    Shape::Whole(Op::Plain(Plain::Unary(ValueType::I64, UnaryOperator::Popcnt))), // 7b
    Shape::Whole(Op::Plain(Plain::Binary(ValueType::I64, BinaryOperator::Add))), // 7c
    Shape::Whole(Op::Plain(Plain::Binary(ValueType::I64, BinaryOperator::Sub))), // 7d
    Shape::Whole(Op::Plain(Plain::Binary(ValueType::I64, BinaryOperator::Mul))), // 7e
    Shape::Whole(Op::Plain(Plain::Binary(ValueType::I64, BinaryOperator::DivS))), // 7f
    Shape::Whole(Op::Plain(Plain::Binary(ValueType::I64, BinaryOperator::DivU))), // 80
    Shape::Whole(Op::Plain(Plain::Binary(ValueType::I64, BinaryOperator::RemS))), // 81
    Shape::Whole(Op::Plain(Plain::Binary(ValueType::I64, BinaryOperator::RemU))), // 82
    Shape::Whole(Op::Plain(Plain::Binary(ValueType::I64, BinaryOperator::And))), // 83
    Shape::Whole(Op::Plain(Plain::Binary(ValueType::I64, BinaryOperator::Or))), // 84
    Shape::Whole(Op::Plain(Plain::Binary(ValueType::I64, BinaryOperator::Xor))), // 85
    Shape::Whole(Op::Plain(Plain::Binary(ValueType::I64, BinaryOperator::Shl))), // 86
    Shape::Whole(Op::Plain(Plain::Binary(ValueType::I64, BinaryOperator::ShrS))), // 87
    Shape::Whole(Op::Plain(Plain::Binary(ValueType::I64, BinaryOperator::ShrU))), // 88
    Shape::Whole(Op::Plain(Plain::Binary(ValueType::I64, BinaryOperator::Rotl))), // 89
    Shape::Whole(Op::Plain(Plain::Binary(ValueType::I64, BinaryOperator::Rotr))), // 8a
    Shape::Float, // 8b
    Shape::Float, // 8c
    Shape::Float, // 8d
    Shape::Float, // 8e
    Shape::Float, // 8f
    Shape::Float, // 90
    Shape::Float, // 91
    Shape::Float, // 92
    Shape::Float, // 93
    Shape::Float, // 94
    Shape::Float, // 95
    Shape::Float, // 96
    Shape::Float, // 97
    Shape::Float, // 98
    Shape::Float, // 99
    Shape::Float, // 9a
    Shape::Float, // 9b
    Shape::Float, // 9c
    Shape::Float, // 9d
    Shape::Float, // 9e
    Shape::Float, // 9f
    Shape::Float, // a0
    Shape::Float, // a1
    Shape::Float, // a2
    Shape::Float, // a3
    Shape::Float, // a4
    Shape::Float, // a5
    Shape::Float, // a6
    Shape::Whole(Op::Plain(Plain::Convert(Conversion::Wrap))), // a7
    Shape::Float, // a8
    Shape::Float, // a9
    Shape::Float, // aa
    Shape::Float, // ab
    Shape::Whole(Op::Plain(Plain::Convert(Conversion::ExtendS))), // ac
    Shape::Whole(Op::Plain(Plain::Convert(Conversion::ExtendU))), // ad
    Shape::Float, // ae
    Shape::Float, // af
    Shape::Float, // b0
    Shape::Float, // b1
    Shape::Float, // b2
    Shape::Float, // b3
    Shape::Float, // b4
    Shape::Float, // b5
    Shape::Float, // b6
    Shape::Float, // b7
    Shape::Float, // b8
    Shape::Float, // b9
    Shape::Float, // ba
    Shape::Float, // bb
    Shape::Float, // bc
    Shape::Float, // bd
    Shape::Float, // be
    Shape::Float, // bf
    Shape::Unknown, // c0
    Shape::Unknown, // c1
    Shape::Unknown, // c2
    Shape::Unknown, // c3
    Shape::Unknown, // c4
    Shape::Unknown, // c5
    Shape::Unknown, // c6
    Shape::Unknown, // c7
    Shape::Unknown, // c8
    Shape::Unknown, // c9
    Shape::Unknown, // ca
    Shape::Unknown, // cb
    Shape::Unknown, // cc
    Shape::Unknown, // cd
    Shape::Unknown, // ce
    Shape::Unknown, // cf
    Shape::Unknown, // d0
    Shape::Unknown, // d1
    Shape::Unknown, // d2
    Shape::Unknown, // d3
    Shape::Unknown, // d4
    Shape::Unknown, // d5
    Shape::Unknown, // d6
    Shape::Unknown, // d7
    Shape::Unknown, // d8
    Shape::Unknown, // d9
    Shape::Unknown, // da
    Shape::Unknown, // db
    Shape::Unknown, // dc
    Shape::Unknown, // dd
    Shape::Unknown, // de
    Shape::Unknown, // df
    Shape::Unknown, // e0
    Shape::Unknown, // e1
    Shape::Unknown, // e2
    Shape::Unknown, // e3
    Shape::Unknown, // e4
    Shape::Unknown, // e5
    Shape::Unknown, // e6
    Shape::Unknown, // e7
    Shape::Unknown, // e8
    Shape::Unknown, // e9
    Shape::Unknown, // ea
    Shape::Unknown, // eb
    Shape::Unknown, // ec
    Shape::Unknown, // ed
    Shape::Unknown, // ee
    Shape::Unknown, // ef
    Shape::Unknown, // f0
    Shape::Unknown, // f1
    Shape::Unknown, // f2
    Shape::Unknown, // f3
    Shape::Unknown, // f4
    Shape::Unknown, // f5
    Shape::Unknown, // f6
    Shape::Unknown, // f7
    Shape::Unknown, // f8
    Shape::Unknown, // f9
    Shape::Unknown, // fa
    Shape::Unknown, // fb
    Shape::Unknown, // fc
    Shape::Unknown, // fd
    Shape::Unknown, // fe
    Shape::Unknown, // ff
];
