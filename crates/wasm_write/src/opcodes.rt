//! The codes of instructions (WebAssembly Core 1.0, section 5.4).
ghost use Rattle.std.specs.Prelude.{◌≡◌, ◌+◌};
ghost use Rattle.wasm_tree.specs.Opcodes.{load_code, store_code, equals_zero_code, first_comparison, comparison_place, first_unary, unary_place, first_binary, binary_place, conversion_code};

use wasm_tree::{
    BinaryOperator, Comparison, Conversion, LoadKind, StoreKind, UnaryOperator, ValueType,
};

pub(crate) fn load_code(kind: LoadKind) -> u8
    ensures { result ≡ load_code kind }
{
    match kind {
        LoadKind::I32 => 0x28,
        LoadKind::I64 => 0x29,
        LoadKind::I32From8S => 0x2c,
        LoadKind::I32From8U => 0x2d,
        LoadKind::I32From16S => 0x2e,
        LoadKind::I32From16U => 0x2f,
        LoadKind::I64From8S => 0x30,
        LoadKind::I64From8U => 0x31,
        LoadKind::I64From16S => 0x32,
        LoadKind::I64From16U => 0x33,
        LoadKind::I64From32S => 0x34,
        LoadKind::I64From32U => 0x35,
    }
}

pub(crate) fn store_code(kind: StoreKind) -> u8
    ensures { result ≡ store_code kind }
{
    match kind {
        StoreKind::I32 => 0x36,
        StoreKind::I64 => 0x37,
        StoreKind::I32To8 => 0x3a,
        StoreKind::I32To16 => 0x3b,
        StoreKind::I64To8 => 0x3c,
        StoreKind::I64To16 => 0x3d,
        StoreKind::I64To32 => 0x3e,
    }
}

pub(crate) fn equals_zero_code(kind: ValueType) -> u8
    ensures { result ≡ equals_zero_code kind }
{
    match kind {
        ValueType::I32 => 0x45,
        ValueType::I64 => 0x50,
    }
}

fn comparison_place(comparison: Comparison) -> u8
    ensures { result ≡ comparison_place comparison }
{
    match comparison {
        Comparison::Eq => 0,
        Comparison::Ne => 1,
        Comparison::LtS => 2,
        Comparison::LtU => 3,
        Comparison::GtS => 4,
        Comparison::GtU => 5,
        Comparison::LeS => 6,
        Comparison::LeU => 7,
        Comparison::GeS => 8,
        Comparison::GeU => 9,
    }
}

fn unary_place(operator: UnaryOperator) -> u8
    ensures { result ≡ unary_place operator }
{
    match operator {
        UnaryOperator::Clz => 0,
        UnaryOperator::Ctz => 1,
        UnaryOperator::Popcnt => 2,
    }
}

fn binary_place(operator: BinaryOperator) -> u8
    ensures { result ≡ binary_place operator }
{
    match operator {
        BinaryOperator::Add => 0,
        BinaryOperator::Sub => 1,
        BinaryOperator::Mul => 2,
        BinaryOperator::DivS => 3,
        BinaryOperator::DivU => 4,
        BinaryOperator::RemS => 5,
        BinaryOperator::RemU => 6,
        BinaryOperator::And => 7,
        BinaryOperator::Or => 8,
        BinaryOperator::Xor => 9,
        BinaryOperator::Shl => 10,
        BinaryOperator::ShrS => 11,
        BinaryOperator::ShrU => 12,
        BinaryOperator::Rotl => 13,
        BinaryOperator::Rotr => 14,
    }
}

pub(crate) fn comparison_code(kind: ValueType, comparison: Comparison) -> u8
    ensures { result ≡ first_comparison kind + comparison_place comparison }
{
    match kind {
        ValueType::I32 => 0x46 + comparison_place(comparison),
        ValueType::I64 => 0x51 + comparison_place(comparison),
    }
}

pub(crate) fn unary_code(kind: ValueType, operator: UnaryOperator) -> u8
    ensures { result ≡ first_unary kind + unary_place operator }
{
    match kind {
        ValueType::I32 => 0x67 + unary_place(operator),
        ValueType::I64 => 0x79 + unary_place(operator),
    }
}

pub(crate) fn binary_code(kind: ValueType, operator: BinaryOperator) -> u8
    ensures { result ≡ first_binary kind + binary_place operator }
{
    match kind {
        ValueType::I32 => 0x6a + binary_place(operator),
        ValueType::I64 => 0x7c + binary_place(operator),
    }
}

pub(crate) fn conversion_code(conversion: Conversion) -> u8
    ensures { result ≡ conversion_code conversion }
{
    match conversion {
        Conversion::Wrap => 0xa7,
        Conversion::ExtendS => 0xac,
        Conversion::ExtendU => 0xad,
    }
}
