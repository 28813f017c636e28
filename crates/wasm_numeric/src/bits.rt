//! Counts of bits (section 4.3.2).
ghost use Rattle.std.specs.Prelude.{◌≡◌, count_ones};
ghost use Rattle.std.specs.Int.{leading_zeros, trailing_zeros};
ghost use Rattle.wasm_tree.specs.Numeric.{unary, width, low};

use crate::conversion::low32;
use wasm_tree::{UnaryOperator, ValueType};

/// What an instruction with one operand gives.
#[inline(always)]
pub fn unary(kind: ValueType, operator: UnaryOperator, x: u64) -> u64
    ensures { result ≡ unary kind operator x }
{
    match operator {
        UnaryOperator::Clz => u64::from(clz(kind, x)),
        UnaryOperator::Ctz => u64::from(ctz(kind, x)),
        UnaryOperator::Popcnt => u64::from(popcnt(kind, x)),
    }
}

#[inline(always)]
fn clz(kind: ValueType, x: u64) -> u32
    ensures { result ≡ leading_zeros (width kind) (low kind x) }
{
    match kind {
        ValueType::I32 => low32(x).leading_zeros(),
        ValueType::I64 => x.leading_zeros(),
    }
}

#[inline(always)]
fn ctz(kind: ValueType, x: u64) -> u32
    ensures { result ≡ trailing_zeros (width kind) (low kind x) }
{
    match kind {
        ValueType::I32 => low32(x).trailing_zeros(),
        ValueType::I64 => x.trailing_zeros(),
    }
}

#[inline(always)]
fn popcnt(kind: ValueType, x: u64) -> u32
    ensures { result ≡ count_ones (low kind x) }
{
    match kind {
        ValueType::I32 => low32(x).count_ones(),
        ValueType::I64 => x.count_ones(),
    }
}
