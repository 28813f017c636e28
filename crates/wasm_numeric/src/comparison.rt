//! Comparisons (section 4.3.2): 1 where they hold, and else 0.
ghost use Rattle.std.specs.Prelude.{◌≡◌, nat_eq, nat_lt, int_lt};
ghost use Rattle.wasm_tree.specs.Numeric.{compare, equals_zero, flag, low, signed};

use crate::conversion::low32;
use wasm_tree::{Comparison, ValueType};

#[inline(always)]
fn flag_of(is: bool) -> u64
    ensures { result ≡ flag is }
{
    if is { 1 } else { 0 }
}

/// Whether the integer is 0.
#[inline(always)]
pub fn equals_zero(kind: ValueType, x: u64) -> u64
    ensures { result ≡ equals_zero kind x }
{
    flag_of(is_same(kind, x, 0))
}

/// What a comparison gives.
#[inline(always)]
pub fn compare(kind: ValueType, comparison: Comparison, x: u64, y: u64) -> u64
    ensures { result ≡ compare kind comparison x y }
{
    match comparison {
        Comparison::Eq => flag_of(is_same(kind, x, y)),
        Comparison::Ne => flag_of(!is_same(kind, x, y)),
        Comparison::LtS => flag_of(is_less_signed(kind, x, y)),
        Comparison::LtU => flag_of(is_less_unsigned(kind, x, y)),
        Comparison::GtS => flag_of(is_less_signed(kind, y, x)),
        Comparison::GtU => flag_of(is_less_unsigned(kind, y, x)),
        Comparison::LeS => flag_of(!is_less_signed(kind, y, x)),
        Comparison::LeU => flag_of(!is_less_unsigned(kind, y, x)),
        Comparison::GeS => flag_of(!is_less_signed(kind, x, y)),
        Comparison::GeU => flag_of(!is_less_unsigned(kind, x, y)),
    }
}

#[inline(always)]
fn is_same(kind: ValueType, x: u64, y: u64) -> bool
    ensures { result ≡ nat_eq (low kind x) (low kind y) }
{
    match kind {
        ValueType::I32 => low32(x) == low32(y),
        ValueType::I64 => x == y,
    }
}

#[inline(always)]
fn is_less_signed(kind: ValueType, x: u64, y: u64) -> bool
    ensures { result ≡ int_lt (signed kind x) (signed kind y) }
{
    match kind {
        ValueType::I32 => low32(x).cast_signed() < low32(y).cast_signed(),
        ValueType::I64 => x.cast_signed() < y.cast_signed(),
    }
}

#[inline(always)]
fn is_less_unsigned(kind: ValueType, x: u64, y: u64) -> bool
    ensures { result ≡ nat_lt (low kind x) (low kind y) }
{
    match kind {
        ValueType::I32 => low32(x) < low32(y),
        ValueType::I64 => x < y,
    }
}
