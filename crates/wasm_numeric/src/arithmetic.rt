//! Instructions with two operands (section 4.3.2).
ghost use Rattle.std.specs.Prelude.{◌≡◌, ◌≢◌, ◌*◌, ◌/◌, ◌%◌, ◌^◌, pos, int_div};
ghost use Rattle.wasm_tree.specs.Numeric.{binary, quotient};

use crate::conversion::{low32, word32, word64};
use wasm_tree::{BinaryOperator, Trap, ValueType};

/// What an instruction with two operands gives, or why it traps.
#[inline(always)]
pub fn binary(kind: ValueType, operator: BinaryOperator, x: u64, y: u64) -> Result<u64, Trap>
    ensures { result ≡ binary kind operator x y }
{
    match kind {
        ValueType::I32 => binary32(operator, low32(x), low32(y)),
        ValueType::I64 => binary64(operator, x, y),
    }
}

#[inline(always)]
fn binary32(operator: BinaryOperator, x: u32, y: u32) -> Result<u64, Trap>
    ensures { result ≡ binary ValueType.I32 operator x y }
{
    match operator {
        BinaryOperator::Add => Ok(u64::from(x.wrapping_add(y))),
        BinaryOperator::Sub => Ok(u64::from(x.wrapping_sub(y))),
        BinaryOperator::Mul => Ok(u64::from(x.wrapping_mul(y))),
        BinaryOperator::DivS => divide_signed32(x, y),
        BinaryOperator::DivU => divide_unsigned32(x, y),
        BinaryOperator::RemS => remainder_signed32(x, y),
        BinaryOperator::RemU => remainder_unsigned32(x, y),
        BinaryOperator::And => Ok(u64::from(x & y)),
        BinaryOperator::Or => Ok(u64::from(x | y)),
        BinaryOperator::Xor => Ok(u64::from(x ^ y)),
        BinaryOperator::Shl => Ok(u64::from(x.wrapping_shl(y % 32))),
        BinaryOperator::ShrS => Ok(word32(x.cast_signed().wrapping_shr(y % 32))),
        BinaryOperator::ShrU => Ok(u64::from(x.wrapping_shr(y % 32))),
        BinaryOperator::Rotl => Ok(u64::from(x.rotate_left(y % 32))),
        BinaryOperator::Rotr => Ok(u64::from(x.rotate_right(y % 32))),
    }
}

#[inline(always)]
fn binary64(operator: BinaryOperator, x: u64, y: u64) -> Result<u64, Trap>
    ensures { result ≡ binary ValueType.I64 operator x y }
{
    match operator {
        BinaryOperator::Add => Ok(x.wrapping_add(y)),
        BinaryOperator::Sub => Ok(x.wrapping_sub(y)),
        BinaryOperator::Mul => Ok(x.wrapping_mul(y)),
        BinaryOperator::DivS => divide_signed64(x, y),
        BinaryOperator::DivU => divide_unsigned64(x, y),
        BinaryOperator::RemS => remainder_signed64(x, y),
        BinaryOperator::RemU => remainder_unsigned64(x, y),
        BinaryOperator::And => Ok(x & y),
        BinaryOperator::Or => Ok(x | y),
        BinaryOperator::Xor => Ok(x ^ y),
        BinaryOperator::Shl => Ok(x.wrapping_shl((y % 64) as u32)),
        BinaryOperator::ShrS => Ok(word64(x.cast_signed().wrapping_shr((y % 64) as u32))),
        BinaryOperator::ShrU => Ok(x.wrapping_shr((y % 64) as u32)),
        BinaryOperator::Rotl => Ok(x.rotate_left((y % 64) as u32)),
        BinaryOperator::Rotr => Ok(x.rotate_right((y % 64) as u32)),
    }
}

#[inline(always)]
fn divide_signed32(x: u32, y: u32) -> Result<u64, Trap>
    ensures { result ≡ binary ValueType.I32 BinaryOperator.DivS x y }
{
    if y == 0 {
        return Err(Trap::DivideByZero);
    }
    quotient32(x.cast_signed(), y.cast_signed())
}

#[inline(always)]
fn quotient32(x: i32, y: i32) -> Result<u64, Trap>
    requires { y ≢ pos 0 }
    ensures { result ≡ quotient ValueType.I32 (int_div x y) }
{
    if x == i32::MIN && y == -1 {
        return Err(Trap::Overflow);
    }
    Ok(word32(x / y))
}

#[inline(always)]
fn divide_signed64(x: u64, y: u64) -> Result<u64, Trap>
    ensures { result ≡ binary ValueType.I64 BinaryOperator.DivS x y }
{
    if y == 0 {
        return Err(Trap::DivideByZero);
    }
    quotient64(x.cast_signed(), y.cast_signed())
}

#[inline(always)]
fn quotient64(x: i64, y: i64) -> Result<u64, Trap>
    requires { y ≢ pos 0 }
    ensures { result ≡ quotient ValueType.I64 (int_div x y) }
{
    if x == i64::MIN && y == -1 {
        return Err(Trap::Overflow);
    }
    Ok(word64(x / y))
}

#[inline(always)]
fn divide_unsigned32(x: u32, y: u32) -> Result<u64, Trap>
    ensures { result ≡ binary ValueType.I32 BinaryOperator.DivU x y }
{
    if y == 0 {
        return Err(Trap::DivideByZero);
    }
    Ok(u64::from(x / y))
}

#[inline(always)]
fn divide_unsigned64(x: u64, y: u64) -> Result<u64, Trap>
    ensures { result ≡ binary ValueType.I64 BinaryOperator.DivU x y }
{
    if y == 0 {
        return Err(Trap::DivideByZero);
    }
    Ok(x / y)
}

#[inline(always)]
fn remainder_signed32(x: u32, y: u32) -> Result<u64, Trap>
    ensures { result ≡ binary ValueType.I32 BinaryOperator.RemS x y }
{
    if y == 0 {
        return Err(Trap::DivideByZero);
    }
    Ok(word32(x.cast_signed().wrapping_rem(y.cast_signed())))
}

#[inline(always)]
fn remainder_signed64(x: u64, y: u64) -> Result<u64, Trap>
    ensures { result ≡ binary ValueType.I64 BinaryOperator.RemS x y }
{
    if y == 0 {
        return Err(Trap::DivideByZero);
    }
    Ok(word64(x.cast_signed().wrapping_rem(y.cast_signed())))
}

#[inline(always)]
fn remainder_unsigned32(x: u32, y: u32) -> Result<u64, Trap>
    ensures { result ≡ binary ValueType.I32 BinaryOperator.RemU x y }
{
    if y == 0 {
        return Err(Trap::DivideByZero);
    }
    Ok(u64::from(x % y))
}

#[inline(always)]
fn remainder_unsigned64(x: u64, y: u64) -> Result<u64, Trap>
    ensures { result ≡ binary ValueType.I64 BinaryOperator.RemU x y }
{
    if y == 0 {
        return Err(Trap::DivideByZero);
    }
    Ok(x % y)
}
