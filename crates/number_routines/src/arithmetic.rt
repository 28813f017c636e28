//! Arithmetic at each kind.
ghost use Rattle.std.specs.Prelude.{◌≡◌, ◌∷◌, [], IfOk};
ghost use Rattle.wasm_tree.specs.declared.types.ValueType.TheVariants.{I64};
ghost use Rattle.mo_num.specs.Kinds.{IsFixed};
ghost use Rattle.number_routines.specs.Built.{built};
ghost use Rattle.number_routines.specs.Codes as codes;
ghost use Rattle.number_routines.specs.Lines.{of_one, of_two};

use crate::TrapPlaces;
use crate::forms::{
    divided, less, narrow, natural, natural_less, signed_difference, signed_product,
    signed_quotient, signed_sum, wide_product, wide_sum,
};
use crate::short_forms::{low_bits, no_negative, signed_bits, signed_negative, told, turned};
use low_ir::Routine;
use mo_num::{Kind, Memory};
use mo_values::{Comparison, Wrapping};
use std::alloc::Global;
use wasm_tree::{BinaryOperator, Comparison as Test};

/// The sum, or the text of an overflow.
pub fn add(alloc: Global, line: u32, at: TrapPlaces, kind: Kind) -> Result<Routine, Memory>
    ensures { IfOk result (λ routine. routine ≡ built line (I64 ∷ I64 ∷ []) (of_two 0 (codes.add at 2 3 4 5 6 kind))) }
{
    match kind {
        Kind::Nat => natural(alloc, line, at, BinaryOperator::Add, 0x7fff_ffff_ffff_ffff),
        Kind::Int | Kind::Int64 => signed_sum(alloc, line, at),
        Kind::Nat8 => natural(alloc, line, at, BinaryOperator::Add, 0xff),
        Kind::Nat16 => natural(alloc, line, at, BinaryOperator::Add, 0xffff),
        Kind::Nat32 => natural(alloc, line, at, BinaryOperator::Add, 0xffff_ffff),
        Kind::Nat64 => wide_sum(alloc, line, at),
        Kind::Int8 => narrow(alloc, line, at, BinaryOperator::Add, 0x80, 0xff),
        Kind::Int16 => narrow(alloc, line, at, BinaryOperator::Add, 0x8000, 0xffff),
        Kind::Int32 => narrow(
            alloc,
            line,
            at,
            BinaryOperator::Add,
            0x8000_0000,
            0xffff_ffff,
        ),
    }
}

/// The difference, or the text of an overflow; of `Nat` that of an underflow.
pub fn sub(alloc: Global, line: u32, at: TrapPlaces, kind: Kind) -> Result<Routine, Memory>
    ensures { IfOk result (λ routine. routine ≡ built line (I64 ∷ I64 ∷ []) (of_two 0 (codes.sub at 2 3 4 5 6 kind))) }
{
    match kind {
        Kind::Nat => natural_less(alloc, line, at),
        Kind::Int | Kind::Int64 => signed_difference(alloc, line, at),
        Kind::Nat8 | Kind::Nat16 | Kind::Nat32 | Kind::Nat64 => less(alloc, line, at),
        Kind::Int8 => narrow(alloc, line, at, BinaryOperator::Sub, 0x80, 0xff),
        Kind::Int16 => narrow(alloc, line, at, BinaryOperator::Sub, 0x8000, 0xffff),
        Kind::Int32 => narrow(
            alloc,
            line,
            at,
            BinaryOperator::Sub,
            0x8000_0000,
            0xffff_ffff,
        ),
    }
}

/// The product, or the text of an overflow.
pub fn mul(alloc: Global, line: u32, at: TrapPlaces, kind: Kind) -> Result<Routine, Memory>
    ensures { IfOk result (λ routine. routine ≡ built line (I64 ∷ I64 ∷ []) (of_two 0 (codes.mul at 2 3 4 5 6 kind))) }
{
    match kind {
        Kind::Nat => wide_product(alloc, line, at, 0x7fff_ffff_ffff_ffff),
        Kind::Int | Kind::Int64 => signed_product(alloc, line, at),
        Kind::Nat8 => natural(alloc, line, at, BinaryOperator::Mul, 0xff),
        Kind::Nat16 => natural(alloc, line, at, BinaryOperator::Mul, 0xffff),
        Kind::Nat32 => natural(alloc, line, at, BinaryOperator::Mul, 0xffff_ffff),
        Kind::Nat64 => wide_product(alloc, line, at, -1),
        Kind::Int8 => narrow(alloc, line, at, BinaryOperator::Mul, 0x80, 0xff),
        Kind::Int16 => narrow(alloc, line, at, BinaryOperator::Mul, 0x8000, 0xffff),
        Kind::Int32 => narrow(
            alloc,
            line,
            at,
            BinaryOperator::Mul,
            0x8000_0000,
            0xffff_ffff,
        ),
    }
}

/// The quotient, rounded toward zero, or the text of an overflow or of a division by zero.
pub fn div(alloc: Global, line: u32, at: TrapPlaces, kind: Kind) -> Result<Routine, Memory>
    ensures { IfOk result (λ routine. routine ≡ built line (I64 ∷ I64 ∷ []) (of_two 0 (codes.div at 2 3 4 5 6 kind))) }
{
    match kind {
        Kind::Nat | Kind::Nat8 | Kind::Nat16 | Kind::Nat32 | Kind::Nat64 => divided(
            alloc,
            line,
            at,
            BinaryOperator::DivU,
        ),
        Kind::Int | Kind::Int64 => signed_quotient(alloc, line, at, -0x8000_0000_0000_0000),
        Kind::Int8 => signed_quotient(alloc, line, at, -0x80),
        Kind::Int16 => signed_quotient(alloc, line, at, -0x8000),
        Kind::Int32 => signed_quotient(alloc, line, at, -0x8000_0000),
    }
}

/// The remainder, with the dividend's sign, or the text of a division by zero.
pub fn rem(alloc: Global, line: u32, at: TrapPlaces, kind: Kind) -> Result<Routine, Memory>
    ensures { IfOk result (λ routine. routine ≡ built line (I64 ∷ I64 ∷ []) (of_two 0 (codes.rem at 2 3 4 5 6 kind))) }
{
    match kind {
        Kind::Nat | Kind::Nat8 | Kind::Nat16 | Kind::Nat32 | Kind::Nat64 => divided(
            alloc,
            line,
            at,
            BinaryOperator::RemU,
        ),
        Kind::Int | Kind::Int8 | Kind::Int16 | Kind::Int32 | Kind::Int64 => divided(
            alloc,
            line,
            at,
            BinaryOperator::RemS,
        ),
    }
}

/// The number with the other sign, or the text of an overflow.
pub fn negate(alloc: Global, line: u32, at: TrapPlaces, kind: Kind) -> Result<Routine, Memory>
    ensures { IfOk result (λ routine. routine ≡ built line (I64 ∷ []) (of_one 0 (codes.negate at 1 2 3 4 5 kind))) }
{
    match kind {
        Kind::Nat | Kind::Nat8 | Kind::Nat16 | Kind::Nat32 | Kind::Nat64 => no_negative(
            alloc, line, at,
        ),
        Kind::Int | Kind::Int64 => signed_negative(alloc, line, at, -0x8000_0000_0000_0000),
        Kind::Int8 => signed_negative(alloc, line, at, -0x80),
        Kind::Int16 => signed_negative(alloc, line, at, -0x8000),
        Kind::Int32 => signed_negative(alloc, line, at, -0x8000_0000),
    }
}

/// The sum, difference or product, wrapped to the width of the kind, which has one.
pub fn wrap(alloc: Global, line: u32, wrapping: Wrapping, kind: Kind) -> Result<Routine, Memory>
    requires { IsFixed kind }
    ensures { IfOk result (λ routine. routine ≡ built line (I64 ∷ I64 ∷ []) (of_two 0 (codes.wrap 2 wrapping kind))) }
{
    let operator = operator_of(wrapping);
    match kind {
        Kind::Nat | Kind::Int | Kind::Nat64 | Kind::Int64 => turned(alloc, line, operator),
        Kind::Nat8 => low_bits(alloc, line, operator, 0xff),
        Kind::Nat16 => low_bits(alloc, line, operator, 0xffff),
        Kind::Nat32 => low_bits(alloc, line, operator, 0xffff_ffff),
        Kind::Int8 => signed_bits(alloc, line, operator, 0x80, 0xff),
        Kind::Int16 => signed_bits(alloc, line, operator, 0x8000, 0xffff),
        Kind::Int32 => signed_bits(alloc, line, operator, 0x8000_0000, 0xffff_ffff),
    }
}

fn operator_of(wrapping: Wrapping) -> BinaryOperator
    ensures { result ≡ codes.wrapping_operator wrapping }
{
    match wrapping {
        Wrapping::AddWrap => BinaryOperator::Add,
        Wrapping::SubWrap => BinaryOperator::Sub,
        Wrapping::MulWrap => BinaryOperator::Mul,
    }
}

/// Whether two numbers of the kind are in an order.
pub fn order(
    alloc: Global,
    line: u32,
    comparison: Comparison,
    kind: Kind,
) -> Result<Routine, Memory>
    ensures { IfOk result (λ routine. routine ≡ built line (I64 ∷ I64 ∷ []) (of_two 0 (codes.order 2 5 comparison kind))) }
{
    told(alloc, line, test_of(comparison, kind))
}

fn test_of(comparison: Comparison, kind: Kind) -> Test
    ensures { result ≡ codes.test_of kind comparison }
{
    match kind {
        Kind::Nat64 => match comparison {
            Comparison::Less => Test::LtU,
            Comparison::LessOrEqual => Test::LeU,
            Comparison::Greater => Test::GtU,
            Comparison::GreaterOrEqual => Test::GeU,
        },
        Kind::Nat
        | Kind::Nat8
        | Kind::Nat16
        | Kind::Nat32
        | Kind::Int
        | Kind::Int8
        | Kind::Int16
        | Kind::Int32
        | Kind::Int64 => match comparison {
            Comparison::Less => Test::LtS,
            Comparison::LessOrEqual => Test::LeS,
            Comparison::Greater => Test::GtS,
            Comparison::GreaterOrEqual => Test::GeS,
        },
    }
}

/// Whether two numbers of one kind are the same; so it is of truth values and characters, whose words are numbers.
pub fn sameness(alloc: Global, line: u32) -> Result<Routine, Memory>
    ensures { IfOk result (λ routine. routine ≡ built line (I64 ∷ I64 ∷ []) (of_two 0 (codes.sameness 2 5))) }
{
    told(alloc, line, Test::Eq)
}
