//! Powers at each kind, by squaring.
ghost use Rattle.std.specs.Prelude.{◌≡◌, ◌∷◌, [], IfOk, Some};
ghost use Rattle.wasm_tree.specs.declared.types.ValueType.TheVariants.{I64};
ghost use Rattle.low_ir.specs.Flat.{flat};
ghost use Rattle.number_routines.specs.Built.{built};
ghost use Rattle.number_routines.specs.Lines.{spare};
ghost use Rattle.number_routines.specs.Powers as powers;

use crate::TrapPlaces;
use crate::forms::of_words;
use low_ir::{LowOp, Operand, Operation, Routine};
use mo_num::{Kind, Memory};
use std::alloc::Global;
use wasm_tree::{BinaryOperator, Comparison, Conversion, ValueType};

/// The power, or the text of an overflow, as where the exponent is negative.
pub fn power(alloc: Global, line: u32, at: TrapPlaces, kind: Kind) -> Result<Routine, Memory>
    ensures { IfOk result (λ routine. routine ≡ built line (I64 ∷ I64 ∷ []) (powers.power_routine 0 at kind)) }
{
    match kind {
        Kind::Nat => natural_power(alloc, line, at, 0x7fff_ffff_ffff_ffff),
        Kind::Nat8 => natural_power(alloc, line, at, 0xff),
        Kind::Nat16 => natural_power(alloc, line, at, 0xffff),
        Kind::Nat32 => natural_power(alloc, line, at, 0xffff_ffff),
        Kind::Nat64 => natural_power(alloc, line, at, -1),
        Kind::Int | Kind::Int64 => signed_power(alloc, line, at, 0x7fff_ffff_ffff_ffff),
        Kind::Int8 => signed_power(alloc, line, at, 0x7f),
        Kind::Int16 => signed_power(alloc, line, at, 0x7fff),
        Kind::Int32 => signed_power(alloc, line, at, 0x7fff_ffff),
    }
}

/// Of natural numbers up to the one of this word.
fn natural_power(alloc: Global, line: u32, at: TrapPlaces, most: i64) -> Result<Routine, Memory>
    ensures { IfOk result (λ routine. routine ≡ record { line = line; params = I64 ∷ I64 ∷ []; locals = spare; result = Some I64; body = flat (powers.natural_power at most) }) }
{
    of_words(
        alloc,
        line,
        &[ValueType::I64, ValueType::I64],
        &[
            LowOp::Set(3, Operation::Copy(Operand::Local(0))),
            LowOp::Set(4, Operation::Copy(Operand::Long(most))),
            LowOp::Set(2, Operation::Copy(Operand::Long(1))),
            LowOp::Block,
            LowOp::Set(5, Operation::IsZero(ValueType::I64, Operand::Local(1))),
            LowOp::BranchIf(Operand::Local(5), 0),
            LowOp::Loop,
            LowOp::Set(
                0,
                Operation::Binary(
                    ValueType::I64,
                    BinaryOperator::And,
                    Operand::Local(1),
                    Operand::Long(1),
                ),
            ),
            LowOp::Set(5, Operation::Convert(Conversion::Wrap, Operand::Local(0))),
            LowOp::If(Operand::Local(5)),
            LowOp::Set(5, Operation::IsZero(ValueType::I64, Operand::Local(2))),
            LowOp::If(Operand::Local(5)),
            LowOp::Else,
            LowOp::Set(
                0,
                Operation::Binary(
                    ValueType::I64,
                    BinaryOperator::DivU,
                    Operand::Local(4),
                    Operand::Local(2),
                ),
            ),
            LowOp::Set(
                5,
                Operation::Compare(
                    ValueType::I64,
                    Comparison::LtU,
                    Operand::Local(0),
                    Operand::Local(3),
                ),
            ),
            LowOp::If(Operand::Local(5)),
            LowOp::Trap(Operand::Word(at.overflow), Operand::Word(19)),
            LowOp::Else,
            LowOp::End,
            LowOp::End,
            LowOp::Set(
                2,
                Operation::Binary(
                    ValueType::I64,
                    BinaryOperator::Mul,
                    Operand::Local(2),
                    Operand::Local(3),
                ),
            ),
            LowOp::Else,
            LowOp::End,
            LowOp::Set(
                1,
                Operation::Binary(
                    ValueType::I64,
                    BinaryOperator::ShrU,
                    Operand::Local(1),
                    Operand::Long(1),
                ),
            ),
            LowOp::Set(5, Operation::IsZero(ValueType::I64, Operand::Local(1))),
            LowOp::BranchIf(Operand::Local(5), 1),
            LowOp::Set(5, Operation::IsZero(ValueType::I64, Operand::Local(3))),
            LowOp::If(Operand::Local(5)),
            LowOp::Else,
            LowOp::Set(
                0,
                Operation::Binary(
                    ValueType::I64,
                    BinaryOperator::DivU,
                    Operand::Local(4),
                    Operand::Local(3),
                ),
            ),
            LowOp::Set(
                5,
                Operation::Compare(
                    ValueType::I64,
                    Comparison::LtU,
                    Operand::Local(0),
                    Operand::Local(3),
                ),
            ),
            LowOp::If(Operand::Local(5)),
            LowOp::Trap(Operand::Word(at.overflow), Operand::Word(19)),
            LowOp::Else,
            LowOp::End,
            LowOp::End,
            LowOp::Set(
                3,
                Operation::Binary(
                    ValueType::I64,
                    BinaryOperator::Mul,
                    Operand::Local(3),
                    Operand::Local(3),
                ),
            ),
            LowOp::Branch(0),
            LowOp::End,
            LowOp::End,
            LowOp::Return(Some(Operand::Local(2))),
        ],
    )
}

/// Of numbers with signs, of which this is the greatest.
fn signed_power(alloc: Global, line: u32, at: TrapPlaces, last: i64) -> Result<Routine, Memory>
    ensures { IfOk result (λ routine. routine ≡ record { line = line; params = I64 ∷ I64 ∷ []; locals = spare; result = Some I64; body = flat (powers.signed_power at last) }) }
{
    of_words(
        alloc,
        line,
        &[ValueType::I64, ValueType::I64],
        &[
            LowOp::Set(
                5,
                Operation::Compare(
                    ValueType::I64,
                    Comparison::LtS,
                    Operand::Local(1),
                    Operand::Long(0),
                ),
            ),
            LowOp::If(Operand::Local(5)),
            LowOp::Trap(Operand::Word(at.overflow), Operand::Word(19)),
            LowOp::Else,
            LowOp::End,
            LowOp::Set(3, Operation::Copy(Operand::Local(0))),
            LowOp::Set(
                6,
                Operation::Compare(
                    ValueType::I64,
                    Comparison::LtS,
                    Operand::Local(0),
                    Operand::Long(0),
                ),
            ),
            LowOp::If(Operand::Local(6)),
            LowOp::Set(
                3,
                Operation::Binary(
                    ValueType::I64,
                    BinaryOperator::Sub,
                    Operand::Long(0),
                    Operand::Local(0),
                ),
            ),
            LowOp::Set(
                4,
                Operation::Binary(
                    ValueType::I64,
                    BinaryOperator::And,
                    Operand::Local(1),
                    Operand::Long(1),
                ),
            ),
            LowOp::Set(6, Operation::Convert(Conversion::Wrap, Operand::Local(4))),
            LowOp::Else,
            LowOp::End,
            LowOp::Set(
                4,
                Operation::Convert(Conversion::ExtendU, Operand::Local(6)),
            ),
            LowOp::Set(
                4,
                Operation::Binary(
                    ValueType::I64,
                    BinaryOperator::Add,
                    Operand::Local(4),
                    Operand::Long(last),
                ),
            ),
            LowOp::Set(2, Operation::Copy(Operand::Long(1))),
            LowOp::Block,
            LowOp::Set(5, Operation::IsZero(ValueType::I64, Operand::Local(1))),
            LowOp::BranchIf(Operand::Local(5), 0),
            LowOp::Loop,
            LowOp::Set(
                0,
                Operation::Binary(
                    ValueType::I64,
                    BinaryOperator::And,
                    Operand::Local(1),
                    Operand::Long(1),
                ),
            ),
            LowOp::Set(5, Operation::Convert(Conversion::Wrap, Operand::Local(0))),
            LowOp::If(Operand::Local(5)),
            LowOp::Set(5, Operation::IsZero(ValueType::I64, Operand::Local(2))),
            LowOp::If(Operand::Local(5)),
            LowOp::Else,
            LowOp::Set(
                0,
                Operation::Binary(
                    ValueType::I64,
                    BinaryOperator::DivU,
                    Operand::Local(4),
                    Operand::Local(2),
                ),
            ),
            LowOp::Set(
                5,
                Operation::Compare(
                    ValueType::I64,
                    Comparison::LtU,
                    Operand::Local(0),
                    Operand::Local(3),
                ),
            ),
            LowOp::If(Operand::Local(5)),
            LowOp::Trap(Operand::Word(at.overflow), Operand::Word(19)),
            LowOp::Else,
            LowOp::End,
            LowOp::End,
            LowOp::Set(
                2,
                Operation::Binary(
                    ValueType::I64,
                    BinaryOperator::Mul,
                    Operand::Local(2),
                    Operand::Local(3),
                ),
            ),
            LowOp::Else,
            LowOp::End,
            LowOp::Set(
                1,
                Operation::Binary(
                    ValueType::I64,
                    BinaryOperator::ShrU,
                    Operand::Local(1),
                    Operand::Long(1),
                ),
            ),
            LowOp::Set(5, Operation::IsZero(ValueType::I64, Operand::Local(1))),
            LowOp::BranchIf(Operand::Local(5), 1),
            LowOp::Set(5, Operation::IsZero(ValueType::I64, Operand::Local(3))),
            LowOp::If(Operand::Local(5)),
            LowOp::Else,
            LowOp::Set(
                0,
                Operation::Binary(
                    ValueType::I64,
                    BinaryOperator::DivU,
                    Operand::Local(4),
                    Operand::Local(3),
                ),
            ),
            LowOp::Set(
                5,
                Operation::Compare(
                    ValueType::I64,
                    Comparison::LtU,
                    Operand::Local(0),
                    Operand::Local(3),
                ),
            ),
            LowOp::If(Operand::Local(5)),
            LowOp::Trap(Operand::Word(at.overflow), Operand::Word(19)),
            LowOp::Else,
            LowOp::End,
            LowOp::End,
            LowOp::Set(
                3,
                Operation::Binary(
                    ValueType::I64,
                    BinaryOperator::Mul,
                    Operand::Local(3),
                    Operand::Local(3),
                ),
            ),
            LowOp::Branch(0),
            LowOp::End,
            LowOp::End,
            LowOp::If(Operand::Local(6)),
            LowOp::Set(
                2,
                Operation::Binary(
                    ValueType::I64,
                    BinaryOperator::Sub,
                    Operand::Long(0),
                    Operand::Local(2),
                ),
            ),
            LowOp::Else,
            LowOp::End,
            LowOp::Return(Some(Operand::Local(2))),
        ],
    )
}
