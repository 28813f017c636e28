//! The forms of negation, of wrapping and of comparison.
ghost use Rattle.std.specs.Prelude.{◌≡◌, ◌∷◌, [], IfOk};
ghost use Rattle.wasm_tree.specs.declared.types.ValueType.TheVariants.{I64};
ghost use Rattle.number_routines.specs.Built.{built};
ghost use Rattle.number_routines.specs.Codes as codes;
ghost use Rattle.number_routines.specs.Lines.{of_one, of_two};

use crate::TrapPlaces;
use crate::forms::of_words;
use low_ir::{LowOp, Operand, Operation, Routine};
use mo_num::Memory;
use std::alloc::Global;
use wasm_tree::{BinaryOperator, Comparison, Conversion, ValueType};

/// A natural number with the other sign, which only 0 has.
pub(crate) fn no_negative(alloc: Global, line: u32, at: TrapPlaces) -> Result<Routine, Memory>
    ensures { IfOk result (λ routine. routine ≡ built line (I64 ∷ []) (of_one 0 (codes.no_negative at 1 2 3 4 5))) }
{
    of_words(
        alloc,
        line,
        &[ValueType::I64],
        &[
            LowOp::Set(
                4,
                Operation::Compare(
                    ValueType::I64,
                    Comparison::Ne,
                    Operand::Local(0),
                    Operand::Long(0),
                ),
            ),
            LowOp::If(Operand::Local(4)),
            LowOp::Trap(Operand::Word(at.overflow), Operand::Word(19)),
            LowOp::Else,
            LowOp::End,
            LowOp::Set(1, Operation::Copy(Operand::Local(0))),
            LowOp::Return(Some(Operand::Local(1))),
        ],
    )
}

/// A number with the other sign, of those of which this is the least.
pub(crate) fn signed_negative(
    alloc: Global,
    line: u32,
    at: TrapPlaces,
    first: i64,
) -> Result<Routine, Memory>
    ensures { IfOk result (λ routine. routine ≡ built line (I64 ∷ []) (of_one 0 (codes.signed_negative at 1 2 3 4 5 first))) }
{
    of_words(
        alloc,
        line,
        &[ValueType::I64],
        &[
            LowOp::Set(
                4,
                Operation::Compare(
                    ValueType::I64,
                    Comparison::Eq,
                    Operand::Local(0),
                    Operand::Long(first),
                ),
            ),
            LowOp::If(Operand::Local(4)),
            LowOp::Trap(Operand::Word(at.overflow), Operand::Word(19)),
            LowOp::Else,
            LowOp::End,
            LowOp::Set(
                1,
                Operation::Binary(
                    ValueType::I64,
                    BinaryOperator::Sub,
                    Operand::Long(0),
                    Operand::Local(0),
                ),
            ),
            LowOp::Return(Some(Operand::Local(1))),
        ],
    )
}

/// What 64 bits make of a result.
pub(crate) fn turned(alloc: Global, line: u32, operator: BinaryOperator) -> Result<Routine, Memory>
    ensures { IfOk result (λ routine. routine ≡ built line (I64 ∷ I64 ∷ []) (of_two 0 (codes.turned 2 operator))) }
{
    of_words(
        alloc,
        line,
        &[ValueType::I64, ValueType::I64],
        &[
            LowOp::Set(
                2,
                Operation::Binary(
                    ValueType::I64,
                    operator,
                    Operand::Local(0),
                    Operand::Local(1),
                ),
            ),
            LowOp::Return(Some(Operand::Local(2))),
        ],
    )
}

/// The low bits of a result, as many as this number has.
pub(crate) fn low_bits(
    alloc: Global,
    line: u32,
    operator: BinaryOperator,
    most: i64,
) -> Result<Routine, Memory>
    ensures { IfOk result (λ routine. routine ≡ built line (I64 ∷ I64 ∷ []) (of_two 0 (codes.low_bits 2 operator most))) }
{
    of_words(
        alloc,
        line,
        &[ValueType::I64, ValueType::I64],
        &[
            LowOp::Set(
                2,
                Operation::Binary(
                    ValueType::I64,
                    operator,
                    Operand::Local(0),
                    Operand::Local(1),
                ),
            ),
            LowOp::Set(
                2,
                Operation::Binary(
                    ValueType::I64,
                    BinaryOperator::And,
                    Operand::Local(2),
                    Operand::Long(most),
                ),
            ),
            LowOp::Return(Some(Operand::Local(2))),
        ],
    )
}

/// The low bits of a result with a sign.
pub(crate) fn signed_bits(
    alloc: Global,
    line: u32,
    operator: BinaryOperator,
    half: i64,
    most: i64,
) -> Result<Routine, Memory>
    ensures { IfOk result (λ routine. routine ≡ built line (I64 ∷ I64 ∷ []) (of_two 0 (codes.signed_bits 2 operator half most))) }
{
    of_words(
        alloc,
        line,
        &[ValueType::I64, ValueType::I64],
        &[
            LowOp::Set(
                2,
                Operation::Binary(
                    ValueType::I64,
                    operator,
                    Operand::Local(0),
                    Operand::Local(1),
                ),
            ),
            LowOp::Set(
                2,
                Operation::Binary(
                    ValueType::I64,
                    BinaryOperator::Add,
                    Operand::Local(2),
                    Operand::Long(half),
                ),
            ),
            LowOp::Set(
                2,
                Operation::Binary(
                    ValueType::I64,
                    BinaryOperator::And,
                    Operand::Local(2),
                    Operand::Long(most),
                ),
            ),
            LowOp::Set(
                2,
                Operation::Binary(
                    ValueType::I64,
                    BinaryOperator::Sub,
                    Operand::Local(2),
                    Operand::Long(half),
                ),
            ),
            LowOp::Return(Some(Operand::Local(2))),
        ],
    )
}

/// Whether a test of two words holds.
pub(crate) fn told(alloc: Global, line: u32, test: Comparison) -> Result<Routine, Memory>
    ensures { IfOk result (λ routine. routine ≡ built line (I64 ∷ I64 ∷ []) (of_two 0 (codes.told 2 5 test))) }
{
    of_words(
        alloc,
        line,
        &[ValueType::I64, ValueType::I64],
        &[
            LowOp::Set(
                5,
                Operation::Compare(ValueType::I64, test, Operand::Local(0), Operand::Local(1)),
            ),
            LowOp::Set(
                2,
                Operation::Convert(Conversion::ExtendU, Operand::Local(5)),
            ),
            LowOp::Return(Some(Operand::Local(2))),
        ],
    )
}
