//! The forms of exact arithmetic, each for all kinds whose ranges have that form.
ghost use Rattle.std.specs.Prelude.{◌≡◌, ◌∷◌, [], IfOk, Some};
ghost use Rattle.wasm_tree.specs.declared.types.ValueType.TheVariants.{I64};
ghost use Rattle.mo_num.specs.declared.operator.NumTrap.TheVariants as cause;
ghost use Rattle.number_routines.specs.Built.{built};
ghost use Rattle.number_routines.specs.Codes as codes;
ghost use Rattle.number_routines.specs.Lines.{of_two, spare};

use crate::TrapPlaces;
use low_ir::{LowOp, Operand, Operation, Routine, copied};
use mo_num::Memory;
use std::alloc::Global;
use wasm_tree::{BinaryOperator, Comparison, Conversion, ValueType};

/// A routine that gives a word of 64 bits, with locals for three words and two tests.
pub(crate) fn of_words(
    alloc: Global,
    line: u32,
    params: &[ValueType],
    body: &[LowOp],
) -> Result<Routine, Memory>
    ensures { IfOk result (λ routine. routine ≡ record { line = line; params = params.now; locals = spare; result = Some I64; body = body.now }) }
{
    Ok(Routine {
        line,
        params: copied(alloc, params)?,
        locals: copied(
            alloc,
            &[
                ValueType::I64,
                ValueType::I64,
                ValueType::I64,
                ValueType::I32,
                ValueType::I32,
            ],
        )?,
        result: Some(ValueType::I64),
        body: copied(alloc, body)?,
    })
}

/// What an operator gives exactly, where it is at most a number.
pub(crate) fn natural(
    alloc: Global,
    line: u32,
    at: TrapPlaces,
    operator: BinaryOperator,
    most: i64,
) -> Result<Routine, Memory>
    ensures { IfOk result (λ routine. routine ≡ built line (I64 ∷ I64 ∷ []) (of_two 0 (codes.natural at 2 3 4 5 6 operator most))) }
{
    of_words(
        alloc,
        line,
        &[ValueType::I64, ValueType::I64],
        &[
            LowOp::Set(
                2,
                Operation::Binary(
                    ValueType::I64,
                    operator,
                    Operand::Local(0),
                    Operand::Local(1),
                ),
            ),
            LowOp::Set(
                5,
                Operation::Compare(
                    ValueType::I64,
                    Comparison::GtU,
                    Operand::Local(2),
                    Operand::Long(most),
                ),
            ),
            LowOp::If(Operand::Local(5)),
            LowOp::Trap(Operand::Word(at.overflow), Operand::Word(19)),
            LowOp::Else,
            LowOp::End,
            LowOp::Return(Some(Operand::Local(2))),
        ],
    )
}

/// What an operator gives exactly, where it is at most a number when it is raised by another.
pub(crate) fn narrow(
    alloc: Global,
    line: u32,
    at: TrapPlaces,
    operator: BinaryOperator,
    raised: i64,
    most: i64,
) -> Result<Routine, Memory>
    ensures { IfOk result (λ routine. routine ≡ built line (I64 ∷ I64 ∷ []) (of_two 0 (codes.narrow at 2 3 4 5 6 operator raised most))) }
{
    of_words(
        alloc,
        line,
        &[ValueType::I64, ValueType::I64],
        &[
            LowOp::Set(
                2,
                Operation::Binary(
                    ValueType::I64,
                    operator,
                    Operand::Local(0),
                    Operand::Local(1),
                ),
            ),
            LowOp::Set(
                3,
                Operation::Binary(
                    ValueType::I64,
                    BinaryOperator::Add,
                    Operand::Local(2),
                    Operand::Long(raised),
                ),
            ),
            LowOp::Set(
                5,
                Operation::Compare(
                    ValueType::I64,
                    Comparison::GtU,
                    Operand::Local(3),
                    Operand::Long(most),
                ),
            ),
            LowOp::If(Operand::Local(5)),
            LowOp::Trap(Operand::Word(at.overflow), Operand::Word(19)),
            LowOp::Else,
            LowOp::End,
            LowOp::Return(Some(Operand::Local(2))),
        ],
    )
}

/// The sum of numbers of 64 bits without signs.
pub(crate) fn wide_sum(alloc: Global, line: u32, at: TrapPlaces) -> Result<Routine, Memory>
    ensures { IfOk result (λ routine. routine ≡ built line (I64 ∷ I64 ∷ []) (of_two 0 (codes.wide_sum at 2 3 4 5 6))) }
{
    of_words(
        alloc,
        line,
        &[ValueType::I64, ValueType::I64],
        &[
            LowOp::Set(
                2,
                Operation::Binary(
                    ValueType::I64,
                    BinaryOperator::Add,
                    Operand::Local(0),
                    Operand::Local(1),
                ),
            ),
            LowOp::Set(
                5,
                Operation::Compare(
                    ValueType::I64,
                    Comparison::LtU,
                    Operand::Local(2),
                    Operand::Local(0),
                ),
            ),
            LowOp::If(Operand::Local(5)),
            LowOp::Trap(Operand::Word(at.overflow), Operand::Word(19)),
            LowOp::Else,
            LowOp::End,
            LowOp::Return(Some(Operand::Local(2))),
        ],
    )
}

/// The sum of numbers of 64 bits with signs.
pub(crate) fn signed_sum(alloc: Global, line: u32, at: TrapPlaces) -> Result<Routine, Memory>
    ensures { IfOk result (λ routine. routine ≡ built line (I64 ∷ I64 ∷ []) (of_two 0 (codes.signed_sum at 2 3 4 5 6))) }
{
    of_words(
        alloc,
        line,
        &[ValueType::I64, ValueType::I64],
        &[
            LowOp::Set(
                2,
                Operation::Binary(
                    ValueType::I64,
                    BinaryOperator::Add,
                    Operand::Local(0),
                    Operand::Local(1),
                ),
            ),
            LowOp::Set(
                5,
                Operation::Compare(
                    ValueType::I64,
                    Comparison::LtS,
                    Operand::Local(2),
                    Operand::Local(0),
                ),
            ),
            LowOp::Set(
                6,
                Operation::Compare(
                    ValueType::I64,
                    Comparison::LtS,
                    Operand::Local(1),
                    Operand::Long(0),
                ),
            ),
            LowOp::Set(
                5,
                Operation::Compare(
                    ValueType::I32,
                    Comparison::Ne,
                    Operand::Local(5),
                    Operand::Local(6),
                ),
            ),
            LowOp::If(Operand::Local(5)),
            LowOp::Trap(Operand::Word(at.overflow), Operand::Word(19)),
            LowOp::Else,
            LowOp::End,
            LowOp::Return(Some(Operand::Local(2))),
        ],
    )
}

/// The difference of numbers of 64 bits with signs.
pub(crate) fn signed_difference(alloc: Global, line: u32, at: TrapPlaces) -> Result<Routine, Memory>
    ensures { IfOk result (λ routine. routine ≡ built line (I64 ∷ I64 ∷ []) (of_two 0 (codes.signed_difference at 2 3 4 5 6))) }
{
    of_words(
        alloc,
        line,
        &[ValueType::I64, ValueType::I64],
        &[
            LowOp::Set(
                2,
                Operation::Binary(
                    ValueType::I64,
                    BinaryOperator::Sub,
                    Operand::Local(0),
                    Operand::Local(1),
                ),
            ),
            LowOp::Set(
                5,
                Operation::Compare(
                    ValueType::I64,
                    Comparison::LtS,
                    Operand::Local(0),
                    Operand::Local(2),
                ),
            ),
            LowOp::Set(
                6,
                Operation::Compare(
                    ValueType::I64,
                    Comparison::LtS,
                    Operand::Local(1),
                    Operand::Long(0),
                ),
            ),
            LowOp::Set(
                5,
                Operation::Compare(
                    ValueType::I32,
                    Comparison::Ne,
                    Operand::Local(5),
                    Operand::Local(6),
                ),
            ),
            LowOp::If(Operand::Local(5)),
            LowOp::Trap(Operand::Word(at.overflow), Operand::Word(19)),
            LowOp::Else,
            LowOp::End,
            LowOp::Return(Some(Operand::Local(2))),
        ],
    )
}

/// The difference of numbers of a width without signs.
pub(crate) fn less(alloc: Global, line: u32, at: TrapPlaces) -> Result<Routine, Memory>
    ensures { IfOk result (λ routine. routine ≡ built line (I64 ∷ I64 ∷ []) (of_two 0 (codes.less at 2 3 4 5 6 cause.Overflow))) }
{
    of_words(
        alloc,
        line,
        &[ValueType::I64, ValueType::I64],
        &[
            LowOp::Set(
                5,
                Operation::Compare(
                    ValueType::I64,
                    Comparison::LtU,
                    Operand::Local(0),
                    Operand::Local(1),
                ),
            ),
            LowOp::If(Operand::Local(5)),
            LowOp::Trap(Operand::Word(at.overflow), Operand::Word(19)),
            LowOp::Else,
            LowOp::End,
            LowOp::Set(
                2,
                Operation::Binary(
                    ValueType::I64,
                    BinaryOperator::Sub,
                    Operand::Local(0),
                    Operand::Local(1),
                ),
            ),
            LowOp::Return(Some(Operand::Local(2))),
        ],
    )
}

/// The difference of natural numbers.
pub(crate) fn natural_less(alloc: Global, line: u32, at: TrapPlaces) -> Result<Routine, Memory>
    ensures { IfOk result (λ routine. routine ≡ built line (I64 ∷ I64 ∷ []) (of_two 0 (codes.less at 2 3 4 5 6 cause.Underflow))) }
{
    of_words(
        alloc,
        line,
        &[ValueType::I64, ValueType::I64],
        &[
            LowOp::Set(
                5,
                Operation::Compare(
                    ValueType::I64,
                    Comparison::LtU,
                    Operand::Local(0),
                    Operand::Local(1),
                ),
            ),
            LowOp::If(Operand::Local(5)),
            LowOp::Trap(Operand::Word(at.underflow), Operand::Word(29)),
            LowOp::Else,
            LowOp::End,
            LowOp::Set(
                2,
                Operation::Binary(
                    ValueType::I64,
                    BinaryOperator::Sub,
                    Operand::Local(0),
                    Operand::Local(1),
                ),
            ),
            LowOp::Return(Some(Operand::Local(2))),
        ],
    )
}

/// The product of natural numbers, where it is at most the number of this word.
pub(crate) fn wide_product(
    alloc: Global,
    line: u32,
    at: TrapPlaces,
    most: i64,
) -> Result<Routine, Memory>
    ensures { IfOk result (λ routine. routine ≡ built line (I64 ∷ I64 ∷ []) (of_two 0 (codes.wide_product at 2 3 4 5 6 most))) }
{
    of_words(
        alloc,
        line,
        &[ValueType::I64, ValueType::I64],
        &[
            LowOp::Set(5, Operation::IsZero(ValueType::I64, Operand::Local(0))),
            LowOp::If(Operand::Local(5)),
            LowOp::Else,
            LowOp::Set(
                2,
                Operation::Binary(
                    ValueType::I64,
                    BinaryOperator::DivU,
                    Operand::Long(most),
                    Operand::Local(0),
                ),
            ),
            LowOp::Set(
                5,
                Operation::Compare(
                    ValueType::I64,
                    Comparison::LtU,
                    Operand::Local(2),
                    Operand::Local(1),
                ),
            ),
            LowOp::If(Operand::Local(5)),
            LowOp::Trap(Operand::Word(at.overflow), Operand::Word(19)),
            LowOp::Else,
            LowOp::End,
            LowOp::End,
            LowOp::Set(
                2,
                Operation::Binary(
                    ValueType::I64,
                    BinaryOperator::Mul,
                    Operand::Local(0),
                    Operand::Local(1),
                ),
            ),
            LowOp::Return(Some(Operand::Local(2))),
        ],
    )
}

/// The product of numbers of 64 bits with signs.
pub(crate) fn signed_product(alloc: Global, line: u32, at: TrapPlaces) -> Result<Routine, Memory>
    ensures { IfOk result (λ routine. routine ≡ built line (I64 ∷ I64 ∷ []) (of_two 0 (codes.signed_product at 2 3 4 5 6))) }
{
    of_words(
        alloc,
        line,
        &[ValueType::I64, ValueType::I64],
        &[
            LowOp::Set(
                5,
                Operation::Compare(
                    ValueType::I64,
                    Comparison::LtS,
                    Operand::Local(0),
                    Operand::Long(0),
                ),
            ),
            LowOp::Set(
                6,
                Operation::Compare(
                    ValueType::I64,
                    Comparison::LtS,
                    Operand::Local(1),
                    Operand::Long(0),
                ),
            ),
            LowOp::Set(3, Operation::Copy(Operand::Local(0))),
            LowOp::If(Operand::Local(5)),
            LowOp::Set(
                3,
                Operation::Binary(
                    ValueType::I64,
                    BinaryOperator::Sub,
                    Operand::Long(0),
                    Operand::Local(0),
                ),
            ),
            LowOp::Else,
            LowOp::End,
            LowOp::Set(4, Operation::Copy(Operand::Local(1))),
            LowOp::If(Operand::Local(6)),
            LowOp::Set(
                4,
                Operation::Binary(
                    ValueType::I64,
                    BinaryOperator::Sub,
                    Operand::Long(0),
                    Operand::Local(1),
                ),
            ),
            LowOp::Else,
            LowOp::End,
            LowOp::Set(
                5,
                Operation::Compare(
                    ValueType::I32,
                    Comparison::Ne,
                    Operand::Local(5),
                    Operand::Local(6),
                ),
            ),
            LowOp::Set(
                2,
                Operation::Convert(Conversion::ExtendU, Operand::Local(5)),
            ),
            LowOp::Set(
                2,
                Operation::Binary(
                    ValueType::I64,
                    BinaryOperator::Add,
                    Operand::Local(2),
                    Operand::Long(0x7fff_ffff_ffff_ffff),
                ),
            ),
            LowOp::Set(5, Operation::IsZero(ValueType::I64, Operand::Local(3))),
            LowOp::If(Operand::Local(5)),
            LowOp::Else,
            LowOp::Set(
                2,
                Operation::Binary(
                    ValueType::I64,
                    BinaryOperator::DivU,
                    Operand::Local(2),
                    Operand::Local(3),
                ),
            ),
            LowOp::Set(
                5,
                Operation::Compare(
                    ValueType::I64,
                    Comparison::LtU,
                    Operand::Local(2),
                    Operand::Local(4),
                ),
            ),
            LowOp::If(Operand::Local(5)),
            LowOp::Trap(Operand::Word(at.overflow), Operand::Word(19)),
            LowOp::Else,
            LowOp::End,
            LowOp::End,
            LowOp::Set(
                2,
                Operation::Binary(
                    ValueType::I64,
                    BinaryOperator::Mul,
                    Operand::Local(0),
                    Operand::Local(1),
                ),
            ),
            LowOp::Return(Some(Operand::Local(2))),
        ],
    )
}

/// A quotient or remainder that is in the range, where the divisor is not 0.
pub(crate) fn divided(
    alloc: Global,
    line: u32,
    at: TrapPlaces,
    operator: BinaryOperator,
) -> Result<Routine, Memory>
    ensures { IfOk result (λ routine. routine ≡ built line (I64 ∷ I64 ∷ []) (of_two 0 (codes.naturals_divided at 2 3 4 5 6 operator))) }
{
    of_words(
        alloc,
        line,
        &[ValueType::I64, ValueType::I64],
        &[
            LowOp::Set(5, Operation::IsZero(ValueType::I64, Operand::Local(1))),
            LowOp::If(Operand::Local(5)),
            LowOp::Trap(Operand::Word(at.divide_by_zero), Operand::Word(14)),
            LowOp::Else,
            LowOp::End,
            LowOp::Set(
                2,
                Operation::Binary(
                    ValueType::I64,
                    operator,
                    Operand::Local(0),
                    Operand::Local(1),
                ),
            ),
            LowOp::Return(Some(Operand::Local(2))),
        ],
    )
}

/// A quotient of numbers with signs, of which this is the least.
pub(crate) fn signed_quotient(
    alloc: Global,
    line: u32,
    at: TrapPlaces,
    first: i64,
) -> Result<Routine, Memory>
    ensures { IfOk result (λ routine. routine ≡ built line (I64 ∷ I64 ∷ []) (of_two 0 (codes.signed_quotient at 2 3 4 5 6 first))) }
{
    of_words(
        alloc,
        line,
        &[ValueType::I64, ValueType::I64],
        &[
            LowOp::Set(5, Operation::IsZero(ValueType::I64, Operand::Local(1))),
            LowOp::If(Operand::Local(5)),
            LowOp::Trap(Operand::Word(at.divide_by_zero), Operand::Word(14)),
            LowOp::Else,
            LowOp::End,
            LowOp::Set(
                5,
                Operation::Compare(
                    ValueType::I64,
                    Comparison::Eq,
                    Operand::Local(0),
                    Operand::Long(first),
                ),
            ),
            LowOp::If(Operand::Local(5)),
            LowOp::Set(
                5,
                Operation::Compare(
                    ValueType::I64,
                    Comparison::Eq,
                    Operand::Local(1),
                    Operand::Long(-1),
                ),
            ),
            LowOp::If(Operand::Local(5)),
            LowOp::Trap(Operand::Word(at.overflow), Operand::Word(19)),
            LowOp::Else,
            LowOp::End,
            LowOp::Else,
            LowOp::End,
            LowOp::Set(
                2,
                Operation::Binary(
                    ValueType::I64,
                    BinaryOperator::DivS,
                    Operand::Local(0),
                    Operand::Local(1),
                ),
            ),
            LowOp::Return(Some(Operand::Local(2))),
        ],
    )
}
