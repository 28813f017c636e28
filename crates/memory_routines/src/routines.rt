//! The routines, for the builder of a run time.
ghost use Rattle.std.specs.Prelude.{◌≡◌, ◌∷◌, [], IfOk};
ghost use Rattle.wasm_tree.specs.declared.types.ValueType.TheVariants.{I32, I64};
ghost use Rattle.memory_routines.specs.Allocation as allocating;
ghost use Rattle.memory_routines.specs.Built.{built};
ghost use Rattle.memory_routines.specs.Copying as copies;
ghost use Rattle.memory_routines.specs.Numerals as numerals;
ghost use Rattle.memory_routines.specs.Order as orders;
ghost use Rattle.memory_routines.specs.Texts as texts;

use low_ir::{LowOp, Operand, Operation, Routine, copied};
use mo_num::Memory;
use std::alloc::Global;
use wasm_tree::{BinaryOperator, Comparison, LoadKind, StoreKind, ValueType};

/// Gives the end of the heap, which it sets so many bytes further, and grows the memory by what that takes.
pub fn allocation(alloc: Global, line: u32) -> Result<Routine, Memory>
    ensures { IfOk result (λ routine. routine ≡ built line (I32 ∷ []) (allocating.allocation 0)) }
{
    Ok(Routine {
        line,
        params: copied(alloc, &[ValueType::I32])?,
        locals: copied(
            alloc,
            &[
                ValueType::I32,
                ValueType::I32,
                ValueType::I32,
                ValueType::I32,
            ],
        )?,
        result: Some(ValueType::I32),
        body: copied(
            alloc,
            &[
                LowOp::Set(4, Operation::Global(0)),
                LowOp::Set(
                    4,
                    Operation::Binary(
                        ValueType::I32,
                        BinaryOperator::Sub,
                        Operand::Word(-65536),
                        Operand::Local(4),
                    ),
                ),
                LowOp::Set(
                    4,
                    Operation::Compare(
                        ValueType::I32,
                        Comparison::GtU,
                        Operand::Local(0),
                        Operand::Local(4),
                    ),
                ),
                LowOp::If(Operand::Local(4)),
                LowOp::Grow(Operand::Word(65537)),
                LowOp::Else,
                LowOp::End,
                LowOp::Set(1, Operation::Global(0)),
                LowOp::Set(
                    1,
                    Operation::Binary(
                        ValueType::I32,
                        BinaryOperator::Add,
                        Operand::Local(1),
                        Operand::Local(0),
                    ),
                ),
                LowOp::Set(
                    2,
                    Operation::Binary(
                        ValueType::I32,
                        BinaryOperator::Add,
                        Operand::Local(1),
                        Operand::Word(65535),
                    ),
                ),
                LowOp::Set(
                    2,
                    Operation::Binary(
                        ValueType::I32,
                        BinaryOperator::ShrU,
                        Operand::Local(2),
                        Operand::Word(16),
                    ),
                ),
                LowOp::Set(3, Operation::Size),
                LowOp::Set(
                    4,
                    Operation::Compare(
                        ValueType::I32,
                        Comparison::GtU,
                        Operand::Local(2),
                        Operand::Local(3),
                    ),
                ),
                LowOp::If(Operand::Local(4)),
                LowOp::Set(
                    2,
                    Operation::Binary(
                        ValueType::I32,
                        BinaryOperator::Sub,
                        Operand::Local(2),
                        Operand::Local(3),
                    ),
                ),
                LowOp::Grow(Operand::Local(2)),
                LowOp::Else,
                LowOp::End,
                LowOp::Set(3, Operation::Global(0)),
                LowOp::SetGlobal(0, Operand::Local(1)),
                LowOp::Return(Some(Operand::Local(3))),
            ],
        )?,
    })
}

/// Copies so many bytes to new memory, by a call of the function that allocates, and gives their place.
pub fn copying(alloc: Global, line: u32, allocates: u32) -> Result<Routine, Memory>
    ensures { IfOk result (λ routine. routine ≡ built line (I32 ∷ I32 ∷ []) (copies.copying 0 allocates)) }
{
    Ok(Routine {
        line,
        params: copied(alloc, &[ValueType::I32, ValueType::I32])?,
        locals: copied(alloc, &[ValueType::I32, ValueType::I32, ValueType::I32])?,
        result: Some(ValueType::I32),
        body: copied(
            alloc,
            &[
                LowOp::Argument(Operand::Local(1)),
                LowOp::Call(Some(2), allocates),
                LowOp::Set(3, Operation::Copy(Operand::Local(2))),
                LowOp::Block,
                LowOp::Loop,
                LowOp::Set(4, Operation::IsZero(ValueType::I32, Operand::Local(1))),
                LowOp::BranchIf(Operand::Local(4), 1),
                LowOp::Set(
                    4,
                    Operation::Load(LoadKind::I32From8U, Operand::Local(0), 0),
                ),
                LowOp::Store(StoreKind::I32To8, Operand::Local(3), 0, Operand::Local(4)),
                LowOp::Set(
                    0,
                    Operation::Binary(
                        ValueType::I32,
                        BinaryOperator::Add,
                        Operand::Local(0),
                        Operand::Word(1),
                    ),
                ),
                LowOp::Set(
                    3,
                    Operation::Binary(
                        ValueType::I32,
                        BinaryOperator::Add,
                        Operand::Local(3),
                        Operand::Word(1),
                    ),
                ),
                LowOp::Set(
                    1,
                    Operation::Binary(
                        ValueType::I32,
                        BinaryOperator::Sub,
                        Operand::Local(1),
                        Operand::Word(1),
                    ),
                ),
                LowOp::Branch(0),
                LowOp::End,
                LowOp::End,
                LowOp::Return(Some(Operand::Local(2))),
            ],
        )?,
    })
}

/// Compares two texts of one length: 1 where they are the same, and 0 else.
pub fn comparison(alloc: Global, line: u32) -> Result<Routine, Memory>
    ensures { IfOk result (λ routine. routine ≡ built line (I32 ∷ I32 ∷ I32 ∷ []) (texts.comparison 0)) }
{
    Ok(Routine {
        line,
        params: copied(alloc, &[ValueType::I32, ValueType::I32, ValueType::I32])?,
        locals: copied(alloc, &[ValueType::I32, ValueType::I32])?,
        result: Some(ValueType::I32),
        body: copied(
            alloc,
            &[
                LowOp::Block,
                LowOp::Loop,
                LowOp::Set(3, Operation::IsZero(ValueType::I32, Operand::Local(2))),
                LowOp::BranchIf(Operand::Local(3), 1),
                LowOp::Set(
                    3,
                    Operation::Load(LoadKind::I32From8U, Operand::Local(0), 0),
                ),
                LowOp::Set(
                    4,
                    Operation::Load(LoadKind::I32From8U, Operand::Local(1), 0),
                ),
                LowOp::Set(
                    3,
                    Operation::Compare(
                        ValueType::I32,
                        Comparison::Ne,
                        Operand::Local(3),
                        Operand::Local(4),
                    ),
                ),
                LowOp::If(Operand::Local(3)),
                LowOp::Return(Some(Operand::Word(0))),
                LowOp::Else,
                LowOp::End,
                LowOp::Set(
                    0,
                    Operation::Binary(
                        ValueType::I32,
                        BinaryOperator::Add,
                        Operand::Local(0),
                        Operand::Word(1),
                    ),
                ),
                LowOp::Set(
                    1,
                    Operation::Binary(
                        ValueType::I32,
                        BinaryOperator::Add,
                        Operand::Local(1),
                        Operand::Word(1),
                    ),
                ),
                LowOp::Set(
                    2,
                    Operation::Binary(
                        ValueType::I32,
                        BinaryOperator::Sub,
                        Operand::Local(2),
                        Operand::Word(1),
                    ),
                ),
                LowOp::Branch(0),
                LowOp::End,
                LowOp::End,
                LowOp::Return(Some(Operand::Word(1))),
            ],
        )?,
    })
}

/// Says which of two texts comes first by their bytes: 0 where the first does, 1 where they are the same, and 2 where the second does.
pub fn ordering(alloc: Global, line: u32) -> Result<Routine, Memory>
    ensures { IfOk result (λ routine. routine ≡ built line (I32 ∷ I32 ∷ I32 ∷ I32 ∷ []) (orders.ordering 0)) }
{
    Ok(Routine {
        line,
        params: copied(
            alloc,
            &[
                ValueType::I32,
                ValueType::I32,
                ValueType::I32,
                ValueType::I32,
            ],
        )?,
        locals: copied(alloc, &[ValueType::I32, ValueType::I32, ValueType::I32])?,
        result: Some(ValueType::I32),
        body: copied(
            alloc,
            &[
                LowOp::Loop,
                LowOp::Set(4, Operation::IsZero(ValueType::I32, Operand::Local(1))),
                LowOp::If(Operand::Local(4)),
                LowOp::Set(4, Operation::IsZero(ValueType::I32, Operand::Local(3))),
                LowOp::Return(Some(Operand::Local(4))),
                LowOp::Else,
                LowOp::End,
                LowOp::Set(4, Operation::IsZero(ValueType::I32, Operand::Local(3))),
                LowOp::If(Operand::Local(4)),
                LowOp::Return(Some(Operand::Word(2))),
                LowOp::Else,
                LowOp::End,
                LowOp::Set(
                    4,
                    Operation::Load(LoadKind::I32From8U, Operand::Local(0), 0),
                ),
                LowOp::Set(
                    5,
                    Operation::Load(LoadKind::I32From8U, Operand::Local(2), 0),
                ),
                LowOp::Set(
                    6,
                    Operation::Compare(
                        ValueType::I32,
                        Comparison::LtU,
                        Operand::Local(4),
                        Operand::Local(5),
                    ),
                ),
                LowOp::If(Operand::Local(6)),
                LowOp::Return(Some(Operand::Word(0))),
                LowOp::Else,
                LowOp::End,
                LowOp::Set(
                    6,
                    Operation::Compare(
                        ValueType::I32,
                        Comparison::LtU,
                        Operand::Local(5),
                        Operand::Local(4),
                    ),
                ),
                LowOp::If(Operand::Local(6)),
                LowOp::Return(Some(Operand::Word(2))),
                LowOp::Else,
                LowOp::End,
                LowOp::Set(
                    0,
                    Operation::Binary(
                        ValueType::I32,
                        BinaryOperator::Add,
                        Operand::Local(0),
                        Operand::Word(1),
                    ),
                ),
                LowOp::Set(
                    1,
                    Operation::Binary(
                        ValueType::I32,
                        BinaryOperator::Sub,
                        Operand::Local(1),
                        Operand::Word(1),
                    ),
                ),
                LowOp::Set(
                    2,
                    Operation::Binary(
                        ValueType::I32,
                        BinaryOperator::Add,
                        Operand::Local(2),
                        Operand::Word(1),
                    ),
                ),
                LowOp::Set(
                    3,
                    Operation::Binary(
                        ValueType::I32,
                        BinaryOperator::Sub,
                        Operand::Local(3),
                        Operand::Word(1),
                    ),
                ),
                LowOp::Branch(0),
                LowOp::End,
                LowOp::Return(Some(Operand::Word(1))),
            ],
        )?,
    })
}

/// Writes a number in decimal digits up to a place, and gives the place where they begin.
pub fn numeral(alloc: Global, line: u32) -> Result<Routine, Memory>
    ensures { IfOk result (λ routine. routine ≡ built line (I32 ∷ I64 ∷ []) (numerals.numeral 0)) }
{
    Ok(Routine {
        line,
        params: copied(alloc, &[ValueType::I32, ValueType::I64])?,
        locals: copied(alloc, &[ValueType::I64, ValueType::I32])?,
        result: Some(ValueType::I32),
        body: copied(
            alloc,
            &[
                LowOp::Loop,
                LowOp::Set(
                    2,
                    Operation::Binary(
                        ValueType::I64,
                        BinaryOperator::RemU,
                        Operand::Local(1),
                        Operand::Long(10),
                    ),
                ),
                LowOp::Set(
                    2,
                    Operation::Binary(
                        ValueType::I64,
                        BinaryOperator::Add,
                        Operand::Local(2),
                        Operand::Long(48),
                    ),
                ),
                LowOp::Set(
                    0,
                    Operation::Binary(
                        ValueType::I32,
                        BinaryOperator::Sub,
                        Operand::Local(0),
                        Operand::Word(1),
                    ),
                ),
                LowOp::Store(StoreKind::I64To8, Operand::Local(0), 0, Operand::Local(2)),
                LowOp::Set(
                    1,
                    Operation::Binary(
                        ValueType::I64,
                        BinaryOperator::DivU,
                        Operand::Local(1),
                        Operand::Long(10),
                    ),
                ),
                LowOp::Set(3, Operation::IsZero(ValueType::I64, Operand::Local(1))),
                LowOp::If(Operand::Local(3)),
                LowOp::Return(Some(Operand::Local(0))),
                LowOp::Else,
                LowOp::End,
                LowOp::Branch(0),
                LowOp::End,
                LowOp::Return(Some(Operand::Local(0))),
            ],
        )?,
    })
}
