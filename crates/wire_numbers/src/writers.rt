//! The routines that write, for the builder of a run time.
ghost use Rattle.std.specs.Prelude.{◌≡◌, ◌∷◌, [], IfOk, Some};
ghost use Rattle.wasm_tree.specs.declared.types.ValueType.TheVariants.{I32, I64};
ghost use Rattle.memory_routines.specs.Built.{built};
ghost use Rattle.wire_numbers.specs.Writers as spec;

use low_ir::{LowOp, Operand, Operation, Routine, copied};
use mo_num::{Kind, Memory};
use std::alloc::Global;
use wasm_tree::{BinaryOperator, Comparison, StoreKind, ValueType};

/// A routine that writes, of this code.
fn of_code(alloc: Global, line: u32, body: &[LowOp]) -> Result<Routine, Memory>
    ensures { IfOk result (λ routine. routine ≡ record { line = line; params = I32 ∷ I64 ∷ []; locals = I64 ∷ I32 ∷ []; result = Some I32; body = body.now }) }
{
    Ok(Routine {
        line,
        params: copied(alloc, &[ValueType::I32, ValueType::I64])?,
        locals: copied(alloc, &[ValueType::I64, ValueType::I32])?,
        result: Some(ValueType::I32),
        body: copied(alloc, body)?,
    })
}

/// Writes a number from 0 on, in base 128.
fn natural_writer(alloc: Global, line: u32) -> Result<Routine, Memory>
    ensures { IfOk result (λ routine. routine ≡ built line (I32 ∷ I64 ∷ []) (spec.writer spec.write_natural 0)) }
{
    of_code(
        alloc,
        line,
        &[
            LowOp::Loop,
            LowOp::Set(
                3,
                Operation::Compare(
                    ValueType::I64,
                    Comparison::LtU,
                    Operand::Local(1),
                    Operand::Long(128),
                ),
            ),
            LowOp::If(Operand::Local(3)),
            LowOp::Set(2, Operation::Copy(Operand::Local(1))),
            LowOp::Store(StoreKind::I64To8, Operand::Local(0), 0, Operand::Local(2)),
            LowOp::Set(
                0,
                Operation::Binary(
                    ValueType::I32,
                    BinaryOperator::Add,
                    Operand::Local(0),
                    Operand::Word(1),
                ),
            ),
            LowOp::Return(Some(Operand::Local(0))),
            LowOp::Else,
            LowOp::End,
            LowOp::Set(
                2,
                Operation::Binary(
                    ValueType::I64,
                    BinaryOperator::RemU,
                    Operand::Local(1),
                    Operand::Long(128),
                ),
            ),
            LowOp::Set(
                2,
                Operation::Binary(
                    ValueType::I64,
                    BinaryOperator::Add,
                    Operand::Local(2),
                    Operand::Long(128),
                ),
            ),
            LowOp::Store(StoreKind::I64To8, Operand::Local(0), 0, Operand::Local(2)),
            LowOp::Set(
                0,
                Operation::Binary(
                    ValueType::I32,
                    BinaryOperator::Add,
                    Operand::Local(0),
                    Operand::Word(1),
                ),
            ),
            LowOp::Set(
                1,
                Operation::Binary(
                    ValueType::I64,
                    BinaryOperator::DivU,
                    Operand::Local(1),
                    Operand::Long(128),
                ),
            ),
            LowOp::Branch(0),
            LowOp::End,
            LowOp::Return(Some(Operand::Local(0))),
        ],
    )
}

/// Writes a number with a sign, in base 128.
fn integer_writer(alloc: Global, line: u32) -> Result<Routine, Memory>
    ensures { IfOk result (λ routine. routine ≡ built line (I32 ∷ I64 ∷ []) (spec.writer spec.write_integer 0)) }
{
    of_code(
        alloc,
        line,
        &[
            LowOp::Set(
                3,
                Operation::Compare(
                    ValueType::I64,
                    Comparison::LtS,
                    Operand::Local(1),
                    Operand::Long(0),
                ),
            ),
            LowOp::If(Operand::Local(3)),
            LowOp::Set(
                1,
                Operation::Binary(
                    ValueType::I64,
                    BinaryOperator::Sub,
                    Operand::Long(-1),
                    Operand::Local(1),
                ),
            ),
            LowOp::Loop,
            LowOp::Set(
                3,
                Operation::Compare(
                    ValueType::I64,
                    Comparison::LtU,
                    Operand::Local(1),
                    Operand::Long(64),
                ),
            ),
            LowOp::If(Operand::Local(3)),
            LowOp::Set(
                2,
                Operation::Binary(
                    ValueType::I64,
                    BinaryOperator::Sub,
                    Operand::Long(127),
                    Operand::Local(1),
                ),
            ),
            LowOp::Store(StoreKind::I64To8, Operand::Local(0), 0, Operand::Local(2)),
            LowOp::Set(
                0,
                Operation::Binary(
                    ValueType::I32,
                    BinaryOperator::Add,
                    Operand::Local(0),
                    Operand::Word(1),
                ),
            ),
            LowOp::Return(Some(Operand::Local(0))),
            LowOp::Else,
            LowOp::End,
            LowOp::Set(
                2,
                Operation::Binary(
                    ValueType::I64,
                    BinaryOperator::RemU,
                    Operand::Local(1),
                    Operand::Long(128),
                ),
            ),
            LowOp::Set(
                2,
                Operation::Binary(
                    ValueType::I64,
                    BinaryOperator::Sub,
                    Operand::Long(255),
                    Operand::Local(2),
                ),
            ),
            LowOp::Store(StoreKind::I64To8, Operand::Local(0), 0, Operand::Local(2)),
            LowOp::Set(
                0,
                Operation::Binary(
                    ValueType::I32,
                    BinaryOperator::Add,
                    Operand::Local(0),
                    Operand::Word(1),
                ),
            ),
            LowOp::Set(
                1,
                Operation::Binary(
                    ValueType::I64,
                    BinaryOperator::DivU,
                    Operand::Local(1),
                    Operand::Long(128),
                ),
            ),
            LowOp::Branch(0),
            LowOp::End,
            LowOp::Else,
            LowOp::End,
            LowOp::Loop,
            LowOp::Set(
                3,
                Operation::Compare(
                    ValueType::I64,
                    Comparison::LtU,
                    Operand::Local(1),
                    Operand::Long(64),
                ),
            ),
            LowOp::If(Operand::Local(3)),
            LowOp::Set(2, Operation::Copy(Operand::Local(1))),
            LowOp::Store(StoreKind::I64To8, Operand::Local(0), 0, Operand::Local(2)),
            LowOp::Set(
                0,
                Operation::Binary(
                    ValueType::I32,
                    BinaryOperator::Add,
                    Operand::Local(0),
                    Operand::Word(1),
                ),
            ),
            LowOp::Return(Some(Operand::Local(0))),
            LowOp::Else,
            LowOp::End,
            LowOp::Set(
                2,
                Operation::Binary(
                    ValueType::I64,
                    BinaryOperator::RemU,
                    Operand::Local(1),
                    Operand::Long(128),
                ),
            ),
            LowOp::Set(
                2,
                Operation::Binary(
                    ValueType::I64,
                    BinaryOperator::Add,
                    Operand::Local(2),
                    Operand::Long(128),
                ),
            ),
            LowOp::Store(StoreKind::I64To8, Operand::Local(0), 0, Operand::Local(2)),
            LowOp::Set(
                0,
                Operation::Binary(
                    ValueType::I32,
                    BinaryOperator::Add,
                    Operand::Local(0),
                    Operand::Word(1),
                ),
            ),
            LowOp::Set(
                1,
                Operation::Binary(
                    ValueType::I64,
                    BinaryOperator::DivU,
                    Operand::Local(1),
                    Operand::Long(128),
                ),
            ),
            LowOp::Branch(0),
            LowOp::End,
            LowOp::Return(Some(Operand::Local(0))),
        ],
    )
}

/// Writes a number of so many bytes.
fn fixed_writer(alloc: Global, line: u32, size: i32, kind: StoreKind) -> Result<Routine, Memory>
    ensures { IfOk result (λ routine. routine ≡ built line (I32 ∷ I64 ∷ []) (spec.writer (spec.write_fixed size kind) 0)) }
{
    of_code(
        alloc,
        line,
        &[
            LowOp::Store(kind, Operand::Local(0), 0, Operand::Local(1)),
            LowOp::Set(
                0,
                Operation::Binary(
                    ValueType::I32,
                    BinaryOperator::Add,
                    Operand::Local(0),
                    Operand::Word(size),
                ),
            ),
            LowOp::Return(Some(Operand::Local(0))),
        ],
    )
}

/// Writes a number of a kind.
pub fn writer(alloc: Global, line: u32, kind: Kind) -> Result<Routine, Memory>
    ensures { IfOk result (λ routine. routine ≡ built line (I32 ∷ I64 ∷ []) (spec.writer (spec.write_kind kind) 0)) }
{
    match kind {
        Kind::Nat => natural_writer(alloc, line),
        Kind::Int => integer_writer(alloc, line),
        Kind::Nat8 | Kind::Int8 => fixed_writer(alloc, line, 1, StoreKind::I64To8),
        Kind::Nat16 | Kind::Int16 => fixed_writer(alloc, line, 2, StoreKind::I64To16),
        Kind::Nat32 | Kind::Int32 => fixed_writer(alloc, line, 4, StoreKind::I64To32),
        Kind::Nat64 | Kind::Int64 => fixed_writer(alloc, line, 8, StoreKind::I64),
    }
}

/// Writes a truth value.
pub fn flag_writer(alloc: Global, line: u32) -> Result<Routine, Memory>
    ensures { IfOk result (λ routine. routine ≡ built line (I32 ∷ I64 ∷ []) (spec.writer spec.write_flag 0)) }
{
    fixed_writer(alloc, line, 1, StoreKind::I64To8)
}
