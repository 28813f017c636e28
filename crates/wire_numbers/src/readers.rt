//! The routines that read, for the builder of a run time.
ghost use Rattle.std.specs.Prelude.{◌≡◌, ◌∷◌, [], IfOk, Some};
ghost use Rattle.wasm_tree.specs.declared.types.ValueType.TheVariants.{I32, I64};
ghost use Rattle.memory_routines.specs.Built.{built};
ghost use Rattle.wire_numbers.specs.Readers as spec;

use low_ir::{LowOp, Operand, Operation, Routine, copied};
use mo_num::{Kind, Memory};
use std::alloc::Global;
use wasm_tree::{BinaryOperator, Comparison, LoadKind, StoreKind, ValueType};

/// A routine that reads, of this code.
fn of_code(alloc: Global, line: u32, body: &[LowOp]) -> Result<Routine, Memory>
    ensures { IfOk result (λ routine. routine ≡ record { line = line; params = I32 ∷ I32 ∷ I32 ∷ []; locals = I64 ∷ I64 ∷ I64 ∷ I32 ∷ I64 ∷ []; result = Some I32; body = body.now }) }
{
    Ok(Routine {
        line,
        params: copied(alloc, &[ValueType::I32, ValueType::I32, ValueType::I32])?,
        locals: copied(
            alloc,
            &[
                ValueType::I64,
                ValueType::I64,
                ValueType::I64,
                ValueType::I32,
                ValueType::I64,
            ],
        )?,
        result: Some(ValueType::I32),
        body: copied(alloc, body)?,
    })
}

/// Reads a number from 0 on, in base 128.
fn natural_reader(alloc: Global, line: u32) -> Result<Routine, Memory>
    ensures { IfOk result (λ routine. routine ≡ built line (I32 ∷ I32 ∷ I32 ∷ []) (spec.reader spec.read_natural 0)) }
{
    of_code(
        alloc,
        line,
        &[
            LowOp::Set(3, Operation::Copy(Operand::Long(0))),
            LowOp::Set(4, Operation::Copy(Operand::Long(1))),
            LowOp::Block,
            LowOp::Loop,
            LowOp::Set(
                6,
                Operation::Compare(
                    ValueType::I32,
                    Comparison::GeU,
                    Operand::Local(0),
                    Operand::Local(1),
                ),
            ),
            LowOp::If(Operand::Local(6)),
            LowOp::Return(Some(Operand::Word(0))),
            LowOp::Else,
            LowOp::End,
            LowOp::Set(
                5,
                Operation::Load(LoadKind::I64From8U, Operand::Local(0), 0),
            ),
            LowOp::Set(
                0,
                Operation::Binary(
                    ValueType::I32,
                    BinaryOperator::Add,
                    Operand::Local(0),
                    Operand::Word(1),
                ),
            ),
            LowOp::Set(
                7,
                Operation::Binary(
                    ValueType::I64,
                    BinaryOperator::RemU,
                    Operand::Local(5),
                    Operand::Long(128),
                ),
            ),
            LowOp::Set(
                7,
                Operation::Binary(
                    ValueType::I64,
                    BinaryOperator::Mul,
                    Operand::Local(7),
                    Operand::Local(4),
                ),
            ),
            LowOp::Set(
                3,
                Operation::Binary(
                    ValueType::I64,
                    BinaryOperator::Add,
                    Operand::Local(3),
                    Operand::Local(7),
                ),
            ),
            LowOp::Set(
                4,
                Operation::Binary(
                    ValueType::I64,
                    BinaryOperator::Mul,
                    Operand::Local(4),
                    Operand::Long(128),
                ),
            ),
            LowOp::Set(
                6,
                Operation::Compare(
                    ValueType::I64,
                    Comparison::LtU,
                    Operand::Local(5),
                    Operand::Long(128),
                ),
            ),
            LowOp::BranchIf(Operand::Local(6), 1),
            LowOp::Set(
                6,
                Operation::Compare(
                    ValueType::I64,
                    Comparison::Eq,
                    Operand::Local(4),
                    Operand::Long(-9223372036854775808),
                ),
            ),
            LowOp::BranchIf(Operand::Local(6), 1),
            LowOp::Branch(0),
            LowOp::End,
            LowOp::End,
            LowOp::Set(
                6,
                Operation::Compare(
                    ValueType::I64,
                    Comparison::GeU,
                    Operand::Local(5),
                    Operand::Long(128),
                ),
            ),
            LowOp::If(Operand::Local(6)),
            LowOp::Set(
                6,
                Operation::Compare(
                    ValueType::I32,
                    Comparison::GeU,
                    Operand::Local(0),
                    Operand::Local(1),
                ),
            ),
            LowOp::If(Operand::Local(6)),
            LowOp::Return(Some(Operand::Word(0))),
            LowOp::Else,
            LowOp::End,
            LowOp::Set(
                5,
                Operation::Load(LoadKind::I64From8U, Operand::Local(0), 0),
            ),
            LowOp::Set(
                0,
                Operation::Binary(
                    ValueType::I32,
                    BinaryOperator::Add,
                    Operand::Local(0),
                    Operand::Word(1),
                ),
            ),
            LowOp::Set(
                6,
                Operation::Compare(
                    ValueType::I64,
                    Comparison::Ne,
                    Operand::Local(5),
                    Operand::Long(0),
                ),
            ),
            LowOp::If(Operand::Local(6)),
            LowOp::Return(Some(Operand::Word(0))),
            LowOp::Else,
            LowOp::End,
            LowOp::Else,
            LowOp::End,
            LowOp::Store(StoreKind::I64, Operand::Local(2), 0, Operand::Local(3)),
            LowOp::Return(Some(Operand::Local(0))),
        ],
    )
}

/// Reads a number with a sign, in base 128.
fn integer_reader(alloc: Global, line: u32) -> Result<Routine, Memory>
    ensures { IfOk result (λ routine. routine ≡ built line (I32 ∷ I32 ∷ I32 ∷ []) (spec.reader spec.read_integer 0)) }
{
    of_code(
        alloc,
        line,
        &[
            LowOp::Set(3, Operation::Copy(Operand::Long(0))),
            LowOp::Set(4, Operation::Copy(Operand::Long(1))),
            LowOp::Block,
            LowOp::Loop,
            LowOp::Set(
                6,
                Operation::Compare(
                    ValueType::I32,
                    Comparison::GeU,
                    Operand::Local(0),
                    Operand::Local(1),
                ),
            ),
            LowOp::If(Operand::Local(6)),
            LowOp::Return(Some(Operand::Word(0))),
            LowOp::Else,
            LowOp::End,
            LowOp::Set(
                5,
                Operation::Load(LoadKind::I64From8U, Operand::Local(0), 0),
            ),
            LowOp::Set(
                0,
                Operation::Binary(
                    ValueType::I32,
                    BinaryOperator::Add,
                    Operand::Local(0),
                    Operand::Word(1),
                ),
            ),
            LowOp::Set(
                7,
                Operation::Binary(
                    ValueType::I64,
                    BinaryOperator::RemU,
                    Operand::Local(5),
                    Operand::Long(128),
                ),
            ),
            LowOp::Set(
                7,
                Operation::Binary(
                    ValueType::I64,
                    BinaryOperator::Mul,
                    Operand::Local(7),
                    Operand::Local(4),
                ),
            ),
            LowOp::Set(
                3,
                Operation::Binary(
                    ValueType::I64,
                    BinaryOperator::Add,
                    Operand::Local(3),
                    Operand::Local(7),
                ),
            ),
            LowOp::Set(
                4,
                Operation::Binary(
                    ValueType::I64,
                    BinaryOperator::Mul,
                    Operand::Local(4),
                    Operand::Long(128),
                ),
            ),
            LowOp::Set(
                6,
                Operation::Compare(
                    ValueType::I64,
                    Comparison::LtU,
                    Operand::Local(5),
                    Operand::Long(128),
                ),
            ),
            LowOp::BranchIf(Operand::Local(6), 1),
            LowOp::Set(
                6,
                Operation::Compare(
                    ValueType::I64,
                    Comparison::Eq,
                    Operand::Local(4),
                    Operand::Long(-9223372036854775808),
                ),
            ),
            LowOp::BranchIf(Operand::Local(6), 1),
            LowOp::Branch(0),
            LowOp::End,
            LowOp::End,
            LowOp::Set(
                6,
                Operation::Compare(
                    ValueType::I64,
                    Comparison::GeU,
                    Operand::Local(5),
                    Operand::Long(128),
                ),
            ),
            LowOp::If(Operand::Local(6)),
            LowOp::Set(
                6,
                Operation::Compare(
                    ValueType::I32,
                    Comparison::GeU,
                    Operand::Local(0),
                    Operand::Local(1),
                ),
            ),
            LowOp::If(Operand::Local(6)),
            LowOp::Return(Some(Operand::Word(0))),
            LowOp::Else,
            LowOp::End,
            LowOp::Set(
                5,
                Operation::Load(LoadKind::I64From8U, Operand::Local(0), 0),
            ),
            LowOp::Set(
                0,
                Operation::Binary(
                    ValueType::I32,
                    BinaryOperator::Add,
                    Operand::Local(0),
                    Operand::Word(1),
                ),
            ),
            LowOp::Set(
                6,
                Operation::Compare(
                    ValueType::I64,
                    Comparison::Ne,
                    Operand::Local(5),
                    Operand::Long(0),
                ),
            ),
            LowOp::If(Operand::Local(6)),
            LowOp::Set(
                6,
                Operation::Compare(
                    ValueType::I64,
                    Comparison::Ne,
                    Operand::Local(5),
                    Operand::Long(127),
                ),
            ),
            LowOp::If(Operand::Local(6)),
            LowOp::Return(Some(Operand::Word(0))),
            LowOp::Else,
            LowOp::End,
            LowOp::Set(
                3,
                Operation::Binary(
                    ValueType::I64,
                    BinaryOperator::Sub,
                    Operand::Local(3),
                    Operand::Local(4),
                ),
            ),
            LowOp::Else,
            LowOp::End,
            LowOp::Else,
            LowOp::Set(
                6,
                Operation::Compare(
                    ValueType::I64,
                    Comparison::GeU,
                    Operand::Local(5),
                    Operand::Long(64),
                ),
            ),
            LowOp::If(Operand::Local(6)),
            LowOp::Set(
                3,
                Operation::Binary(
                    ValueType::I64,
                    BinaryOperator::Sub,
                    Operand::Local(3),
                    Operand::Local(4),
                ),
            ),
            LowOp::Else,
            LowOp::End,
            LowOp::End,
            LowOp::Store(StoreKind::I64, Operand::Local(2), 0, Operand::Local(3)),
            LowOp::Return(Some(Operand::Local(0))),
        ],
    )
}

/// Reads a number of so many bytes.
fn fixed_reader(alloc: Global, line: u32, size: i32, kind: LoadKind) -> Result<Routine, Memory>
    ensures { IfOk result (λ routine. routine ≡ built line (I32 ∷ I32 ∷ I32 ∷ []) (spec.reader (spec.read_fixed size kind) 0)) }
{
    of_code(
        alloc,
        line,
        &[
            LowOp::Set(
                6,
                Operation::Binary(
                    ValueType::I32,
                    BinaryOperator::Sub,
                    Operand::Local(1),
                    Operand::Local(0),
                ),
            ),
            LowOp::Set(
                6,
                Operation::Compare(
                    ValueType::I32,
                    Comparison::LtU,
                    Operand::Local(6),
                    Operand::Word(size),
                ),
            ),
            LowOp::If(Operand::Local(6)),
            LowOp::Return(Some(Operand::Word(0))),
            LowOp::Else,
            LowOp::End,
            LowOp::Set(3, Operation::Load(kind, Operand::Local(0), 0)),
            LowOp::Set(
                0,
                Operation::Binary(
                    ValueType::I32,
                    BinaryOperator::Add,
                    Operand::Local(0),
                    Operand::Word(size),
                ),
            ),
            LowOp::Store(StoreKind::I64, Operand::Local(2), 0, Operand::Local(3)),
            LowOp::Return(Some(Operand::Local(0))),
        ],
    )
}

/// Reads a number of a kind.
pub fn reader(alloc: Global, line: u32, kind: Kind) -> Result<Routine, Memory>
    ensures { IfOk result (λ routine. routine ≡ built line (I32 ∷ I32 ∷ I32 ∷ []) (spec.reader (spec.read_kind kind) 0)) }
{
    match kind {
        Kind::Nat => natural_reader(alloc, line),
        Kind::Int => integer_reader(alloc, line),
        Kind::Nat8 => fixed_reader(alloc, line, 1, LoadKind::I64From8U),
        Kind::Nat16 => fixed_reader(alloc, line, 2, LoadKind::I64From16U),
        Kind::Nat32 => fixed_reader(alloc, line, 4, LoadKind::I64From32U),
        Kind::Nat64 | Kind::Int64 => fixed_reader(alloc, line, 8, LoadKind::I64),
        Kind::Int8 => fixed_reader(alloc, line, 1, LoadKind::I64From8S),
        Kind::Int16 => fixed_reader(alloc, line, 2, LoadKind::I64From16S),
        Kind::Int32 => fixed_reader(alloc, line, 4, LoadKind::I64From32S),
    }
}

/// Reads a truth value.
pub fn flag_reader(alloc: Global, line: u32) -> Result<Routine, Memory>
    ensures { IfOk result (λ routine. routine ≡ built line (I32 ∷ I32 ∷ I32 ∷ []) (spec.reader spec.read_flag 0)) }
{
    of_code(
        alloc,
        line,
        &[
            LowOp::Set(
                6,
                Operation::Compare(
                    ValueType::I32,
                    Comparison::GeU,
                    Operand::Local(0),
                    Operand::Local(1),
                ),
            ),
            LowOp::If(Operand::Local(6)),
            LowOp::Return(Some(Operand::Word(0))),
            LowOp::Else,
            LowOp::End,
            LowOp::Set(
                5,
                Operation::Load(LoadKind::I64From8U, Operand::Local(0), 0),
            ),
            LowOp::Set(
                0,
                Operation::Binary(
                    ValueType::I32,
                    BinaryOperator::Add,
                    Operand::Local(0),
                    Operand::Word(1),
                ),
            ),
            LowOp::Set(
                6,
                Operation::Compare(
                    ValueType::I64,
                    Comparison::GtU,
                    Operand::Local(5),
                    Operand::Long(1),
                ),
            ),
            LowOp::If(Operand::Local(6)),
            LowOp::Return(Some(Operand::Word(0))),
            LowOp::Else,
            LowOp::End,
            LowOp::Set(3, Operation::Copy(Operand::Local(5))),
            LowOp::Store(StoreKind::I64, Operand::Local(2), 0, Operand::Local(3)),
            LowOp::Return(Some(Operand::Local(0))),
        ],
    )
}
