//! Functions that read arguments, for the builder of a run time.
ghost use Rattle.std.specs.Prelude.{◌≡◌, ◌++◌, ◌∷◌, [], ◌≤◌, length, IfOk, OnOk, pos};
ghost use Rattle.low_ir.specs.Flat.{flat};
ghost use Rattle.low_ir.specs.Tree.{Stop};
ghost use Rattle.memory_routines.specs.Built.{built};
ghost use Rattle.mo_types.specs.Wire as types;
ghost use Rattle.wasm_tree.specs.declared.types.ValueType.TheVariants.{I32};
ghost use Rattle.wire_numbers.specs.Scanning as scanning;
ghost use Rattle.wire_tables.specs.References as references;
ghost use Rattle.wire_messages.specs.Arguments as spec;
ghost use Rattle.wire_messages.specs.ArgumentLists as lists;

use crate::Wired;
use crate::replies::kind_number;
use low_ir::{LowOp, Operand, Operation, Routine, copied};
use mo_num::{Kind, Memory, Sequence};
use std::alloc::Global;
use wasm_tree::{BinaryOperator, Comparison, Conversion, LoadKind, StoreKind, ValueType};

/// The code of a kind of numbers in messages.
fn kind_code(kind: Kind) -> u32
    ensures code { result ≡ types.plain_code (types.plain_number kind) }
    ensures few { result ≤ 127 }
{
    match kind {
        Kind::Nat => 0x7d,
        Kind::Int => 0x7c,
        Kind::Nat8 => 0x7b,
        Kind::Nat16 => 0x7a,
        Kind::Nat32 => 0x79,
        Kind::Nat64 => 0x78,
        Kind::Int8 => 0x77,
        Kind::Int16 => 0x76,
        Kind::Int32 => 0x75,
        Kind::Int64 => 0x74,
    }
}

/// Adds instructions.
fn push_all(ops: &mut Sequence<LowOp>, more: &[LowOp]) -> Result<(), Memory>
    ensures { OnOk result (ops.new ≡ ops.old ++ more.now) }
{
    for op in more {
        ops.push(*op)?;
    }
    Ok(())
}

/// Adds what goes over five digits at most.
fn push_digits(ops: &mut Sequence<LowOp>) -> Result<(), Memory>
    ensures { OnOk result (ops.new ≡ ops.old ++ flat (scanning.scan (pos references.five_digits) Stop)) }
{
    push_all(
        ops,
        &[
            LowOp::Set(3, Operation::Copy(Operand::Long(0))),
            LowOp::Set(4, Operation::Copy(Operand::Long(1))),
            LowOp::Block,
            LowOp::Loop,
            LowOp::Set(
                6,
                Operation::Compare(
                    ValueType::I32,
                    Comparison::GeU,
                    Operand::Local(0),
                    Operand::Local(1),
                ),
            ),
            LowOp::If(Operand::Local(6)),
            LowOp::Return(Some(Operand::Word(0))),
            LowOp::Else,
            LowOp::End,
            LowOp::Set(
                5,
                Operation::Load(LoadKind::I64From8U, Operand::Local(0), 0),
            ),
            LowOp::Set(
                0,
                Operation::Binary(
                    ValueType::I32,
                    BinaryOperator::Add,
                    Operand::Local(0),
                    Operand::Word(1),
                ),
            ),
            LowOp::Set(
                7,
                Operation::Binary(
                    ValueType::I64,
                    BinaryOperator::RemU,
                    Operand::Local(5),
                    Operand::Long(128),
                ),
            ),
            LowOp::Set(
                7,
                Operation::Binary(
                    ValueType::I64,
                    BinaryOperator::Mul,
                    Operand::Local(7),
                    Operand::Local(4),
                ),
            ),
            LowOp::Set(
                3,
                Operation::Binary(
                    ValueType::I64,
                    BinaryOperator::Add,
                    Operand::Local(3),
                    Operand::Local(7),
                ),
            ),
            LowOp::Set(
                4,
                Operation::Binary(
                    ValueType::I64,
                    BinaryOperator::Mul,
                    Operand::Local(4),
                    Operand::Long(128),
                ),
            ),
            LowOp::Set(
                6,
                Operation::Compare(
                    ValueType::I64,
                    Comparison::LtU,
                    Operand::Local(5),
                    Operand::Long(128),
                ),
            ),
            LowOp::BranchIf(Operand::Local(6), 1),
            LowOp::Set(
                6,
                Operation::Compare(
                    ValueType::I64,
                    Comparison::Eq,
                    Operand::Local(4),
                    Operand::Long(34359738368),
                ),
            ),
            LowOp::BranchIf(Operand::Local(6), 1),
            LowOp::Branch(0),
            LowOp::End,
            LowOp::End,
        ],
    )
}

/// Adds the tests of a number of 32 bits.
fn push_count_tests(ops: &mut Sequence<LowOp>) -> Result<(), Memory>
    ensures { OnOk result (ops.new ≡ ops.old ++ flat (references.u32_tests Stop)) }
{
    push_all(
        ops,
        &[
            LowOp::Set(
                6,
                Operation::Compare(
                    ValueType::I64,
                    Comparison::GeU,
                    Operand::Local(5),
                    Operand::Long(128),
                ),
            ),
            LowOp::If(Operand::Local(6)),
            LowOp::Return(Some(Operand::Word(0))),
            LowOp::Else,
            LowOp::End,
            LowOp::Set(
                6,
                Operation::Compare(
                    ValueType::I64,
                    Comparison::GeU,
                    Operand::Local(3),
                    Operand::Long(4294967296),
                ),
            ),
            LowOp::If(Operand::Local(6)),
            LowOp::Return(Some(Operand::Word(0))),
            LowOp::Else,
            LowOp::End,
        ],
    )
}

/// Adds the tests of a reference.
fn push_ref_tests(ops: &mut Sequence<LowOp>) -> Result<(), Memory>
    ensures { OnOk result (ops.new ≡ ops.old ++ flat (references.ref_tests Stop)) }
{
    push_all(
        ops,
        &[
            LowOp::Set(
                6,
                Operation::Compare(
                    ValueType::I64,
                    Comparison::LtU,
                    Operand::Local(5),
                    Operand::Long(64),
                ),
            ),
            LowOp::If(Operand::Local(6)),
            LowOp::Set(
                6,
                Operation::Compare(
                    ValueType::I64,
                    Comparison::GeU,
                    Operand::Local(3),
                    Operand::Local(8),
                ),
            ),
            LowOp::If(Operand::Local(6)),
            LowOp::Return(Some(Operand::Word(0))),
            LowOp::Else,
            LowOp::End,
            LowOp::Else,
            LowOp::Set(
                6,
                Operation::Compare(
                    ValueType::I64,
                    Comparison::Ne,
                    Operand::Local(4),
                    Operand::Long(128),
                ),
            ),
            LowOp::If(Operand::Local(6)),
            LowOp::Return(Some(Operand::Word(0))),
            LowOp::Else,
            LowOp::End,
            LowOp::Set(
                6,
                Operation::Compare(
                    ValueType::I64,
                    Comparison::Eq,
                    Operand::Local(5),
                    Operand::Long(104),
                ),
            ),
            LowOp::If(Operand::Local(6)),
            LowOp::Else,
            LowOp::Set(
                6,
                Operation::Compare(
                    ValueType::I64,
                    Comparison::LtU,
                    Operand::Local(5),
                    Operand::Long(111),
                ),
            ),
            LowOp::If(Operand::Local(6)),
            LowOp::Return(Some(Operand::Word(0))),
            LowOp::Else,
            LowOp::End,
            LowOp::End,
            LowOp::Set(
                3,
                Operation::Binary(
                    ValueType::I64,
                    BinaryOperator::Add,
                    Operand::Local(5),
                    Operand::Long(4096),
                ),
            ),
            LowOp::End,
        ],
    )
}

/// Adds the test of a type without parts.
fn push_code_test(ops: &mut Sequence<LowOp>, code: u32) -> Result<(), Memory>
    requires { code ≤ 127 }
    ensures { OnOk result (ops.new ≡ ops.old ++ flat (spec.is_code code Stop)) }
{
    push_all(
        ops,
        &[
            LowOp::Set(
                6,
                Operation::Compare(
                    ValueType::I64,
                    Comparison::Ne,
                    Operand::Local(3),
                    Operand::Long(4096 + code as i64),
                ),
            ),
            LowOp::If(Operand::Local(6)),
            LowOp::Return(Some(Operand::Word(0))),
            LowOp::Else,
            LowOp::End,
        ],
    )
}

/// Adds the test of a record without fields.
fn push_mark_test(ops: &mut Sequence<LowOp>) -> Result<(), Memory>
    ensures { OnOk result (ops.new ≡ ops.old ++ flat (spec.is_marked Stop)) }
{
    push_all(
        ops,
        &[
            LowOp::Set(
                6,
                Operation::Compare(
                    ValueType::I64,
                    Comparison::GeU,
                    Operand::Local(3),
                    Operand::Long(4096),
                ),
            ),
            LowOp::If(Operand::Local(6)),
            LowOp::Return(Some(Operand::Word(0))),
            LowOp::Else,
            LowOp::End,
            LowOp::Set(9, Operation::Convert(Conversion::Wrap, Operand::Local(3))),
            LowOp::Set(
                9,
                Operation::Binary(
                    ValueType::I32,
                    BinaryOperator::Add,
                    Operand::Local(9),
                    Operand::Local(2),
                ),
            ),
            LowOp::Set(
                5,
                Operation::Load(LoadKind::I64From8U, Operand::Local(9), 8),
            ),
            LowOp::Set(
                6,
                Operation::Compare(
                    ValueType::I64,
                    Comparison::Ne,
                    Operand::Local(5),
                    Operand::Long(2),
                ),
            ),
            LowOp::If(Operand::Local(6)),
            LowOp::Return(Some(Operand::Word(0))),
            LowOp::Else,
            LowOp::End,
        ],
    )
}

/// Adds a call of a function that reads.
fn push_take(ops: &mut Sequence<LowOp>, reads: u32) -> Result<(), Memory>
    ensures { OnOk result (ops.new ≡ ops.old ++ flat (spec.take_value reads Stop)) }
{
    push_all(
        ops,
        &[
            LowOp::Argument(Operand::Local(0)),
            LowOp::Argument(Operand::Local(1)),
            LowOp::Argument(Operand::Local(2)),
            LowOp::Call(Some(0), reads),
            LowOp::Set(6, Operation::IsZero(ValueType::I32, Operand::Local(0))),
            LowOp::If(Operand::Local(6)),
            LowOp::Return(Some(Operand::Word(0))),
            LowOp::Else,
            LowOp::End,
            LowOp::Set(
                2,
                Operation::Binary(
                    ValueType::I32,
                    BinaryOperator::Add,
                    Operand::Local(2),
                    Operand::Word(8),
                ),
            ),
        ],
    )
}

/// Adds what makes the word of ().
fn push_nothing(ops: &mut Sequence<LowOp>) -> Result<(), Memory>
    ensures { OnOk result (ops.new ≡ ops.old ++ flat (spec.take_nothing Stop)) }
{
    push_all(
        ops,
        &[
            LowOp::Store(StoreKind::I64, Operand::Local(2), 0, Operand::Long(0)),
            LowOp::Set(
                2,
                Operation::Binary(
                    ValueType::I32,
                    BinaryOperator::Add,
                    Operand::Local(2),
                    Operand::Word(8),
                ),
            ),
        ],
    )
}

/// Adds the test of the end of the bytes.
fn push_end(ops: &mut Sequence<LowOp>) -> Result<(), Memory>
    ensures { OnOk result (ops.new ≡ ops.old ++ flat spec.at_end) }
{
    push_all(
        ops,
        &[
            LowOp::Set(
                6,
                Operation::Compare(
                    ValueType::I32,
                    Comparison::Ne,
                    Operand::Local(0),
                    Operand::Local(1),
                ),
            ),
            LowOp::If(Operand::Local(6)),
            LowOp::Return(Some(Operand::Word(0))),
            LowOp::Else,
            LowOp::End,
            LowOp::Return(Some(Operand::Word(1))),
        ],
    )
}

/// Adds the call of the function that reads tables.
fn push_table(ops: &mut Sequence<LowOp>, table: u32) -> Result<(), Memory>
    ensures { OnOk result (ops.new ≡ ops.old ++ lists.table_ops table) }
{
    push_all(
        ops,
        &[
            LowOp::Argument(Operand::Local(0)),
            LowOp::Argument(Operand::Local(1)),
            LowOp::Argument(Operand::Local(2)),
            LowOp::Call(Some(0), table),
            LowOp::Set(6, Operation::IsZero(ValueType::I32, Operand::Local(0))),
            LowOp::If(Operand::Local(6)),
            LowOp::Return(Some(Operand::Word(0))),
            LowOp::Else,
            LowOp::End,
            LowOp::Set(8, Operation::Load(LoadKind::I64, Operand::Local(2), 0)),
        ],
    )
}

/// Adds the test of how many types there are.
fn push_count_test(ops: &mut Sequence<LowOp>, count: i64) -> Result<(), Memory>
    ensures { OnOk result (ops.new ≡ ops.old ++ lists.count_ops count) }
{
    push_all(
        ops,
        &[
            LowOp::Set(
                6,
                Operation::Compare(
                    ValueType::I64,
                    Comparison::Ne,
                    Operand::Local(3),
                    Operand::Long(count),
                ),
            ),
            LowOp::If(Operand::Local(6)),
            LowOp::Return(Some(Operand::Word(0))),
            LowOp::Else,
            LowOp::End,
        ],
    )
}

/// Adds what compares a reference with a type.
#[tactic(auto, unfolding(crate::specs::ArgumentLists::type_ops))]
fn push_type(ops: &mut Sequence<LowOp>, wired: Wired) -> Result<(), Memory>
    ensures { OnOk result (ops.new ≡ ops.old ++ lists.type_ops wired) }
{
    push_digits(ops)?;
    push_ref_tests(ops)?;
    match wired {
        Wired::Number(kind) => push_code_test(ops, kind_code(kind)),
        Wired::Truth => push_code_test(ops, 0x7e),
        Wired::Unit => push_mark_test(ops),
    }
}

/// Adds what compares references with types.
fn push_types(ops: &mut Sequence<LowOp>, types: &[Wired]) -> Result<(), Memory>
    ensures { OnOk result (ops.new ≡ ops.old ++ lists.types_ops types.now) }
{
    for wired in types {
        push_type(ops, *wired)?;
    }
    Ok(())
}

/// Adds what reads a value of a type.
fn push_value(ops: &mut Sequence<LowOp>, first: u32, wired: Wired) -> Result<(), Memory>
    requires { first ≤ 100000 }
    ensures { OnOk result (ops.new ≡ ops.old ++ lists.take_ops first wired) }
{
    match wired {
        Wired::Number(kind) => push_take(ops, first + kind_number(kind)),
        Wired::Truth => push_take(ops, first + 10),
        Wired::Unit => push_nothing(ops),
    }
}

/// Adds what reads values of types.
fn push_values(ops: &mut Sequence<LowOp>, first: u32, types: &[Wired]) -> Result<(), Memory>
    requires { first ≤ 100000 }
    ensures { OnOk result (ops.new ≡ ops.old ++ lists.takes_ops first types.now) }
{
    for wired in types {
        push_value(ops, first, *wired)?;
    }
    Ok(())
}

/// Reads arguments of these types into words, with the function that reads tables and those that read values, which stand in the module
/// from one on: those of the kinds of numbers in their order and that of truth values. Asked: at most 65,536 types, and a first function
/// that a module may have.
pub fn arguments(
    alloc: Global,
    line: u32,
    table: u32,
    first: u32,
    types: &[Wired],
) -> Result<Routine, Memory>
    requires types { length types.now ≤ 65536 }
    requires first { first ≤ 100000 }
    ensures { IfOk result (λ routine. routine ≡ built line (I32 ∷ I32 ∷ I32 ∷ []) (spec.arguments table first types.now 0)) }
{
    let mut body = Sequence::new(alloc);
    push_table(&mut body, table)?;
    push_digits(&mut body)?;
    push_count_tests(&mut body)?;
    push_count_test(&mut body, types.len() as i64)?;
    push_types(&mut body, types)?;
    push_values(&mut body, first, types)?;
    push_end(&mut body)?;
    Ok(Routine {
        line,
        params: copied(alloc, &[ValueType::I32, ValueType::I32, ValueType::I32])?,
        locals: copied(
            alloc,
            &[
                ValueType::I64,
                ValueType::I64,
                ValueType::I64,
                ValueType::I32,
                ValueType::I64,
                ValueType::I64,
                ValueType::I32,
            ],
        )?,
        result: Some(ValueType::I32),
        body,
    })
}
