//! The functions by which the host enters, for the linker.
ghost use Rattle.std.specs.Prelude.{◌≡◌, IfOk};
ghost use Rattle.first_run_time.specs.Entries as entries;

use low_ir::{LowOp, Operand, Operation, copied};
use mo_num::{Bytes, Memory};
use run_time_link::Entry;
use std::alloc::Global;
use wasm_tree::{BinaryOperator, Comparison, LoadKind, StoreKind, ValueType};

const WORD: ValueType = ValueType::I32;

const LONG: ValueType = ValueType::I64;

/// Replies with the digits of the number in the first 8 bytes of the argument.
pub(crate) fn digits(alloc: Global) -> Result<Entry, Memory>
    ensures { IfOk result (λ entry. entry ≡ entries.flat_entry entries.digits_name entries.digits_entry) }
{
    Ok(Entry {
        name: Bytes::from_slice(alloc, b"canister_query digits")?,
        locals: copied(alloc, &[WORD, WORD, LONG, WORD])?,
        body: copied(
            alloc,
            &[
                LowOp::Argument(Operand::Word(28)),
                LowOp::Call(Some(0), 22),
                LowOp::Set(
                    1,
                    Operation::Binary(
                        ValueType::I32,
                        BinaryOperator::Add,
                        Operand::Local(0),
                        Operand::Word(20),
                    ),
                ),
                LowOp::Argument(Operand::Local(1)),
                LowOp::Argument(Operand::Word(0)),
                LowOp::Argument(Operand::Word(8)),
                LowOp::Call(None, 1),
                LowOp::Set(2, Operation::Load(LoadKind::I64, Operand::Local(1), 0)),
                LowOp::Argument(Operand::Local(1)),
                LowOp::Argument(Operand::Local(2)),
                LowOp::Call(Some(3), 26),
                LowOp::Set(
                    1,
                    Operation::Binary(
                        ValueType::I32,
                        BinaryOperator::Sub,
                        Operand::Local(1),
                        Operand::Local(3),
                    ),
                ),
                LowOp::Argument(Operand::Local(3)),
                LowOp::Argument(Operand::Local(1)),
                LowOp::Call(None, 4),
                LowOp::Call(None, 6),
            ],
        )?,
    })
}

/// Replies with a copy of the argument.
pub(crate) fn copy(alloc: Global) -> Result<Entry, Memory>
    ensures { IfOk result (λ entry. entry ≡ entries.flat_entry entries.copy_name entries.copy_entry) }
{
    Ok(Entry {
        name: Bytes::from_slice(alloc, b"canister_query copy")?,
        locals: copied(alloc, &[WORD, WORD, WORD])?,
        body: copied(
            alloc,
            &[
                LowOp::Call(Some(0), 0),
                LowOp::Argument(Operand::Local(0)),
                LowOp::Call(Some(1), 22),
                LowOp::Argument(Operand::Local(1)),
                LowOp::Argument(Operand::Word(0)),
                LowOp::Argument(Operand::Local(0)),
                LowOp::Call(None, 1),
                LowOp::Argument(Operand::Local(1)),
                LowOp::Argument(Operand::Local(0)),
                LowOp::Call(Some(2), 23),
                LowOp::Argument(Operand::Local(2)),
                LowOp::Argument(Operand::Local(0)),
                LowOp::Call(None, 4),
                LowOp::Call(None, 6),
            ],
        )?,
    })
}

/// Says whether the halves of the argument are the same.
pub(crate) fn same(alloc: Global) -> Result<Entry, Memory>
    ensures { IfOk result (λ entry. entry ≡ entries.flat_entry entries.same_name entries.same_entry) }
{
    Ok(Entry {
        name: Bytes::from_slice(alloc, b"canister_query same")?,
        locals: copied(alloc, &[WORD, WORD, WORD])?,
        body: copied(
            alloc,
            &[
                LowOp::Call(Some(0), 0),
                LowOp::Argument(Operand::Local(0)),
                LowOp::Call(Some(1), 22),
                LowOp::Argument(Operand::Local(1)),
                LowOp::Argument(Operand::Word(0)),
                LowOp::Argument(Operand::Local(0)),
                LowOp::Call(None, 1),
                LowOp::Set(
                    0,
                    Operation::Binary(
                        ValueType::I32,
                        BinaryOperator::ShrU,
                        Operand::Local(0),
                        Operand::Word(1),
                    ),
                ),
                LowOp::Set(
                    2,
                    Operation::Binary(
                        ValueType::I32,
                        BinaryOperator::Add,
                        Operand::Local(1),
                        Operand::Local(0),
                    ),
                ),
                LowOp::Argument(Operand::Local(1)),
                LowOp::Argument(Operand::Local(2)),
                LowOp::Argument(Operand::Local(0)),
                LowOp::CallIndirect(Some(0), 25, Operand::Word(2)),
                LowOp::Argument(Operand::Word(1)),
                LowOp::Call(Some(1), 22),
                LowOp::Store(StoreKind::I32To8, Operand::Local(1), 0, Operand::Local(0)),
                LowOp::Argument(Operand::Local(1)),
                LowOp::Argument(Operand::Word(1)),
                LowOp::Call(None, 4),
                LowOp::Call(None, 6),
            ],
        )?,
    })
}

/// Says which of two texts comes first.
pub(crate) fn order(alloc: Global) -> Result<Entry, Memory>
    ensures { IfOk result (λ entry. entry ≡ entries.flat_entry entries.order_name entries.order_entry) }
{
    Ok(Entry {
        name: Bytes::from_slice(alloc, b"canister_query order")?,
        locals: copied(alloc, &[WORD, WORD, WORD, WORD, WORD, WORD])?,
        body: copied(
            alloc,
            &[
                LowOp::Call(Some(0), 0),
                LowOp::Argument(Operand::Local(0)),
                LowOp::Call(Some(1), 22),
                LowOp::Argument(Operand::Local(1)),
                LowOp::Argument(Operand::Word(0)),
                LowOp::Argument(Operand::Local(0)),
                LowOp::Call(None, 1),
                LowOp::Set(
                    5,
                    Operation::Compare(
                        ValueType::I32,
                        Comparison::LtU,
                        Operand::Local(0),
                        Operand::Word(4),
                    ),
                ),
                LowOp::If(Operand::Local(5)),
                LowOp::Trap(Operand::Word(0), Operand::Word(18)),
                LowOp::Else,
                LowOp::End,
                LowOp::Set(2, Operation::Load(LoadKind::I32, Operand::Local(1), 0)),
                LowOp::Set(
                    0,
                    Operation::Binary(
                        ValueType::I32,
                        BinaryOperator::Sub,
                        Operand::Local(0),
                        Operand::Word(4),
                    ),
                ),
                LowOp::Set(
                    5,
                    Operation::Compare(
                        ValueType::I32,
                        Comparison::GtU,
                        Operand::Local(2),
                        Operand::Local(0),
                    ),
                ),
                LowOp::If(Operand::Local(5)),
                LowOp::Trap(Operand::Word(0), Operand::Word(18)),
                LowOp::Else,
                LowOp::End,
                LowOp::Set(
                    4,
                    Operation::Binary(
                        ValueType::I32,
                        BinaryOperator::Add,
                        Operand::Local(1),
                        Operand::Word(4),
                    ),
                ),
                LowOp::Set(
                    3,
                    Operation::Binary(
                        ValueType::I32,
                        BinaryOperator::Add,
                        Operand::Local(4),
                        Operand::Local(2),
                    ),
                ),
                LowOp::Set(
                    0,
                    Operation::Binary(
                        ValueType::I32,
                        BinaryOperator::Sub,
                        Operand::Local(0),
                        Operand::Local(2),
                    ),
                ),
                LowOp::Argument(Operand::Local(4)),
                LowOp::Argument(Operand::Local(2)),
                LowOp::Argument(Operand::Local(3)),
                LowOp::Argument(Operand::Local(0)),
                LowOp::Call(Some(0), 25),
                LowOp::Store(StoreKind::I32To8, Operand::Local(1), 0, Operand::Local(0)),
                LowOp::Argument(Operand::Local(1)),
                LowOp::Argument(Operand::Word(1)),
                LowOp::Call(None, 4),
                LowOp::Call(None, 6),
            ],
        )?,
    })
}
