//! Instructions at the end of a list, and codes of few instructions.
ghost use Rattle.std.specs.Prelude.{◌≡◌, ◌++◌, ◌<◌, ◌+◌, ◌*◌, ◌^◌, ℕ, List, IfOk, OnOk, length, pos};
ghost use Rattle.low_ir.specs.Flat.{flat};
ghost use Rattle.low_ir.specs.Tree.{Code};
ghost use Rattle.operation_codes.specs.Codes as codes;

use low_ir::{LowOp, Operand, Operation};
use mo_num::{Memory, Sequence};
use wasm_tree::{BinaryOperator, Comparison, Conversion, LoadKind, StoreKind, ValueType};

/// Adds all instructions in their order.
pub fn push_all(list: &mut Sequence<LowOp>, more: &[LowOp]) -> Result<(), Memory>
    ensures { OnOk result (list.new ≡ list.old ++ more.now) }
{
    for op in more {
        list.push(*op)?;
    }
    Ok(())
}

/// The word of the address of so many words; where there is none, there are more than a memory has.
pub(crate) fn words_address(words: usize) -> Result<i32, Memory>
    ensures { IfOk result (λ address. address ≡ pos (8 * words)) }
{
    let Ok(words) = u32::try_from(words) else {
        return Err(Memory);
    };
    let Ok(address) = i32::try_from(8 * words as u64) else {
        return Err(Memory);
    };
    Ok(address)
}

/// The offset of so many words; where there is none, there are more than a memory has.
pub(crate) fn words_offset(words: usize) -> Result<u32, Memory>
    ensures { IfOk result (λ offset. offset ≡ 8 * words) }
{
    let Ok(words) = u32::try_from(words) else {
        return Err(Memory);
    };
    let Ok(offset) = u32::try_from(8 * words as u64) else {
        return Err(Memory);
    };
    Ok(offset)
}

pub(crate) fn push_copy(to: u32, operand: Operand, list: &mut Sequence<LowOp>) -> Result<(), Memory>
    ensures { OnOk result (list.new ≡ list.old ++ flat (codes.copies to operand)) }
{
    push_all(list, &[LowOp::Set(to, Operation::Copy(operand))])
}

pub(crate) fn push_unit(to: u32, list: &mut Sequence<LowOp>) -> Result<(), Memory>
    ensures { OnOk result (list.new ≡ list.old ++ flat (codes.gives_unit to)) }
{
    push_copy(to, Operand::Long(0), list)
}

pub(crate) fn push_tells(
    test: Comparison,
    to: u32,
    free: u32,
    a: Operand,
    b: Operand,
    list: &mut Sequence<LowOp>,
) -> Result<(), Memory>
    ensures { OnOk result (list.new ≡ list.old ++ flat (codes.tells test to free a b)) }
{
    push_all(
        list,
        &[
            LowOp::Set(free, Operation::Compare(ValueType::I64, test, a, b)),
            LowOp::Set(
                to,
                Operation::Convert(Conversion::ExtendU, Operand::Local(free)),
            ),
        ],
    )
}

pub(crate) fn push_negates(
    to: u32,
    free: u32,
    a: Operand,
    list: &mut Sequence<LowOp>,
) -> Result<(), Memory>
    ensures { OnOk result (list.new ≡ list.old ++ flat (codes.negates to free a)) }
{
    push_all(
        list,
        &[
            LowOp::Set(free, Operation::IsZero(ValueType::I64, a)),
            LowOp::Set(
                to,
                Operation::Convert(Conversion::ExtendU, Operand::Local(free)),
            ),
        ],
    )
}

pub(crate) fn push_loads(
    to: u32,
    free: u32,
    word: usize,
    a: Operand,
    list: &mut Sequence<LowOp>,
) -> Result<(), Memory>
    ensures { OnOk result (list.new ≡ list.old ++ flat (codes.loads to free word a)) }
{
    let offset = words_offset(word)?;
    push_all(
        list,
        &[
            LowOp::Set(free, Operation::Convert(Conversion::Wrap, a)),
            LowOp::Set(
                to,
                Operation::Load(LoadKind::I64, Operand::Local(free), offset),
            ),
        ],
    )
}

pub(crate) fn push_writes(
    to: u32,
    free: u32,
    cell: Operand,
    value: Operand,
    list: &mut Sequence<LowOp>,
) -> Result<(), Memory>
    ensures { OnOk result (list.new ≡ list.old ++ flat (codes.writes to free cell value)) }
{
    push_all(
        list,
        &[
            LowOp::Set(free, Operation::Convert(Conversion::Wrap, cell)),
            LowOp::Store(StoreKind::I64, Operand::Local(free), 0, value),
            LowOp::Set(to, Operation::Copy(Operand::Long(0))),
        ],
    )
}

pub(crate) fn push_prints(
    to: u32,
    free: u32,
    a: Operand,
    list: &mut Sequence<LowOp>,
) -> Result<(), Memory>
    requires { free + 3 < 2 ^ 32 }
    ensures { OnOk result (list.new ≡ list.old ++ flat (codes.prints to free a)) }
{
    push_all(
        list,
        &[
            LowOp::Set(free, Operation::Convert(Conversion::Wrap, a)),
            LowOp::Set(
                2 + free,
                Operation::Load(LoadKind::I64, Operand::Local(free), 0),
            ),
            LowOp::Set(
                1 + free,
                Operation::Convert(Conversion::Wrap, Operand::Local(2 + free)),
            ),
            LowOp::Set(
                free,
                Operation::Binary(
                    ValueType::I32,
                    BinaryOperator::Add,
                    Operand::Local(free),
                    Operand::Word(8),
                ),
            ),
            LowOp::Argument(Operand::Local(free)),
            LowOp::Argument(Operand::Local(1 + free)),
            LowOp::Call(None, 20),
            LowOp::Set(to, Operation::Copy(Operand::Long(0))),
        ],
    )
}
