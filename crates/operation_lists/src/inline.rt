//! Codes of routines in the locals of a function.
ghost use Rattle.std.specs.Prelude.{◌≡◌, ◌++◌, ◌∷◌, [], ◌<◌, ◌+◌, ◌^◌, ℕ, List, OnOk, get_or, pos};
ghost use Rattle.low_ir.specs.Flat.{flat};
ghost use Rattle.low_ir.specs.declared.op.Operand.TheVariants as low;
ghost use Rattle.inlined_code.specs.Inlining.{operand_at, operation_at};
ghost use Rattle.operation_codes.specs.Codes.{at_once, is_apart, made_in, one_place, places_from, settle, spare_places, two_places};
ghost use Rattle.operation_lists.specs.Listed.{op_at, ops_at};

use crate::words::push_copy;
use low_ir::{LowOp, Operand, Operation};
use mo_num::{Memory, Sequence};

fn read_at(reads: &[Operand], local: u32) -> Operand
    ensures { result ≡ get_or reads.now local (low.Word (pos 0)) }
{
    match reads.get(local as usize) {
        Some(operand) => *operand,
        None => Operand::Word(0),
    }
}

fn write_at(writes: &[u32], local: u32) -> u32
    ensures { result ≡ get_or writes.now local 0 }
{
    match writes.get(local as usize) {
        Some(place) => *place,
        None => 0,
    }
}

fn operand_at(reads: &[Operand], operand: Operand) -> Operand
    ensures { (writes : List ℕ) → result ≡ operand_at (places_from reads.now writes) operand }
{
    match operand {
        Operand::Local(local) => read_at(reads, local),
        Operand::Word(_) | Operand::Long(_) => operand,
    }
}

fn operation_at(reads: &[Operand], operation: Operation) -> Operation
    ensures { (writes : List ℕ) → result ≡ operation_at (places_from reads.now writes) operation }
{
    match operation {
        Operation::Copy(a) => Operation::Copy(operand_at(reads, a)),
        Operation::IsZero(kind, a) => Operation::IsZero(kind, operand_at(reads, a)),
        Operation::Compare(kind, test, a, b) => Operation::Compare(
            kind,
            test,
            operand_at(reads, a),
            operand_at(reads, b),
        ),
        Operation::Unary(kind, operator, a) => {
            Operation::Unary(kind, operator, operand_at(reads, a))
        }
        Operation::Binary(kind, operator, a, b) => Operation::Binary(
            kind,
            operator,
            operand_at(reads, a),
            operand_at(reads, b),
        ),
        Operation::Convert(conversion, a) => {
            Operation::Convert(conversion, operand_at(reads, a))
        }
        Operation::Load(kind, a, offset) => Operation::Load(kind, operand_at(reads, a), offset),
        Operation::Global(_) | Operation::Size => operation,
    }
}

fn push_settled(to: u32, operand: Operand, list: &mut Sequence<LowOp>) -> Result<(), Memory>
    ensures { OnOk result (list.new ≡ list.old ++ flat (settle to operand)) }
{
    if let Operand::Local(local) = operand {
        if local == to {
            return Ok(());
        }
    }
    push_copy(to, operand, list)
}

fn push_op(
    reads: &[Operand],
    writes: &[u32],
    to: u32,
    op: LowOp,
    list: &mut Sequence<LowOp>,
) -> Result<(), Memory>
    ensures { OnOk result (list.new ≡ list.old ++ op_at (places_from reads.now writes.now) to op) }
{
    match op {
        LowOp::Set(local, operation) => list.push(LowOp::Set(
            write_at(writes, local),
            operation_at(reads, operation),
        )),
        LowOp::Trap(a, b) => list.push(LowOp::Trap(operand_at(reads, a), operand_at(reads, b))),
        LowOp::If(a) => list.push(LowOp::If(operand_at(reads, a))),
        LowOp::Else | LowOp::End => list.push(op),
        LowOp::Return(Some(a)) => push_settled(to, operand_at(reads, a), list),
        LowOp::Return(None)
        | LowOp::SetGlobal(_, _)
        | LowOp::Store(_, _, _, _)
        | LowOp::Grow(_)
        | LowOp::GrowStable(_)
        | LowOp::Block
        | LowOp::Loop
        | LowOp::Branch(_)
        | LowOp::BranchIf(_, _)
        | LowOp::Argument(_)
        | LowOp::Call(_, _)
        | LowOp::CallIndirect(_, _, _) => Ok(()),
    }
}

fn push_inline(
    reads: &[Operand],
    writes: &[u32],
    to: u32,
    ops: &[LowOp],
    list: &mut Sequence<LowOp>,
) -> Result<(), Memory>
    ensures { OnOk result (list.new ≡ list.old ++ ops_at (places_from reads.now writes.now) to ops.now) }
{
    for op in ops {
        push_op(reads, writes, to, *op, list)?;
    }
    Ok(())
}

fn is_apart(to: u32, operands: &[Operand]) -> bool
    ensures { result ≡ is_apart to operands.now }
{
    for operand in operands {
        if let Operand::Local(local) = operand {
            if *local == to {
                return false;
            }
        }
    }
    true
}

/// Whether the result may be made in its local.
pub(crate) fn at_once(to: u32, free: u32, operands: &[Operand]) -> bool
    requires { free + 3 < 2 ^ 32 }
    ensures { result ≡ at_once to free operands.now }
{
    !(free <= to && to < 3 + free) && is_apart(to, operands)
}

fn made_in(to: u32, free: u32, operands: &[Operand]) -> u32
    requires { free + 3 < 2 ^ 32 }
    ensures { result ≡ made_in to free operands.now }
{
    if at_once(to, free, operands) {
        to
    } else {
        2 + free
    }
}

/// The code of a routine of one operand.
pub(crate) fn push_one(
    to: u32,
    free: u32,
    a: Operand,
    ops: &[LowOp],
    list: &mut Sequence<LowOp>,
) -> Result<(), Memory>
    requires { free + 3 < 2 ^ 32 }
    ensures { OnOk result (list.new ≡ list.old ++ ops_at (one_place free (made_in to free (a ∷ [])) a) to ops.now) }
{
    let made = made_in(to, free, &[a]);
    let reads = [
        a,
        Operand::Local(made),
        Operand::Word(0),
        Operand::Word(0),
        Operand::Local(free),
        Operand::Local(1 + free),
    ];
    push_inline(&reads, &[0, made, 0, 0, free, 1 + free], to, ops, list)
}

/// The code of a routine of two operands.
pub(crate) fn push_two(
    to: u32,
    free: u32,
    a: Operand,
    b: Operand,
    ops: &[LowOp],
    list: &mut Sequence<LowOp>,
) -> Result<(), Memory>
    requires { free + 3 < 2 ^ 32 }
    ensures { OnOk result (list.new ≡ list.old ++ ops_at (two_places free (made_in to free (a ∷ b ∷ [])) a b) to ops.now) }
{
    let made = made_in(to, free, &[a, b]);
    let reads = [
        a,
        b,
        Operand::Local(made),
        Operand::Word(0),
        Operand::Word(0),
        Operand::Local(free),
        Operand::Local(1 + free),
    ];
    push_inline(&reads, &[0, 0, made, 0, 0, free, 1 + free], to, ops, list)
}

/// The code of a routine of two operands that uses a further word.
pub(crate) fn push_spare(
    to: u32,
    free: u32,
    a: Operand,
    b: Operand,
    ops: &[LowOp],
    list: &mut Sequence<LowOp>,
) -> Result<(), Memory>
    requires { free + 3 < 2 ^ 32 }
    ensures { OnOk result (list.new ≡ list.old ++ ops_at (spare_places free to a b) to ops.now) }
{
    let reads = [
        a,
        b,
        Operand::Local(to),
        Operand::Local(2 + free),
        Operand::Word(0),
        Operand::Local(free),
        Operand::Local(1 + free),
    ];
    push_inline(
        &reads,
        &[0, 0, to, 2 + free, 0, free, 1 + free],
        to,
        ops,
        list,
    )
}
