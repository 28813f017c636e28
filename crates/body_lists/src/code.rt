//! Code of bodies.
ghost use Rattle.std.specs.Prelude.{◌≡◌, ◌++◌, ◌∷◌, [], ◌+◌, ◌*◌, suc, length, map, IfOk, OnOk, Some, pos};
ghost use Rattle.wasm_tree.specs.declared.types.ValueType.TheVariants.{I64};
ghost use Rattle.wasm_tree.specs.declared.op.BinaryOperator.TheVariants.{Add};
ghost use Rattle.wasm_tree.specs.declared.op.Conversion.TheVariants.{ExtendU};
ghost use Rattle.wasm_tree.specs.declared.op.StoreKind.TheVariants as store;
ghost use Rattle.low_ir.specs.declared.op.LowOp.TheVariants as op;
ghost use Rattle.low_ir.specs.declared.op.Operand.TheVariants.{Local, Word, Long};
ghost use Rattle.low_ir.specs.declared.op.Operation.TheVariants.{Binary, Convert};
ghost use Rattle.low_ir.specs.Flat.{flat};
ghost use Rattle.low_ir.specs.Numbering.{host_count};
ghost use Rattle.low_ir.specs.Tree.{Code as LowCode, Call, CallIndirect, Return, Set, Store};
ghost use Rattle.core_ir.specs.Code as code;
ghost use Rattle.core_ir.specs.CodeView.{Names, exit_code, seen_names};
ghost use Rattle.operation_codes.specs.Codes.{code_of as performed_by};
ghost use Rattle.operation_lists.specs.Linked.{links_of};
ghost use Rattle.code_sequences.specs.Sequences.{seq};
ghost use Rattle.flat_emission.specs.Emission as emission;
ghost use Rattle.body_lists.specs.Known.{here_of, link_of, plan_of};

use crate::known::{Here, Known};
use crate::operands::{first_word, place, places, push_fetch, push_fetches, slot};
use core_ir::{Exit, Operand, Primitive, Seen};
use low_ir::{LowOp, Operand as Low, Operation};
use mo_num::{Memory, Sequence};
use operation_lists::{push_all, push_primitive};
use std::alloc::Global;
use wasm_tree::{BinaryOperator, Conversion, LoadKind, StoreKind, ValueType};

// ---- primitives and calls

// The primitive, where its operands are in their places.
fn push_performed(
    alloc: Global,
    known: &Known,
    here: Here,
    to: u32,
    primitive: &Primitive,
    operands: &[Operand],
    list: &mut Sequence<LowOp>,
) -> Result<(), Memory>
    ensures { OnOk result (list.new ≡ list.old ++ flat (performed_by (links_of known.now.links) primitive.now to (emission.first_word (here_of here)) (emission.places (plan_of known.now) (link_of known.now) (here_of here) 0 operands.now))) }
{
    let free = first_word(here)?;
    let read = places(alloc, known, here, 0, operands)?;
    push_primitive(alloc, &known.links, primitive, to, free, &read, list)
}

/// A primitive on operands, into a local.
pub(crate) fn push_operated(
    alloc: Global,
    known: &Known,
    here: Here,
    to: u32,
    primitive: &Primitive,
    operands: &[Operand],
    list: &mut Sequence<LowOp>,
) -> Result<(), Memory>
    ensures { OnOk result ((more : LowCode) → list.new ++ flat more ≡ list.old ++ flat (emission.operated (plan_of known.now) (link_of known.now) (here_of here) to primitive.now operands.now more)) }
{
    push_fetches(known, here, 0, operands, list)?;
    push_performed(alloc, known, here, to, primitive, operands, list)?;
    Ok(())
}

fn push_arguments(operands: &[Low], list: &mut Sequence<LowOp>) -> Result<(), Memory>
    ensures { OnOk result (list.new ≡ list.old ++ map op.Argument operands.now) }
{
    for operand in operands {
        list.push(LowOp::Argument(*operand))?;
    }
    Ok(())
}

// The block of a function and its place in the table.
fn push_finds(
    known: &Known,
    here: Here,
    function: &Operand,
    list: &mut Sequence<LowOp>,
) -> Result<(), Memory>
    ensures { OnOk result ((more : LowCode) → list.new ++ flat more ≡ list.old ++ flat (emission.finds (plan_of known.now) (link_of known.now) (here_of here) function.now more)) }
{
    let first = first_word(here)?;
    let read = place(known, here, 0, function)?;
    push_all(
        list,
        &[
            LowOp::Set(1 + first, Operation::Convert(Conversion::Wrap, read)),
            LowOp::Set(
                first,
                Operation::Load(LoadKind::I32, Low::Local(1 + first), 8),
            ),
            LowOp::Set(
                1 + first,
                Operation::Load(LoadKind::I32, Low::Local(1 + first), 0),
            ),
        ],
    )
}

// The number of the type of functions of so many parameters.
pub(crate) fn type_of(known: &Known, parameters: usize) -> Result<u32, Memory>
    ensures { IfOk result (λ number. number ≡ (link_of known.now).type_of parameters) }
{
    let Ok(parameters) = u32::try_from(parameters) else {
        return Err(Memory);
    };
    match known.first_arity.checked_add(parameters) {
        Some(number) => Ok(number),
        None => Err(Memory),
    }
}

// The call, where all is in its place.
fn push_indirect(
    alloc: Global,
    known: &Known,
    here: Here,
    to: u32,
    operands: &[Operand],
    list: &mut Sequence<LowOp>,
) -> Result<(), Memory>
    ensures { OnOk result ((rest : LowCode) → list.new ++ flat rest ≡ list.old ++ flat (CallIndirect (Some (emission.slot to)) ((link_of known.now).type_of (length operands.now)) (Local (emission.first_word (here_of here)) ∷ emission.places (plan_of known.now) (link_of known.now) (here_of here) 1 operands.now) (Local (emission.second_word (here_of here))) rest)) }
{
    let first = first_word(here)?;
    let to = slot(to)?;
    let signature = type_of(known, operands.len())?;
    let read = places(alloc, known, here, 1, operands)?;
    list.push(LowOp::Argument(Low::Local(first)))?;
    push_arguments(&read, list)?;
    list.push(LowOp::CallIndirect(Some(to), signature, Low::Local(1 + first)))?;
    Ok(())
}

/// A call of a function.
pub(crate) fn push_call(
    alloc: Global,
    known: &Known,
    here: Here,
    to: u32,
    function: &Operand,
    operands: &[Operand],
    list: &mut Sequence<LowOp>,
) -> Result<(), Memory>
    ensures { OnOk result ((rest : LowCode) → list.new ++ flat rest ≡ list.old ++ flat (emission.readied (plan_of known.now) (link_of known.now) (here_of here) (function.now ∷ operands.now) (emission.finds (plan_of known.now) (link_of known.now) (here_of here) function.now (CallIndirect (Some (emission.slot to)) ((link_of known.now).type_of (length operands.now)) (Local (emission.first_word (here_of here)) ∷ emission.places (plan_of known.now) (link_of known.now) (here_of here) 1 operands.now) (Local (emission.second_word (here_of here))) rest)))) }
{
    push_fetch(known, here, 0, function, list)?;
    push_fetches(known, here, 1, operands, list)?;
    push_finds(known, here, function, list)?;
    push_indirect(alloc, known, here, to, operands, list)?;
    Ok(())
}

// ---- groups

// The place of a function in the table, and the block.
fn push_entry(
    known: &Known,
    here: Here,
    group: u32,
    k: u32,
    list: &mut Sequence<LowOp>,
) -> Result<(), Memory>
    ensures { OnOk result ((rest : LowCode) → list.new ++ flat rest ≡ list.old ++ flat (Store store.I64 (Local (emission.first_word (here_of here))) (8 * (2 * k)) (Long (pos ((plan_of known.now).entry_of group k))) (Store store.I64 (Local (emission.first_word (here_of here))) (8 * (2 * k + 1)) (Local (emission.value_word (here_of here))) rest))) }
{
    let first = first_word(here)?;
    let entry = Low::Long(known.groups.before(group) as i64 + k as i64);
    let one = block_offset(2 * k as u64)?;
    let two = block_offset(2 * k as u64 + 1)?;
    push_all(
        list,
        &[
            LowOp::Store(StoreKind::I64, Low::Local(first), one, entry),
            LowOp::Store(
                StoreKind::I64,
                Low::Local(first),
                two,
                Low::Local(2 + first),
            ),
        ],
    )
}

// For each function its place in the table and the block.
fn push_entries(
    known: &Known,
    here: Here,
    group: u32,
    count: u32,
    list: &mut Sequence<LowOp>,
) -> Result<(), Memory>
    ensures { OnOk result ((rest : LowCode) → list.new ++ flat rest ≡ list.old ++ flat (emission.entries (plan_of known.now) (link_of known.now) (here_of here) group 0 count rest)) }
{
    for k in 0..count {
        push_entry(known, here, group, k, list)?;
    }
    Ok(())
}

// The offset of so many words; where there is none, there are more than a memory has.
fn block_offset(words: u64) -> Result<u32, Memory>
    ensures { IfOk result (λ offset. offset ≡ 8 * words) }
{
    if words >= 0x2000_0000 {
        return Err(Memory);
    }
    Ok(8 * words as u32)
}

// A value that functions see, into this word of the block.
fn push_capture(
    known: &Known,
    here: Here,
    word: u64,
    operand: &Operand,
    list: &mut Sequence<LowOp>,
) -> Result<(), Memory>
    ensures { OnOk result ((rest : LowCode) → list.new ++ flat rest ≡ list.old ++ flat (emission.fetch (plan_of known.now) (link_of known.now) (here_of here) 0 operand.now (Store store.I64 (Local (emission.first_word (here_of here))) (8 * word) (emission.place (plan_of known.now) (link_of known.now) (here_of here) 0 operand.now) rest))) }
{
    push_fetch(known, here, 0, operand, list)?;
    push_captured(known, here, word, operand, list)?;
    Ok(())
}

fn push_captured(
    known: &Known,
    here: Here,
    word: u64,
    operand: &Operand,
    list: &mut Sequence<LowOp>,
) -> Result<(), Memory>
    ensures { OnOk result ((rest : LowCode) → list.new ++ flat rest ≡ list.old ++ flat (Store store.I64 (Local (emission.first_word (here_of here))) (8 * word) (emission.place (plan_of known.now) (link_of known.now) (here_of here) 0 operand.now) rest)) }
{
    let first = first_word(here)?;
    let read = place(known, here, 0, operand)?;
    let offset = block_offset(word)?;
    push_all(
        list,
        &[LowOp::Store(StoreKind::I64, Low::Local(first), offset, read)],
    )
}

fn next(word: u64) -> Result<u64, Memory>
    ensures { IfOk result (λ next. next ≡ suc word) }
{
    match word.checked_add(1) {
        Some(next) => Ok(next),
        None => Err(Memory),
    }
}

// What functions see, one after the other, from this word of the block on.
fn push_captures(
    known: &Known,
    here: Here,
    begin: u64,
    seen: &[Operand],
    list: &mut Sequence<LowOp>,
) -> Result<(), Memory>
    ensures { OnOk result ((rest : LowCode) → list.new ++ flat rest ≡ list.old ++ flat (emission.captures (plan_of known.now) (link_of known.now) (here_of here) begin seen.now rest)) }
{
    let mut word = begin;
    for operand in seen {
        push_capture(known, here, word, operand, list)?;
        word = next(word)?;
    }
    Ok(())
}

// The value of a function of a group into a slot.
fn push_handle(here: Here, to: u32, k: u32, list: &mut Sequence<LowOp>) -> Result<(), Memory>
    ensures { OnOk result (list.new ≡ list.old ++ op.Set (emission.slot (to + k)) (Binary I64 Add (Local (emission.value_word (here_of here))) (Long (pos (8 * (2 * k))))) ∷ []) }
{
    let first = first_word(here)?;
    let Some(number) = to.checked_add(k) else {
        return Err(Memory);
    };
    let to = slot(number)?;
    push_all(
        list,
        &[LowOp::Set(
            to,
            Operation::Binary(
                ValueType::I64,
                BinaryOperator::Add,
                Low::Local(2 + first),
                Low::Long(8 * (2 * k as i64)),
            ),
        )],
    )
}

// The functions themselves into slots.
fn push_handles(
    known: &Known,
    here: Here,
    to: u32,
    count: u32,
    list: &mut Sequence<LowOp>,
) -> Result<(), Memory>
    ensures { OnOk result (list.new ≡ list.old ++ flat (emission.handles (plan_of known.now) (link_of known.now) (here_of here) to 0 count)) }
{
    let _ = &known.links;
    for k in 0..count {
        push_handle(here, to, k, list)?;
    }
    Ok(())
}

fn block_address(words: u64) -> Result<i32, Memory>
    ensures { IfOk result (λ size. size ≡ pos (8 * words)) }
{
    if words >= 0x1000_0000 {
        return Err(Memory);
    }
    Ok(8 * words as i32)
}

// The block of a group.
fn push_block(
    known: &Known,
    here: Here,
    seen: &[Operand],
    group: u32,
    list: &mut Sequence<LowOp>,
) -> Result<(), Memory>
    ensures { OnOk result ((rest : LowCode) → list.new ++ flat rest ≡ list.old ++ flat (Call (Some (emission.first_word (here_of here))) host_count (Word (pos (8 * (2 * (plan_of known.now).sizes group + length seen.now))) ∷ []) (Set (emission.value_word (here_of here)) (Convert ExtendU (Local (emission.first_word (here_of here)))) rest))) }
{
    let first = first_word(here)?;
    let Ok(sees) = u32::try_from(seen.len()) else {
        return Err(Memory);
    };
    let size = block_address(2 * known.groups.size(group) as u64 + sees as u64)?;
    push_all(
        list,
        &[
            LowOp::Argument(Low::Word(size)),
            LowOp::Call(Some(first), 22),
            LowOp::Set(
                2 + first,
                Operation::Convert(Conversion::ExtendU, Low::Local(first)),
            ),
        ],
    )
}

fn push_makes(
    known: &Known,
    here: Here,
    to: u32,
    seen: &[Operand],
    group: u32,
    list: &mut Sequence<LowOp>,
) -> Result<(), Memory>
    ensures { OnOk result (list.new ≡ list.old ++ flat (emission.makes (plan_of known.now) (link_of known.now) (here_of here) to seen.now group)) }
{
    let count = known.groups.size(group);
    push_block(known, here, seen, group, list)?;
    push_entries(known, here, group, count, list)?;
    push_captures(known, here, 2 * count as u64, seen, list)?;
    push_handles(known, here, to, count, list)?;
    Ok(())
}

pub(crate) fn push_make(
    known: &Known,
    here: Here,
    to: u32,
    seen: &Seen,
    group: u32,
    list: &mut Sequence<LowOp>,
) -> Result<(), Memory>
    ensures { OnOk result ((names : Names) (rest : LowCode) → list.new ++ flat rest ≡ list.old ++ flat (seq (emission.makes (plan_of known.now) (link_of known.now) (here_of here) to (seen_names names seen.now) group) rest)) }
{
    match seen {
        // Never in a program whose groups see what they use.
        Seen::Scope(_) => Err(Memory),
        Seen::Listed(operands) => {
            push_makes(known, here, to, operands.as_slice(), group, list)?;
            Ok(())
        }
    }
}

// ---- ends

pub(crate) fn push_exit(
    known: &Known,
    here: Here,
    exit: &Exit,
    list: &mut Sequence<LowOp>,
) -> Result<(), Memory>
    ensures { OnOk result (list.new ≡ list.old ++ flat (emission.emit (plan_of known.now) (link_of known.now) (here_of here) (exit_code exit.now))) }
{
    match exit {
        Exit::Stop => Ok(()),
        Exit::Branch(label) => list.push(LowOp::Branch(*label)),
        Exit::Return(operand) => push_return(known, here, operand, list),
        Exit::Leave(_) | Exit::Pass(_, _, _) | Exit::Wait(_, _, _, _) | Exit::Raise(_, _) => {
            list.push(LowOp::Return(Some(Low::Long(0))))
        }
    }
}

fn push_returned(
    known: &Known,
    here: Here,
    operand: &Operand,
    list: &mut Sequence<LowOp>,
) -> Result<(), Memory>
    ensures { OnOk result (list.new ≡ list.old ++ flat (Return (Some (emission.place (plan_of known.now) (link_of known.now) (here_of here) 0 operand.now)))) }
{
    let read = place(known, here, 0, operand)?;
    push_all(list, &[LowOp::Return(Some(read))])
}

fn push_return(
    known: &Known,
    here: Here,
    operand: &Operand,
    list: &mut Sequence<LowOp>,
) -> Result<(), Memory>
    ensures { OnOk result (list.new ≡ list.old ++ flat (emission.emit (plan_of known.now) (link_of known.now) (here_of here) (code.Return operand.now))) }
{
    push_fetch(known, here, 0, operand, list)?;
    push_returned(known, here, operand, list)?;
    Ok(())
}
