//! Operands of instructions, and how they come to where they are read.
ghost use Rattle.std.specs.Prelude.{◌≡◌, ◌++◌, ◌<◌, ◌+◌, ◌*◌, ◌^◌, suc, IfOk, OnOk};
ghost use Rattle.low_ir.specs.Flat.{flat};
ghost use Rattle.low_ir.specs.Tree.{Code};
ghost use Rattle.flat_emission.specs.Emission as emission;
ghost use Rattle.body_lists.specs.Known.{here_of, link_of, plan_of};

use crate::known::{Here, Known};
use core_ir::{Constant, Operand};
use low_ir::{LowOp, Operand as Low, Operation};
use mo_num::{Memory, Sequence};
use mo_types::Datum;
use operation_lists::signed_long;
use std::alloc::Global;
use wasm_tree::{BinaryOperator, Conversion, LoadKind, ValueType};

fn local(number: u64) -> Result<u32, Memory>
    ensures { IfOk result (λ local. local ≡ number) }
{
    match u32::try_from(number) {
        Ok(local) => Ok(local),
        Err(_) => Err(Memory),
    }
}

/// The local of a slot.
pub(crate) fn slot(number: u32) -> Result<u32, Memory>
    ensures { IfOk result (λ local. local ≡ emission.slot number) }
{
    local(1 + number as u64)
}

/// The first local for an address, behind which three further ones are.
pub(crate) fn first_word(here: Here) -> Result<u32, Memory>
    ensures word { IfOk result (λ word. word ≡ emission.first_word (here_of here)) }
    ensures room { IfOk result (λ word. word + 3 < 2 ^ 32) }
{
    if here.slots >= 0xffff_fff0 {
        return Err(Memory);
    }
    Ok(here.slots + 1)
}

/// The local for the i-th operand.
pub(crate) fn place_local(here: Here, place: usize) -> Result<u32, Memory>
    ensures { IfOk result (λ local. local ≡ emission.place_local (here_of here) place) }
{
    let Ok(place) = u32::try_from(place) else {
        return Err(Memory);
    };
    local(4 + here.slots as u64 + place as u64)
}

fn leaf_word(known: &Known, datum: &Datum) -> Result<i64, Memory>
    ensures { IfOk result (λ word. word ≡ emission.leaf_word (link_of known.now).bytes_at datum.now) }
{
    let texts = known.links.texts();
    match datum {
        Datum::Number(number) => signed_long(*number),
        Datum::Flag(flag) => Ok(if *flag { 1 } else { 0 }),
        Datum::Char(char) => Ok(*char as i64),
        Datum::Text(text) | Datum::Blob(text) => Ok(8 * texts.place(text.as_slice()) as i64),
        Datum::Principal(principal) | Datum::Actor(principal) => {
            Ok(8 * texts.place(principal.bytes()) as i64)
        }
        Datum::Null
        | Datum::Method(_, _)
        | Datum::Present
        | Datum::Many(_)
        | Datum::Record(_)
        | Datum::Tag(_) => Ok(0),
    }
}

fn constant_word(known: &Known, constant: &Constant) -> Result<i64, Memory>
    ensures { IfOk result (λ word. word ≡ emission.constant_word (link_of known.now).bytes_at constant.now) }
{
    match constant {
        Constant::Unit => Ok(0),
        Constant::Leaf(datum) => leaf_word(known, datum),
    }
}

/// Where the operand at this place of an instruction is read.
pub(crate) fn place(
    known: &Known,
    here: Here,
    place: usize,
    operand: &Operand,
) -> Result<Low, Memory>
    ensures { IfOk result (λ made. made ≡ emission.place (plan_of known.now) (link_of known.now) (here_of here) place operand.now) }
{
    match operand {
        Operand::Slot(number) => Ok(Low::Local(slot(*number)?)),
        Operand::Captured(_) | Operand::Member(_) | Operand::Global(_) => {
            Ok(Low::Local(place_local(here, place)?))
        }
        Operand::Constant(constant) => Ok(Low::Long(constant_word(known, constant.get())?)),
    }
}

/// Where the operands from this place on are read.
pub(crate) fn places(
    alloc: Global,
    known: &Known,
    here: Here,
    first: usize,
    operands: &[Operand],
) -> Result<Vec<Low>, Memory>
    ensures { IfOk result (λ made. made.items ≡ emission.places (plan_of known.now) (link_of known.now) (here_of here) first operands.now) }
{
    let mut made = Vec::new(alloc);
    let mut at = first;
    for operand in operands {
        made.push(place(known, here, at, operand)?)?;
        let Some(next) = at.checked_add(1) else {
            return Err(Memory);
        };
        at = next;
    }
    Ok(made)
}

/// What does not stand in a local comes into its place.
pub(crate) fn push_fetch(
    known: &Known,
    here: Here,
    place: usize,
    operand: &Operand,
    list: &mut Sequence<LowOp>,
) -> Result<(), Memory>
    ensures { OnOk result ((rest : Code) → list.new ++ flat rest ≡ list.old ++ flat (emission.fetch (plan_of known.now) (link_of known.now) (here_of here) place operand.now rest)) }
{
    match operand {
        Operand::Slot(_) | Operand::Constant(_) => Ok(()),
        Operand::Captured(number) => {
            let to = place_local(here, place)?;
            let offset = local(8 * (2 * here.members as u64 + *number as u64))?;
            list.push(LowOp::Set(to, Operation::Load(LoadKind::I64, Low::Local(0), offset)))
        }
        Operand::Member(number) => {
            let to = place_local(here, place)?;
            list.push(LowOp::Set(to, Operation::Convert(Conversion::ExtendU, Low::Local(0))))?;
            list.push(LowOp::Set(
                to,
                Operation::Binary(
                    ValueType::I64,
                    BinaryOperator::Add,
                    Low::Local(to),
                    Low::Long(8 * (2 * *number as i64)),
                ),
            ))
        }
        Operand::Global(number) => {
            let to = place_local(here, place)?;
            let offset = local(8 * (known.links.texts().end() as u64 + *number as u64))?;
            list.push(LowOp::Set(to, Operation::Load(LoadKind::I64, Low::Word(0), offset)))
        }
    }
}

/// Operands come to their places, from this one on.
pub(crate) fn push_fetches(
    known: &Known,
    here: Here,
    first: usize,
    operands: &[Operand],
    list: &mut Sequence<LowOp>,
) -> Result<(), Memory>
    ensures { OnOk result ((rest : Code) → list.new ++ flat rest ≡ list.old ++ flat (emission.fetches (plan_of known.now) (link_of known.now) (here_of here) first operands.now rest)) }
{
    let mut at = first;
    for operand in operands {
        push_fetch(known, here, at, operand, list)?;
        at = next(at)?;
    }
    Ok(())
}

fn next(place: usize) -> Result<usize, Memory>
    ensures { IfOk result (λ next. next ≡ suc place) }
{
    match place.checked_add(1) {
        Some(next) => Ok(next),
        None => Err(Memory),
    }
}
