//! Code in code.
ghost use Rattle.std.specs.Prelude.{◌≡◌, ◌++◌, ◌∷◌, [], ℕ, pos, IfOk, OnOk};
ghost use Rattle.mo_types.specs.Label.{label_id as label_number};
ghost use Rattle.wasm_tree.specs.declared.types.ValueType.TheVariants.{I64};
ghost use Rattle.wasm_tree.specs.declared.op.Comparison.TheVariants.{Eq};
ghost use Rattle.wasm_tree.specs.declared.op.Conversion.TheVariants.{Wrap};
ghost use Rattle.wasm_tree.specs.declared.op.LoadKind.TheVariants as load;
ghost use Rattle.core_ir.specs.declared.primitive.Constructor.TheVariants.{Present, Tagged};
ghost use Rattle.core_ir.specs.Code.{Code as CodeForm};
ghost use Rattle.core_ir.specs.CodeView.{Names, code_of, instruction as instruction_view};
ghost use Rattle.low_ir.specs.declared.op.LowOp.TheVariants as op;
ghost use Rattle.low_ir.specs.declared.op.Operand.TheVariants.{Local, Long};
ghost use Rattle.low_ir.specs.declared.op.Operation.TheVariants.{Compare, Convert, IsZero, Load};
ghost use Rattle.low_ir.specs.Flat.{flat};
ghost use Rattle.low_ir.specs.Tree.{Code as LowCode, If, Set};
ghost use Rattle.flat_emission.specs.Emission as emission;
ghost use Rattle.body_lists.specs.Known.{here_of, link_of, plan_of};

use crate::code::{push_call, push_exit, push_make, push_operated};
use crate::known::{Here, Known};
use crate::operands::{first_word, place, push_fetch, slot};
use core_ir::{Code, Constructor, Instruction, Operand, Primitive};
use low_ir::{LowOp, Operand as Low, Operation};
use mo_num::{Memory, Sequence};
use mo_types::label_id;
use operation_lists::push_all;
use std::alloc::Global;
use wasm_tree::{Comparison, Conversion, LoadKind, ValueType};

// A choice by a value, up to its first side.
fn push_branch(here: Here, list: &mut Sequence<LowOp>) -> Result<(), Memory>
    ensures { OnOk result (list.new ≡ list.old ++ op.Set (emission.first_word (here_of here)) (Convert Wrap (Local (emission.value_word (here_of here)))) ∷ op.If (Local (emission.first_word (here_of here))) ∷ []) }
{
    let first = first_word(here)?;
    push_all(
        list,
        &[
            LowOp::Set(
                first,
                Operation::Convert(Conversion::Wrap, Low::Local(2 + first)),
            ),
            LowOp::If(Low::Local(first)),
        ],
    )
}

fn value_word(here: Here) -> Result<u32, Memory>
    ensures { IfOk result (λ word. word ≡ (emission.value_word (here_of here))) }
{
    let first = first_word(here)?;
    Ok(2 + first)
}

// A choice by what a primitive gives, up to its first side.
fn push_choice(
    alloc: Global,
    known: &Known,
    here: Here,
    primitive: &Primitive,
    operands: &[Operand],
    list: &mut Sequence<LowOp>,
) -> Result<(), Memory>
    ensures { OnOk result ((y n c : LowCode) → list.new ++ (flat y ++ op.Else ∷ (flat n ++ op.End ∷ flat c)) ≡ list.old ++ flat (emission.operated (plan_of known.now) (link_of known.now) (here_of here) (emission.value_word (here_of here)) primitive.now operands.now (Set (emission.first_word (here_of here)) (Convert Wrap (Local (emission.value_word (here_of here)))) (If (Local (emission.first_word (here_of here))) y n c)))) }
{
    let value = value_word(here)?;
    push_operated(alloc, known, here, value, primitive, operands, list)?;
    push_branch(here, list)?;
    Ok(())
}

fn push_absent(
    known: &Known,
    here: Here,
    operand: &Operand,
    list: &mut Sequence<LowOp>,
) -> Result<(), Memory>
    ensures { OnOk result (list.new ≡ list.old ++ op.Set (emission.first_word (here_of here)) (IsZero I64 (emission.place (plan_of known.now) (link_of known.now) (here_of here) 0 operand.now)) ∷ op.If (Local (emission.first_word (here_of here))) ∷ []) }
{
    let first = first_word(here)?;
    let read = place(known, here, 0, operand)?;
    push_all(
        list,
        &[
            LowOp::Set(first, Operation::IsZero(ValueType::I64, read)),
            LowOp::If(Low::Local(first)),
        ],
    )
}

// A match of an option, up to the side where it is not there.
fn push_present(
    known: &Known,
    here: Here,
    operand: &Operand,
    list: &mut Sequence<LowOp>,
) -> Result<(), Memory>
    ensures { OnOk result ((t : ℕ) (y n c : LowCode) → list.new ++ (flat n ++ op.Else ∷ op.Set (emission.first_word (here_of here)) (Convert Wrap (emission.place (plan_of known.now) (link_of known.now) (here_of here) 0 operand.now)) ∷ op.Set (emission.slot t) (Load load.I64 (Local (emission.first_word (here_of here))) 0) ∷ (flat y ++ op.End ∷ flat c)) ≡ list.old ++ flat (emission.readied (plan_of known.now) (link_of known.now) (here_of here) (operand.now ∷ []) (emission.opens (plan_of known.now) (link_of known.now) (here_of here) t Present (emission.place (plan_of known.now) (link_of known.now) (here_of here) 0 operand.now) y n c))) }
{
    push_fetch(known, here, 0, operand, list)?;
    push_absent(known, here, operand, list)?;
    Ok(())
}

// What is in an option.
fn push_inside(
    known: &Known,
    here: Here,
    to: u32,
    operand: &Operand,
    list: &mut Sequence<LowOp>,
) -> Result<(), Memory>
    ensures { OnOk result (list.new ≡ list.old ++ op.Set (emission.first_word (here_of here)) (Convert Wrap (emission.place (plan_of known.now) (link_of known.now) (here_of here) 0 operand.now)) ∷ op.Set (emission.slot to) (Load load.I64 (Local (emission.first_word (here_of here))) 0) ∷ []) }
{
    let first = first_word(here)?;
    let to = slot(to)?;
    let read = place(known, here, 0, operand)?;
    push_all(
        list,
        &[
            LowOp::Set(first, Operation::Convert(Conversion::Wrap, read)),
            LowOp::Set(to, Operation::Load(LoadKind::I64, Low::Local(first), 0)),
        ],
    )
}

fn push_tag(
    known: &Known,
    here: Here,
    to: u32,
    label: &[u8],
    operand: &Operand,
    list: &mut Sequence<LowOp>,
) -> Result<(), Memory>
    ensures { OnOk result (list.new ≡ list.old ++ op.Set (emission.first_word (here_of here)) (Convert Wrap (emission.place (plan_of known.now) (link_of known.now) (here_of here) 0 operand.now)) ∷ op.Set (emission.value_word (here_of here)) (Load load.I64 (Local (emission.first_word (here_of here))) 0) ∷ op.Set (emission.second_word (here_of here)) (Compare I64 Eq (Local (emission.value_word (here_of here))) (Long (pos (label_number label.now)))) ∷ op.If (Local (emission.second_word (here_of here))) ∷ op.Set (emission.slot to) (Load load.I64 (Local (emission.first_word (here_of here))) 8) ∷ []) }
{
    let first = first_word(here)?;
    let to = slot(to)?;
    let read = place(known, here, 0, operand)?;
    push_all(
        list,
        &[
            LowOp::Set(first, Operation::Convert(Conversion::Wrap, read)),
            LowOp::Set(
                2 + first,
                Operation::Load(LoadKind::I64, Low::Local(first), 0),
            ),
            LowOp::Set(
                1 + first,
                Operation::Compare(
                    ValueType::I64,
                    Comparison::Eq,
                    Low::Local(2 + first),
                    Low::Long(label_id(label) as i64),
                ),
            ),
            LowOp::If(Low::Local(1 + first)),
            LowOp::Set(to, Operation::Load(LoadKind::I64, Low::Local(first), 8)),
        ],
    )
}

// A match of a variant, up to its first side behind the value that it opens.
fn push_tagged(
    known: &Known,
    here: Here,
    to: u32,
    label: &[u8],
    operand: &Operand,
    list: &mut Sequence<LowOp>,
) -> Result<(), Memory>
    ensures { OnOk result ((y n c : LowCode) → list.new ++ (flat y ++ op.Else ∷ (flat n ++ op.End ∷ flat c)) ≡ list.old ++ flat (emission.readied (plan_of known.now) (link_of known.now) (here_of here) (operand.now ∷ []) (emission.opens (plan_of known.now) (link_of known.now) (here_of here) to (Tagged label.now) (emission.place (plan_of known.now) (link_of known.now) (here_of here) 0 operand.now) y n c))) }
{
    push_fetch(known, here, 0, operand, list)?;
    push_tag(known, here, to, label, operand, list)?;
    Ok(())
}

fn push_op(op: LowOp, list: &mut Sequence<LowOp>) -> Result<(), Memory>
    ensures { OnOk result (list.new ≡ list.old ++ op ∷ []) }
{
    list.push(op)
}

/// The instructions of code at the end of a list.
#[cycle(emitting)]
#[tactic(auto, unfolding(core_ir::specs::CodeView::code_of, core_ir::specs::CodeView::instruction))]
pub(crate) fn push_code(
    alloc: Global,
    known: &Known,
    here: Here,
    code: &Code,
    list: &mut Sequence<LowOp>,
) -> Result<(), Memory>
    ensures { OnOk result ((names : Names) → list.new ≡ list.old ++ flat (emission.emit (plan_of known.now) (link_of known.now) (here_of here) (code_of code.now names))) }
{
    for instruction in code.instructions.as_slice() {
        push_instruction(alloc, known, here, instruction, list)?;
    }
    push_exit(known, here, &code.exit, list)?;
    Ok(())
}

// Whatever stands behind the instruction.
#[cycle(emitting)]
#[tactic(auto, unfolding(core_ir::specs::CodeView::code_of, core_ir::specs::CodeView::instruction))]
fn push_instruction(
    alloc: Global,
    known: &Known,
    here: Here,
    instruction: &Instruction,
    list: &mut Sequence<LowOp>,
) -> Result<(), Memory>
    ensures { OnOk result ((names : Names) (c : CodeForm) → list.new ++ flat (emission.emit (plan_of known.now) (link_of known.now) (here_of here) c) ≡ list.old ++ flat (emission.emit (plan_of known.now) (link_of known.now) (here_of here) (instruction_view instruction.now names c))) }
{
    match instruction {
        Instruction::Let(to, primitive, operands) => {
            let to = slot(*to)?;
            push_operated(
                alloc,
                known,
                here,
                to,
                primitive.get(),
                operands.as_slice(),
                list,
            )
        }
        Instruction::If(primitive, operands, yes, no) => {
            push_choice(
                alloc,
                known,
                here,
                primitive.get(),
                operands.as_slice(),
                list,
            )?;
            push_code(alloc, known, here, yes, list)?;
            push_op(LowOp::Else, list)?;
            push_code(alloc, known, here, no, list)?;
            push_op(LowOp::End, list)?;
            Ok(())
        }
        Instruction::Match(to, constructor, operand, yes, no) => match constructor.get() {
            Constructor::Present => {
                push_present(known, here, operand, list)?;
                push_code(alloc, known, here, no, list)?;
                push_op(LowOp::Else, list)?;
                push_inside(known, here, *to, operand, list)?;
                push_code(alloc, known, here, yes, list)?;
                push_op(LowOp::End, list)?;
                Ok(())
            }
            Constructor::Tagged(label) => {
                push_tagged(known, here, *to, label.as_slice(), operand, list)?;
                push_code(alloc, known, here, yes, list)?;
                push_op(LowOp::Else, list)?;
                push_code(alloc, known, here, no, list)?;
                push_op(LowOp::End, list)?;
                Ok(())
            }
        },
        Instruction::Loop(body) => {
            push_op(LowOp::Loop, list)?;
            push_code(alloc, known, here, body, list)?;
            push_op(LowOp::End, list)?;
            Ok(())
        }
        Instruction::Label(body) => {
            push_op(LowOp::Block, list)?;
            push_code(alloc, known, here, body, list)?;
            push_op(LowOp::End, list)?;
            Ok(())
        }
        Instruction::Make(to, seen, group) => push_make(known, here, *to, seen, *group, list),
        Instruction::Call(to, function, operands) => push_call(
            alloc,
            known,
            here,
            *to,
            function,
            operands.as_slice(),
            list,
        ),
        // Never in a program that is emitted.
        Instruction::Tabulate(_, _, _) | Instruction::Send(_, _, _, _, _) => Err(Memory),
    }
}
