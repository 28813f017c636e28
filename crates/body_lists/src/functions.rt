//! Functions.
ghost use Rattle.std.specs.Prelude.{◌≡◌, ◌++◌, ◌∷◌, [], ◌-◌, ℕ, map, replicate, IfOk, OnOk};
ghost use Rattle.wasm_tree.specs.declared.types.ValueType.TheVariants.{I32, I64};
ghost use Rattle.core_ir.specs.CodeMachine.{first_of};
ghost use Rattle.core_ir.specs.CodeView.{Names, code_body, code_of};
ghost use Rattle.low_ir.specs.Flat.{flat, flat_function};
ghost use Rattle.flat_emission.specs.Emission as emission;
ghost use Rattle.body_lists.specs.Known.{here_of, link_of, plan_of};

use crate::bodies::push_code;
use crate::code::type_of;
use crate::known::{Here, Known};
use crate::width::segments_width;
use core_ir::{Code, CodeBody};
use low_ir::{LowFunction, LowOp};
use mo_num::{Memory, Sequence};
use std::alloc::Global;
use wasm_tree::ValueType;

fn push_words(count: u32, list: &mut Sequence<ValueType>) -> Result<(), Memory>
    ensures { OnOk result (list.new ≡ list.old ++ replicate count I64) }
{
    for at in 0..count {
        let _ = at;
        list.push(ValueType::I64)?;
    }
    Ok(())
}

fn push_free(list: &mut Sequence<ValueType>) -> Result<(), Memory>
    ensures { OnOk result (list.new ≡ list.old ++ I32 ∷ I32 ∷ I64 ∷ []) }
{
    list.push(ValueType::I32)?;
    list.push(ValueType::I32)?;
    list.push(ValueType::I64)?;
    Ok(())
}

fn locals(
    alloc: Global,
    slots: u32,
    parameters: u32,
    most: u32,
) -> Result<Sequence<ValueType>, Memory>
    ensures { IfOk result (λ made. made ≡ replicate (slots - parameters) I64 ++ I32 ∷ I32 ∷ I64 ∷ replicate most I64) }
{
    let mut made = Sequence::new(alloc);
    push_words(slots.saturating_sub(parameters), &mut made)?;
    push_free(&mut made)?;
    push_words(most, &mut made)?;
    Ok(made)
}

fn body_of(
    alloc: Global,
    known: &Known,
    here: Here,
    segments: &[Code],
) -> Result<Sequence<LowOp>, Memory>
    ensures { IfOk result (λ made. (names : Names) → made ≡ flat (emission.emit (plan_of known.now) (link_of known.now) (here_of here) (first_of (map (λ c. code_of c names) segments.now)))) }
{
    let mut made = Sequence::new(alloc);
    if let [first, ..] = segments {
        push_code(alloc, known, here, first, &mut made)?;
    }
    Ok(made)
}

/// The function of a body, in a group of so many functions.
pub fn function_of(
    alloc: Global,
    known: &Known,
    members: u32,
    body: &CodeBody,
) -> Result<LowFunction, Memory>
    ensures { IfOk result (λ made. (functions sees : ℕ) → made ≡ flat_function (emission.function_of (plan_of known.now) (link_of known.now) members (code_body functions sees body.now))) }
{
    let segments = body.segments.as_slice();
    let Ok(most) = u32::try_from(segments_width(segments)) else {
        return Err(Memory);
    };
    let here = Here {
        slots: body.slots,
        members,
        most,
    };
    let signature = type_of(known, body.parameters as usize)?;
    let locals = locals(alloc, body.slots, body.parameters, most)?;
    let body = body_of(alloc, known, here, segments)?;
    Ok(LowFunction {
        signature,
        locals,
        body,
    })
}
