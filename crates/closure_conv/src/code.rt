//! Code of groups that see what they use.
ghost use Rattle.std.specs.Prelude.{◌≡◌, ℕ, List, IfOk};
ghost use Rattle.core_ir.specs.Code.{Code as CodeForm};
ghost use Rattle.core_ir.specs.CodeView.{Names, code_of, exit_code, instruction as instruction_view};
ghost use Rattle.core_ir.specs.ScopeNames.{scope_names};
ghost use Rattle.core_laws.specs.Conversion.{convert};

use crate::operands::{convert_all, convert_operand, convert_picked};
use crate::uses::{Uses, needed};
use core_ir::{Code, Exit, Instruction, Outermost, Scopes, Seen};
use mo_num::{Memory, Sequence};
use mo_syntax::Items;
use std::alloc::Global;

/// The code in a group that sees the used values alone. It names no scope.
#[cycle(converting)]
#[tactic(auto, unfolding(core_ir::specs::CodeView::code_of, core_ir::specs::CodeView::instruction))]
pub(crate) fn convert_code(
    alloc: Global,
    needs: &[Uses],
    used: &Uses,
    scopes: &Scopes,
    outermost: &Outermost,
    code: &Code,
) -> Result<Code, Memory>
    ensures { IfOk result (λ made. (names : Names) → code_of made names ≡ convert needs.now used.now (code_of code.now (scope_names scopes.now outermost.now))) }
{
    let mut instructions = Items::new(alloc);
    for instruction in code.instructions.as_slice() {
        instructions.push(convert_instruction(
            alloc,
            needs,
            used,
            scopes,
            outermost,
            instruction,
        )?)?;
    }
    Ok(Code {
        instructions,
        exit: convert_exit(used, &code.exit)?,
    })
}

// Whatever stands behind the instruction.
#[cycle(converting)]
#[tactic(auto, unfolding(core_ir::specs::CodeView::code_of, core_ir::specs::CodeView::instruction))]
fn convert_instruction(
    alloc: Global,
    needs: &[Uses],
    used: &Uses,
    scopes: &Scopes,
    outermost: &Outermost,
    instruction: &Instruction,
) -> Result<Instruction, Memory>
    ensures { IfOk result (λ made. (names : Names) (c : CodeForm) → instruction_view made names (convert needs.now used.now c) ≡ convert needs.now used.now (instruction_view instruction.now (scope_names scopes.now outermost.now) c)) }
{
    match instruction {
        Instruction::Let(slot, primitive, operands) => Ok(Instruction::Let(
            *slot,
            primitive.share()?,
            convert_all(alloc, used, operands.as_slice())?,
        )),
        Instruction::If(primitive, operands, yes, no) => Ok(Instruction::If(
            primitive.share()?,
            convert_all(alloc, used, operands.as_slice())?,
            convert_code(alloc, needs, used, scopes, outermost, yes)?,
            convert_code(alloc, needs, used, scopes, outermost, no)?,
        )),
        Instruction::Match(slot, constructor, operand, yes, no) => Ok(Instruction::Match(
            *slot,
            constructor.share()?,
            convert_operand(used, operand)?,
            convert_code(alloc, needs, used, scopes, outermost, yes)?,
            convert_code(alloc, needs, used, scopes, outermost, no)?,
        )),
        Instruction::Loop(body) => Ok(Instruction::Loop(convert_code(
            alloc, needs, used, scopes, outermost, body,
        )?)),
        Instruction::Label(body) => Ok(Instruction::Label(convert_code(
            alloc, needs, used, scopes, outermost, body,
        )?)),
        Instruction::Make(slot, seen, group) => Ok(Instruction::Make(
            *slot,
            Seen::Listed(convert_picked(
                alloc,
                used,
                scopes,
                outermost,
                seen,
                needed(needs, *group),
            )?),
            *group,
        )),
        Instruction::Call(slot, function, operands) => Ok(Instruction::Call(
            *slot,
            convert_operand(used, function)?,
            convert_all(alloc, used, operands.as_slice())?,
        )),
        Instruction::Tabulate(slot, size, function) => Ok(Instruction::Tabulate(
            *slot,
            convert_operand(used, size)?,
            convert_operand(used, function)?,
        )),
        Instruction::Send(slot, signature, function, operands, handler) => Ok(Instruction::Send(
            *slot,
            signature.share()?,
            convert_operand(used, function)?,
            convert_all(alloc, used, operands.as_slice())?,
            *handler,
        )),
    }
}

fn convert_exit(used: &Uses, exit: &Exit) -> Result<Exit, Memory>
    ensures { IfOk result (λ made. (needs : List (List ℕ)) → exit_code made ≡ convert needs used.now (exit_code exit.now)) }
{
    match exit {
        Exit::Stop => Ok(Exit::Stop),
        Exit::Branch(out) => Ok(Exit::Branch(*out)),
        Exit::Leave(segment) => Ok(Exit::Leave(*segment)),
        Exit::Pass(slot, operand, segment) => Ok(Exit::Pass(
            *slot,
            convert_operand(used, operand)?,
            *segment,
        )),
        Exit::Wait(slot, operand, handler, segment) => Ok(Exit::Wait(
            *slot,
            convert_operand(used, operand)?,
            *handler,
            *segment,
        )),
        Exit::Raise(operand, handler) => {
            Ok(Exit::Raise(convert_operand(used, operand)?, *handler))
        }
        Exit::Return(operand) => Ok(Exit::Return(convert_operand(used, operand)?)),
    }
}
