//! What code uses of the values that its group sees.
ghost use Rattle.std.specs.Prelude.{◌≡◌, OnOk, List, ℕ};
ghost use Rattle.core_ir.specs.Code.{Code as CodeForm};
ghost use Rattle.core_ir.specs.CodeView.{code_of, exit_code, instruction as instruction_view};
ghost use Rattle.core_ir.specs.ScopeNames.{scope_names};
ghost use Rattle.core_laws.specs.Uses.{uses};

use crate::operands::{use_all, use_operand, use_picked};
use crate::uses::{Uses, needed};
use core_ir::{Code, Exit, Instruction, Outermost, Scopes};
use mo_num::Memory;
use std::alloc::Global;

/// What code uses, behind what was used before it.
#[cycle(using)]
#[tactic(auto, unfolding(core_ir::specs::CodeView::code_of, core_ir::specs::CodeView::instruction))]
pub(crate) fn use_code(
    alloc: Global,
    needs: &[Uses],
    scopes: &Scopes,
    outermost: &Outermost,
    code: &Code,
    used: &mut Uses,
) -> Result<(), Memory>
    ensures { OnOk result (used.new ≡ uses needs.now (code_of code.now (scope_names scopes.now outermost.now)) used.old) }
{
    for instruction in code.instructions.as_slice() {
        use_instruction(alloc, needs, scopes, outermost, instruction, used)?;
    }
    use_exit(&code.exit, used)?;
    Ok(())
}

// Whatever stands behind the instruction.
#[cycle(using)]
#[tactic(auto, unfolding(core_ir::specs::CodeView::code_of, core_ir::specs::CodeView::instruction))]
fn use_instruction(
    alloc: Global,
    needs: &[Uses],
    scopes: &Scopes,
    outermost: &Outermost,
    instruction: &Instruction,
    used: &mut Uses,
) -> Result<(), Memory>
    ensures { OnOk result ((c : CodeForm) → uses needs.now c used.new ≡ uses needs.now (instruction_view instruction.now (scope_names scopes.now outermost.now) c) used.old) }
{
    match instruction {
        Instruction::Let(_, _, operands) => use_all(operands.as_slice(), used),
        Instruction::If(_, operands, yes, no) => {
            use_all(operands.as_slice(), used)?;
            use_code(alloc, needs, scopes, outermost, yes, used)?;
            use_code(alloc, needs, scopes, outermost, no, used)
        }
        Instruction::Match(_, _, operand, yes, no) => {
            use_operand(operand, used)?;
            use_code(alloc, needs, scopes, outermost, yes, used)?;
            use_code(alloc, needs, scopes, outermost, no, used)
        }
        Instruction::Loop(body) | Instruction::Label(body) => {
            use_code(alloc, needs, scopes, outermost, body, used)
        }
        Instruction::Make(_, seen, group) => use_picked(
            alloc,
            scopes,
            outermost,
            seen,
            needed(needs, *group),
            used,
        ),
        Instruction::Call(_, function, operands) => {
            use_operand(function, used)?;
            use_all(operands.as_slice(), used)
        }
        Instruction::Tabulate(_, size, function) => {
            use_operand(size, used)?;
            use_operand(function, used)
        }
        Instruction::Send(_, _, function, operands, _) => {
            use_operand(function, used)?;
            use_all(operands.as_slice(), used)
        }
    }
}

fn use_exit(exit: &Exit, used: &mut Uses) -> Result<(), Memory>
    ensures { OnOk result ((needs : List (List ℕ)) → used.new ≡ uses needs (exit_code exit.now) used.old) }
{
    match exit {
        Exit::Stop | Exit::Branch(_) | Exit::Leave(_) => Ok(()),
        Exit::Pass(_, operand, _)
        | Exit::Wait(_, operand, _, _)
        | Exit::Raise(operand, _)
        | Exit::Return(operand) => use_operand(operand, used),
    }
}
