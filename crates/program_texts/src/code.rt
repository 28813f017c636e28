//! Texts of code.
ghost use Rattle.std.specs.Prelude.{◌≡◌, OnOk};
ghost use Rattle.core_ir.specs.Code.{Code as CodeForm};
ghost use Rattle.core_ir.specs.CodeView.{Names, code_of, exit_code, instruction as instruction_view};
ghost use Rattle.low_emit.specs.Texts as texts;

use crate::operands::{add_operand, add_operands, add_primitive, add_seen};
use core_ir::{Code, Exit, Instruction};
use mo_num::Memory;
use text_table::TextTable;

/// The texts of code.
#[cycle(listing)]
#[tactic(auto, unfolding(core_ir::specs::CodeView::code_of, core_ir::specs::CodeView::instruction))]
pub(crate) fn add_code(code: &Code, table: &mut TextTable) -> Result<(), Memory>
    ensures { OnOk result ((names : Names) → table.new ≡ texts.code_texts (code_of code.now names) table.old) }
{
    for instruction in code.instructions.as_slice() {
        add_instruction(instruction, table)?;
    }
    add_exit(&code.exit, table)?;
    Ok(())
}

// Whatever stands behind the instruction.
#[cycle(listing)]
#[tactic(auto, unfolding(core_ir::specs::CodeView::code_of, core_ir::specs::CodeView::instruction))]
fn add_instruction(instruction: &Instruction, table: &mut TextTable) -> Result<(), Memory>
    ensures { OnOk result ((names : Names) (c : CodeForm) → texts.code_texts c table.new ≡ texts.code_texts (instruction_view instruction.now names c) table.old) }
{
    match instruction {
        Instruction::Let(_, primitive, operands) => {
            add_primitive(primitive.get(), table)?;
            add_operands(operands.as_slice(), table)
        }
        Instruction::If(primitive, operands, yes, no) => {
            add_primitive(primitive.get(), table)?;
            add_operands(operands.as_slice(), table)?;
            add_code(yes, table)?;
            add_code(no, table)?;
            Ok(())
        }
        Instruction::Match(_, _, operand, yes, no) => {
            add_operand(operand, table)?;
            add_code(yes, table)?;
            add_code(no, table)?;
            Ok(())
        }
        Instruction::Loop(body) | Instruction::Label(body) => add_code(body, table),
        Instruction::Make(_, seen, _) => add_seen(seen, table),
        Instruction::Call(_, function, operands) => {
            add_operand(function, table)?;
            add_operands(operands.as_slice(), table)
        }
        // Never in a program that is emitted.
        Instruction::Tabulate(_, _, _) | Instruction::Send(_, _, _, _, _) => Err(Memory),
    }
}

fn add_exit(exit: &Exit, table: &mut TextTable) -> Result<(), Memory>
    ensures { OnOk result (table.new ≡ texts.code_texts (exit_code exit.now) table.old) }
{
    match exit {
        Exit::Return(operand) => add_operand(operand, table),
        Exit::Stop
        | Exit::Branch(_)
        | Exit::Leave(_)
        | Exit::Pass(_, _, _)
        | Exit::Wait(_, _, _, _)
        | Exit::Raise(_, _) => Ok(()),
    }
}
