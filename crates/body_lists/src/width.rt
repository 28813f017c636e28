//! The most operands of an instruction.
ghost use Rattle.std.specs.Prelude.{◌≡◌, max, map};
ghost use Rattle.core_ir.specs.Code.{Code as CodeForm};
ghost use Rattle.core_ir.specs.CodeView.{Names, code_of, exit_code, instruction as instruction_view};
ghost use Rattle.core_ir.specs.FormedCode.{most_of, most_operands};

use core_ir::{Code, Exit, Instruction};

fn larger(a: usize, b: usize) -> usize
    ensures { result ≡ max a b }
{
    a.max(b)
}

fn exit_width(exit: &Exit) -> usize
    ensures { result ≡ most_operands (exit_code exit.now) }
{
    match exit {
        Exit::Stop | Exit::Branch(_) | Exit::Leave(_) => 0,
        Exit::Pass(_, _, _) | Exit::Wait(_, _, _, _) | Exit::Raise(_, _) | Exit::Return(_) => 1,
    }
}

/// Of code.
#[cycle(measuring)]
#[tactic(auto, unfolding(core_ir::specs::CodeView::code_of, core_ir::specs::CodeView::instruction))]
pub(crate) fn code_width(code: &Code) -> usize
    ensures { (names : Names) → result ≡ most_operands (code_of code.now names) }
{
    let mut most = 0;
    for instruction in code.instructions.as_slice() {
        most = larger(most, instruction_width(instruction));
    }
    larger(most, exit_width(&code.exit))
}

// Whatever stands behind the instruction.
#[cycle(measuring)]
#[tactic(auto, unfolding(core_ir::specs::CodeView::code_of, core_ir::specs::CodeView::instruction))]
fn instruction_width(instruction: &Instruction) -> usize
    ensures { (names : Names) (c : CodeForm) → max result (most_operands c) ≡ most_operands (instruction_view instruction.now names c) }
{
    match instruction {
        Instruction::Let(_, _, operands) => operands.len(),
        Instruction::If(_, operands, yes, no) => larger(
            operands.len(),
            larger(code_width(yes), code_width(no)),
        ),
        Instruction::Match(_, _, _, yes, no) => larger(1, larger(code_width(yes), code_width(no))),
        Instruction::Loop(body) | Instruction::Label(body) => code_width(body),
        Instruction::Make(_, _, _) => 1,
        Instruction::Call(_, _, operands) | Instruction::Send(_, _, _, operands, _) => {
            operands.as_slice().len() + 1
        }
        Instruction::Tabulate(_, _, _) => 2,
    }
}

/// Of the segments of a body.
pub(crate) fn segments_width(segments: &[Code]) -> usize
    ensures { (names : Names) → result ≡ most_of most_operands (map (λ c. code_of c names) segments.now) }
{
    let mut most = 0;
    for segment in segments {
        most = larger(most, code_width(segment));
    }
    most
}
