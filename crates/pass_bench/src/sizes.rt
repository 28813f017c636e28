//! How large programs of structured code are.
use core_ir::{Code, CodeBody, Instruction, Program, Seen};

/// How many segments the bodies of a program have.
pub fn segments(program: &Program<CodeBody>) -> usize {
    let mut count = 0_usize;
    for method in program.methods.as_slice() {
        count = count.saturating_add(method.body.segments.len());
    }
    for group in program.groups.as_slice() {
        for body in group.bodies.as_slice() {
            count = count.saturating_add(body.segments.len());
        }
    }
    count
}

/// How many instructions and exits the code of a program has, and one for each value that a group is listed to see.
pub fn instructions(program: &Program<CodeBody>) -> usize {
    let mut count = 0_usize;
    for method in program.methods.as_slice() {
        count = count.saturating_add(of_body(&method.body));
    }
    for group in program.groups.as_slice() {
        for body in group.bodies.as_slice() {
            count = count.saturating_add(of_body(body));
        }
    }
    count
}

fn of_body(body: &CodeBody) -> usize {
    let mut count = 0_usize;
    for segment in body.segments.as_slice() {
        count = count.saturating_add(of_code(segment));
    }
    count
}

#[cycle(sizes)]
fn of_code(code: &Code) -> usize {
    let mut count = 1_usize;
    for instruction in code.instructions.as_slice() {
        count = count.saturating_add(of_instruction(instruction));
    }
    count
}

#[cycle(sizes)]
fn of_instruction(instruction: &Instruction) -> usize {
    match instruction {
        Instruction::If(_, _, yes, no) | Instruction::Match(_, _, _, yes, no) => {
            1_usize
                .saturating_add(of_code(yes))
                .saturating_add(of_code(no))
        }
        Instruction::Loop(body) | Instruction::Label(body) => 1_usize.saturating_add(of_code(body)),
        Instruction::Make(_, seen, _) => 1_usize.saturating_add(of_seen(seen)),
        Instruction::Let(_, _, _)
        | Instruction::Call(_, _, _)
        | Instruction::Tabulate(_, _, _)
        | Instruction::Send(_, _, _, _, _) => 1,
    }
}

fn of_seen(seen: &Seen) -> usize {
    match seen {
        Seen::Scope(_) => 0,
        Seen::Listed(operands) => operands.len(),
    }
}
