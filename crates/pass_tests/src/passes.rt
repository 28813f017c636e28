//! A method with an `await` in an operand becomes two segments, and its function sees the one name that it uses.
use crate::programs::small;
use closure_conv::convert;
use core_ir::{Code, CodeBody, Exit, Instruction, Operand, Program, Seen};
use std::test::Fail;
use suspend_split::split;

// The two segments of the method, and the one of the function.
fn segments(program: &Program<CodeBody>) -> Option<(&Code, &Code, &Code)> {
    let ([method], [group]) = (program.methods.as_slice(), program.groups.as_slice()) else {
        return None;
    };
    let ([begin, end], [function]) = (method.body.segments.as_slice(), group.bodies.as_slice())
    else {
        return None;
    };
    let [sum] = function.segments.as_slice() else {
        return None;
    };
    Some((begin, end, sum))
}

// What the function sees where it is made. Behind that it is called, and the future is waited for.
fn seen(code: &Code) -> Option<&Seen> {
    match (code.instructions.as_slice(), &code.exit) {
        (
            [
                Instruction::Make(4, seen, 0),
                Instruction::Call(5, Operand::Slot(4), arguments),
            ],
            Exit::Wait(6, Operand::Slot(1), None, 1),
        ) if matches!(arguments.as_slice(), [Operand::Slot(2)]) => Some(seen),
        _ => None,
    }
}

// What is added, where the sum is returned by way of this slot.
fn added(code: &Code, into: u32) -> Option<&[Operand]> {
    match (code.instructions.as_slice(), &code.exit) {
        ([Instruction::Let(slot, _, operands)], Exit::Return(Operand::Slot(given)))
            if *slot == into && *given == into => { Some(operands.as_slice()) }
        _ => None,
    }
}

#[test]
fn a_program_is_split_and_converted(rt: HostRuntime) -> Result<(), Fail> {
    let core = small(rt.alloc())?;
    let made = split(rt.alloc(), &core)?;
    let (begin, end, sum) = segments(&made.program).ok_or("three segments")?;
    assert!(rt; matches!(seen(begin), Some(Seen::Scope(0))));
    assert!(rt; matches!(added(end, 3), Some([Operand::Slot(5), Operand::Slot(6)])));
    assert!(rt;
        matches!(
            added(sum, 1),
            Some([Operand::Slot(0), Operand::Captured(2)])
        )
    );
    let flat = convert(rt.alloc(), &made)?;
    let (begin, end, sum) = segments(&flat.program).ok_or("three segments")?;
    let Some(Seen::Listed(names)) = seen(begin) else {
        return Err("a list".into());
    };
    assert!(rt; matches!(names.as_slice(), [Operand::Slot(2)]));
    assert!(rt; matches!(added(end, 3), Some([Operand::Slot(5), Operand::Slot(6)])));
    assert!(rt;
        matches!(
            added(sum, 1),
            Some([Operand::Slot(0), Operand::Captured(0)])
        )
    );
    Ok(())
}
