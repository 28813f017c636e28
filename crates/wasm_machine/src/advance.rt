//! One step of an activation.
ghost use Rattle.std.specs.Prelude.{◌≡◌, ◌+◌, ◌<◌, ◌≤◌, ◌^◌, ℕ, List, length, suc, Some, cond, slice_get};
ghost use Rattle.wasm_tree.specs.Exec.{bits32, bits64};
ghost use Rattle.wasm_steps.specs.Moves.{Ready, ReadyLabel, slide, move_by, move};
ghost use Rattle.wasm_machine.specs.Operands.{tops};
ghost use Rattle.wasm_machine.specs.Acts.{Given, Parts, page_bound, parts, state_of, Moves, Holds, IsMove};

use crate::memory::{grow, store_in};
use crate::operands::{cut, is_zero, low32, put, second, select, table_label, third, top};
use page_store::KeptPages;
use wasm_numeric::{binary, compare, convert, equals_zero, load, unary};
use wasm_steps::{Label, Step};
use wasm_tree::Trap;

/// Where a step leads: to another place, to a call of a function or of a place of the table, and to the place after it,
/// or to the end of the body; each with the steps that are left and how many operands are held.
#[derive(Clone, Copy)]
pub enum Moved {
    On {
        place: usize,
        left: u64,
        held: usize,
    },
    Asks {
        function: u32,
        place: usize,
        left: u64,
        held: usize,
    },
    /// With the index of the type that the function must have.
    Seeks {
        signature: u32,
        at: u64,
        place: usize,
        left: u64,
        held: usize,
    },
    Done {
        left: u64,
        held: usize,
    },
    Trapped(Trap),
}

// The bits of an integer as a number.
#[inline(always)]
fn word32(value: i32) -> u64
    ensures { result ≡ bits32 value }
{
    u64::from(value.cast_unsigned())
}

#[inline(always)]
fn word64(value: i64) -> u64
    ensures { result ≡ bits64 value }
{
    value.cast_unsigned()
}

// The first place where this holds, else the second.
#[inline(always)]
fn chosen(is_first: bool, first: usize, second: usize) -> usize
    ensures { result ≡ cond is_first first second }
{
    if is_first { first } else { second }
}

// A branch that is taken.
#[inline(always)]
fn branch(stack: &mut [u64], held: usize, left: u64, label: Label) -> Moved
    requires ready { ReadyLabel held label }
    requires within { held ≤ length stack.old }
    ensures to { result ≡ Moved.On label.to left (label.height + label.keep) }
    ensures tops { tops stack.new (label.height + label.keep) ≡ slide label.keep label.height (tops stack.old held) }
{
    let held = cut(stack, held, label.height as usize, label.keep as usize);
    Moved::On {
        place: label.to as usize,
        left,
        held,
    }
}

// A step where none is left.
fn exhausted(step: Step, held: usize) -> Moved
    requires { IsMove step }
    ensures held { (room : ℕ) → held ≤ room → Holds result room }
    ensures moves { (g : Given) (steps : List Step) (place : ℕ) (locals : List ℕ) (p : Parts) (cells : List ℕ) → Moves g (move_by g.limits g.within steps (Some step) place (state_of g 0 locals p) (tops cells held)) result locals p (tops cells) }
{
    match step {
        Step::Jump(to) => Moved::On {
            place: to as usize,
            left: 0,
            held,
        },
        Step::Finish => Moved::Done { left: 0, held },
        _ => Moved::Trapped(Trap::Steps),
    }
}

// A step where one more than `left` are left.
#[inline(always)]
fn take_step(
    step: Step,
    steps: &[Step],
    place: usize,
    left: u64,
    held: usize,
    most: u32,
    stack: &mut [u64],
    locals: &mut [u64],
    globals: &mut [u64],
    memory: &mut KeptPages,
    refused: &mut bool,
) -> Moved
    requires place { place < length steps.now }
    requires ready { Ready steps.now (length locals.old) (length globals.old) (length stack.old) (Some step) place held }
    requires within { held ≤ length stack.old }
    requires few { left + 1 < 2 ^ 64 }
    requires most { most ≤ memory.old.limit }
    ensures held { Holds result (length stack.old) }
    ensures limit { memory.new.limit ≡ memory.old.limit }
    ensures kept { memory.new.kept ≡ memory.old.kept }
    ensures moves { (g : Given) → page_bound g ≡ most → Moves g (move_by g.limits g.within steps.now (Some step) place (state_of g (suc left) locals.old (parts memory.old.bytes globals.old refused.old)) (tops stack.old held)) result locals.new (parts memory.new.bytes globals.new refused.new) (tops stack.new) }
{
    match step {
        Step::Nop => Moved::On {
            place: place + 1,
            left,
            held,
        },
        Step::Drop => Moved::On {
            place: place + 1,
            left,
            held: held - 1,
        },
        Step::Select => {
            let value = select(top(stack, held), third(stack, held), second(stack, held));
            Moved::On {
                place: place + 1,
                left,
                held: put(stack, held - 3, value),
            }
        }
        Step::LocalGet(local) => {
            let value = locals[local as usize];
            Moved::On {
                place: place + 1,
                left,
                held: put(stack, held, value),
            }
        }
        Step::LocalSet(local) => {
            locals[local as usize] = top(stack, held);
            Moved::On {
                place: place + 1,
                left,
                held: held - 1,
            }
        }
        Step::LocalTee(local) => {
            locals[local as usize] = top(stack, held);
            Moved::On {
                place: place + 1,
                left,
                held,
            }
        }
        Step::GlobalGet(global) => {
            let value = globals[global as usize];
            Moved::On {
                place: place + 1,
                left,
                held: put(stack, held, value),
            }
        }
        Step::GlobalSet(global) => {
            globals[global as usize] = top(stack, held);
            Moved::On {
                place: place + 1,
                left,
                held: held - 1,
            }
        }
        Step::Load(kind, offset) => {
            let address = low32(top(stack, held)) + u64::from(offset);
            match load(kind, memory.bytes(), address) {
                Some(value) => Moved::On {
                    place: place + 1,
                    left,
                    held: put(stack, held - 1, value),
                },
                None => Moved::Trapped(Trap::Bounds),
            }
        }
        Step::Store(kind, offset) => {
            let address = low32(second(stack, held)) + u64::from(offset);
            match store_in(memory, kind, address, top(stack, held)) {
                true => Moved::On {
                    place: place + 1,
                    left,
                    held: held - 2,
                },
                false => Moved::Trapped(Trap::Bounds),
            }
        }
        Step::MemorySize => {
            let size = u64::from(memory.size());
            Moved::On {
                place: place + 1,
                left,
                held: put(stack, held, size),
            }
        }
        Step::MemoryGrow => {
            let by = low32(top(stack, held)) as u32;
            let answer = grow(memory, most, by, refused);
            Moved::On {
                place: place + 1,
                left,
                held: put(stack, held - 1, answer),
            }
        }
        Step::I32Const(value) => Moved::On {
            place: place + 1,
            left,
            held: put(stack, held, word32(value)),
        },
        Step::I64Const(value) => Moved::On {
            place: place + 1,
            left,
            held: put(stack, held, word64(value)),
        },
        Step::EqualsZero(kind) => {
            let value = equals_zero(kind, top(stack, held));
            Moved::On {
                place: place + 1,
                left,
                held: put(stack, held - 1, value),
            }
        }
        Step::Compare(kind, comparison) => {
            let value = compare(kind, comparison, second(stack, held), top(stack, held));
            Moved::On {
                place: place + 1,
                left,
                held: put(stack, held - 2, value),
            }
        }
        Step::Unary(kind, operator) => {
            let value = unary(kind, operator, top(stack, held));
            Moved::On {
                place: place + 1,
                left,
                held: put(stack, held - 1, value),
            }
        }
        Step::Binary(kind, operator) => {
            match binary(kind, operator, second(stack, held), top(stack, held)) {
                Ok(value) => Moved::On {
                    place: place + 1,
                    left,
                    held: put(stack, held - 2, value),
                },
                Err(cause) => Moved::Trapped(cause),
            }
        }
        Step::Convert(conversion) => {
            let value = convert(conversion, top(stack, held));
            Moved::On {
                place: place + 1,
                left,
                held: put(stack, held - 1, value),
            }
        }
        Step::Unreachable => Moved::Trapped(Trap::Unreachable),
        Step::Enter => Moved::On {
            place: place + 1,
            left,
            held,
        },
        Step::Test(to) => Moved::On {
            place: chosen(is_zero(top(stack, held)), to as usize, place + 1),
            left,
            held: held - 1,
        },
        Step::Jump(to) => Moved::On {
            place: to as usize,
            left: left + 1,
            held,
        },
        Step::Br(label) => branch(stack, held, left, label),
        Step::BrIf(label) => match is_zero(top(stack, held)) {
            true => Moved::On {
                place: place + 1,
                left,
                held: held - 1,
            },
            false => branch(stack, held - 1, left, label),
        },
        Step::BrTable(count) => {
            let label = table_label(steps, place, count, top(stack, held));
            branch(stack, held - 1, left, label)
        }
        Step::Entry(_) => unreachable!(),
        Step::Return(keep) => Moved::Done {
            left,
            held: cut(stack, held, 0, keep as usize),
        },
        Step::Call(function) => Moved::Asks {
            function,
            place: place + 1,
            left,
            held,
        },
        Step::CallIndirect(signature) => Moved::Seeks {
            signature,
            at: low32(top(stack, held)),
            place: place + 1,
            left,
            held: held - 1,
        },
        Step::Finish => Moved::Done {
            left: left + 1,
            held,
        },
    }
}

/// One step, at this place, of which so many are left.
#[inline(always)]
pub fn advance(
    step: Step,
    steps: &[Step],
    place: usize,
    left: u64,
    held: usize,
    most: u32,
    stack: &mut [u64],
    locals: &mut [u64],
    globals: &mut [u64],
    memory: &mut KeptPages,
    refused: &mut bool,
) -> Moved
    requires place { place < length steps.now }
    requires ready { Ready steps.now (length locals.old) (length globals.old) (length stack.old) (Some step) place held }
    requires within { held ≤ length stack.old }
    requires most { most ≤ memory.old.limit }
    ensures held { Holds result (length stack.old) }
    ensures limit { memory.new.limit ≡ memory.old.limit }
    ensures kept { memory.new.kept ≡ memory.old.kept }
    ensures moves { (g : Given) → page_bound g ≡ most → Moves g (move_by g.limits g.within steps.now (Some step) place (state_of g left locals.old (parts memory.old.bytes globals.old refused.old)) (tops stack.old held)) result locals.new (parts memory.new.bytes globals.new refused.new) (tops stack.new) }
{
    if left == 0 {
        return exhausted(step, held);
    }
    take_step(
        step,
        steps,
        place,
        left - 1,
        held,
        most,
        stack,
        locals,
        globals,
        memory,
        refused,
    )
}
