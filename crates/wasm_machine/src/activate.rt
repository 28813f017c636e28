//! The steps of an activation, until it ends or calls a function.
ghost use Rattle.std.specs.Prelude.{◌≡◌, ◌+◌, ◌<◌, ◌≤◌, ◌^◌, ℕ, List, length};
ghost use Rattle.wasm_tree.specs.Exec.{Calls};
ghost use Rattle.wasm_steps.specs.Moves.{Final};
ghost use Rattle.wasm_steps.specs.Follow.{Frugal, Stands, Good};
ghost use Rattle.wasm_machine.specs.Operands.{tops};
ghost use Rattle.wasm_machine.specs.Hosts.{Play};
ghost use Rattle.wasm_machine.specs.Acts.{Given, Parts, page_bound, parts, state_of};
ghost use Rattle.wasm_machine.specs.Active.{Active, next_of, EndHolds, EndLeft};

use crate::advance::{Moved, advance};
use page_store::KeptPages;
use wasm_steps::Step;
use wasm_tree::Trap;

/// How the steps of an activation come to an end: by a call of a function, or of a place of the table with the type
/// that the function must have, each with the place after it; by the body's end, or by a trap. The steps that are left
/// and the number of operands go with each.
#[derive(Clone, Copy)]
pub enum End {
    Asks {
        function: u32,
        place: usize,
        left: u64,
        held: usize,
    },
    Seeks {
        signature: u32,
        at: u64,
        place: usize,
        left: u64,
        held: usize,
    },
    Done {
        left: u64,
        held: usize,
    },
    Trapped(Trap),
}

/// Runs an activation from a place on.
pub fn activate(
    steps: &[Step],
    start: usize,
    limit: u64,
    count: usize,
    most: u32,
    stack: &mut [u64],
    locals: &mut [u64],
    globals: &mut [u64],
    memory: &mut KeptPages,
    refused: &mut bool,
) -> End
    requires some { Active steps.now (length stack.old) most start limit locals.old (parts memory.old.bytes globals.old refused.old) (tops stack.old count) }
    requires held { count ≤ length stack.old }
    requires most { most ≤ memory.old.limit }
    ensures held { EndHolds result (length stack.old) }
    ensures left { EndLeft result limit }
    ensures limit { memory.new.limit ≡ memory.old.limit }
    ensures kept { memory.new.kept ≡ memory.old.kept }
    ensures ends { (g : Given) (calls : Calls Play) (frugal : Frugal calls) (height keep : ℕ) (whole : Final Play) → page_bound g ≡ most → Stands g.limits g.within calls steps.now (length locals.old) height keep whole start (state_of g limit locals.old (parts memory.old.bytes globals.old refused.old)) (tops stack.old count) → Good g.limits g.within calls steps.now (length locals.old) height keep whole (next_of g result locals.new (parts memory.new.bytes globals.new refused.new) (tops stack.new)) }
{
    let mut place = start;
    let mut left = limit;
    let mut held = count;
    loop {
        match advance(
            steps[place],
            steps,
            place,
            left,
            held,
            most,
            stack,
            locals,
            globals,
            memory,
            refused,
        ) {
            Moved::On {
                place: to,
                left: rest,
                held: now,
            } => {
                place = to;
                left = rest;
                held = now;
            }
            Moved::Asks {
                function,
                place: to,
                left: rest,
                held: now,
            } => {
                return End::Asks {
                    function,
                    place: to,
                    left: rest,
                    held: now,
                };
            }
            Moved::Seeks {
                signature,
                at,
                place: to,
                left: rest,
                held: now,
            } => {
                return End::Seeks {
                    signature,
                    at,
                    place: to,
                    left: rest,
                    held: now,
                };
            }
            Moved::Done {
                left: rest,
                held: now,
            } => {
                return End::Done {
                    left: rest,
                    held: now,
                };
            }
            Moved::Trapped(cause) => return End::Trapped(cause),
        }
    }
}
