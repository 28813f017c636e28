//! The activations of a run, one called by the other. Their cells lie one above the other in one slice: of each its
//! locals, and then its operands. The arguments of a call are the first locals of what it calls.
ghost use Rattle.std.specs.Prelude.{ℕ, ◌≡◌, ◌+◌, ◌-◌, ◌*◌, ◌<◌, ◌≤◌, ◌^◌, ◌++◌, ◌∷◌, length, take, drop, reverse, replicate, slice_index};
ghost use Rattle.wasm_tree.specs.Exec.{Calls};
ghost use Rattle.wasm_steps.specs.Moves.{Final};
ghost use Rattle.wasm_steps.specs.Follow.{Frugal, Stands, Good};
ghost use Rattle.wasm_steps.specs.Calls.{Frame};
ghost use Rattle.wasm_machine.specs.Hosts.{Play};
ghost use Rattle.wasm_machine.specs.Acts.{Given, page_bound, parts, state_of};
ghost use Rattle.wasm_machine.specs.Active.{Active, next_of, EndHolds, EndLeft};
ghost use Rattle.wasm_machine.specs.Operands.{tops};
ghost use Rattle.wasm_machine.specs.Stacks.{IsStacked, AgreeBelow, frames_under, locals_of, operands_of, saved_list, IsCaller};

use crate::activate::{End, activate};
use page_store::KeptPages;
use wasm_steps::{BodyLayout, Step};

/// An activation that waits for a call: the place after it, where its cells begin, how many locals it has, its greatest
/// height of operands, and the words for the frames that it calls.
#[derive(Clone, Copy)]
pub struct Saved {
    pub place: usize,
    pub base: usize,
    pub count: usize,
    pub height: usize,
    pub room: usize,
}

/// The innermost activation: the same of it, with how many operands it holds and how many activations wait.
#[derive(Clone, Copy)]
pub struct Here {
    pub place: usize,
    pub base: usize,
    pub count: usize,
    pub height: usize,
    pub room: usize,
    pub held: usize,
    pub depth: usize,
}

/// Lets so many cells from a place on be 0.
pub fn clear(cells: &mut [u64], from: usize, count: usize)
    requires { from + count ≤ length cells.old }
    ensures { cells.new ≡ take from cells.old ++ replicate count 0 ++ drop (from + count) cells.old }
{
    cells[from..from + count].fill(0);
}

/// Moves one or no result down to a place.
fn give(cells: &mut [u64], from: usize, to: usize, results: usize)
    requires order { to ≤ from }
    requires within { from + results ≤ length cells.old }
    ensures below { AgreeBelow to cells.new cells.old }
    ensures given { results ≡ 1 → slice_index cells.new to ≡ slice_index cells.old from }
{
    if results == 1 {
        cells[to] = cells[from];
    }
}

/// Begins a body, whose arguments are the topmost of so many operands. The caller is saved.
pub fn begin(
    body: BodyLayout,
    params: usize,
    here: Here,
    place: usize,
    held: usize,
    cells: &mut [u64],
    saved: &mut [Saved],
) -> Here
    requires stacked { IsStacked saved.old cells.old here }
    requires arguments { params ≤ held }
    requires few { held ≤ here.height }
    requires frame { 8 + params + body.locals + body.height ≤ body.words }
    requires room { body.words ≤ here.room }
    ensures stacked { IsStacked saved.new cells.new result }
    ensures body { (result.place ≡ body.entry) × (result.room ≡ here.room - body.words) × (result.count ≡ params + body.locals) × (result.height ≡ body.height) × (result.held ≡ 0) }
    ensures depth { result.depth ≡ here.depth + 1 }
    ensures frames { frames_under saved.new result cells.new ≡ record { place = place; room = here.room; count = here.count; height = here.height; locals = locals_of here cells.old; operands = drop params (operands_of here cells.old held) } ∷ frames_under saved.old here cells.old }
    ensures locals { locals_of result cells.new ≡ reverse (take params (operands_of here cells.old held)) ++ replicate body.locals 0 }
{
    saved[here.depth] = Saved {
        place,
        base: here.base,
        count: here.count,
        height: here.height,
        room: here.room,
    };
    let base = here.base + here.count + held - params;
    clear(cells, base + params, body.locals);
    Here {
        place: body.entry,
        base,
        count: params + body.locals,
        height: body.height,
        room: here.room - body.words,
        held: 0,
        depth: here.depth + 1,
    }
}

/// Goes on in the caller, with one or no result.
pub fn finish(here: Here, results: usize, cells: &mut [u64], saved: &[Saved]) -> Here
    requires stacked { IsStacked saved.now cells.old here }
    requires some { 1 ≤ here.depth }
    requires few { results ≤ 1 }
    requires within { here.base + here.count + results ≤ length cells.old }
    ensures stacked { IsStacked saved.now cells.new result }
    ensures depth { result.depth + 1 ≡ here.depth }
    ensures held { result.base + result.count + result.held ≤ length cells.new }
    ensures caller { IsCaller saved.now here result cells.old cells.new (operands_of here cells.old results) }
{
    let caller = saved[here.depth - 1];
    give(cells, here.base + here.count, here.base, results);
    Here {
        place: caller.place,
        base: caller.base,
        count: caller.count,
        height: caller.height,
        room: caller.room,
        held: here.base - (caller.base + caller.count) + results,
        depth: here.depth - 1,
    }
}

/// Runs the innermost activation from its place on.
pub fn run_frame(
    steps: &[Step],
    here: Here,
    left: u64,
    most: u32,
    cells: &mut [u64],
    globals: &mut [u64],
    memory: &mut KeptPages,
    refused: &mut bool,
) -> End
    requires some { Active steps.now (length cells.old - (here.base + here.count)) most here.place left (locals_of here cells.old) (parts memory.old.bytes globals.old refused.old) (operands_of here cells.old here.held) }
    requires held { here.base + here.count + here.held ≤ length cells.old }
    requires most { most ≤ memory.old.limit }
    ensures held { EndHolds result (length cells.old - (here.base + here.count)) }
    ensures left { EndLeft result left }
    ensures limit { memory.new.limit ≡ memory.old.limit }
    ensures kept { memory.new.kept ≡ memory.old.kept }
    ensures below { AgreeBelow here.base cells.new cells.old }
    ensures ends { (g : Given) (calls : Calls Play) (frugal : Frugal calls) (height keep : ℕ) (whole : Final Play) → page_bound g ≡ most → Stands g.limits g.within calls steps.now here.count height keep whole here.place (state_of g left (locals_of here cells.old) (parts memory.old.bytes globals.old refused.old)) (operands_of here cells.old here.held) → Good g.limits g.within calls steps.now here.count height keep whole (next_of g result (locals_of here cells.new) (parts memory.new.bytes globals.new refused.new) (operands_of here cells.new)) }
{
    let (front, operands) = cells.split_at_mut(here.base + here.count);
    let (_, locals) = front.split_at_mut(here.base);
    activate(
        steps, here.place, left, here.held, most, operands, locals, globals, memory, refused,
    )
}
