//! A turn of a run: an activation goes on until it ends or calls a function.
ghost use Rattle.outer.specs.Causes.{Rose};
ghost use Rattle.std.specs.Prelude.{◌≡◌, ◌+◌, ◌*◌, ◌≤◌, ◌<◌, ℕ, List, [], length, IsErrOf};
ghost use Rattle.wasm_steps.specs.Layout.{IsModuleLayout};
ghost use Rattle.wasm_steps.specs.Moves.{Final};
ghost use Rattle.wasm_machine.specs.Hosts.{Reply, HostCall, Play};
ghost use Rattle.wasm_machine.specs.Acts.{page_bound, parts};
ghost use Rattle.wasm_machine.specs.Asked.{IsMadeFor};
ghost use Rattle.wasm_machine.specs.Stacks.{IsStacked};
ghost use Rattle.wasm_machine.specs.Running.{Machine, RunsAt, play, with_world};
ghost use Rattle.wasm_machine.specs.Turns.{SomeRuns, IsTableOf, Turned, IsLess, IsFit, goes};

use crate::activate::End;
use crate::call::{Stop, call};
use crate::frames::{Here, Saved, finish, run_frame};
use crate::host::Host;
use crate::sought::seek;
use page_store::KeptPages;
use wasm_steps::ModuleLayout;
use wasm_tree::{Module, Trap};

/// What a turn leads to: the activation that goes on, and the steps that are left, or the end of the outermost one, with
/// how many results it leaves.
#[derive(Clone, Copy)]
pub enum Turn {
    On { here: Here, left: u64 },
    Done { left: u64, held: usize },
}

// The activation that a call leads to goes on.
fn on(called: Result<Here, Stop>, left: u64) -> Result<Turn, Stop>
    ensures { result ≡ goes called left }
{
    match called {
        Ok(here) => Ok(Turn::On { here, left }),
        Err(stop) => Err(stop),
    }
}

/// Runs the innermost activation until it ends or calls a function, and then begins what it calls, or its caller.
pub fn take_turn<H: Host>(
    host: &mut H,
    tree: &Module,
    layout: &ModuleLayout,
    table: &[Option<u32>],
    most: u32,
    here: Here,
    left: u64,
    cells: &mut [u64],
    saved: &mut [Saved],
    globals: &mut [u64],
    memory: &mut KeptPages,
    refused: &mut bool,
) -> Result<Turn, Stop>
    requires laid { IsModuleLayout tree.now layout.now }
    requires made_for { IsMadeFor tree.now (H.types host.old) }
    requires table { IsTableOf layout.now table.now }
    requires most { most ≤ memory.old.limit }
    requires some { SomeRuns tree.now layout.now table.now most saved.old cells.old here left (parts memory.old.bytes globals.old refused.old) }
    requires stacked { IsStacked saved.old cells.old here }
    requires held { here.base + here.count + here.held ≤ length cells.old }
    ensures less { IsLess here left result }
    ensures fit { IsFit here saved.new cells.new result }
    ensures turned { (k : Machine) (whole : List Reply → Final Play) (made : List HostCall) → k.within ≡ tree.now → k.table ≡ table.now → page_bound (with_world k (play made [])) ≡ most → ((rest : List Reply) → RunsAt k layout.now.steps (whole rest) (play made rest) saved.old cells.old here left (parts memory.old.bytes globals.old refused.old)) → Turned H.replies host.old host.new made whole k layout.now.steps here saved.new cells.new (parts memory.new.bytes globals.new refused.new) result }
    ensures types { H.types host.new ≡ H.types host.old }
    ensures limit { memory.new.limit ≡ memory.old.limit }
    ensures kept { memory.new.kept ≡ memory.old.kept }
    ensures count { H.count host.old ≤ H.count host.new }
    ensures memory { IsErrOf result Stop.Memory → Rose (H.count host.old) (H.count host.new) }
{
    match run_frame(
        layout.steps.as_slice(),
        here,
        left,
        most,
        cells,
        globals,
        memory,
        refused,
    ) {
        End::Trapped(cause) => Err(Stop::Trapped(cause)),
        End::Done { left: rest, held } => {
            if here.depth == 0 {
                return Ok(Turn::Done { left: rest, held });
            }
            let caller = finish(here, held, cells, saved);
            Ok(Turn::On {
                here: caller,
                left: rest,
            })
        }
        End::Asks {
            function,
            place,
            left: rest,
            held,
        } => {
            let called = call(
                host, layout, function, place, held, here, cells, saved, memory,
            );
            on(called, rest)
        }
        End::Seeks {
            signature,
            at,
            place,
            left: rest,
            held,
        } => match seek(tree, layout, table, signature, at) {
            Some(function) => {
                let called = call(
                    host, layout, function, place, held, here, cells, saved, memory,
                );
                on(called, rest)
            }
            None => Err(Stop::Trapped(Trap::Indirect)),
        },
    }
}
