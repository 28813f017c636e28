//! A run from its first activation to its end.
ghost use Rattle.outer.specs.Causes.{Rose};
ghost use Rattle.std.specs.Prelude.{◌≡◌, ◌+◌, ◌≤◌, ◌<◌, ℕ, List, [], length, IsErrOf};
ghost use Rattle.wasm_steps.specs.Layout.{IsModuleLayout};
ghost use Rattle.wasm_steps.specs.Moves.{Final};
ghost use Rattle.wasm_machine.specs.Hosts.{Reply, Play};
ghost use Rattle.wasm_machine.specs.Acts.{page_bound, parts};
ghost use Rattle.wasm_machine.specs.Asked.{IsMadeFor};
ghost use Rattle.wasm_machine.specs.Stacks.{IsStacked};
ghost use Rattle.wasm_machine.specs.Running.{Machine, RunsAt, play, with_world};
ghost use Rattle.wasm_machine.specs.Turns.{SomeStart, IsTableOf, Ended};

use crate::call::Stop;
use crate::frames::{Here, Saved};
use crate::host::Host;
use crate::turn::{Turn, take_turn};
use page_store::KeptPages;
use wasm_steps::ModuleLayout;
use wasm_tree::Module;

/// Takes turns until the outermost activation ends, and gives the steps that are left, or until the run stops.
pub fn drive<H: Host>(
    host: &mut H,
    tree: &Module,
    layout: &ModuleLayout,
    table: &[Option<u32>],
    most: u32,
    first: Here,
    limit: u64,
    cells: &mut [u64],
    saved: &mut [Saved],
    globals: &mut [u64],
    memory: &mut KeptPages,
    refused: &mut bool,
) -> Result<u64, Stop>
    requires laid { IsModuleLayout tree.now layout.now }
    requires made_for { IsMadeFor tree.now (H.types host.old) }
    requires table { IsTableOf layout.now table.now }
    requires most { most ≤ memory.old.limit }
    requires some { SomeStart tree.now layout.now table.now most saved.old cells.old first limit (parts memory.old.bytes globals.old refused.old) }
    requires stacked { IsStacked saved.old cells.old first }
    requires held { first.base + first.count + first.held ≤ length cells.old }
    ensures ended { (k : Machine) (whole : List Reply → Final Play) → k.within ≡ tree.now → k.table ≡ table.now → page_bound (with_world k (play [] [])) ≡ most → ((rest : List Reply) → RunsAt k layout.now.steps (whole rest) (play [] rest) saved.old cells.old first limit (parts memory.old.bytes globals.old refused.old)) → Ended H.replies host.old host.new whole k (parts memory.new.bytes globals.new refused.new) result }
    ensures types { H.types host.new ≡ H.types host.old }
    ensures limit { memory.new.limit ≡ memory.old.limit }
    ensures kept { memory.new.kept ≡ memory.old.kept }
    ensures count { H.count host.old ≤ H.count host.new }
    ensures memory { IsErrOf result Stop.Memory → Rose (H.count host.old) (H.count host.new) }
{
    let mut here = first;
    let mut left = limit;
    loop {
        match take_turn(
            host, tree, layout, table, most, here, left, cells, saved, globals, memory, refused,
        ) {
            Ok(
                Turn::On {
                    here: next,
                    left: rest,
                },
            ) => {
                here = next;
                left = rest;
            }
            Ok(
                Turn::Done {
                    left: rest,
                    held: _,
                },
            ) => return Ok(rest),
            Err(stop) => return Err(stop),
        }
    }
}
