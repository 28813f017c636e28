//! One execution (WebAssembly Core 1.0, section 4.5.5).
ghost use Rattle.outer.specs.Causes.{Rose};
ghost use Rattle.std.specs.Prelude.{◌≡◌, ◌+◌, ◌*◌, ◌≤◌, ◌<◌, ◌++◌, ℕ, List, length, take, min, replicate, IsErrOf};
ghost use Rattle.wasm_tree.specs.Exec.{most_pages};
ghost use Rattle.wasm_steps.specs.Layout.{IsModuleLayout};
ghost use Rattle.wasm_machine.specs.Asked.{IsMadeFor, Fitting};
ghost use Rattle.wasm_machine.specs.Hosts.{Gives, Traps, played};
ghost use Rattle.wasm_machine.specs.Turns.{IsTableOf};
ghost use Rattle.wasm_machine.specs.Ran.{execute_with, limits_of, store_with, IsCallable, HasRun, IfEntered};

use crate::call::{Stop, function_at};
use crate::drive::drive;
use crate::frames::{Here, Saved, clear};
use crate::host::{Host, HostEnd};
use page_store::KeptPages;
use wasm_steps::ModuleLayout;
use wasm_tree::{Module, Trap};

// The first activation's locals: the arguments, and then zeros.
fn start(args: &[u64], locals: usize, cells: &mut [u64])
    requires { length args.now + locals ≤ length cells.old }
    ensures { take (length args.now + locals) cells.new ≡ args.now ++ replicate locals 0 }
{
    let count = args.len();
    cells[..count].copy_from_slice(args);
    clear(cells, count, locals);
}

// An imported function may be the one that is executed.
fn enter_host<H: Host>(
    host: &mut H,
    function: u32,
    args: &[u64],
    left: u64,
    memory: &mut KeptPages,
) -> Result<u64, Stop>
    requires fitting { Fitting (H.types host.old) function args.now }
    ensures entered { IfEntered H.replies host.old host.new function args.now memory.old.bytes memory.new.bytes (memory.new ≡ memory.old) (H.types host.old) left result }
    ensures types { H.types host.new ≡ H.types host.old }
    ensures limit { memory.new.limit ≡ memory.old.limit }
    ensures kept { memory.new.kept ≡ memory.old.kept }
    ensures count { H.count host.old ≤ H.count host.new }
    ensures memory { IsErrOf result Stop.Memory → Rose (H.count host.old) (H.count host.new) }
{
    match host.call(function, args, memory) {
        Ok(_) => Ok(left),
        Err(HostEnd::Trap) => Err(Stop::Trapped(Trap::Host)),
        Err(HostEnd::Memory) => Err(Stop::Memory),
    }
}

/// Executes a function that gives no result, with so many steps and stack words, and gives the steps that are left. The
/// cells and the frames have room for the words. `most` is how many pages the memory may have, by its own limit and by
/// the module.
pub fn execute<H: Host>(
    host: &mut H,
    tree: &Module,
    layout: &ModuleLayout,
    table: &[Option<u32>],
    most: u32,
    function: u32,
    args: &[u64],
    limit: u64,
    words: usize,
    cells: &mut [u64],
    saved: &mut [Saved],
    globals: &mut [u64],
    memory: &mut KeptPages,
    refused: &mut bool,
) -> Result<u64, Stop>
    requires laid { IsModuleLayout tree.now layout.now }
    requires made_for { IsMadeFor tree.now (H.types host.old) }
    requires table { IsTableOf layout.now table.now }
    requires most { most ≡ min memory.old.limit (most_pages tree.now.memories) }
    requires callable { IsCallable tree.now function args.now }
    requires cells { words ≤ length cells.old }
    requires frames { words ≤ 8 * length saved.old }
    requires globals { length tree.now.globals ≡ length globals.old }
    ensures ran { HasRun H.replies host.old host.new (λ world. execute_with (limits_of limit memory.old.limit words) tree.now played function args.now (store_with memory.old.bytes globals.old table.now refused.old world)) (store_with memory.new.bytes globals.new table.now refused.new) result }
    ensures types { H.types host.new ≡ H.types host.old }
    ensures limit { memory.new.limit ≡ memory.old.limit }
    ensures kept { memory.new.kept ≡ memory.old.kept }
    ensures count { H.count host.old ≤ H.count host.new }
    ensures memory { IsErrOf result Stop.Memory → Rose (H.count host.old) (H.count host.new) }
{
    let callee = function_at(layout, function);
    match callee.body {
        None => enter_host(host, function, args, limit, memory),
        Some(body) => {
            if body.words > words {
                return Err(Stop::Trapped(Trap::Stack));
            }
            start(args, body.locals, cells);
            let first = Here {
                place: body.entry,
                base: 0,
                count: callee.params + body.locals,
                height: body.height,
                room: words - body.words,
                held: 0,
                depth: 0,
            };
            drive(
                host, tree, layout, table, most, first, limit, cells, saved, globals, memory,
                refused,
            )
        }
    }
}
