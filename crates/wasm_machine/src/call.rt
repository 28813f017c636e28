//! A call of a function, which the module defines or the host.
ghost use Rattle.outer.specs.Causes.{Rose};
ghost use Rattle.std.specs.Prelude.{◌≡◌, ◌+◌, ◌-◌, ◌≤◌, ◌<◌, ℕ, List, Some, Bool, length, slice_get, IfOk, IsErrOf};
ghost use Rattle.wasm_tree.specs.declared.types.FunctionType.{FunctionType};
ghost use Rattle.wasm_steps.specs.Layout.{IsModuleLayout};
ghost use Rattle.wasm_steps.specs.Moves.{Final};
ghost use Rattle.wasm_machine.specs.Hosts.{Reply, HostCall, Play, Gives, Traps};
ghost use Rattle.wasm_machine.specs.Acts.{Parts, parts};
ghost use Rattle.wasm_machine.specs.Asked.{IsMadeFor, Fitting};
ghost use Rattle.wasm_machine.specs.HostCame.{HostCame, args_of};
ghost use Rattle.wasm_machine.specs.Stacks.{IsStacked, AgreeBelow};
ghost use Rattle.wasm_machine.specs.Running.{Machine, AsksAt, SomeAsks, Comes, IsReady, play};

use crate::ask::ask;
use crate::frames::{Here, Saved, begin};
use crate::host::{Host, HostEnd};
use page_store::KeptPages;
use wasm_steps::{FunctionLayout, ModuleLayout};
use wasm_tree::Trap;

/// Why a run stops before its end.
#[derive(Clone, Copy, Debug, PartialEq, Eq)]
pub enum Stop {
    Trapped(Trap),
    /// Memory was wanting to the host.
    Memory,
}

// A call of the host, over so many operands of which the topmost are the arguments.
fn call_host<H: Host>(
    host: &mut H,
    function: u32,
    params: usize,
    here: Here,
    place: usize,
    held: usize,
    cells: &mut [u64],
    memory: &mut KeptPages,
) -> Result<Here, Stop>
    requires fitting { Fitting (H.types host.old) function (args_of here cells.old held params) }
    requires arguments { params ≤ held }
    requires within { here.base + here.count + held ≤ length cells.old }
    requires room { (t : FunctionType) → slice_get (H.types host.old) function ≡ Some t → here.base + here.count + held - params + length t.results ≤ length cells.old }
    ensures came { HostCame (H.types host.old) function params here place held cells.old cells.new (λ given. H.replies host.old function (args_of here cells.old held params) memory.old.bytes (Gives given memory.new.bytes) host.new) (H.replies host.old function (args_of here cells.old held params) memory.old.bytes Traps host.new × (memory.new ≡ memory.old)) result }
    ensures below { AgreeBelow (here.base + here.count) cells.new cells.old }
    ensures cells { IfOk result (λ next. next.base + next.count + next.held ≤ length cells.new) }
    ensures types { H.types host.new ≡ H.types host.old }
    ensures limit { memory.new.limit ≡ memory.old.limit }
    ensures kept { memory.new.kept ≡ memory.old.kept }
    ensures count { H.count host.old ≤ H.count host.new }
    ensures memory { IsErrOf result Stop.Memory → Rose (H.count host.old) (H.count host.new) }
{
    let from = here.base + here.count + held - params;
    match ask(host, function, from, params, cells, memory) {
        Ok(given) => Ok(Here {
            place,
            base: here.base,
            count: here.count,
            height: here.height,
            room: here.room,
            held: held - params + given,
            depth: here.depth,
        }),
        Err(HostEnd::Trap) => Err(Stop::Trapped(Trap::Host)),
        Err(HostEnd::Memory) => Err(Stop::Memory),
    }
}

/// What is known of a function.
pub fn function_at(layout: &ModuleLayout, function: u32) -> FunctionLayout
    requires { function < length layout.now.functions }
    ensures { slice_get layout.now.functions function ≡ Some result }
{
    layout.functions.as_slice()[function as usize]
}

/// Calls a function over so many operands, of which the topmost are the arguments: it begins its body, or asks the
/// host. The answer is the activation that goes on.
pub fn call<H: Host>(
    host: &mut H,
    layout: &ModuleLayout,
    function: u32,
    place: usize,
    held: usize,
    here: Here,
    cells: &mut [u64],
    saved: &mut [Saved],
    memory: &mut KeptPages,
) -> Result<Here, Stop>
    requires some { SomeAsks layout.now (H.types host.old) saved.old cells.old here function place held }
    requires stacked { IsStacked saved.old cells.old here }
    ensures ready { IfOk result (λ next. IsReady here saved.new cells.new next) }
    ensures came { (k : Machine) (whole : List Reply → Final Play) (made : List HostCall) (left : ℕ) (globals : List ℕ) (refused : Bool) → IsModuleLayout k.within layout.now → ((rest : List Reply) → AsksAt k layout.now.steps (whole rest) (play made rest) saved.old cells.old here left (parts memory.old.bytes globals refused) function place held) → Comes H.replies host.old host.new made whole k layout.now.steps saved.new cells.new left (parts memory.new.bytes globals refused) result }
    ensures types { H.types host.new ≡ H.types host.old }
    ensures limit { memory.new.limit ≡ memory.old.limit }
    ensures kept { memory.new.kept ≡ memory.old.kept }
    ensures count { H.count host.old ≤ H.count host.new }
    ensures memory { IsErrOf result Stop.Memory → Rose (H.count host.old) (H.count host.new) }
{
    let callee = function_at(layout, function);
    match callee.body {
        None => call_host(
            host,
            function,
            callee.params,
            here,
            place,
            held,
            cells,
            memory,
        ),
        Some(body) => {
            if body.words > here.room {
                return Err(Stop::Trapped(Trap::Stack));
            }
            Ok(begin(body, callee.params, here, place, held, cells, saved))
        }
    }
}
