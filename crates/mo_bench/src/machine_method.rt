//! One method of a module, run once.
ghost use Rattle.std.specs.Prelude.{◌≡◌, [], IfOk};
ghost use Rattle.mo_bench.specs.Run.{RunsAlone};
ghost use Rattle.wasm_machine.specs.Ran.{IsCallable};
ghost use Rattle.wasm_instance.specs.Fits.{IsInstanceOf};

use canister_host::Interface;
use ic0_world::{ExecutionKind, World};
use mo_num::{Bytes, Memory, Principal, Sequence};
use module_entries::imported_functions;
use page_store::Pages;
use std::alloc::Global;
use wasm_instance::{Instance, Outcome};
use wasm_valid::Valid;

// An update call by nobody, with an empty argument.
fn new_world(alloc: Global, nobody: &Principal) -> Result<World, Memory>
    ensures kind { IfOk result (λ world. world.kind ≡ ExecutionKind.Update) }
    ensures argument { IfOk result (λ world. world.argument ≡ []) }
{
    Ok(World {
        kind: ExecutionKind::Update,
        own: nobody.copy(),
        caller: nobody.copy(),
        argument: Bytes::new(alloc),
        reject_code: 0,
        reject_text: Bytes::new(alloc),
        answered: false,
        open_before: 0,
        reply_data: Bytes::new(alloc),
        answer: None,
        prepared: None,
        performed: Sequence::new(alloc),
        prints: Sequence::new(alloc),
        stable: Pages::new(alloc, 16)?,
        stable_refused: false,
        trap_text: Bytes::new(alloc),
    })
}

/// Runs the function on what the instance keeps, as an execution of its own.
pub fn run(
    alloc: Global,
    tree: &Valid,
    instance: &mut Instance,
    function: u32,
    nobody: &Principal,
) -> Result<Outcome, Memory>
    requires fits { IsInstanceOf tree.now instance.old.kept }
    requires callable { IsCallable tree.now function [] }
    ensures ran { IfOk result (λ outcome. RunsAlone tree.now function instance.old instance.new outcome) }
    ensures kept { instance.new.kept ≡ instance.old.kept }
    ensures limits { instance.new.limits ≡ instance.old.limits }
{
    let functions = imported_functions(alloc, tree)?;
    let mut host = Interface::new(alloc, functions, new_world(alloc, nobody)?);
    instance.restore();
    instance.begin();
    Ok(instance.run(tree, function, &[], &mut host))
}
