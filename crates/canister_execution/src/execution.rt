//! One execution of a module (IC interface specification, section Entry points).
ghost use Rattle.std.specs.Prelude.{◌≡◌, ◌++◌, [], IfOk, IfSome, true, cond};
ghost use Rattle.wasm_instance.specs.Fits.{IsInstanceOf};
ghost use Rattle.canister_host.specs.Execution.{run, execution, word_of};
ghost use Rattle.canister_execution.specs.Executed.{execution_limits, entries_of, AreImported, CanEnter, store_now, HasEnded, KeepsLimits, Stays, IfRan, EndsAs};

use canister_host::Interface;
use ic0_world::{ExecutionKind, World};
use mo_num::{Bytes, Memory};
use module_entries::imported_functions;
use play_script::Word;
use std::alloc::Global;
use std::mem;
use wasm_instance::{Instance, Outcome};
use wasm_tree::Trap;
use wasm_valid::Valid;

/// A function that is entered, as an execution of this kind, with its operand, if it takes one.
#[derive(Clone, Copy)]
pub struct Entry {
    pub kind: ExecutionKind,
    pub function: u32,
    pub operand: Option<u32>,
}

/// What an execution leaves: its world, and why it broke off, if it did.
#[derive(Drop)]
pub struct Ended {
    pub world: World,
    pub trap: Option<Word>,
}

/// One execution: the start function, where one is to be run, and then the entry, where there is one. They share their
/// steps. Memory, globals and table stand as it left them, and may have changed where it broke off or memory was wanting.
pub fn execute(
    alloc: Global,
    instance: &mut Instance,
    tree: &Valid,
    start: Option<Entry>,
    entry: Option<Entry>,
    world: World,
) -> Result<Ended, Memory>
    requires fits { IsInstanceOf tree.now instance.old.standing }
    requires start { IfSome start (CanEnter tree.now) }
    requires entry { IfSome entry (CanEnter tree.now) }
    ensures ends { IfOk result (EndsAs (execution (execution_limits instance.old.limits) tree.now instance.old.standing (entries_of start ++ entries_of entry) world) instance.new.standing) }
    ensures world { IfOk result (λ ended. KeepsLimits world ended.world) }
    ensures fits { IsInstanceOf tree.now instance.new.standing }
    ensures kept { instance.new.kept ≡ instance.old.kept }
    ensures limits { instance.new.limits ≡ instance.old.limits }
{
    let functions = match imported_functions(alloc, tree) {
        Ok(functions) => functions,
        Err(Memory) => return Err(Memory),
    };
    let mut host = Interface::new(alloc, functions, world);
    instance.begin();
    match enter_both(instance, tree, start, entry, &mut host) {
        Outcome::Done => Ok(Ended {
            world: host.world,
            trap: None,
        }),
        Outcome::Trap(cause) => Ok(broken(alloc, instance.was_refused(), cause, host.world)),
        Outcome::Memory => Err(Memory),
    }
}

fn enter_both(
    instance: &mut Instance,
    tree: &Valid,
    start: Option<Entry>,
    entry: Option<Entry>,
    host: &mut Interface,
) -> Outcome
    requires fits { IsInstanceOf tree.now instance.old.standing }
    requires start { IfSome start (CanEnter tree.now) }
    requires entry { IfSome entry (CanEnter tree.now) }
    requires imported { AreImported tree.now host.old.functions }
    ensures ended { HasEnded (run (execution_limits instance.old.limits) tree.now (entries_of start ++ entries_of entry) instance.old.left (store_now instance.old host.old.world)) result instance.new.left (store_now instance.new host.new.world) }
    ensures stays { IfRan result (Stays host.old host.new) }
    ensures fits { IsInstanceOf tree.now instance.new.standing }
    ensures kept { instance.new.kept ≡ instance.old.kept }
    ensures limits { instance.new.limits ≡ instance.old.limits }
{
    match enter(instance, tree, start, host) {
        Outcome::Done => enter(instance, tree, entry, host),
        Outcome::Trap(cause) => Outcome::Trap(cause),
        Outcome::Memory => Outcome::Memory,
    }
}

fn enter(
    instance: &mut Instance,
    tree: &Valid,
    entry: Option<Entry>,
    host: &mut Interface,
) -> Outcome
    requires fits { IsInstanceOf tree.now instance.old.standing }
    requires callable { IfSome entry (CanEnter tree.now) }
    requires imported { AreImported tree.now host.old.functions }
    ensures ended { HasEnded (run (execution_limits instance.old.limits) tree.now (entries_of entry) instance.old.left (store_now instance.old host.old.world)) result instance.new.left (store_now instance.new host.new.world) }
    ensures stays { IfRan result (Stays host.old host.new) }
    ensures fits { IsInstanceOf tree.now instance.new.standing }
    ensures kept { instance.new.kept ≡ instance.old.kept }
    ensures limits { instance.new.limits ≡ instance.old.limits }
{
    let Some(entry) = entry else {
        return Outcome::Done;
    };
    host.world.kind = entry.kind;
    match entry.operand {
        None => instance.run(tree, entry.function, &[], host),
        Some(operand) => instance.run(tree, entry.function, &[u64::from(operand)], host),
    }
}

// An execution that broke off, in which memory was refused to grow or not.
fn broken(alloc: Global, refused: bool, cause: Trap, mut world: World) -> Ended
    ensures trap { result.trap ≡ Some (word_of (cond refused true world.stable_refused) world.trap_text cause) }
    ensures world { result.world ≡ record world { trap_text = [] } }
{
    let refused = refused || world.stable_refused;
    let text = mem::replace(&mut world.trap_text, Bytes::new(alloc));
    Ended {
        world,
        trap: Some(trap_word(refused, text, cause)),
    }
}

// The word of a trap, where memory was refused or not, with the text that the host gave.
fn trap_word(refused: bool, text: Bytes, cause: Trap) -> Word
    ensures { result ≡ word_of refused text cause }
{
    match cause {
        Trap::Steps => Word::Steps,
        Trap::Stack => Word::Stack,
        Trap::Unreachable => {
            if refused {
                Word::Heap
            } else {
                Word::Unreachable
            }
        }
        Trap::Bounds => Word::Bounds,
        Trap::DivideByZero => Word::Divide,
        Trap::Overflow => Word::Overflow,
        Trap::Indirect => Word::Indirect,
        Trap::Host => Word::Text(text),
    }
}
