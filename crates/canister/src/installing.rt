//! Installations and upgrades.
ghost use Rattle.std.specs.Prelude.{◌≡◌, ◌++◌, ◌∷◌, ◌⊎◌, [], Some, List, false, slice_get, codes, IfOk, IfSome, OnOk, OnErr};
ghost use Rattle.play_script.specs.declared.item.Item.TheVariants as item;
ghost use Rattle.ic0_world.specs.declared.kind.ExecutionKind.TheVariants as execution;
ghost use Rattle.wasm_tree.specs.declared.module_parts.Module.{Module};
ghost use Rattle.wasm_tree.specs.Load.{Loaded, load};
ghost use Rattle.wasm_machine.specs.Ran.{IsCallable};
ghost use Rattle.wasm_instance.specs.Fits.{IsInstanceOf};
ghost use Rattle.canister_host.specs.HostRun.{begin, entry_of, install, outcome, upgrade};
ghost use Rattle.canister_execution.specs.Executed.{entries_of, CanEnter};
ghost use Rattle.canister_execution.specs.Views.{IsSettled};
ghost use Rattle.canister_messages.specs.States.{canister_at, limits_of, CanRun};
ghost use Rattle.canister.specs.Left.{no_message, start_left, preparation_left};
ghost use Rattle.canister.specs.Shown.{shown_state, IsBegun, IsPlaced, IsUnchanged, KeepsCalls};

use canister_calls::{nobody, push_prints};
use canister_execution::{Effects, Entry, Message};
use canister_messages::State;
use ic0_world::ExecutionKind;
use mo_num::{Bytes, Memory, Sequence};
use module_entries::{exported, start_function};
use play_script::{Item, Items, Word};
use std::alloc::Global;
use wasm_store::LoadTrap;
use wasm_valid::Valid;

// The entry of a function that was found and takes nothing.
fn entry_at(kind: ExecutionKind, found: Option<u32>) -> Option<Entry>
    ensures is { entries_of result ≡ entry_of kind found [] }
    ensures callable { (m : Module) → IfSome found (λ function. IsCallable m function []) → IfSome result (CanEnter m) }
{
    match found {
        Some(function) => Some(Entry {
            kind,
            function,
            operand: None,
        }),
        None => None,
    }
}

// What an execution is told that nobody called.
fn no_message(alloc: Global) -> Message
    ensures { result ≡ no_message }
{
    Message {
        caller: nobody(alloc),
        argument: Bytes::new(alloc),
        reject_code: 0,
        reject_text: Bytes::new(alloc),
        answered: false,
        open_before: 0,
    }
}

/// The first installation.
pub fn install(state: &mut State, tree: &Valid, number: u32) -> Result<Items, Memory>
    requires settled { IsSettled state.old.memories }
    requires empty { state.old.memories.kept.stable ≡ [] }
    ensures ok { (modules : List Module) → slice_get modules number ≡ Some tree.now → IfOk result (λ items. install (limits_of state.old) state.old.own (Some tree.now) (shown_state modules state.old) ≡ outcome items (shown_state modules state.new)) }
    ensures err { OnErr result (IsUnchanged state.old state.new) }
    ensures comes { OnOk result (IsUnchanged state.old state.new ⊎ IsBegun tree.now number state.new) }
    ensures settled { OnOk result (IsSettled state.new.memories) }
    ensures keeps { KeepsCalls state.old state.new }
{
    state.memories.prepare(state.alloc)?;
    let items = Sequence::new(state.alloc);
    let kind = ExecutionKind::Init;
    let name = b"canister_init";
    begin(state, tree, number, kind, name, Item::Installed, items)
}

/// The old module prepares, and the new one takes its place on the stable memory that it leaves.
pub fn upgrade(state: &mut State, old: &Valid, tree: &Valid, number: u32) -> Result<Items, Memory>
    requires runs { CanRun old.now state.old }
    ensures ok { (modules : List Module) → slice_get modules number ≡ Some tree.now → IfOk result (λ items. upgrade (limits_of state.old) state.old.own (Some tree.now) (Some (canister_at old.now state.old.memories.kept)) (shown_state modules state.old) ≡ outcome items (shown_state modules state.new)) }
    ensures err { OnErr result (IsUnchanged state.old state.new) }
    ensures comes { OnOk result (IsUnchanged state.old state.new ⊎ IsBegun tree.now number state.new) }
    ensures settled { OnOk result (IsSettled state.new.memories) }
    ensures keeps { KeepsCalls state.old state.new }
{
    let entry = entry_at(
        ExecutionKind::PreUpgrade,
        exported(old, b"canister_pre_upgrade"),
    );
    let message = no_message(state.alloc);
    match state
        .memories
        .enter(state.alloc, &state.own, old, entry, message)
    {
        Ok(effects) => end_preparation(state, tree, number, effects),
        Err(Memory) => Err(Memory),
    }
}

// What the preparation of an upgrade leaves.
fn end_preparation(
    state: &mut State,
    tree: &Valid,
    number: u32,
    effects: Effects,
) -> Result<Items, Memory>
    requires there { state.old.memories.is_lost ≡ false }
    ensures ok { (modules : List Module) → slice_get modules number ≡ Some tree.now → IfOk result (λ done. preparation_left (limits_of state.old) state.old.own tree.now state.old.memories.standing.stable effects (shown_state modules state.old) effects.trap ≡ outcome done (shown_state modules state.new)) }
    ensures err { OnErr result (IsUnchanged state.old state.new) }
    ensures comes { OnOk result (IsUnchanged state.old state.new ⊎ IsBegun tree.now number state.new) }
    ensures settled { OnOk result (IsSettled state.new.memories) }
    ensures keeps { KeepsCalls state.old state.new }
{
    let Effects { prints, trap, .. } = effects;
    let mut items = Sequence::new(state.alloc);
    match push_prints(prints, &mut items) {
        Ok(()) => {}
        Err(Memory) => return Err(Memory),
    }
    match trap {
        None => {
            let kind = ExecutionKind::PostUpgrade;
            let name = b"canister_post_upgrade";
            begin(state, tree, number, kind, name, Item::Upgraded, items)
        }
        Some(word) => give_up(state, word, items),
    }
}

// Begins a module on the stable memory that stands, behind these items, with `last` as its last one. Where it breaks off,
// what is kept is put back.
fn begin(
    state: &mut State,
    tree: &Valid,
    number: u32,
    kind: ExecutionKind,
    name: &[u8],
    last: Item,
    items: Items,
) -> Result<Items, Memory>
    requires there { state.old.memories.is_lost ≡ false }
    ensures ok { (modules : List Module) → slice_get modules number ≡ Some tree.now → IfOk result (λ done. begin (limits_of state.old) state.old.own tree.now kind name.now last state.old.memories.standing.stable items (shown_state modules state.old) ≡ outcome done (shown_state modules state.new)) }
    ensures err { OnErr result (IsUnchanged state.old state.new) }
    ensures comes { OnOk result (IsUnchanged state.old state.new ⊎ IsBegun tree.now number state.new) }
    ensures settled { OnOk result (IsSettled state.new.memories) }
    ensures keeps { KeepsCalls state.old state.new }
{
    match state.memories.load(tree) {
        Ok(()) => start(state, tree, number, kind, name, last, items),
        Err(LoadTrap::Heap) => give_up(state, Word::Heap, items),
        Err(LoadTrap::Bounds) => give_up(state, Word::Bounds, items),
    }
}

// Runs the start function of the loaded module, and then what it exports under the name.
fn start(
    state: &mut State,
    tree: &Valid,
    number: u32,
    kind: ExecutionKind,
    name: &[u8],
    last: Item,
    items: Items,
) -> Result<Items, Memory>
    requires there { state.old.memories.is_lost ≡ false }
    requires fits { IsInstanceOf tree.now state.old.memories.standing.instance }
    ensures ok { (modules : List Module) → slice_get modules number ≡ Some tree.now → load (limits_of state.old) tree.now ≡ Loaded state.old.memories.standing.instance → IfOk result (λ done. begin (limits_of state.old) state.old.own tree.now kind name.now last state.old.memories.standing.stable items (shown_state modules state.old) ≡ outcome done (shown_state modules state.new)) }
    ensures err { OnErr result (IsUnchanged state.old state.new) }
    ensures comes { OnOk result (IsUnchanged state.old state.new ⊎ IsBegun tree.now number state.new) }
    ensures settled { OnOk result (IsSettled state.new.memories) }
    ensures keeps { KeepsCalls state.old state.new }
{
    let start = entry_at(ExecutionKind::Start, start_function(tree));
    let entry = entry_at(kind, exported(tree, name));
    let message = no_message(state.alloc);
    match state
        .memories
        .execute(state.alloc, &state.own, tree, start, entry, message)
    {
        Ok(effects) => end_start(state, number, last, effects, items),
        Err(Memory) => Err(Memory),
    }
}

// What the executions of a module that is begun leave, behind these items.
fn end_start(
    state: &mut State,
    number: u32,
    last: Item,
    effects: Effects,
    mut items: Items,
) -> Result<Items, Memory>
    requires there { state.old.memories.is_lost ≡ false }
    ensures ok { (m : Module) (modules : List Module) → slice_get modules number ≡ Some m → IfOk result (λ done. start_left items last (canister_at m state.old.memories.standing) effects (shown_state modules state.old) effects.trap ≡ outcome done (shown_state modules state.new)) }
    ensures err { OnErr result (IsUnchanged state.old state.new) }
    ensures comes { (m : Module) → IsInstanceOf m state.old.memories.standing.instance → OnOk result (IsUnchanged state.old state.new ⊎ IsBegun m number state.new) }
    ensures settled { OnOk result (IsSettled state.new.memories) }
    ensures keeps { KeepsCalls state.old state.new }
{
    let Effects { prints, trap, .. } = effects;
    match push_prints(prints, &mut items) {
        Ok(()) => {}
        Err(Memory) => return Err(Memory),
    }
    match trap {
        None => take_place(state, number, last, items),
        Some(word) => give_up(state, word, items),
    }
}

// The module that stands is the canister's from now on.
fn take_place(state: &mut State, number: u32, last: Item, mut items: Items) -> Result<Items, Memory>
    requires there { state.old.memories.is_lost ≡ false }
    ensures ok { IfOk result (λ done. done ≡ items ++ last ∷ []) }
    ensures placed { OnOk result (IsPlaced number state.old state.new) }
    ensures err { OnErr result (IsUnchanged state.old state.new) }
    ensures settled { OnOk result (IsSettled state.new.memories) }
    ensures keeps { KeepsCalls state.old state.new }
{
    items.push(last)?;
    state.memories.commit();
    state.installed = Some(number);
    Ok(items)
}

// Nothing has changed but the items.
fn give_up(state: &mut State, word: Word, mut items: Items) -> Result<Items, Memory>
    requires there { state.old.memories.is_lost ≡ false }
    ensures ok { IfOk result (λ done. done ≡ items ++ item.Trapped word ∷ []) }
    ensures unchanged { IsUnchanged state.old state.new }
    ensures settled { OnOk result (IsSettled state.new.memories) }
    ensures keeps { KeepsCalls state.old state.new }
{
    items.push(Item::Trapped(word))?;
    state.memories.restore();
    Ok(items)
}
