//! The events of a canister, by the module that is installed.
ghost use Rattle.std.specs.Prelude.{◌≡◌, ◌≤◌, ◌<◌, ◌+◌, ◌^◌, ◌⊎◌, [], ◌∷◌, slice_get, length, IfOk, OnOk, OnErr};
ghost use Rattle.play_script.specs.Events.{NamesModuleBelow, IsNoInstall};
ghost use Rattle.play_script.specs.declared.item.Item.TheVariants as item;
ghost use Rattle.canister_host.specs.HostRun.{answer, enter_call, incoming, install, outcome, step, upgrade};
ghost use Rattle.canister_messages.specs.Received.{received_of};
ghost use Rattle.canister_messages.specs.States.{limits_of};
ghost use Rattle.canister.specs.Shown.{shown_state, IsSound, IsUnchanged, KeepsSelf};

use crate::installing::{install, upgrade};
use canister_host::IncomingCall;
use canister_messages::{Received, State};
use mo_num::{Bytes, Memory, Principal, Sequence};
use play_script::{Event, Item, Items};
use std::alloc::Global;
use wasm_valid::Valid;

// The event means nothing.
fn ignored(alloc: Global) -> Result<Items, Memory>
    ensures { IfOk result (λ items. items ≡ item.Ignored ∷ []) }
{
    let mut items = Sequence::new(alloc);
    items.push(Item::Ignored)?;
    Ok(items)
}

/// One event. After want of memory what is kept is as before.
pub fn step(state: &mut State, modules: &[Valid], event: &Event) -> Result<Items, Memory>
    requires sound { IsSound modules.now state.old }
    requires made { state.old.calls.made + 500 < 2 ^ 64 }
    requires below { NamesModuleBelow (length modules.now) event.now }
    requires empty { IsNoInstall event.now ⊎ (state.old.memories.kept.stable ≡ []) }
    ensures ok { IfOk result (λ items. step modules.now (limits_of state.old) state.old.own event.now (shown_state modules.now state.old) ≡ outcome items (shown_state modules.now state.new)) }
    ensures err { OnErr result (IsUnchanged state.old state.new) }
    ensures sound { OnOk result (IsSound modules.now state.new) }
    ensures made { OnOk result (state.new.calls.made ≤ state.old.calls.made + 500) }
    ensures same { KeepsSelf state.old state.new }
{
    match event {
        Event::Install(number) => install_from(state, modules, *number),
        Event::Call {
            query,
            method,
            caller,
            bytes,
        } => receive(state, modules, *query, method, caller, bytes),
        Event::Reply { number, bytes } => {
            let bytes = Bytes::from_slice(state.alloc, bytes.as_slice())?;
            answer(state, modules, *number, Received::Reply(bytes))
        }
        Event::Reject { number, code, text } => {
            let text = Bytes::from_slice(state.alloc, text.as_slice())?;
            answer(state, modules, *number, Received::Reject(*code, text))
        }
        Event::Upgrade(number) => upgrade_from(state, modules, *number),
    }
}

fn install_from(state: &mut State, modules: &[Valid], number: u32) -> Result<Items, Memory>
    requires sound { IsSound modules.now state.old }
    requires below { number < length modules.now }
    requires empty { state.old.memories.kept.stable ≡ [] }
    ensures ok { IfOk result (λ items. install (limits_of state.old) state.old.own (slice_get modules.now number) (shown_state modules.now state.old) ≡ outcome items (shown_state modules.now state.new)) }
    ensures err { OnErr result (IsUnchanged state.old state.new) }
    ensures sound { OnOk result (IsSound modules.now state.new) }
    ensures made { OnOk result (state.new.calls.made ≤ state.old.calls.made + 500) }
    ensures same { KeepsSelf state.old state.new }
{
    install(state, &modules[number as usize], number)
}

fn upgrade_from(state: &mut State, modules: &[Valid], number: u32) -> Result<Items, Memory>
    requires sound { IsSound modules.now state.old }
    requires below { number < length modules.now }
    ensures ok { IfOk result (λ items. upgrade (limits_of state.old) state.old.own (slice_get modules.now number) (shown_state modules.now state.old).canister (shown_state modules.now state.old) ≡ outcome items (shown_state modules.now state.new)) }
    ensures err { OnErr result (IsUnchanged state.old state.new) }
    ensures sound { OnOk result (IsSound modules.now state.new) }
    ensures made { OnOk result (state.new.calls.made ≤ state.old.calls.made + 500) }
    ensures same { KeepsSelf state.old state.new }
{
    match state.installed {
        Some(old) => upgrade(
            state,
            &modules[old as usize],
            &modules[number as usize],
            number,
        ),
        None => ignored(state.alloc),
    }
}

fn receive(
    state: &mut State,
    modules: &[Valid],
    query: bool,
    method: &Bytes,
    caller: &Principal,
    argument: &Bytes,
) -> Result<Items, Memory>
    requires sound { IsSound modules.now state.old }
    requires made { state.old.calls.made + 500 < 2 ^ 64 }
    ensures ok { IfOk result (λ items. incoming (limits_of state.old) state.old.own query method.now caller.now argument.now (shown_state modules.now state.old) ≡ outcome items (shown_state modules.now state.new)) }
    ensures err { OnErr result (IsUnchanged state.old state.new) }
    ensures sound { OnOk result (IsSound modules.now state.new) }
    ensures made { OnOk result (state.new.calls.made ≤ state.old.calls.made + 500) }
    ensures same { KeepsSelf state.old state.new }
{
    let owner = state.calls.incoming.len() as u64;
    state.calls.incoming.push(IncomingCall {
        caller: caller.copy(),
        answered: false,
    })?;
    let result = answer_call(state, modules, query, method, argument, owner);
    if result.is_err() {
        let _ = state.calls.incoming.pop();
    }
    result
}

// Runs the method for the incoming call that came last, or rejects it.
fn answer_call(
    state: &mut State,
    modules: &[Valid],
    query: bool,
    method: &Bytes,
    argument: &Bytes,
    owner: u64,
) -> Result<Items, Memory>
    requires sound { IsSound modules.now state.old }
    requires made { state.old.calls.made + 500 < 2 ^ 64 }
    ensures ok { IfOk result (λ items. enter_call (limits_of state.old) state.old.own query method.now argument.now (shown_state modules.now state.old).canister owner (shown_state modules.now state.old) ≡ outcome items (shown_state modules.now state.new)) }
    ensures err { OnErr result (IsUnchanged state.old state.new) }
    ensures sound { OnOk result (IsSound modules.now state.new) }
    ensures made { OnOk result (state.new.calls.made ≤ state.old.calls.made + 500) }
    ensures same { KeepsSelf state.old state.new }
{
    match state.installed {
        Some(number) => {
            let tree = &modules[number as usize];
            state.enter_call(tree, query, method, argument, owner)
        }
        None => state.calls.refuse(state.alloc, owner, 3, b"no canister"),
    }
}

fn answer(
    state: &mut State,
    modules: &[Valid],
    number: u64,
    received: Received,
) -> Result<Items, Memory>
    requires sound { IsSound modules.now state.old }
    requires made { state.old.calls.made + 500 < 2 ^ 64 }
    ensures ok { IfOk result (λ items. answer (limits_of state.old) state.old.own number (received_of received) (shown_state modules.now state.old) ≡ outcome items (shown_state modules.now state.new)) }
    ensures err { OnErr result (IsUnchanged state.old state.new) }
    ensures sound { OnOk result (IsSound modules.now state.new) }
    ensures made { OnOk result (state.new.calls.made ≤ state.old.calls.made + 500) }
    ensures same { KeepsSelf state.old state.new }
{
    let Some(installed) = state.installed else {
        return ignored(state.alloc);
    };
    match state.calls.awaiting(number) {
        Some(call) => {
            let tree = &modules[installed as usize];
            state.enter_callback(tree, number, call, received)
        }
        None => ignored(state.alloc),
    }
}
