//! A canister over a list of events.
ghost use Rattle.std.specs.Prelude.{◌≡◌};

use crate::events::step;
use canister_calls::Calls;
use canister_execution::Memories;
use canister_messages::State;
use mo_num::{Memory, Principal};
use play_script::{Event, Items};
use std::alloc::Global;
use std::marker::Model;
use wasm_instance::Limits;
use wasm_valid::Valid;

/// A canister between events, under limits and with a principal of its own (IC interface specification, section Abstract
/// behavior). Contracts see both, how many events it has had, and its state, which holds the number of its module in a
/// list that is the same at each event.
#[derive(Drop)]
pub struct Canister {
    state: State,
    events: u64,
}

impl Model for Canister {
    ghost use Rattle.canister.specs.Views.{View};

    ghost Value = { View };

    ghost view = { λ c. record { limits = c.state.memories.limits; own = c.state.own; events = c.events; state = c.state } };
}

impl Canister {
    ghost use Rattle.std.specs.Prelude.{◌≡◌, ◌≤◌, ◌<◌, ◌+◌, ◌^◌, ◌⊎◌, List, length, IfOk, OnOk, OnErr};
    ghost use Rattle.wasm_tree.specs.declared.module_parts.Module.{Module};
    ghost use Rattle.play_script.specs.Events.{IsFit, NamesModuleBelow, IsNoInstall};
    ghost use Rattle.canister_host.specs.State.{first_state};
    ghost use Rattle.canister_host.specs.HostRun.{outcome, step};
    ghost use Rattle.canister.specs.Shown.{shown, limits_of_canister, IsCanisterOf};

    /// No canister yet, which has had no event. All memory of its machine is taken here: stack, pages, globals, table and
    /// stable memory, and copies of all but the stack.
    pub fn new(alloc: Global, limits: Limits, own: Principal) -> Result<Self, Memory>
        requires { limits.pages ≤ 65536 }
        ensures first { IfOk result (λ canister. (modules : List Module) → shown modules canister ≡ first_state) }
        ensures sound { IfOk result (λ canister. (modules : List Module) → IsCanisterOf modules canister) }
        ensures limits { IfOk result (λ canister. canister.limits ≡ limits) }
        ensures own { IfOk result (λ canister. canister.own ≡ own) }
        ensures events { IfOk result (λ canister. canister.events ≡ 0) }
    {
        let memories = match Memories::new(alloc, limits) {
            Ok(memories) => memories,
            Err(Memory) => return Err(Memory),
        };
        Ok(Canister {
            state: State {
                own,
                installed: None,
                memories,
                calls: Calls {
                    incoming: Vec::new(alloc),
                    made: 0,
                    waiting: Vec::new(alloc),
                },
                alloc,
            },
            events: 0,
        })
    }

    /// What each execution may use.
    pub fn limits(&self) -> Limits
        ensures { result ≡ self.now.limits }
    {
        self.state.memories.limits()
    }

    /// The canister's own principal.
    pub fn own(&self) -> &Principal
        ensures { result.now ≡ self.now.own }
    {
        &self.state.own
    }

    /// How many events it has had.
    pub fn events(&self) -> u64
        ensures { result ≡ self.now.events }
    {
        self.events
    }

    /// One event, with the items that it gives. An installation is a canister's first event. After want of memory the
    /// canister is as before the event.
    pub fn event(&mut self, modules: &[Valid], event: &Event) -> Result<Items, Memory>
        requires sound { IsCanisterOf modules.now self.old }
        requires fit { IsFit event.now }
        requires below { NamesModuleBelow (length modules.now) event.now }
        requires install { IsNoInstall event.now ⊎ (self.old.events ≡ 0) }
        requires few { self.old.events < 2 ^ 53 }
        ensures items { IfOk result (λ items. step modules.now (limits_of_canister self.old) self.old.own event.now (shown modules.now self.old) ≡ outcome items (shown modules.now self.new)) }
        ensures events { OnOk result (self.new.events ≡ self.old.events + 1) }
        ensures memory { OnErr result (shown modules.now self.new ≡ shown modules.now self.old) }
        ensures memory_events { OnErr result (self.new.events ≡ self.old.events) }
        ensures sound { IsCanisterOf modules.now self.new }
        ensures limits { self.new.limits ≡ self.old.limits }
        ensures own { self.new.own ≡ self.old.own }
    {
        match step(&mut self.state, modules, event) {
            Ok(items) => {
                self.events += 1;
                Ok(items)
            }
            Err(Memory) => {
                self.state.memories.restore();
                Err(Memory)
            }
        }
    }
}
