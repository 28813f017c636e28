//! Incoming calls.
ghost use Rattle.std.specs.Prelude.{◌≡◌, ◌≤◌, ◌+◌, ◌<◌, ◌^◌, ◌++◌, Some, [], IfOk, IfSome, OnOk, OnErr};
ghost use Rattle.wasm_machine.specs.Ran.{IsCallable};
ghost use Rattle.canister_host.specs.Entries.{query_entry, update_entry};
ghost use Rattle.canister_host.specs.HostRun.{enter_call, enter_method, enter_query, enter_update, outcome};
ghost use Rattle.canister_messages.specs.States.{state_at, canister_at, limits_of, CanRun, IsAsBefore, KeepsRest};

use crate::state::State;
use canister_execution::Entry;
use ic0_world::ExecutionKind;
use mo_num::{Bytes, Memory};
use module_entries::exported;
use play_script::Items;
use std::alloc::Global;
use wasm_valid::Valid;

// The name of the export for a method.
fn export_name(alloc: Global, front: &[u8], method: &Bytes) -> Result<Bytes, Memory>
    ensures { IfOk result (λ name. name ≡ front.now ++ method.now) }
{
    let mut name = Bytes::from_slice(alloc, front)?;
    name.extend(method.as_slice())?;
    Ok(name)
}

// The query method's function, if the module exports one.
fn find_query(alloc: Global, tree: &Valid, method: &Bytes) -> Result<Option<u32>, Memory>
    ensures is { IfOk result (λ found. found ≡ query_entry tree.now method.now) }
    ensures callable { IfOk result (λ found. IfSome found (λ function. IsCallable tree.now function [])) }
{
    let name = export_name(alloc, b"canister_query ", method)?;
    Ok(exported(tree, name.as_slice()))
}

// The update method's function, if the module exports one.
fn find_update(alloc: Global, tree: &Valid, method: &Bytes) -> Result<Option<u32>, Memory>
    ensures is { IfOk result (λ found. found ≡ update_entry tree.now method.now) }
    ensures callable { IfOk result (λ found. IfSome found (λ function. IsCallable tree.now function [])) }
{
    let name = export_name(alloc, b"canister_update ", method)?;
    Ok(exported(tree, name.as_slice()))
}

impl State {
    /// Runs the method that an incoming call asks for, or rejects the call where there is none.
    pub fn enter_call(
        &mut self,
        tree: &Valid,
        query: bool,
        method: &Bytes,
        argument: &Bytes,
        owner: u64,
    ) -> Result<Items, Memory>
        requires runs { CanRun tree.now self.old }
        requires made { self.old.calls.made + 500 < 2 ^ 64 }
        ensures ok { IfOk result (λ items. enter_call (limits_of self.old) self.old.own query method.now argument.now (Some (canister_at tree.now self.old.memories.kept)) owner (state_at tree.now self.old) ≡ outcome items (state_at tree.now self.new)) }
        ensures err { OnErr result (IsAsBefore self.old self.new) }
        ensures runs { OnOk result (CanRun tree.now self.new) }
        ensures made { OnOk result (self.new.calls.made ≤ self.old.calls.made + 500) }
        ensures rest { KeepsRest self.old self.new }
    {
        let found = find_query(self.alloc, tree, method)?;
        if query {
            return self.enter_query(tree, found, owner, argument);
        }
        let update = find_update(self.alloc, tree, method)?;
        self.enter_update(tree, update, found, owner, argument)
    }

    fn enter_update(
        &mut self,
        tree: &Valid,
        update: Option<u32>,
        query: Option<u32>,
        owner: u64,
        argument: &Bytes,
    ) -> Result<Items, Memory>
        requires runs { CanRun tree.now self.old }
        requires made { self.old.calls.made + 500 < 2 ^ 64 }
        requires update { IfSome update (λ function. IsCallable tree.now function []) }
        requires query { IfSome query (λ function. IsCallable tree.now function []) }
        ensures ok { IfOk result (λ items. enter_update (limits_of self.old) self.old.own (canister_at tree.now self.old.memories.kept) update query owner argument.now (state_at tree.now self.old) ≡ outcome items (state_at tree.now self.new)) }
        ensures err { OnErr result (IsAsBefore self.old self.new) }
        ensures runs { OnOk result (CanRun tree.now self.new) }
        ensures made { OnOk result (self.new.calls.made ≤ self.old.calls.made + 500) }
        ensures rest { KeepsRest self.old self.new }
    {
        match update {
            Some(function) => {
                let kind = ExecutionKind::Update;
                self.enter_method(tree, kind, function, false, owner, argument)
            }
            None => self.enter_query(tree, query, owner, argument),
        }
    }

    fn enter_query(
        &mut self,
        tree: &Valid,
        query: Option<u32>,
        owner: u64,
        argument: &Bytes,
    ) -> Result<Items, Memory>
        requires runs { CanRun tree.now self.old }
        requires made { self.old.calls.made + 500 < 2 ^ 64 }
        requires query { IfSome query (λ function. IsCallable tree.now function []) }
        ensures ok { IfOk result (λ items. enter_query (limits_of self.old) self.old.own (canister_at tree.now self.old.memories.kept) query owner argument.now (state_at tree.now self.old) ≡ outcome items (state_at tree.now self.new)) }
        ensures err { OnErr result (IsAsBefore self.old self.new) }
        ensures runs { OnOk result (CanRun tree.now self.new) }
        ensures made { OnOk result (self.new.calls.made ≤ self.old.calls.made + 500) }
        ensures rest { KeepsRest self.old self.new }
    {
        match query {
            Some(function) => {
                let kind = ExecutionKind::Query;
                self.enter_method(tree, kind, function, true, owner, argument)
            }
            None => self.calls.refuse(self.alloc, owner, 5, b"no method"),
        }
    }

    // Runs a method for an incoming call. A query leaves the canister as it was.
    fn enter_method(
        &mut self,
        tree: &Valid,
        kind: ExecutionKind,
        function: u32,
        puts_back: bool,
        owner: u64,
        argument: &Bytes,
    ) -> Result<Items, Memory>
        requires runs { CanRun tree.now self.old }
        requires callable { IsCallable tree.now function [] }
        requires made { self.old.calls.made + 500 < 2 ^ 64 }
        ensures ok { IfOk result (λ items. enter_method (limits_of self.old) self.old.own (canister_at tree.now self.old.memories.kept) kind puts_back function owner argument.now (state_at tree.now self.old) ≡ outcome items (state_at tree.now self.new)) }
        ensures err { OnErr result (IsAsBefore self.old self.new) }
        ensures runs { OnOk result (CanRun tree.now self.new) }
        ensures made { OnOk result (self.new.calls.made ≤ self.old.calls.made + 500) }
        ensures rest { KeepsRest self.old self.new }
    {
        let argument = match Bytes::from_slice(self.alloc, argument.as_slice()) {
            Ok(argument) => argument,
            Err(_) => return Err(Memory),
        };
        let message = self.message(owner, None, argument);
        let entry = Entry {
            kind,
            function,
            operand: None,
        };
        match self
            .memories
            .enter(self.alloc, &self.own, tree, Some(entry), message)
        {
            Ok(effects) => self.end_method(owner, puts_back, effects),
            Err(Memory) => Err(Memory),
        }
    }
}
