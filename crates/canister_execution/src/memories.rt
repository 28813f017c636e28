//! What a canister keeps besides its module and its calls, and executions on it.
ghost use Rattle.std.specs.Prelude.{◌≡◌, [], None, Some};
ghost use Rattle.canister_execution.specs.Executed.{world_of};

use crate::execution::{Ended, Entry, execute};
use ic0_world::{Answer, Callback, ExecutionKind, OutgoingCall, World};
use mo_num::{Bytes, Memory, Principal, Sequence};
use module_entries::callback_function;
use page_store::{Committed, Pages};
use play_script::Word;
use std::alloc::Global;
use std::marker::Model;
use wasm_instance::{Instance, Limits};
use wasm_store::LoadTrap;
use wasm_valid::Valid;

/// What an execution is told: who calls, with which argument or reject, whether the call is answered, and how many calls
/// of the canister are open.
#[derive(Drop)]
pub struct Message {
    pub caller: Principal,
    pub argument: Bytes,
    pub reject_code: u32,
    pub reject_text: Bytes,
    pub answered: bool,
    pub open_before: u32,
}

/// What an execution did besides changing memories, and why it broke off, if it did.
#[derive(Drop)]
pub struct Effects {
    pub prints: Sequence<Bytes>,
    pub performed: Sequence<OutgoingCall>,
    pub answer: Option<Answer>,
    pub trap: Option<Word>,
}

/// Memory, globals, table and stable memory, as they stand and as they are kept. While an execution works on stable memory
/// it is in the execution's world, and so it is lost where memory was wanting.
#[derive(Drop)]
pub struct Memories {
    instance: Instance,
    kept: Committed,
    stable: Option<Pages>,
}

impl Model for Memories {
    ghost use Rattle.canister_execution.specs.Views.{View};

    ghost Value = { View };

    ghost use Rattle.std.specs.Prelude.{◌≡◌, ◌≤◌};
    ghost use Rattle.canister_execution.specs.Views.{bytes_of, is_none, limit_or};

    ghost view = { λ m. record { limits = m.instance.limits; standing = record { instance = m.instance.standing; stable = bytes_of m.stable }; kept = record { instance = m.instance.kept; stable = m.kept.bytes }; is_lost = is_none m.stable } };

    ghost invariant = { λ m. (m.instance.limits.pages ≤ 65536) × ((m.kept.limit ≡ m.instance.limits.pages) × (limit_or m.instance.limits.pages m.stable ≡ m.instance.limits.pages)) };
}

// The world in which an execution begins.
fn world(alloc: Global, own: &Principal, message: Message, stable: Pages) -> World
    ensures { result ≡ world_of (record { steps = 0; pages = stable.limit; stack = 0 }) own.now message stable.bytes }
{
    let Message {
        caller,
        argument,
        reject_code,
        reject_text,
        answered,
        open_before,
    } = message;
    World {
        kind: ExecutionKind::Start,
        own: own.copy(),
        caller,
        argument,
        reject_code,
        reject_text,
        answered,
        open_before,
        reply_data: Bytes::new(alloc),
        answer: None,
        prepared: None,
        performed: Sequence::new(alloc),
        prints: Sequence::new(alloc),
        stable,
        stable_refused: false,
        trap_text: Bytes::new(alloc),
    }
}

// The effects of an execution that the table lacks.
fn no_function(alloc: Global) -> Effects
    ensures { result ≡ record { prints = []; performed = []; answer = None; trap = Some Word.Indirect } }
{
    Effects {
        prints: Sequence::new(alloc),
        performed: Sequence::new(alloc),
        answer: None,
        trap: Some(Word::Indirect),
    }
}

impl Memories {
    ghost use Rattle.std.specs.Prelude.{◌≡◌, ◌≤◌, ◌+◌, ◌++◌, ◌∷◌, [], false, cond, length, IfOk, IfSome, OnOk};
    ghost use Rattle.wasm_machine.specs.Ran.{IsCallable};
    ghost use Rattle.wasm_store.specs.Loading.{nothing, load_within, Answers};
    ghost use Rattle.wasm_instance.specs.Fits.{IsInstanceOf};
    ghost use Rattle.canister_host.specs.Entries.{callback_entry};
    ghost use Rattle.canister_host.specs.Execution.{execution};
    ghost use Rattle.canister_host.specs.HostRun.{callback_end};
    ghost use Rattle.canister_execution.specs.Executed.{execution_limits, entries_of, world_of, CanEnter, Leaves};
    ghost use Rattle.canister_execution.specs.Views.{IsSettled};

    /// Memories without a module, empty. All memory is taken here.
    pub fn new(alloc: Global, limits: Limits) -> Result<Self, Memory>
        requires { limits.pages ≤ 65536 }
        ensures { IfOk result (λ memories. memories ≡ record { limits = limits; standing = record { instance = nothing; stable = [] }; kept = record { instance = nothing; stable = [] }; is_lost = false }) }
    {
        Ok(Memories {
            instance: Instance::new(alloc, limits)?,
            kept: Committed::new(alloc, limits.pages)?,
            stable: Some(Pages::new(alloc, limits.pages)?),
        })
    }

    /// What each execution may use.
    pub fn limits(&self) -> Limits
        ensures { result ≡ self.now.limits }
    {
        self.instance.limits()
    }

    /// What is kept stands again, also where stable memory was lost.
    pub fn prepare(&mut self, alloc: Global) -> Result<(), Memory>
        requires { IsSettled self.old }
        ensures ok { OnOk result (self.new ≡ record self.old { standing = self.old.kept; is_lost = false }) }
        ensures kept { self.new.kept ≡ self.old.kept }
        ensures limits { self.new.limits ≡ self.old.limits }
    {
        if self.stable.is_some() {
            return Ok(());
        }
        self.instance.restore();
        let mut stable = Pages::new(alloc, self.instance.limits().pages)?;
        self.kept.restore(&mut stable);
        self.stable = Some(stable);
        Ok(())
    }

    /// Keeps what stands.
    pub fn commit(&mut self)
        requires there { self.old.is_lost ≡ false }
        ensures kept { self.new.kept ≡ self.old.standing }
        ensures settled { IsSettled self.new }
        ensures limits { self.new.limits ≡ self.old.limits }
    {
        self.instance.commit();
        if let Some(stable) = &self.stable {
            self.kept.commit(stable);
        }
    }

    /// Puts back what is kept.
    pub fn restore(&mut self)
        ensures kept { self.new.kept ≡ self.old.kept }
        ensures settled { IsSettled self.new }
        ensures limits { self.new.limits ≡ self.old.limits }
    {
        self.instance.restore();
        if let Some(stable) = &mut self.stable {
            self.kept.restore(stable);
        }
    }

    /// Keeps what stands, or puts back what is kept.
    pub fn settle(&mut self, puts_back: bool)
        requires there { self.old.is_lost ≡ false }
        ensures kept { self.new.kept ≡ cond puts_back self.old.kept self.old.standing }
        ensures settled { IsSettled self.new }
        ensures limits { self.new.limits ≡ self.old.limits }
    {
        if puts_back {
            self.restore();
        } else {
            self.commit();
        }
    }

    /// Loads the module in place of what stands.
    pub fn load(&mut self, tree: &Valid) -> Result<(), LoadTrap>
        ensures answer { Answers (load_within self.old.limits.pages tree.now) result self.new.standing.instance }
        ensures fits { OnOk result (IsInstanceOf tree.now self.new.standing.instance) }
        ensures stable { self.new.standing.stable ≡ self.old.standing.stable }
        ensures kept { self.new.kept ≡ self.old.kept }
        ensures lost { self.new.is_lost ≡ self.old.is_lost }
        ensures limits { self.new.limits ≡ self.old.limits }
    {
        self.instance.load(tree)
    }

    /// One execution on what stands: the start function, where one is to be run, and then the entry, where there is one.
    pub fn execute(
        &mut self,
        alloc: Global,
        own: &Principal,
        tree: &Valid,
        start: Option<Entry>,
        entry: Option<Entry>,
        message: Message,
    ) -> Result<Effects, Memory>
        requires there { self.old.is_lost ≡ false }
        requires fits { IsInstanceOf tree.now self.old.standing.instance }
        requires start { IfSome start (CanEnter tree.now) }
        requires entry { IfSome entry (CanEnter tree.now) }
        requires few { message.open_before ≤ 500 }
        ensures leaves { IfOk result (Leaves (execution (execution_limits self.old.limits) tree.now self.old.standing.instance (entries_of start ++ entries_of entry) (world_of (execution_limits self.old.limits) own.now message self.old.standing.stable)) self.new.standing) }
        ensures few { IfOk result (λ effects. length effects.performed + message.open_before ≤ 500) }
        ensures there { OnOk result (self.new.is_lost ≡ false) }
        ensures fits { IsInstanceOf tree.now self.new.standing.instance }
        ensures kept { self.new.kept ≡ self.old.kept }
        ensures limits { self.new.limits ≡ self.old.limits }
    {
        let Some(stable) = self.stable.take() else {
            unreachable!();
        };
        let world = world(alloc, own, message, stable);
        match execute(alloc, &mut self.instance, tree, start, entry, world) {
            Ok(Ended { world, trap }) => {
                let World {
                    prints,
                    performed,
                    answer,
                    stable,
                    ..
                } = world;
                self.stable = Some(stable);
                Ok(Effects {
                    prints,
                    performed,
                    answer,
                    trap,
                })
            }
            Err(Memory) => Err(Memory),
        }
    }

    /// One execution of an entry, if there is one, on what is kept.
    pub fn enter(
        &mut self,
        alloc: Global,
        own: &Principal,
        tree: &Valid,
        entry: Option<Entry>,
        message: Message,
    ) -> Result<Effects, Memory>
        requires settled { IsSettled self.old }
        requires fits { IsInstanceOf tree.now self.old.kept.instance }
        requires entry { IfSome entry (CanEnter tree.now) }
        requires few { message.open_before ≤ 500 }
        ensures leaves { IfOk result (Leaves (execution (execution_limits self.old.limits) tree.now self.old.kept.instance (entries_of entry) (world_of (execution_limits self.old.limits) own.now message self.old.kept.stable)) self.new.standing) }
        ensures few { IfOk result (λ effects. length effects.performed + message.open_before ≤ 500) }
        ensures there { OnOk result (self.new.is_lost ≡ false) }
        ensures fits { OnOk result (IsInstanceOf tree.now self.new.standing.instance) }
        ensures kept { self.new.kept ≡ self.old.kept }
        ensures limits { self.new.limits ≡ self.old.limits }
    {
        match self.prepare(alloc) {
            Ok(()) => self.execute(alloc, own, tree, None, entry, message),
            Err(Memory) => Err(Memory),
        }
    }

    /// One execution of a callback on what is kept; one that the table lacks breaks it off.
    pub fn call_back(
        &mut self,
        alloc: Global,
        own: &Principal,
        tree: &Valid,
        kind: ExecutionKind,
        callback: Callback,
        message: Message,
    ) -> Result<Effects, Memory>
        requires settled { IsSettled self.old }
        requires fits { IsInstanceOf tree.now self.old.kept.instance }
        requires few { message.open_before ≤ 500 }
        ensures leaves { IfOk result (Leaves (callback_end (execution_limits self.old.limits) (record { code = tree.now; instance = self.old.kept.instance; stable = self.old.kept.stable }) kind callback (world_of (execution_limits self.old.limits) own.now message self.old.kept.stable)) self.new.standing) }
        ensures few { IfOk result (λ effects. length effects.performed + message.open_before ≤ 500) }
        ensures there { OnOk result (self.new.is_lost ≡ false) }
        ensures fits { OnOk result (IsInstanceOf tree.now self.new.standing.instance) }
        ensures kept { self.new.kept ≡ self.old.kept }
        ensures limits { self.new.limits ≡ self.old.limits }
    {
        match self.prepare(alloc) {
            Ok(()) => self.run_callback(alloc, own, tree, kind, callback, message),
            Err(Memory) => Err(Memory),
        }
    }

    fn run_callback(
        &mut self,
        alloc: Global,
        own: &Principal,
        tree: &Valid,
        kind: ExecutionKind,
        callback: Callback,
        message: Message,
    ) -> Result<Effects, Memory>
        requires there { self.old.is_lost ≡ false }
        requires fits { IsInstanceOf tree.now self.old.standing.instance }
        requires few { message.open_before ≤ 500 }
        ensures leaves { IfOk result (Leaves (callback_end (execution_limits self.old.limits) (record { code = tree.now; instance = self.old.standing.instance; stable = self.old.standing.stable }) kind callback (world_of (execution_limits self.old.limits) own.now message self.old.standing.stable)) self.new.standing) }
        ensures few { IfOk result (λ effects. length effects.performed + message.open_before ≤ 500) }
        ensures there { OnOk result (self.new.is_lost ≡ false) }
        ensures fits { IsInstanceOf tree.now self.new.standing.instance }
        ensures kept { self.new.kept ≡ self.old.kept }
        ensures limits { self.new.limits ≡ self.old.limits }
    {
        match self.find_callback(tree, callback) {
            None => Ok(no_function(alloc)),
            Some(function) => {
                let entry = Entry {
                    kind,
                    function,
                    operand: Some(callback.environment),
                };
                self.execute(alloc, own, tree, None, Some(entry), message)
            }
        }
    }

    // The function of a callback, where the table has it.
    fn find_callback(&self, tree: &Valid, callback: Callback) -> Option<u32>
        requires { IsInstanceOf tree.now self.now.standing.instance }
        ensures is { result ≡ callback_entry tree.now self.now.standing.instance.table callback }
        ensures callable { IfSome result (λ function. IsCallable tree.now function (callback.environment ∷ [])) }
    {
        callback_function(tree, self.instance.table_entry(callback.function))
    }
}
