//! An instance of a module.
ghost use Rattle.std.specs.Prelude.{◌≡◌};
ghost use Rattle.wasm_tree.specs.Exec.{most_pages};

use std::alloc::{AllocError, Global};
use std::marker::Model;
use wasm_machine::{Host, Saved, Stop, execute};
use wasm_store::{LoadTrap, Store};
use wasm_tree::{Limits as Sizes, Trap};
use wasm_valid::Valid;

/// What each execution may use: steps, pages of memory, and stack words.
#[derive(Clone, Copy)]
pub struct Limits {
    pub steps: u64,
    pub pages: u32,
    pub stack: u32,
}

/// How a run ends.
#[derive(Clone, Copy, Debug, PartialEq, Eq)]
pub enum Outcome {
    Done,
    Trap(Trap),
    /// The host found no memory.
    Memory,
}

/// Memory, globals and table of a module, and all room that its executions need. It holds no module: whoever runs one
/// gives the one that was loaded. Contracts see its limits, what stands and what the last commit kept, the steps that are
/// left since `begin`, and whether memory was refused to grow since then.
#[derive(Drop)]
pub struct Instance {
    limits: Limits,
    store: Store,
    left: u64,
    was_refused: bool,
    cells: Vec<u64>,
    saved: Vec<Saved>,
}

impl Model for Instance {
    ghost use Rattle.wasm_instance.specs.Views.{View};

    ghost Value = { View };

    ghost use Rattle.std.specs.Prelude.{◌≡◌, ◌≤◌, ◌*◌, vec_len};
    ghost use Rattle.wasm_store.specs.Standing.{standing, kept};

    ghost view = { λ i. record { limits = i.limits; standing = standing i.store; kept = kept i.store; left = i.left; was_refused = i.was_refused } };

    ghost invariant = { λ i. (i.store.memory.limit ≡ i.limits.pages) × ((i.limits.stack ≤ vec_len i.cells) × (i.limits.stack ≤ 8 * vec_len i.saved)) };
}

// How many pages the module's memory may have.
fn most_pages(memories: &[Sizes]) -> u32
    ensures { result ≡ most_pages memories.now }
{
    match memories {
        [first, ..] => match first.max {
            Some(most) => most,
            None => 65_536,
        },
        [] => 0,
    }
}

impl Instance {
    ghost use Rattle.std.specs.Prelude.{◌≡◌, ◌≤◌, ◌*◌, IfOk, OnOk, true, false, min, slice_get, ◌⊎◌};
    ghost use Rattle.outer.specs.Causes.{Rose};
    ghost use Rattle.wasm_tree.specs.Exec.{entry};
    ghost use Rattle.wasm_store.specs.Loading.{Answers, load_within, nothing};
    ghost use Rattle.wasm_machine.specs.Asked.{IsMadeFor};
    ghost use Rattle.wasm_machine.specs.Hosts.{played};
    ghost use Rattle.wasm_machine.specs.Ran.{execute_with, limits_of, store_with, IsCallable, HasRun};
    ghost use Rattle.wasm_instance.specs.Fits.{IsInstanceOf, ended};

    /// An instance without a module. All memory is taken here: the stack, the pages of the limit, globals and table, and
    /// committed copies of these three.
    pub fn new(alloc: Global, limits: Limits) -> Result<Self, AllocError>
        requires { limits.pages ≤ 65536 }
        ensures limits { IfOk result (λ instance. instance.limits ≡ limits) }
        ensures empty { IfOk result (λ instance. instance.standing ≡ nothing) }
        ensures kept { IfOk result (λ instance. instance.kept ≡ nothing) }
    {
        let stack = limits.stack as usize;
        let frame = Saved {
            place: 0,
            base: 0,
            count: 0,
            height: 0,
            room: 0,
        };
        Ok(Instance {
            limits,
            store: Store::new(alloc, limits.pages)?,
            left: 0,
            was_refused: false,
            cells: vec![in alloc; 0; stack]?,
            saved: vec![in alloc; frame; stack / 8 + 1]?,
        })
    }

    /// Begins an execution: the limit of steps is on all runs until the next one.
    pub fn begin(&mut self)
        ensures left { self.new.left ≡ self.old.limits.steps }
        ensures refused { self.new.was_refused ≡ false }
        ensures limits { self.new.limits ≡ self.old.limits }
        ensures standing { self.new.standing ≡ self.old.standing }
        ensures kept { self.new.kept ≡ self.old.kept }
    {
        self.left = self.limits.steps;
        self.was_refused = false;
    }

    /// What each execution may use.
    pub fn limits(&self) -> Limits
        ensures { result ≡ self.now.limits }
    {
        self.limits
    }

    /// The steps that are left since the last `begin`.
    pub fn left(&self) -> u64
        ensures { result ≡ self.now.left }
    {
        self.left
    }

    /// Whether a `memory.grow` since the last `begin` answered -1.
    pub fn was_refused(&self) -> bool
        ensures { result ≡ self.now.was_refused }
    {
        self.was_refused
    }

    /// The bytes of the memory.
    pub fn memory(&self) -> &[u8]
        ensures { result.now ≡ self.now.standing.memory }
    {
        self.store.memory.bytes()
    }

    /// The bits of the globals.
    pub fn globals(&self) -> &[u64]
        ensures { result.now ≡ self.now.standing.globals }
    {
        self.store.globals.as_slice()
    }

    /// The entries of the table.
    pub fn table(&self) -> &[Option<u32>]
        ensures { result.now ≡ self.now.standing.table }
    {
        self.store.table.as_slice()
    }

    /// The function at this place of the table. `None` where the place is past the end, or its entry empty.
    pub fn table_entry(&self, place: u32) -> Option<u32>
        ensures { result ≡ entry (slice_get self.now.standing.table place) }
    {
        self.store.table_entry(place)
    }

    /// Keeps memory, globals and table as they are.
    pub fn commit(&mut self)
        ensures standing { self.new.standing ≡ self.old.standing }
        ensures kept { self.new.kept ≡ self.old.standing }
        ensures limits { self.new.limits ≡ self.old.limits }
        ensures left { self.new.left ≡ self.old.left }
        ensures refused { self.new.was_refused ≡ self.old.was_refused }
    {
        self.store.commit();
    }

    /// Puts back what the last commit kept; before the first one, an instance without a module.
    pub fn restore(&mut self)
        ensures standing { self.new.standing ≡ self.old.kept }
        ensures kept { self.new.kept ≡ self.old.kept }
        ensures limits { self.new.limits ≡ self.old.limits }
        ensures left { self.new.left ≡ self.old.left }
        ensures refused { self.new.was_refused ≡ self.old.was_refused }
    {
        self.store.restore();
    }

    /// Loads the module. After a refusal no module is there.
    pub fn load(&mut self, tree: &Valid) -> Result<(), LoadTrap>
        ensures answer { Answers (load_within self.old.limits.pages tree.now) result self.new.standing }
        ensures fits { OnOk result (IsInstanceOf tree.now self.new.standing) }
        ensures kept { self.new.kept ≡ self.old.kept }
        ensures limits { self.new.limits ≡ self.old.limits }
        ensures left { self.new.left ≡ self.old.left }
        ensures refused { self.new.was_refused ≡ self.old.was_refused }
    {
        self.store.load(tree.module())
    }

    /// Runs a function that gives no result. After a trap or want of memory, memory, globals and table may have changed,
    /// until `restore`, and no steps are left. Takes no memory of its own.
    pub fn run<H: Host>(
        &mut self,
        tree: &Valid,
        function: u32,
        args: &[u64],
        host: &mut H,
    ) -> Outcome
        requires fits { IsInstanceOf tree.now self.old.standing }
        requires callable { IsCallable tree.now function args.now }
        requires made_for { IsMadeFor tree.now (H.types host.old) }
        ensures ran { HasRun H.replies host.old host.new (λ world. execute_with (limits_of self.old.left self.old.limits.pages self.old.limits.stack) tree.now played function args.now (store_with self.old.standing.memory self.old.standing.globals self.old.standing.table self.old.was_refused world)) (store_with self.new.standing.memory self.new.standing.globals self.new.standing.table self.new.was_refused) (ended result self.new.left) }
        ensures fits { IsInstanceOf tree.now self.new.standing }
        ensures types { H.types host.new ≡ H.types host.old }
        ensures count { H.count host.old ≤ H.count host.new }
        ensures memory { result ≡ Outcome.Memory → Rose (H.count host.old) (H.count host.new) }
        ensures kept { self.new.kept ≡ self.old.kept }
        ensures limits { self.new.limits ≡ self.old.limits }
    {
        let module = tree.module();
        let most = self
            .limits
            .pages
            .min(most_pages(module.memories.as_slice()));
        let store = &mut self.store;
        let result = execute(
            host,
            module,
            tree.layout(),
            store.table.as_slice(),
            most,
            function,
            args,
            self.left,
            self.limits.stack as usize,
            self.cells.as_mut_slice(),
            self.saved.as_mut_slice(),
            store.globals.as_mut_slice(),
            &mut store.memory,
            &mut self.was_refused,
        );
        match result {
            Ok(left) => {
                self.left = left;
                Outcome::Done
            }
            Err(Stop::Trapped(cause)) => {
                self.left = 0;
                Outcome::Trap(cause)
            }
            Err(Stop::Memory) => {
                self.left = 0;
                Outcome::Memory
            }
        }
    }
}
