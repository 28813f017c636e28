//! The host of a run: what the imported functions do.
use page_store::KeptPages;

/// How a call of an imported function may fail: it traps, or memory was wanting.
#[derive(Clone, Copy)]
pub enum HostEnd {
    Trap,
    Memory,
}

/// The imported functions. `types` are the types of the imports that the host was made for, in their order. `replies`
/// says which reply a call may have: in this state of the host, of a function with arguments, where the memory has
/// these bytes; and the state after it. `count` never falls.
pub trait Host {
    ghost use Rattle.std.specs.Prelude.{◌≡◌, ◌≤◌, ◌<◌, ℕ, List, length, IfOk, IsErrOf, OnErr};
    ghost use Rattle.wasm_tree.specs.declared.types.FunctionType.{FunctionType};
    ghost use Rattle.outer.specs.Causes.{Rose};
    ghost use Rattle.wasm_machine.specs.Hosts.{Reply};
    ghost use Rattle.wasm_machine.specs.Asked.{Fitting, FitsResult, IfReplied};

    ghost types: { Self → List FunctionType };

    ghost replies: { Self → ℕ → List ℕ → List ℕ → Reply → Self → Type 0 };

    ghost count: { Self → ℕ };

    /// Calls the imported function with this index. The memory keeps its size; after a trap it is as before. Memory is
    /// wanting only where the count rises.
    fn call(
        &mut self,
        function: u32,
        args: &[u64],
        memory: &mut KeptPages,
    ) -> Result<Option<u64>, HostEnd>
        requires fitting { Fitting (types self.old) function args.now }
        ensures replied { IfReplied result memory.new.bytes (λ reply. replies self.old function args.now memory.old.bytes reply self.new) }
        ensures types { types self.new ≡ types self.old }
        ensures result { IfOk result (FitsResult (types self.old) function) }
        ensures size { length memory.new.bytes ≡ length memory.old.bytes }
        ensures limit { memory.new.limit ≡ memory.old.limit }
        ensures kept { memory.new.kept ≡ memory.old.kept }
        ensures unchanged { IsErrOf result HostEnd.Trap → memory.new ≡ memory.old }
        ensures count { count self.old ≤ count self.new }
        ensures memory { IsErrOf result HostEnd.Memory → Rose (count self.old) (count self.new) };
}
