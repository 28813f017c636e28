//! The functions of `ic0` as the imports of a module.
use ic0_world::{CallEnd, Ic0, World};
use mo_num::Sequence;
use page_store::KeptPages;
use std::alloc::Global;
use wasm_machine::{Host, HostEnd};

/// What a module's imports do in an execution: the function of each import, in order, and the world that they change.
#[derive(Drop)]
pub struct Interface {
    pub functions: Sequence<Ic0>,
    pub world: World,
    /// How often memory was wanting, at most 2^64 - 1.
    pub wants: u64,
    alloc: Global,
}

impl Interface {
    ghost use Rattle.std.specs.Prelude.{◌≡◌};

    /// The imports that are these functions, in this world. Takes no memory.
    pub fn new(alloc: Global, functions: Sequence<Ic0>, world: World) -> Self
        ensures functions { result.functions ≡ functions }
        ensures world { result.world ≡ world }
        ensures wants { result.wants ≡ 0 }
    {
        Interface {
            functions,
            world,
            wants: 0,
            alloc,
        }
    }
}

impl Host for Interface {
    ghost use Rattle.std.specs.Prelude.{◌≡◌, map};
    ghost use Rattle.canister_host.specs.Types.{type_of_function};
    ghost use Rattle.canister_host.specs.Replies.{Replied};

    ghost types = { λ interface. map type_of_function interface.functions };

    ghost replies = { λ old function args memory reply new. Replied old.functions old.world function args memory reply new.functions new.world };

    ghost count = { λ interface. interface.wants };

    fn call(
        &mut self,
        function: u32,
        args: &[u64],
        memory: &mut KeptPages,
    ) -> Result<Option<u64>, HostEnd> {
        let function = self.functions.as_slice()[function as usize];
        match self.world.call(self.alloc, function, args, memory) {
            Ok(result) => Ok(result),
            Err(CallEnd::Trap) => Err(HostEnd::Trap),
            Err(CallEnd::Memory) => {
                self.wants = self.wants.saturating_add(1);
                Err(HostEnd::Memory)
            }
        }
    }
}
