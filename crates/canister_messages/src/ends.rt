//! The ends of executions for incoming calls.
ghost use Rattle.std.specs.Prelude.{◌≡◌, ◌≤◌, ◌+◌, ◌<◌, ◌^◌, ◌++◌, ◌∷◌, [], Some, false, cond, length, IfOk, OnOk, OnErr};
ghost use Rattle.play_script.specs.declared.item.Item.TheVariants as item;
ghost use Rattle.wasm_tree.specs.declared.module_parts.Module.{Module};
ghost use Rattle.wasm_instance.specs.Fits.{IsInstanceOf};
ghost use Rattle.canister_host.specs.HostRun.{closing, outcome, printed};
ghost use Rattle.canister_calls.specs.Calling.{state_with, without, during, finished};
ghost use Rattle.canister_messages.specs.Left.{method_left};
ghost use Rattle.canister_messages.specs.States.{canister_at, state_at, CanRun, IsAsBefore, KeepsRest};

use crate::state::State;
use canister_calls::push_prints;
use canister_execution::Effects;
use ic0_world::{Answer, OutgoingCall};
use mo_num::{Bytes, Memory, Sequence};
use play_script::{Item, Items, Word};
use std::alloc::Global;

/// The items of what was printed.
pub(crate) fn printed(alloc: Global, prints: Sequence<Bytes>) -> Result<Items, Memory>
    ensures { IfOk result (λ items. items ≡ printed prints) }
{
    let mut items = Sequence::new(alloc);
    push_prints(prints, &mut items)?;
    Ok(items)
}

impl State {
    /// Keeps what a finished execution for an incoming call has done, or nothing of it but its answer, behind these items.
    pub(crate) fn finish(
        &mut self,
        owner: u64,
        answering: Option<u64>,
        puts_back: bool,
        performed: Sequence<OutgoingCall>,
        answer: Option<Answer>,
        items: Items,
    ) -> Result<Items, Memory>
        requires there { self.old.memories.is_lost ≡ false }
        requires made { self.old.calls.made + length performed < 2 ^ 64 }
        requires few { length performed + length (without answering self.old.calls.waiting.items) ≤ 500 }
        ensures ok { (m : Module) → IfOk result (λ done. finished owner items performed answer (during answering (state_with (Some (canister_at m (cond puts_back self.old.memories.kept self.old.memories.standing))) self.old.calls)) ≡ outcome done (state_at m self.new)) }
        ensures err { OnErr result (IsAsBefore self.old self.new) }
        ensures runs { (m : Module) → IsInstanceOf m self.old.memories.kept.instance → IsInstanceOf m self.old.memories.standing.instance → OnOk result (CanRun m self.new) }
        ensures made { OnOk result (self.new.calls.made ≤ self.old.calls.made + 500) }
        ensures rest { KeepsRest self.old self.new }
    {
        match self
            .calls
            .finish(self.alloc, owner, answering, performed, answer, items)
        {
            Ok(items) => {
                self.memories.settle(puts_back);
                Ok(items)
            }
            Err(Memory) => Err(Memory),
        }
    }

    /// Puts back what is kept after an execution for an incoming call that broke off for this reason, behind these items.
    pub(crate) fn break_off(
        &mut self,
        owner: u64,
        answering: Option<u64>,
        word: Word,
        mut items: Items,
    ) -> Result<Items, Memory>
        requires there { self.old.memories.is_lost ≡ false }
        requires few { length (without answering self.old.calls.waiting.items) ≤ 500 }
        ensures ok { (m : Module) → IfOk result (λ done. closing owner (items ++ item.Trapped word ∷ []) (during answering (state_at m self.old)) ≡ outcome done (state_at m self.new)) }
        ensures err { OnErr result (IsAsBefore self.old self.new) }
        ensures runs { (m : Module) → IsInstanceOf m self.old.memories.kept.instance → OnOk result (CanRun m self.new) }
        ensures made { OnOk result (self.new.calls.made ≤ self.old.calls.made + 500) }
        ensures rest { KeepsRest self.old self.new }
    {
        items.push(Item::Trapped(word))?;
        match self
            .calls
            .finish_broken(self.alloc, owner, answering, items)
        {
            Ok(items) => {
                self.memories.restore();
                Ok(items)
            }
            Err(Memory) => Err(Memory),
        }
    }

    /// What an execution of a method leaves. A query leaves the canister as it was.
    pub(crate) fn end_method(
        &mut self,
        owner: u64,
        puts_back: bool,
        effects: Effects,
    ) -> Result<Items, Memory>
        requires there { self.old.memories.is_lost ≡ false }
        requires made { self.old.calls.made + length effects.performed < 2 ^ 64 }
        requires few { length effects.performed + length self.old.calls.waiting.items ≤ 500 }
        ensures ok { (m : Module) → IfOk result (λ items. method_left owner (canister_at m (cond puts_back self.old.memories.kept self.old.memories.standing)) effects (state_at m self.old) effects.trap ≡ outcome items (state_at m self.new)) }
        ensures err { OnErr result (IsAsBefore self.old self.new) }
        ensures runs { (m : Module) → IsInstanceOf m self.old.memories.kept.instance → IsInstanceOf m self.old.memories.standing.instance → OnOk result (CanRun m self.new) }
        ensures made { OnOk result (self.new.calls.made ≤ self.old.calls.made + 500) }
        ensures rest { KeepsRest self.old self.new }
    {
        let Effects {
            prints,
            performed,
            answer,
            trap,
        } = effects;
        let items = match printed(self.alloc, prints) {
            Ok(items) => items,
            Err(Memory) => return Err(Memory),
        };
        match trap {
            None => self.finish(owner, None, puts_back, performed, answer, items),
            Some(word) => self.break_off(owner, None, word, items),
        }
    }
}
