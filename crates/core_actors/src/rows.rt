//! A row: what the laws ask of an actor can be met.
ghost use Rattle.std.specs.Prelude.{◌≡◌, ℕ, List, true};
ghost use Rattle.core_ir.specs.ActorRows.{lists};
ghost use Rattle.core_ir.specs.CoreMachine.{core_machine};
ghost use Rattle.core_actors.specs.QuietActor.{any_event, quiet, quiet_kept, quiet_state};
ghost use Rattle.core_actors.specs.Unbroken.{Unbroken};

/// An actor without methods never breaks, whatever events come.
pub fn quiet_actors_are_unbroken()
    ensures { (first : ℕ) (own : List ℕ) → Unbroken (core_machine quiet) lists quiet first own (λ e. any_event e ≡ true) (λ s. quiet_state s ≡ true) (λ k. quiet_kept k ≡ true) }
{}
