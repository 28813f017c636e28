//! Laws of accepted sources that run.
ghost use Rattle.std.specs.Prelude.{◌∷◌, ◌≤◌, List, [], length, ℕ};
ghost use Rattle.play_script.specs.declared.event.Event.{Event};
ghost use Rattle.play_script.specs.declared.event.Event.TheVariants as event;
ghost use Rattle.play_script.specs.declared.item.Item.{Item};
ghost use Rattle.mo_types.specs.Sub.{Each};
ghost use Rattle.mo_values.specs.Shapes.{Bytes};
ghost use Rattle.mo_actor.specs.Measures.{Spent, Unmeasured};
ghost use Rattle.mo_actor.specs.Reached.{Reaches};
ghost use Rattle.mo_actor.specs.States.{ActorState};
ghost use Rattle.mo_actor.specs.Steps.{ActorRun};
ghost use Rattle.typed_tree.specs.ProgramView.{program};
ghost use Rattle.typed_tree.specs.declared.program.Program.{Program};
ghost use Rattle.mo_meaning.specs.Actor.{meaning};
ghost use Rattle.mo_meaning.specs.Coding.{Coding, IsFaithful};
ghost use Rattle.mo_meaning.specs.Kernel.{kernel};
ghost use Rattle.mo_front.specs.Fronts.{Accepted};
ghost use Rattle.program_soundness.specs.Actors.{IsNoInstallation, IsProper, IsTypedProgram, StateTyped};

/// The program of an accepted source is one of which it is shown that it is never stuck.
pub fn accepted_sources_are_typed()
    ensures { (source : List ℕ) (made : Program) → Accepted source made → (coding : Coding) (first : ℕ) → IsTypedProgram coding (meaning coding first made.types (program made)) }
{}

/// So, whatever events come behind its installation, there is a run of its actor under any limits: each execution completes, traps,
/// or uses up a limit. And in each state that a run comes to, the store, what waits, and the calls under way are typed.
pub fn accepted_sources_go_on()
    ensures run { (source : List ℕ) (made : Program) → Accepted source made → (coding : Coding) → IsFaithful coding → (first : ℕ) (own : Bytes) → length own ≤ 29 → (steps stack pages : ℕ) (events : List Event) → Each IsProper events → Each IsNoInstallation events → (items : List Item) × ActorRun (Spent steps stack pages) (meaning coding first made.types (program made) ∷ []) own (event.Install 0 ∷ events) items }
    ensures states { (source : List ℕ) (made : Program) → Accepted source made → (coding : Coding) → IsFaithful coding → (first : ℕ) (own : Bytes) → length own ≤ 29 → (events : List Event) (last : ActorState kernel) → Each IsProper events → Reaches Unmeasured (meaning coding first made.types (program made) ∷ []) own events last → StateTyped coding last }
{}
