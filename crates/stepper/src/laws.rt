//! The law of steppers.
ghost use Rattle.std.specs.Prelude.{◌≡◌, ℕ, List, map};
ghost use Rattle.mo_actor.specs.Measures.{Spent, Unmeasured};
ghost use Rattle.mo_actor.specs.Steps.{ActorRun};
ghost use Rattle.mo_machine.specs.States.{by_meaning};
ghost use Rattle.mo_meaning.specs.Coding.{Coding, IsFaithful};
ghost use Rattle.play_script.specs.declared.event.Event.{Event};
ghost use Rattle.play_script.specs.declared.item.Item.{Item};
ghost use Rattle.typed_tree.specs.declared.program.Program.{Program as Written};
ghost use Rattle.stepper.specs.declared.state.State.TheVariants as state;
ghost use Rattle.stepper.specs.declared.state.Stepper.{Stepper as Stepping};
ghost use Rattle.stepper.specs.Runs.{typed, Steps};

/// What a stepper gives for events in turn, each within enough turns, is what its programs do by the meaning, under any limits,
/// in any faithful coding of messages, and with first memories of any size.
pub fn steps_are_runs()
    ensures runs { (coding : Coding) → IsFaithful coding → (firsts : Written → ℕ) (x : Stepping) (events : List Event) (items : List Item) → x.state ≡ state.NoActor 0 → Steps x events items → ActorRun Unmeasured (map (by_meaning coding) (map (typed firsts) x.programs.now)) x.own.now events items }
    ensures measured { (steps stack pages : ℕ) (coding : Coding) → IsFaithful coding → (firsts : Written → ℕ) (x : Stepping) (events : List Event) (items : List Item) → x.state ≡ state.NoActor 0 → Steps x events items → ActorRun (Spent steps stack pages) (map (by_meaning coding) (map (typed firsts) x.programs.now)) x.own.now events items }
{}
