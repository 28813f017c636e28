//! The law of steppers of well-typed programs.
ghost use Rattle.std.specs.Prelude.{◌≡◌, ◌≤◌, List, length, ℕ};
ghost use Rattle.play_script.specs.declared.event.Event.{Event};
ghost use Rattle.play_script.specs.declared.item.Item.{Item};
ghost use Rattle.mo_types.specs.Sub.{Each};
ghost use Rattle.typed_tree.specs.declared.program.Program.{Program as Written};
ghost use Rattle.typed_tree.specs.WellTyped.{WellTyped};
ghost use Rattle.mo_meaning.specs.Coding.{Coding, IsFaithful};
ghost use Rattle.program_soundness.specs.Actors.{IsProper};
ghost use Rattle.stepper.specs.declared.state.State.TheVariants as state;
ghost use Rattle.stepper.specs.declared.state.Stepper.{Stepper as Stepping};
ghost use Rattle.stepper.specs.Runs.{StepsTo};
ghost use Rattle.sound_steppers.specs.Sound.{GoesOn};

/// Behind any events as a host gives them, a stepper of well-typed programs stands for a state of the meaning's run of these events, which has the items
/// that the stepper gave. This state is typed: the store, what waits, and the calls under way have their types. And the course of each
/// further event, which the stepper follows, comes to something under any limits: its executions complete, trap, or use up a
/// limit, and none is stuck. So an execution that needs more turns, however many are given, uses up any limit.
pub fn steppers_go_on()
    ensures { (coding : Coding) → IsFaithful coding → (firsts : Written → ℕ) (x : Stepping) → Each WellTyped x.programs.now → length x.own.now ≤ 29 → x.state ≡ state.NoActor 0 → (events : List Event) (items : List Item) (last : Stepping) → Each IsProper events → StepsTo x events items last → GoesOn coding firsts x.programs.now x.own.now events items last }
{}
