//! Laws of executions.
ghost use Rattle.std.specs.Prelude.{ℕ};
ghost use Rattle.mo_actor.specs.Laws.{KeepsRoom};
ghost use Rattle.mo_actor.specs.Programs.{IsSettled};
ghost use Rattle.typed_tree.specs.Programs.{Program};
ghost use Rattle.mo_meaning.specs.Actor.{meaning};
ghost use Rattle.mo_meaning.specs.Bounds.{AllKeepBounds, LongMessagesTrap};
ghost use Rattle.mo_meaning.specs.Coding.{Coding, Types};
ghost use Rattle.mo_meaning.specs.Configurations.{Surroundings};
ghost use Rattle.mo_meaning.specs.Growth.{AllGrow};
ghost use Rattle.mo_meaning.specs.Payment.{IsPaid};
ghost use Rattle.mo_meaning.specs.Runs.{CallsStayFew, RunsAreOne};

/// An execution that has ended stays as it is at all later numbers of turns: of methods, of bodies that waited, of starts and
/// of savings.
pub fn executions_settle()
    ensures { (coding : Coding) (first : ℕ) (types : Types) (p : Program) → IsSettled (meaning coding first types p) }
{}

/// An execution only adds to what it printed and what it cost. So what it shows where it is cut off begins what it prints in
/// all, and a limit that it has reached once it has reached for good.
pub fn executions_grow()
    ensures { (coding : Coding) (first : ℕ) (types : Types) (p : Program) → AllGrow (meaning coding first types p) }
{}

/// An execution that completes leaves at most 500 calls open, if no more were open before it. Its arguments, its reply and
/// the text of its rejection have at most 2,097,152 bytes, and one of more bytes traps.
pub fn executions_keep_limits()
    ensures messages { (coding : Coding) (first : ℕ) (types : Types) (p : Program) → AllKeepBounds (meaning coding first types p) }
    ensures room { (coding : Coding) (first : ℕ) (types : Types) (p : Program) → KeepsRoom (meaning coding first types p) }
    ensures exact { LongMessagesTrap }
{}

/// Each turn is paid: an execution that still goes on after so many turns weighs so much more at least. So one that never ends
/// passes every bound.
pub fn turns_are_paid()
    ensures { (s : Surroundings) → IsPaid s }
{}

/// So what is shown of actors holds of typed programs. Where nothing is exhausted, the programs and the events determine the
/// items; and in every state that a run comes to, at most 500 calls are open.
pub fn programs_run_as_actors()
    ensures one { RunsAreOne }
    ensures few { CallsStayFew }
{}
