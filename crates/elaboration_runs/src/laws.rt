//! Laws of executions.
ghost use Rattle.std.specs.Prelude.{ℕ};
ghost use Rattle.core_ir.specs.Expressions.{Core};
ghost use Rattle.core_ir.specs.Worlds.{Context};
ghost use Rattle.mo_meaning.specs.Configurations.{Surroundings};
ghost use Rattle.elaboration_runs.specs.Calling.{CallsFollow};
ghost use Rattle.elaboration_runs.specs.Ending.{ExecutionsCover};
ghost use Rattle.elaboration_runs.specs.Entering.{EntriesFollow};
ghost use Rattle.elaboration_runs.specs.Resuming.{AnswersFollow};
ghost use Rattle.elaboration_runs.specs.Together.{TurnsFollow};
ghost use Rattle.elaboration_runs.specs.Waiting.{AwaitsFollow};
ghost use Rattle.elaboration_runs.specs.Whole.{ExecutionsFollow, ExecutionsGoOn};

/// Where Core's run is together with an execution, a move and a reduction of that are followed by steps of the run: it comes to where the execution
/// stands then, with its prints, at no more than twice its weight and what is owed for open labels and handlers, and no deeper; or it is over with
/// the same text, or with a value or an error that belongs. Calls of other actors and waits are answered from outside.
pub fn turns_are_followed()
    ensures { (program : Core) (context : Context) (nodes : ℕ) → TurnsFollow program context nodes }
{}

/// A call of another actor's method is made alike: where it is let through, Core's run makes the same call and stands where the execution does
/// behind it, with its number as the future; where its message is too long, both trap, and where it is not let through, both throw.
pub fn calls_are_followed()
    ensures { (program : Core) (context : Context) (nodes : ℕ) (s : Surroundings) → CallsFollow program context nodes s }
{}

/// An `await` waits alike: on the same call, on none, or, where the call is answered, on a call of the actor to itself, which both make; what waits
/// belongs to the stack of the execution. Where that call is not let through, both throw.
pub fn awaits_are_followed()
    ensures { (program : Core) (context : Context) (nodes : ℕ) (s : Surroundings) → AwaitsFollow program context nodes s }
{}

/// What waited goes on alike with the answer: with a value Core's run is together with the execution behind the `await`, and with an error where that
/// is thrown.
pub fn answers_are_followed()
    ensures { (program : Core) (context : Context) (nodes : ℕ) (s : Surroundings) → AnswersFollow program context nodes s }
{}

/// A method is entered alike: Core's run comes to where the execution is when the parameters have their values, or both trap.
pub fn entries_are_followed()
    ensures { EntriesFollow }
{}

/// After any number of steps of an execution that still goes on, Core's run comes to where that stands, with its prints and its calls, at no more than
/// twice its weight and what is owed for open labels and handlers, and no deeper.
pub fn executions_are_followed()
    ensures { (program : Core) (context : Context) (nodes : ℕ) → ExecutionsFollow program context nodes }
{}

/// In an execution that still goes on after enough steps, Core's run has made as many as are wanted: where a run is over, so is its execution.
pub fn executions_go_on()
    ensures { (program : Core) (context : Context) (nodes : ℕ) → ExecutionsGoOn program context nodes }
{}

/// After any number of steps of Core's run there is one of steps of the execution: the run has shown no more than that, at no more than twice its weight
/// and what is owed, and is no deeper; or it is over as that is, with a value or an error that belongs, the same text, or waiting on the same call. The
/// execution is one that does not break, and in which values stand where values of their types do.
pub fn executions_are_covered()
    ensures { (program : Core) (context : Context) (nodes : ℕ) → ExecutionsCover program context nodes }
{}
