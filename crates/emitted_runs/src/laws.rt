//! Each function here does nothing, and its contract is a law.
ghost use Rattle.emitted_runs.specs.Laws.{BodiesAreEntered, ExecutionsBegin, RunsAddUp, RunsAreFollowed};

/// What a machine's run comes to from some weight, depth and prints on is what it comes to from none, behind these.
pub fn runs_add_up<State, Waiting>()
    ensures { RunsAddUp State Waiting }
{}

/// Where low code stands as a state of structured code does, so many turns of the machine are some steps of it, each turn at least one:
/// it stands as the machine does then, or has given the value, or has fallen with the text of the trap, after the same prints. Or it has
/// fallen before for want of steps or of memory, of which there was less than the run's weight pays for.
pub fn runs_are_followed<World>()
    ensures { RunsAreFollowed World }
{}

/// A call of the function of a body, with words of its arguments and in a heap that holds the world, comes to what the machine does
/// from the body's first state.
pub fn bodies_are_entered<World>()
    ensures { BodiesAreEntered World }
{}

/// An execution that begins a method, a saving or a start, with as many values as its body has parameters, is a run from the body's
/// first state, behind what entering costs.
pub fn executions_begin()
    ensures { ExecutionsBegin }
{}
