//! Laws of steps.
ghost use Rattle.std.specs.Prelude.{ℕ};
ghost use Rattle.core_ir.specs.Expressions.{Core};
ghost use Rattle.core_ir.specs.Worlds.{Context};
ghost use Rattle.elaboration_steps.specs.Follows.{BodiesBegin, MovesFollow, ReductionsFollow, StacksAreAsDeep};
ghost use Rattle.elaboration_steps.specs.Running.{WaysAreRuns, StopsAreRuns};

/// Where the machine of typed programs looks for its next reduction, Core comes to a state that belongs to that, by steps that are paid, or by none
/// where the rank falls; and where all is done, Core ends with a value that belongs to the last one.
pub fn moves_are_followed()
    ensures { (program : Core) (context : Context) (nodes : ℕ) → MovesFollow program context nodes }
{}

/// A reduction is followed by steps of Core, of which one at most has an effect: to a state that belongs to that in which it goes on, with the same
/// print, or to the same trap or an error that belongs to its error. What these weigh is at most twice its weight and what is held. Values stand where
/// values of their types do; calls of other actors and waits are answered from outside, and `Array.tabulate` is not called.
pub fn reductions_are_followed()
    ensures { (program : Core) (context : Context) (nodes : ℕ) → ReductionsFollow program context nodes }
{}

/// The bodies that were entered and not left are as deep.
pub fn stacks_are_as_deep()
    ensures { StacksAreAsDeep }
{}

/// Where a body outside all functions begins, Core looks at its parameters and comes to where the body stands, or traps as the body does, at no
/// more than twice the weight of the patterns.
pub fn bodies_begin()
    ensures { BodiesBegin }
{}

/// The ways of Core that follow a step are runs of its machine, of so many steps: with their weight, no deeper than the states at their ends with
/// the levels that are gone through, and with their prints; and where it stops, the run is over.
pub fn ways_are_runs()
    ensures ways { (program : Core) (context : Context) (nodes : ℕ) → WaysAreRuns program context nodes }
    ensures stops { (program : Core) (context : Context) (nodes : ℕ) → StopsAreRuns program context nodes }
{}
