//! A law: the function does nothing, and its contract is a theorem.
ghost use Rattle.low_rules.specs.Lines.{LinesAreMet};

/// Where each routine's body keeps its line by the rule, from the lines of those that it calls, each call does what its line says:
/// with a result or a trap, after the steps that the line tells, within the stack words of its level. The lines are here what tests
/// say; the lemmas have it for any.
pub fn lines_are_met<World>()
    ensures { LinesAreMet World }
{}
