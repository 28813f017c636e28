//! Each function here does nothing, and its contract is a law.
ghost use Rattle.code_sequences.specs.Laws.{CodeGoesBefore, CodeRunsOn, SequencesAreLists};

/// Code with more behind it does what it does without that, and where it comes to its end the other goes on from there.
pub fn code_runs_on<World>()
    ensures { CodeRunsOn World }
{}

/// As a list of instructions it is the one behind the other.
pub fn sequences_are_lists()
    ensures { SequencesAreLists }
{}

/// Where code has what the rule wants of it, so that it comes to its end or traps, it does so with anything behind it, in the same steps.
pub fn code_goes_before<World>()
    ensures { CodeGoesBefore World }
{}
