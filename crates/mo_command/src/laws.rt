//! Laws of how the program ends, as the contracts of calls that do nothing.
ghost use Rattle.mo_command.specs.Answered.{BuiltModulesAnswer, RunsAreAnswered};
ghost use Rattle.mo_command.specs.OneStatus.{HasOneStatus};

/// Where no read, write or put fails, the same words over the same files end with one status, but for want of memory. Of
/// the rules that a module breaks each may be named.
pub fn one_status_law()
    ensures { HasOneStatus }
{}

/// A module that was built answers each query and each call of a method with the method's number, a call of `__resume` with
/// no values, and rejects any other, wherever it stands among other modules: nothing traps, and nothing is exhausted.
pub fn built_modules_answer()
    ensures { BuiltModulesAnswer }
{}

/// And so does the actor that `run` installs.
pub fn runs_are_answered()
    ensures { RunsAreAnswered }
{}
