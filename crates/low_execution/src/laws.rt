//! A law: the function does nothing, and its contract is a theorem.
ghost use Rattle.low_execution.specs.Execution.{FormedAreNeverLost};

/// Executions of a formed module end with what the module has become or with a trap, never astray: calls give values exactly where
/// their functions have results.
pub fn formed_modules_are_never_lost()
    ensures { FormedAreNeverLost }
{}
