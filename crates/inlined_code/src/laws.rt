//! A law: the function does nothing, and its contract is a theorem.
ghost use Rattle.inlined_code.specs.Laws.{CodeGoesInline};

/// Code of a routine that has neither loops nor calls, and returns at its own end alone, does in a function's own locals what it does in
/// the routine: it traps alike, and what it gives is in an operand there, with the steps that it takes without the return.
pub fn code_goes_inline<World>()
    ensures { CodeGoesInline World }
{}
