//! A law: the function does nothing, and its contract is a theorem.
ghost use Rattle.operation_codes.specs.Laws.{CodesAreShallow};

/// The code of a primitive has few operands at once and few constructs in one another, so that a frame's words pay for it.
pub fn codes_are_shallow()
    ensures { CodesAreShallow }
{}
