//! Each function here does nothing, and its contract is a law.
ghost use Rattle.flat_emission.specs.Laws.{FramesArePaid};

/// The frame of an emitted function takes no more stack words than its body's slots, operands and constructs, and 13.
pub fn frames_are_paid()
    ensures { FramesArePaid }
{}
