//! Each function here does nothing, and its contract is a law.
ghost use Rattle.emitted_steps.specs.Laws.{RoutinesDo, StepsAreFollowed};

/// Where low code stands as a state of structured code does, it goes on as the next step does, within steps and bytes that the
/// step's weight pays for, or falls for want of steps or memory.
pub fn steps_are_followed<World>()
    ensures { StepsAreFollowed World }
{}

/// A call of a routine that keeps the line of a primitive does what is asked of its code.
pub fn routines_do<World>()
    ensures { RoutinesDo World }
{}
