//! Each function here does nothing, and its contract is a law.
ghost use Rattle.low_limits.specs.Laws.{CallsUnderLimits, FramesEndBeforeDepth, SmallerLimitsCut};

/// Under smaller limits an execution of a module ends as under larger ones, or for want of a resource of which there was less,
/// after a part of the prints. So what is shown with ample steps, stack words and pages says what happens under any.
pub fn smaller_limits_cut_executions()
    ensures { SmallerLimitsCut }
{}

/// The depth of calls by which the meaning is defined plays no part where it is greater than the stack words.
pub fn frames_end_before_depth()
    ensures { FramesEndBeforeDepth }
{}

/// A call of which is shown how it ends where nothing is wanting, as by the rule for routines, ends so with its steps under any
/// limits, or for want of steps, stack words or pages of which there were fewer, after a part of its prints.
pub fn calls_under_limits()
    ensures { CallsUnderLimits }
{}
