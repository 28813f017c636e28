//! Rows at the borders of the definitions.
ghost use Rattle.actor_refinement.specs.Borders.{EventRows, LimitRows};

/// Limits of a command line, and events that a host can hand to a module, at their borders.
pub fn borders_are_as_wanted()
    ensures limits { LimitRows }
    ensures events { EventRows }
{}
