//! Laws of scripts, as contracts of calls that do nothing.
ghost use Rattle.play_script.specs.Scripts.{HasOneReading};

/// A text is a script of one list of events at most.
pub fn reading_law()
    ensures { HasOneReading }
{}
