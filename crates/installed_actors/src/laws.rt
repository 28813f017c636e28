//! Each function here does nothing, and its contract is a law.
ghost use Rattle.installed_actors.specs.Laws.{Installs, NamesAreKept, UnsetNamesReadAsUnits};

/// An actor's start does the same where its names, which have no values yet, are ().
pub fn unset_names_read_as_units<Kept>()
    ensures { UnsetNamesReadAsUnits Kept }
{}

/// The values of an actor's names come out of their tuple into the words of names, which never change from then on, and all else is as
/// it was.
pub fn names_are_kept<W>()
    ensures { NamesAreKept W }
{}

/// Where bodies that run before names have values leave the words of names alone, a low module whose first entry is that for
/// installation is installed as its program's actor is: it completes in contents that hold the actor's first state, traps with the same
/// text after the same prints, or is exhausted at a limit that was reached.
pub fn installs<Kept>()
    ensures { Installs Kept }
{}
