//! The names in what is given.
ghost use Rattle.kept_names.specs.Laws.{ListsAreKept};

/// What is given of a list of declarations that is judged defines the names that the list defines, and those that occur in it are the names that occur in the list,
/// save names that are not bound where they stand.
pub fn lists_are_kept()
    ensures { ListsAreKept }
{}
