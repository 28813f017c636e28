//! Which types are lawful.
ghost use Rattle.proper_laws.specs.Laws.{ProperTypesAreLawful, WrittenTypesAreProper};

/// Where the definitions of a program and the types that are met are proper, all types that are reached are lawful.
pub fn proper_types_are_lawful()
    ensures { ProperTypesAreLawful }
{}

/// Each type that is written and as it has to be is proper.
pub fn written_types_are_proper()
    ensures { WrittenTypesAreProper }
{}
