//! Each function here does nothing, and its contract is a law.
ghost use Rattle.linked_modules.specs.Laws.{MemoriesBegin, ModulesAreLinked, PrimitivesAreKept};

/// The low module of a program has the routines and the texts of traps that the codes of primitives call and read.
pub fn modules_are_linked()
    ensures { ModulesAreLinked }
{}

/// Under the host, within any pages that addresses reach, the code of each primitive that is treated and the routine for allocation do
/// what they are for.
pub fn primitives_are_kept()
    ensures { PrimitivesAreKept }
{}

/// The memory that the module begins with holds the world of an actor that has begun nothing: its texts, and zeros in the words of
/// names.
pub fn memories_begin()
    ensures { MemoriesBegin }
{}
