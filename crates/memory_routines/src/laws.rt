//! Each function here does nothing, and its contract is a law.
ghost use Rattle.memory_routines.specs.Laws.{AllocationKeepsItsLine, ComparisonKeepsItsLine, CopyingKeepsItsLine, HeapsStayHeaps, NumeralKeepsItsLine, OrderingKeepsItsLine, RoutinesAreFormed};

/// A call of allocation gives the old end of the heap, and the memory has exactly the pages that the new end takes; or the execution
/// ends for want of memory, where the limit has no room for them or no memory has so many bytes. It takes 49 steps at most.
pub fn allocation_keeps_its_line<World>()
    ensures { AllocationKeepsItsLine World }
{}

/// A call of the copy of bytes allocates as many and puts them there, with 25 steps for each.
pub fn copying_keeps_its_line<World>()
    ensures { CopyingKeepsItsLine World }
{}

/// A call of the comparison of texts of one length says whether they are the same, with 31 steps for each byte, and changes nothing.
pub fn comparison_keeps_its_line<World>()
    ensures { ComparisonKeepsItsLine World }
{}

/// A call of the order of texts says which comes first by their bytes, with 46 steps for each of the first, and changes nothing.
pub fn ordering_keeps_its_line<World>()
    ensures { OrderingKeepsItsLine World }
{}

/// A call of the numeral writes a number in decimal digits up to a place and gives the place where they begin, in 521 steps at most.
pub fn numeral_keeps_its_line<World>()
    ensures { NumeralKeepsItsLine World }
{}

/// What allocation and the copy leave is a heap again, which holds bytes; those up to the old end are as they were, and those from
/// there on are what was copied.
pub fn heaps_stay_heaps()
    ensures { HeapsStayHeaps }
{}

/// A module that has the types of the routines, and a word as its first global, may have them as functions: they are formed there.
pub fn routines_are_formed()
    ensures { RoutinesAreFormed }
{}
