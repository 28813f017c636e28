//! Each function here does nothing, and its contract is a law.
ghost use Rattle.wire_numbers.specs.Laws.{FlagsAreRead, FlagsAreWritten, NumbersAreRead, NumbersAreWritten, RoutinesAreFormed};

/// A call of the routine that reads a kind of numbers does what the definition of messages says of the bytes between two places: the
/// number's word is stored and the place behind its bytes given, or nothing is stored and 0 given. It takes 500 steps at most.
pub fn numbers_are_read<World>()
    ensures { NumbersAreRead World }
{}

/// The same of truth values.
pub fn flags_are_read<World>()
    ensures { FlagsAreRead World }
{}

/// A call of the routine that writes a kind of numbers puts the bytes that the definition of messages has for the number at a place,
/// gives the place behind them, and leaves the memory else as it was. It takes 400 steps at most.
pub fn numbers_are_written<World>()
    ensures { NumbersAreWritten World }
{}

/// The same of truth values.
pub fn flags_are_written<World>()
    ensures { FlagsAreWritten World }
{}

/// A module that has the types of the routines may have them as functions: they are formed there.
pub fn routines_are_formed()
    ensures { RoutinesAreFormed }
{}
