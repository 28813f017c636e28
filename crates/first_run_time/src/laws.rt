//! Each function here does nothing, and its contract is a law.
ghost use Rattle.first_run_time.specs.Laws.{CopiesAreReplied, DigitsAreReplied, OrdersAreReplied, RunTimeBeginsWithAHeap, RunTimeHasItsRoutines, RunTimeIsFormed, SameAreReplied, ShortArgumentsTrap};

/// What the run time uses is there with its kind, its exports take nothing and give nothing, and its numbers can be spelled.
pub fn run_time_is_formed()
    ensures { RunTimeIsFormed }
{}

/// The routines are the first functions of the run time, so that each call of one meets its line of the table.
pub fn run_time_has_its_routines()
    ensures { RunTimeHasItsRoutines }
{}

/// The WebAssembly module begins with a heap, with bytes and with the comparison at its place in the table, as the laws on queries ask.
pub fn run_time_begins_with_a_heap()
    ensures { RunTimeBeginsWithAHeap }
{}

/// Under the host each query of `digits` of the WebAssembly module, with any heap, replies with the decimal digits of the number in the
/// first 8 bytes of its argument, in at most 600 steps and 64 stack words; or it ends for want of memory, where the limit has no room for
/// 28 bytes more.
pub fn digits_are_replied()
    ensures { DigitsAreReplied }
{}

/// A query of `copy` replies with a copy of its argument, in at most 25 steps for each byte and 130, within 64 stack words; or it ends for
/// want of memory, where the limit has no room for twice the argument.
pub fn copies_are_replied()
    ensures { CopiesAreReplied }
{}

/// A query of `same` replies with 1 where the first half of its argument is the second, and with 0 else, in at most 31 steps for each pair
/// of bytes and 140, within 64 stack words; or it ends for want of memory, where the limit has no room for the argument and a byte.
pub fn same_are_replied()
    ensures { SameAreReplied }
{}

/// A query of `order`, whose argument is the size of a text, the text and another, replies with 0, 1 or 2 as the first comes first, they are
/// the same, or the second comes first, in at most 46 steps for each byte of the first and 120, within 64 stack words; or it ends for want
/// of memory, where the limit has no room for the argument.
pub fn orders_are_replied()
    ensures { OrdersAreReplied }
{}

/// A query of `order` whose argument is too short for the size in its first 4 bytes, or has none, ends with the text `argument too short`,
/// in at most 120 steps, within 64 stack words, where the memory holds that text as at first; or for want of memory.
pub fn short_arguments_trap()
    ensures { ShortArgumentsTrap }
{}
