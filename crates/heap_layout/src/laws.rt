//! Each function here does nothing, and its contract is a law.
ghost use Rattle.heap_layout.specs.Laws.{BlocksAreMade, BlocksArePaid, CellsAreMade, CellsAreWritten, GroupsAreMade, HeapsBegin, MeaningsStay, TextsStand, WordsAreRead};

/// Where a memory has only grown, its fixed words are as they were, and what was made is where it was, each word stands for what it
/// stood for, and a group of functions stands where it stood.
pub fn meanings_stay()
    ensures { MeaningsStay }
{}

/// A word of the heap with an owner lies below the heap's end; its address is a word of 32 bits, and a load there gives it.
pub fn words_are_read()
    ensures { WordsAreRead }
{}

/// Where a cell was written it holds what was written, and all else is as it was.
pub fn cells_are_written()
    ensures { CellsAreWritten }
{}

/// A cell that is made at the heap's end is the next of the world's cells, and all else is as it was.
pub fn cells_are_made()
    ensures { CellsAreMade }
{}

/// A block of the places of functions in the table and of what they see is the next group that was made, and the addresses of its
/// first words are its functions.
pub fn groups_are_made()
    ensures { GroupsAreMade }
{}

/// A block of words that has a head's numbers and the words of parts at their places stands for the value with that head and those
/// parts.
pub fn blocks_are_made()
    ensures { BlocksAreMade }
{}

/// A memory whose words from the heap's end on are free holds a world in which nothing was made.
pub fn heaps_begin()
    ensures { HeapsBegin }
{}

/// The bytes of each block are at most 64 for each unit of the weight that pays for it.
pub fn blocks_are_paid()
    ensures { BlocksArePaid }
{}

/// Each text that stands at the beginning of a module's memory stands there in every memory that holds a world.
pub fn texts_stand()
    ensures { TextsStand }
{}
