//! Each function here does nothing, and its contract is a law.
ghost use Rattle.wire_messages.specs.Laws.{ArgumentsAreRead, MessagesAreFormed, RepliesAreWritten};

/// A call of a function that replies, where words stand for values of its types, writes the message of these values that the definition
/// has, gives the place behind it, and leaves the memory else as it was.
pub fn replies_are_written<World>()
    ensures { RepliesAreWritten World }
{}

/// A call of a function that reads arguments, in a module with a function that reads tables of types, does what the definition of
/// messages says of the bytes between two places at its types: the words of the values stand at a third place, and 1 is given; or 0.
pub fn arguments_are_read<World>()
    ensures { ArgumentsAreRead World }
{}

/// A module that has the types of functions that reply and that read arguments, and those of the functions that these call, may have them:
/// they are formed there, where a header has at most 65,536 bytes and there are at most as many types.
pub fn messages_are_formed()
    ensures { MessagesAreFormed }
{}
