//! Each function here does nothing, and its contract is a law.
ghost use Rattle.leaf_blocks.specs.Laws.{BlocksAreAdded, BytesAreMade, BytesAreReady, BytesAreThere, ErrorsAreMade, MethodsAreMade, WordsAreAdded};

/// A heap that has grown holds the world that it held, with a block at its end that never changes, whatever is in it.
pub fn blocks_are_added()
    ensures { BlocksAreAdded }
{}

/// Words that are stored one behind the other at the heap's end leave what stood before it as it was.
pub fn words_are_added()
    ensures { WordsAreAdded }
{}

/// A block at the heap's end with the size of a text and its bytes stands for the text, and for what else is in these bytes.
pub fn bytes_are_made()
    ensures { BytesAreMade }
{}

/// So does a block among the texts of the module.
pub fn bytes_are_ready()
    ensures { BytesAreReady }
{}

/// Where a word stands for a text, the text's bytes stand behind their size at that address, below the heap's end.
pub fn bytes_are_there()
    ensures { BytesAreThere }
{}

/// Two words, of an actor and of a name, stand for the shared function.
pub fn methods_are_made()
    ensures { MethodsAreMade }
{}

/// Three words, of a code and of a message, stand for the error.
pub fn errors_are_made()
    ensures { ErrorsAreMade }
{}
