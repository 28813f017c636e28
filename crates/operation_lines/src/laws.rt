//! A law: the function does nothing, and its contract is a theorem.
ghost use Rattle.operation_lines.specs.Laws.{OperationsKeep};

/// In a module that has the routines and texts, the code of a primitive goes from words of its operands to what the primitive does: its
/// value's word in a heap that holds the world after, a print, or the end of the execution with a text; or it ends for want of memory.
pub fn operations_keep<W>()
    ensures { OperationsKeep W }
{}
