//! What is said of a source.
ghost use Rattle.std.specs.Prelude.{IfOk};
ghost use Rattle.source_explanation.specs.Explained.{Explains};

use crate::accepted::missed;
use crate::refused::refusal;
use mo_front::{FrontFault, front};
use mo_num::{Bytes, Memory};
use std::alloc::Global;

/// What is said of a source.
pub enum Explanation {
    /// It is refused: its line with a mark under the place, and why.
    Refused(Bytes),
    /// It is accepted: for each `switch` that misses a value its line, and a case that it misses.
    Accepted(Bytes),
}

/// What is said of a source, by the answer of the front end to it. The recursion is as deep as the program.
pub fn explain_source(alloc: Global, source: &[u8]) -> Result<Explanation, Memory>
    ensures { IfOk result (Explains source.now) }
{
    match front(alloc, source) {
        Ok(made) => Ok(Explanation::Accepted(missed(alloc, source, &made)?)),
        Err(FrontFault::Memory) => Err(Memory),
        Err(fault) => Ok(Explanation::Refused(refusal(alloc, source, fault)?)),
    }
}
