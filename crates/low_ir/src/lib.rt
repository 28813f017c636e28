//! Low code: structured code over integers, one memory, globals and a table, which is translated to WebAssembly instruction by
//! instruction. It holds its meaning, and the routines of a run time in their order.
#![tactic(auto)]

mod module_parts;
mod op;
mod routines;
mod rows;

pub use module_parts::{LowExport, LowFunction, LowGlobal, LowModule};
pub use op::{LowOp, Operand, Operation};
pub use routines::{Builder, Routine, Routines, copied};
pub use rows::calls_are_as_wanted;
