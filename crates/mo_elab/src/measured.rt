//! Programs within the measures of their bodies.
ghost use Rattle.std.specs.Prelude.{◌≡◌, IfOk};
ghost use Rattle.core_ir.specs.ProgramView.{core};
ghost use Rattle.typed_tree.specs.ProgramView as source;
ghost use Rattle.elaboration.specs.Programs.{elaborated};
ghost use Rattle.core_measures.specs.Within.{Within};

use crate::program::program_of;
use core_ir::Core;
use core_measures::is_within;
use mo_num::Memory;
use std::alloc::Global;

/// The program of nested expressions that a typed program stands for: its declarations and functions in their order. Each of its bodies nests
/// no more than it has nodes and has room for its frame, each group pays for what its functions name, and it has few enough segments.
///
/// Want of memory alone makes none. A program whose bodies need more than their nodes pay for is taken for one that does not fit; no source
/// that the checker accepts is known to give such a program.
pub fn elab(alloc: Global, program: &typed_tree::Program) -> Result<Core, Memory>
    ensures made { IfOk result (λ made. core made ≡ elaborated (source.program program.now)) }
    ensures within { IfOk result (λ made. Within (core made)) }
{
    let made = program_of(alloc, program)?;
    if is_within(alloc, &made)? {
        Ok(made)
    } else {
        Err(Memory)
    }
}
