//! From a syntax tree to a typed program.
ghost use Rattle.std.specs.Prelude.{IfOk};
ghost use Rattle.typing_rules.specs.AbstractPrograms.{abstract};
ghost use Rattle.typing_rules.specs.Programs.{Decides};
ghost use Rattle.met_types.specs.States.{Kept};
ghost use Rattle.program_rules.specs.Decided.{TypedIn, program_in};
ghost use Rattle.mo_check.specs.Checked.{seen};

use crate::fault::TypeFault;
use abstract_programs::abstract_program;
use mo_syntax::Tree;
use program_rules::{TypedProgram, judge_program};
use std::alloc::Global;

/// A typed program, exactly where the tree is that of one, or else the first condition of the rules of typing that is false, with its
/// place: Motoko language manual, sections "Programs", "Actors". The recursion is as deep as the tree. Want of memory names no condition.
pub fn check(alloc: Global, tree: &Tree) -> Result<TypedProgram, TypeFault>
    ensures decides { Decides program_in tree.now (seen result) }
    ensures kept { IfOk result (λ made. Kept made.types) }
    ensures types { IfOk result (λ made. TypedIn (abstract tree.now) made.types (program_in made)) }
{
    let program = abstract_program(alloc, tree)?;
    Ok(judge_program(alloc, program)?)
}
