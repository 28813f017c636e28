//! What a syntax tree is judged to be, written out.
ghost use Rattle.typed_programs.specs.Programs.{Makes};

use kernel_programs::kernel_program;
use mo_check::{TypeFault, check};
use mo_syntax::Tree;
use std::alloc::Global;
use typed_tree::Program;

/// The typed program of a syntax tree, exactly where the tree is typed, or else the first condition of the rules of typing that is false,
/// with its place: Motoko language manual, sections "Programs", "Actors". The recursion is as deep as the tree. Want of memory names no
/// condition.
pub fn typed_program(alloc: Global, tree: &Tree) -> Result<Program, TypeFault>
    ensures { Makes tree.now result }
{
    let made = check(alloc, tree)?;
    // In the table of types none is twice, and each is made of types before it.
    let _many = made.types.terms().len();
    let (program, types) = made.into_parts();
    let written = kernel_program(alloc, &program, types)?;
    Ok(written)
}
