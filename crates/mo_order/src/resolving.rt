//! The names of a program.
ghost use Rattle.std.specs.Prelude.{IfErr, IfOk};
ghost use Rattle.mo_names.specs.Bound.{Refused, Resolved};

use crate::breaches::first_breach;
use crate::order::first_misplaced;
use mo_names::{NameFault, Named, find_names};
use mo_syntax::Tree;
use std::alloc::Global;

/// Binds the names of a program, and says what each use of a name means, in the order of the source (Motoko language manual, "Identifiers",
/// "Declarations"): the uses of values, types and labels of loops, and of members of modules. Each that is used has a meaning, none is bound twice in one
/// list, pattern or type, no value is used before it is defined, no labels clash, and none is reserved. Of several of these rules that are broken the one
/// that is broken at the earliest start is named, and at the same start the first in the order of `Rule`.
pub fn resolve(alloc: Global, tree: &Tree) -> Result<Named, NameFault>
    ensures ok { IfOk result (Resolved tree.now) }
    ensures err { IfErr result (Refused tree.now) }
{
    let found = find_names(alloc, tree)?;
    let early = first_misplaced(alloc, tree)?;
    match first_breach(found.as_slice(), early) {
        Some(breach) => Err(NameFault::from_breach(breach)),
        None => Ok(Named::new(alloc, found.as_slice())?),
    }
}
