//! Lists of names with their places.
ghost use Rattle.std.specs.Prelude.{◌≡◌, ◌++◌, ◌∷◌, [], OnOk};

use mo_num::{Memory, Sequence};
use mo_syntax::Name;
use std::alloc::Global;

/// A list of names with their places.
pub type Names = Sequence<Name>;

/// Adds a copy of a name.
pub fn push_copy(alloc: Global, names: &mut Names, name: &Name) -> Result<(), Memory>
    ensures { OnOk result (names.new ≡ names.old ++ name.now ∷ []) }
{
    names.push(name.copy(alloc)?)
}

/// Adds copies of names.
pub fn push_copies(alloc: Global, names: &mut Names, more: &[Name]) -> Result<(), Memory>
    ensures { OnOk result (names.new ≡ names.old ++ more.now) }
{
    for one in more {
        push_copy(alloc, names, one)?;
    }
    Ok(())
}
