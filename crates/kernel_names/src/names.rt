//! Lists of names, and the names that are bound around a part.
ghost use Rattle.std.specs.Prelude.{◌≡◌, ◌++◌, ◌∷◌, [], OnOk, take};
ghost use Rattle.desugaring.specs.FreeNames.{without};

use mo_num::{Bytes, Memory, Sequence};
use std::alloc::Global;
use type_scopes::NamePlaces;

/// A list of names.
pub type Names = Sequence<Bytes>;

/// Adds a copy of a name.
pub(crate) fn push_copy(alloc: Global, name: &[u8], names: &mut Names) -> Result<(), Memory>
    ensures { OnOk result (names.new ≡ names.old ++ name.now ∷ []) }
{
    names.push(Bytes::from_slice(alloc, name)?)
}

/// Adds a copy of a name that is not bound.
pub(crate) fn push_unless(
    alloc: Global,
    name: &[u8],
    bound: &NamePlaces,
    names: &mut Names,
) -> Result<(), Memory>
    ensures { OnOk result (names.new ≡ names.old ++ without bound.now (name.now ∷ [])) }
{
    if bound.find(name).is_some() {
        return Ok(());
    }
    push_copy(alloc, name, names)
}

/// Binds names.
pub(crate) fn enter(names: &[Bytes], bound: &mut NamePlaces) -> Result<(), Memory>
    ensures { OnOk result (bound.new ≡ bound.old ++ names.now) }
{
    for name in names {
        bound.push(name.as_slice())?;
    }
    Ok(())
}

/// Leaves only the first names bound. Costs the names that are taken away.
pub(crate) fn leave(bound: &mut NamePlaces, len: usize)
    ensures { bound.new ≡ take len bound.old }
{
    while bound.len() > len {
        bound.pop();
    }
}
