//! Parts one by one.
ghost use Rattle.std.specs.Prelude.{◌≡◌, Decides};

use mo_types::Datum;
use value_arena::same_part;

/// Whether these are the same parts.
pub(crate) fn same_parts(left: &[Datum], right: &[Datum]) -> bool
    ensures { Decides result (left.now ≡ right.now) }
{
    if left.len() != right.len() {
        return false;
    }
    for (place, part) in left.iter().enumerate() {
        if !same_part(part, &right[place]) {
            return false;
        }
    }
    true
}
