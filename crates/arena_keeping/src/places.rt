//! Stable variables by their names, which are the same where their numbers are: Motoko language manual, section "Stable variables".
ghost use Rattle.std.specs.Prelude.{◌≡◌, map, nat_eq, slice_get};
ghost use Rattle.mo_types.specs.Heads.{map_option};
ghost use Rattle.mo_types.specs.Label.{label_id as number_of};
ghost use Rattle.arena_keeping.specs.Taking.{place_from};

use mo_types::{Datum, TypeId, label_id};
use typed_tree::StableVariable;

// Whether both have the same name.
fn same_name(left: &StableVariable, right: &StableVariable) -> bool
    ensures { result ≡ nat_eq (number_of left.now.name) (number_of right.now.name) }
{
    label_id(left.name.as_slice()) == label_id(right.name.as_slice())
}

/// The place of the first variable with the name of this one.
pub(crate) fn place_of(stable: &[StableVariable], variable: &StableVariable) -> Option<usize>
    ensures { result ≡ place_from 0 stable.now variable.now.name }
{
    for (place, other) in stable.iter().enumerate() {
        if same_name(other, variable) {
            return Some(place);
        }
    }
    None
}

/// The type of the variable at this place.
pub(crate) fn type_at(stable: &[StableVariable], place: usize) -> Option<TypeId>
    ensures { result ≡ map_option (λ v. v.of_type) (slice_get stable.now place) }
{
    match stable.get(place) {
        Some(variable) => Some(variable.of_type),
        None => None,
    }
}

/// The parts at this place.
pub(crate) fn parts_at<'p>(parts: &'p [Vec<Datum>], place: usize) -> Option<&'p [Datum]>
    ensures { map_option (λ p. p.now) result ≡ slice_get (map (λ p. p.items) parts.now) place }
{
    match parts.get(place) {
        Some(found) => Some(found.as_slice()),
        None => None,
    }
}
