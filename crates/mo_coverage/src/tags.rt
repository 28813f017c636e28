//! Tags and fields.
ghost use Rattle.std.specs.Prelude.{◌≡◌, ◌&&◌, not};
ghost use Rattle.pattern_coverage.specs.Cutting.{is_label_among};
ghost use Rattle.pattern_coverage.specs.Inhabited.{in_table};
ghost use Rattle.mo_coverage.specs.Places.{seat_at, seat_of, tag_left};

use mo_num::Bytes;
use mo_types::{Field, TypeId};
use pattern_coverage::is_in;

/// The number of the first field of the label, and its type.
pub(crate) fn seat_of(fields: &[Field], label: &[u8]) -> Option<(usize, TypeId)>
    ensures { result ≡ seat_of label.now fields.now }
{
    for (place, field) in fields.iter().enumerate() {
        if field.label.as_slice() == label {
            return Some((place, field.part));
        }
    }
    None
}

/// The part of a tuple with a number, and its type.
pub(crate) fn seat_at(ids: &[TypeId], place: usize) -> Option<(usize, TypeId)>
    ensures { result ≡ seat_at place ids.now }
{
    match ids.get(place) {
        Some(id) => Some((place, *id)),
        None => None,
    }
}

/// Whether a label is among these.
pub fn is_label_among(label: &[u8], labels: &[Bytes]) -> bool
    ensures { result ≡ is_label_among label.now labels.now }
{
    for other in labels {
        if label == other.as_slice() {
            return true;
        }
    }
    false
}

fn is_left(table: &[bool], tag: &Field, labels: &[Bytes]) -> bool
    ensures { result ≡ (in_table table.now tag.now.part && not (is_label_among tag.now.label labels.now)) }
{
    is_in(table, tag.part) && !is_label_among(tag.label.as_slice(), labels)
}

/// Whether there is a tag with values that is none of these. The tag behind as many as these are is tried first: in the order in
/// which the type names its tags that one is left.
pub(crate) fn tag_left(table: &[bool], tags: &[Field], labels: &[Bytes]) -> bool
    ensures { result ≡ tag_left (in_table table.now) tags.now labels.now }
{
    let next = labels.len();
    if next < tags.len() && is_left(table, &tags[next], labels) {
        return true;
    }
    for tag in tags {
        if is_left(table, tag, labels) {
            return true;
        }
    }
    false
}
