//! Fields by their labels.
ghost use Rattle.std.specs.Prelude.{◌≡◌, ℕ, is_some, map};
ghost use Rattle.mo_types.specs.Values.{by_label};
ghost use Rattle.mo_values.specs.Messages.{all_there, labels, place, types, under};

use mo_num::Bytes;
use mo_types::{Field, TypeId};
use value_arena::{ValueId, same_bytes};

/// The type under the first label that is this one.
pub(crate) fn type_under(fields: &[Field], label: &[u8]) -> Option<TypeId>
    ensures { result ≡ under label.now (labels fields.now) (types fields.now) }
{
    for field in fields {
        if same_bytes(label, field.label.as_slice()) {
            return Some(field.part);
        }
    }
    None
}

/// The value under the first label that is this one.
pub(crate) fn value_under(labels: &[Bytes], values: &[ValueId], label: &[u8]) -> Option<ValueId>
    ensures { result ≡ under label.now labels.now values.now }
{
    for (place, name) in labels.iter().enumerate() {
        if place >= values.len() {
            return None;
        }
        if same_bytes(label, name.as_slice()) {
            return Some(values[place]);
        }
    }
    None
}

/// Whether the label is one of these.
fn has_label(labels: &[Bytes], label: &[u8]) -> bool
    ensures { (first : ℕ) → result ≡ is_some (place label.now labels.now first) }
{
    for name in labels {
        if same_bytes(label, name.as_slice()) {
            return true;
        }
    }
    false
}

/// Whether the label is one of the fields.
pub(crate) fn has_field(fields: &[Field], label: &[u8]) -> bool
    ensures { result ≡ is_some (place label.now (labels (by_label fields.now)) 0) }
{
    for field in fields {
        if same_bytes(label, field.label.as_slice()) {
            return true;
        }
    }
    false
}

/// Whether each field is there among the labels, and none is mutable.
pub(crate) fn all_there(fields: &[Field], labels: &[Bytes]) -> bool
    ensures { result ≡ all_there fields.now labels.now }
{
    for field in fields {
        if field.mutable {
            return false;
        }
        if !has_label(labels, field.label.as_slice()) {
            return false;
        }
    }
    true
}

/// At which place the first field with this label stands.
pub(crate) fn place_in(order: &[&Field], label: &[u8]) -> Option<usize>
    ensures { result ≡ place label.now (labels (map (λ f. f.now) order.now)) 0 }
{
    for (place, field) in order.iter().enumerate() {
        if same_bytes(label, field.label.as_slice()) {
            return Some(place);
        }
    }
    None
}
