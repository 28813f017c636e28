//! Labels of fields.
ghost use Rattle.std.specs.Prelude.{◌≡◌, map, IfOk};
ghost use Rattle.mo_values.specs.Messages.{label_at, labels};

use mo_num::{Bytes, Memory, Sequence};
use mo_types::Field;
use std::alloc::Global;

/// The labels of fields.
pub(crate) fn labels_of(alloc: Global, order: &[&Field]) -> Result<Sequence<Bytes>, Memory>
    ensures { IfOk result (λ ls. ls ≡ labels (map (λ f. f.now) order.now)) }
{
    let mut names = Sequence::new(alloc);
    for field in order {
        names.push(Bytes::from_slice(alloc, field.label.as_slice())?)?;
    }
    Ok(names)
}

/// The label of the field at a place, or no bytes.
pub(crate) fn label_of(alloc: Global, order: &[&Field], place: u32) -> Result<Bytes, Memory>
    ensures { IfOk result (λ l. l ≡ label_at (labels (map (λ f. f.now) order.now)) place) }
{
    let place = place as usize;
    if place < order.len() {
        Bytes::from_slice(alloc, order[place].label.as_slice())
    } else {
        Ok(Bytes::new(alloc))
    }
}
