//! Fields in the order of a message.
ghost use Rattle.std.specs.Prelude.{◌≡◌, map, reverse, IfOk};
ghost use Rattle.mo_types.specs.Values.{by_label, types_of};

use mo_num::Memory;
use mo_types::{Field, TypeId, label_id};
use std::alloc::Global;

fn reversed<T>(items: Vec<T>) -> Vec<T>
    ensures { result.items ≡ reverse items.items }
{
    let mut items = items;
    items.as_mut_slice().reverse();
    items
}

fn sorted<'a>(unsorted: Vec<&'a Field>) -> Result<Vec<&'a Field>, Memory>
    ensures { IfOk result (λ order. map (λ f. f.now) order.items ≡ by_label (map (λ f. f.now) unsorted.entry.items)) }
{
    let mut order = reversed(unsorted);
    order.sort_by_key(|field| label_id(field.label.as_slice()))?;
    Ok(order)
}

/// The fields in the rising order of the numbers of their labels. Of equal ones the last comes first.
pub fn in_order<'a>(alloc: Global, fields: &'a [Field]) -> Result<Vec<&'a Field>, Memory>
    ensures { IfOk result (λ order. map (λ f. f.now) order.items ≡ by_label fields.now) }
{
    let mut order = Vec::with_capacity(alloc, fields.len())?;
    for field in fields {
        order.push(field)?;
    }
    sorted(order)
}

/// The types of fields.
pub(crate) fn field_types(alloc: Global, order: &[&Field]) -> Result<Vec<TypeId>, Memory>
    ensures { IfOk result (λ ts. ts.items ≡ types_of (map (λ f. f.now) order.now)) }
{
    let mut found = Vec::new(alloc);
    for field in order {
        found.push(field.part)?;
    }
    Ok(found)
}
