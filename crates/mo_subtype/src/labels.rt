//! Looking up fields by their labels.
ghost use Rattle.std.specs.Prelude.{◌≡◌, List, ℕ, Some, OnOk, IfOk, IfSome, IsSome, ◌<◌, length, cond};
ghost use Rattle.std.specs.Option.{option_copied};
ghost use Rattle.std.specs.Str.{bytes_eq};
ghost use Rattle.mo_types.specs.Sub.{find};
ghost use Rattle.mo_subtype.specs.Labels.{Indexes, field_at};

use indexmap::IndexMap;
use mo_num::Memory;
use mo_types::Field;
use std::alloc::Global;

/// Up to so many fields, or look-ups, each look-up is a scan.
const FEW: usize = 16;

/// Fields by their labels.
pub(crate) type Index<'a> = IndexMap<&'a [u8], &'a Field>;

/// The first field of the label.
fn scan<'a>(fields: &'a [Field], label: &[u8]) -> Option<&'a Field>
    ensures { option_copied result ≡ find label.now fields.now }
{
    for field in fields {
        if field.label.as_slice() == label {
            return Some(field);
        }
    }
    None
}

/// The field that is kept for the label.
fn get<'a>(index: &Index<'a>, label: &[u8]) -> Option<&'a Field>
    ensures { option_copied result ≡ field_at index.now label.now }
{
    match index.get(label) {
        Some(field) => Some(*field),
        None => None,
    }
}

/// Keeps the field for its label, in place of one that was kept.
fn keep<'a>(index: &mut Index<'a>, field: &'a Field) -> Result<(), Memory>
    ensures { OnOk result ((x : List ℕ) → field_at index.new x ≡ cond (bytes_eq field.now.label x) (Some field.now) (field_at index.old x)) }
{
    index.insert(field.label.as_slice(), field)?;
    Ok(())
}

/// Of each label the first field: they are kept from behind.
fn index_of<'a>(alloc: Global, fields: &'a [Field]) -> Result<Index<'a>, Memory>
    ensures { IfOk result (λ index. Indexes index fields.now) }
{
    let mut index = IndexMap::new(alloc);
    let mut left = fields.len();
    while left > 0 {
        left -= 1;
        keep(&mut index, &fields[left])?;
    }
    Ok(index)
}

/// An index of the fields, if it is to be made for so many look-ups.
pub(crate) fn index_for<'a>(
    alloc: Global,
    fields: &'a [Field],
    lookups: usize,
) -> Result<Option<Index<'a>>, Memory>
    ensures indexes { IfOk result (λ index. IfSome index (λ i. Indexes i fields.now)) }
    ensures made { 16 < length fields.now → 16 < lookups → IfOk result (λ index. IsSome index) }
{
    if fields.len() <= FEW || lookups <= FEW {
        return Ok(None);
    }
    Ok(Some(index_of(alloc, fields)?))
}

/// The first field of the label, by the index of these fields if there is one.
pub(crate) fn find<'a>(
    fields: &'a [Field],
    index: &Option<Index<'a>>,
    label: &[u8],
) -> Option<&'a Field>
    requires { IfSome index.now (λ i. Indexes i fields.now) }
    ensures { option_copied result ≡ find label.now fields.now }
{
    match index {
        Some(index) => get(index, label),
        None => scan(fields, label),
    }
}
