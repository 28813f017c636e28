//! The fields of objects.
ghost use Rattle.std.specs.Prelude.{◌≡◌, IfOk};
ghost use Rattle.mo_types.specs.Sub.{find};
ghost use Rattle.kernel_types.specs.Numbers.{head_of};
ghost use Rattle.kernel_members.specs.Accesses.{IsFieldNumber, field_at, is_var, part_of};

use kernel_types::KernelTypes;
use mo_num::Memory;
use mo_types::{Field, Node, TypeId};
use type_terms::TermId;

/// Whether the field of this label is a `var` field.
pub(crate) fn is_var(fields: &[Field], label: &[u8]) -> bool
    ensures { result ≡ is_var (find label.now fields.now) }
{
    for field in fields {
        if field.label.as_slice() == label {
            return field.mutable;
        }
    }
    false
}

/// The type of the first field of this label.
fn part(fields: &[Field], label: &[u8]) -> Option<TypeId>
    ensures { result ≡ part_of (find label.now fields.now) }
{
    for field in fields {
        if field.label.as_slice() == label {
            return Some(field.part);
        }
    }
    None
}

fn field_at(head: &Node, label: &[u8]) -> Option<TypeId>
    ensures { result ≡ part_of (field_at label.now head.now) }
{
    match head {
        Node::Object(fields) => part(fields.as_slice(), label),
        _ => None,
    }
}

/// The number of the type of an object's field, where there is one.
pub fn field_number(
    types: &KernelTypes,
    kind: TermId,
    label: &[u8],
) -> Result<Option<TypeId>, Memory>
    ensures { IfOk result (IsFieldNumber types.now (head_of types.now kind) label.now) }
{
    let head = types.head(kind)?;
    Ok(field_at(head, label))
}
