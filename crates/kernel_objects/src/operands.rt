//! The values of the fields of an object of declarations.
ghost use Rattle.std.specs.Prelude.{◌≡◌, IfOk, map};
ghost use Rattle.typed_tree.specs.declared.expression.Form.TheOpen as form;
ghost use Rattle.desugaring.specs.Nodes as nodes;
ghost use Rattle.kernel_objects.specs.Objects.{name_number_of, operand_in};

use kernel_frames::Frames;
use kernel_members::field_number;
use kernel_types::KernelTypes;
use mo_num::{Bytes, Memory};
use mo_syntax::{Items, Node, Place};
use mo_types::TypeId;
use std::alloc::Global;
use type_terms::TermId;
use typed_tree::{Form, TypedExpression};

/// The number of the type of a field of an object, which is that of `()` where the object has no such field.
fn name_number(
    alloc: Global,
    types: &KernelTypes,
    kind: TermId,
    name: &[u8],
) -> Result<TypeId, Memory>
    ensures { IfOk result (λ id. id ≡ name_number_of types.now kind name.now) }
{
    let found = field_number(types, kind, name)?;
    match found {
        Some(of_type) => Ok(of_type),
        None => types.unit(alloc),
    }
}

/// The name before which so many stand, at the type of this number.
fn name_at(alloc: Global, of_type: TypeId, index: u32) -> Result<TypedExpression, Memory>
    ensures { IfOk result (λ made. made ≡ nodes.node_of of_type (form.Name index)) }
{
    let place = Place { start: 0, end: 0 };
    let form = Node::new(alloc, place, Form::Name(index))?;
    Ok(TypedExpression { of_type, form })
}

/// The value of a field, which is the cell of a `var`.
fn operand(
    alloc: Global,
    types: &KernelTypes,
    frames: &Frames,
    kind: TermId,
    name: &[u8],
) -> Result<TypedExpression, Memory>
    ensures { IfOk result (λ made. made ≡ operand_in types.now frames.now kind name.now) }
{
    let of_type = name_number(alloc, types, kind, name)?;
    let found = frames.find(name);
    name_at(alloc, of_type, found.index)
}

/// The values of the fields.
pub(crate) fn operands(
    alloc: Global,
    types: &KernelTypes,
    frames: &Frames,
    kind: TermId,
    names: &[Bytes],
) -> Result<Items<TypedExpression>, Memory>
    ensures { IfOk result (λ made. made ≡ map (operand_in types.now frames.now kind) names.now) }
{
    let mut made = Items::new(alloc);
    for name in names {
        let value = operand(alloc, types, frames, kind, name.as_slice())?;
        made.push(value)?;
    }
    Ok(made)
}
