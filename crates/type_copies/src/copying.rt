//! Copies of written types.
ghost use Rattle.std.specs.Prelude.{◌≡◌, IfOk, map};
ghost use Rattle.abstract_types.specs.TypeView.{type_field, type_form, type_node};

use abstract_types::{Boxed, PlacedName, TypeField, TypeForm, TypeNode};
use mo_num::{Bytes, Memory};
use mo_syntax::Items;
use std::alloc::Global;

/// The name once more.
pub fn copied_name(alloc: Global, name: &PlacedName) -> Result<PlacedName, Memory>
    ensures { IfOk result (λ made. made ≡ name.now) }
{
    Ok(PlacedName {
        at: name.at,
        bytes: Bytes::from_slice(alloc, name.bytes.as_slice())?,
    })
}

/// The type of this form, at the token of this number.
fn made(alloc: Global, at: u32, form: TypeForm) -> Result<TypeNode, Memory>
    ensures { IfOk result (λ made. (made.at ≡ at) × (made.form ≡ form)) }
{
    Ok(TypeNode {
        at,
        form: Boxed::new(alloc, form)?,
    })
}

// A type of at most so many levels. One of more levels than there are addresses is none that memory holds.
#[cycle(within)]
fn type_within(alloc: Global, depth: usize, node: &TypeNode) -> Result<TypeNode, Memory>
    ensures { IfOk result (λ made. type_node made ≡ type_node node.now) }
{
    if depth == 0 {
        return Err(Memory);
    }
    let form = form_within(alloc, depth - 1, node.form.get())?;
    made(alloc, node.at, form)
}

#[cycle(within)]
fn form_within(alloc: Global, depth: usize, form: &TypeForm) -> Result<TypeForm, Memory>
    ensures { IfOk result (λ made. type_form made ≡ type_form form.now) }
{
    match form {
        TypeForm::Function(sharing, parameters, of) => {
            let parameters = types_within(alloc, depth, parameters.as_slice())?;
            let of = type_within(alloc, depth, of)?;
            Ok(TypeForm::Function(*sharing, parameters, of))
        }
        TypeForm::Optional(of) => Ok(TypeForm::Optional(type_within(alloc, depth, of)?)),
        TypeForm::Async(of) => Ok(TypeForm::Async(type_within(alloc, depth, of)?)),
        TypeForm::Use(name, arguments) => {
            let name = Bytes::from_slice(alloc, name.as_slice())?;
            let arguments = types_within(alloc, depth, arguments.as_slice())?;
            Ok(TypeForm::Use(name, arguments))
        }
        TypeForm::Tuple(items) => {
            let items = types_within(alloc, depth, items.as_slice())?;
            Ok(TypeForm::Tuple(items))
        }
        TypeForm::Array(mutable, of) => {
            let of = type_within(alloc, depth, of)?;
            Ok(TypeForm::Array(*mutable, of))
        }
        TypeForm::Object(fields) => {
            let fields = fields_within(alloc, depth, fields.as_slice())?;
            Ok(TypeForm::Object(fields))
        }
        TypeForm::Variant(tags) => {
            let tags = fields_within(alloc, depth, tags.as_slice())?;
            Ok(TypeForm::Variant(tags))
        }
        TypeForm::Actor(methods) => {
            let methods = fields_within(alloc, depth, methods.as_slice())?;
            Ok(TypeForm::Actor(methods))
        }
    }
}

#[cycle(within)]
fn types_within(alloc: Global, depth: usize, nodes: &[TypeNode]) -> Result<Items<TypeNode>, Memory>
    ensures { IfOk result (λ made. map type_node made ≡ map type_node nodes.now) }
{
    let mut made = Items::new(alloc);
    for node in nodes {
        made.push(type_within(alloc, depth, node)?)?;
    }
    Ok(made)
}

#[cycle(within)]
fn field_within(alloc: Global, depth: usize, field: &TypeField) -> Result<TypeField, Memory>
    ensures { IfOk result (λ made. type_field made ≡ type_field field.now) }
{
    match field {
        TypeField::Field(mutable, name, of) => {
            let name = copied_name(alloc, name)?;
            let of = type_within(alloc, depth, of)?;
            Ok(TypeField::Field(*mutable, name, of))
        }
        TypeField::EmptyTag(name) => Ok(TypeField::EmptyTag(copied_name(alloc, name)?)),
    }
}

#[cycle(within)]
fn fields_within(
    alloc: Global,
    depth: usize,
    fields: &[TypeField],
) -> Result<Items<TypeField>, Memory>
    ensures { IfOk result (λ made. map type_field made ≡ map type_field fields.now) }
{
    let mut made = Items::new(alloc);
    for field in fields {
        made.push(field_within(alloc, depth, field)?)?;
    }
    Ok(made)
}

/// The written type once more. It recurses as deep as the type is written, and types have no more levels than the parser lets pass.
pub fn copied_type(alloc: Global, node: &TypeNode) -> Result<TypeNode, Memory>
    ensures { IfOk result (λ made. type_node made ≡ type_node node.now) }
{
    type_within(alloc, usize::MAX, node)
}
