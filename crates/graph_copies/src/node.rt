//! Forms of types.
ghost use Rattle.std.specs.Prelude.{◌≡◌, IfOk};

use mo_num::{Bytes, Memory, Sequence};
use mo_types::{Field, Node, TypeId};
use std::alloc::Global;

// The types again.
fn types_again(alloc: Global, types: &Sequence<TypeId>) -> Result<Sequence<TypeId>, Memory>
    ensures { IfOk result (λ made. made ≡ types.now) }
{
    Ok(Sequence::from_vec(Vec::from_slice(alloc, types.as_slice())?))
}

// The field again.
fn field_again(alloc: Global, field: &Field) -> Result<Field, Memory>
    ensures { IfOk result (λ made. made ≡ field.now) }
{
    Ok(Field {
        label: Bytes::from_slice(alloc, field.label.as_slice())?,
        mutable: field.mutable,
        part: field.part,
    })
}

// The fields again.
fn fields_again(alloc: Global, fields: &Sequence<Field>) -> Result<Sequence<Field>, Memory>
    ensures { IfOk result (λ made. made ≡ fields.now) }
{
    let mut made = Vec::with_capacity(alloc, fields.len())?;
    for field in fields.as_slice() {
        made.push(field_again(alloc, field)?)?;
    }
    Ok(Sequence::from_vec(made))
}

/// The form again.
pub fn node_again(alloc: Global, node: &Node) -> Result<Node, Memory>
    ensures { IfOk result (λ made. made ≡ node.now) }
{
    Ok(match node {
        Node::Number(kind) => Node::Number(*kind),
        Node::Bool => Node::Bool,
        Node::Char => Node::Char,
        Node::Text => Node::Text,
        Node::Blob => Node::Blob,
        Node::Principal => Node::Principal,
        Node::Error => Node::Error,
        Node::Null => Node::Null,
        Node::Any => Node::Any,
        Node::Bottom => Node::Bottom,
        Node::Opt(inside) => Node::Opt(*inside),
        Node::Array(element) => Node::Array(*element),
        Node::MutArray(element) => Node::MutArray(*element),
        Node::Tuple(parts) => Node::Tuple(types_again(alloc, parts)?),
        Node::Object(fields) => Node::Object(fields_again(alloc, fields)?),
        Node::Actor(methods) => Node::Actor(fields_again(alloc, methods)?),
        Node::Variant(tags) => Node::Variant(fields_again(alloc, tags)?),
        Node::Func(sort, parameters, results) => {
            Node::Func(
                *sort,
                types_again(alloc, parameters)?,
                types_again(alloc, results)?,
            )
        }
        Node::Async(of) => Node::Async(*of),
        Node::Variable(number, bound) => Node::Variable(*number, *bound),
    })
}
