//! The parts of a head, and the head with the types of a graph in their place.
ghost use Rattle.std.specs.Prelude.{◌≡◌, ◌++◌, length, map, IfOk, OnOk};
ghost use Rattle.typed_tree.specs.Instances.{types_in};
ghost use Rattle.met_types.specs.Nodes.{fields_typed, typed_node};

use mo_num::{Bytes, Memory, Sequence};
use mo_types::{Field, Node, TypeId};
use std::alloc::Global;
use type_terms::TermId;

/// Adds the parts of fields.
fn push_fields(out: &mut Vec<TermId>, fields: &[Field<TermId>]) -> Result<(), Memory>
    ensures { OnOk result (out.new.items ≡ out.old.items ++ map (λ f. f.part) fields.now) }
{
    for field in fields {
        out.push(field.part)?;
    }
    Ok(())
}

/// Adds the parts of a head, in their order.
fn push_parts(out: &mut Vec<TermId>, node: &Node<TermId>) -> Result<(), Memory>
    ensures { OnOk result (out.new.items ≡ out.old.items ++ types_in node.now) }
{
    match node {
        Node::Opt(part) | Node::Array(part) | Node::MutArray(part) | Node::Async(part) => {
            out.push(*part)?;
            Ok(())
        }
        Node::Variable(_, bound) => {
            out.push(*bound)?;
            Ok(())
        }
        Node::Tuple(parts) => {
            out.extend_from_slice(parts.as_slice())?;
            Ok(())
        }
        Node::Object(fields) | Node::Actor(fields) | Node::Variant(fields) => {
            push_fields(out, fields.as_slice())
        }
        Node::Func(_, parameters, results) => {
            out.extend_from_slice(parameters.as_slice())?;
            out.extend_from_slice(results.as_slice())?;
            Ok(())
        }
        _ => Ok(()),
    }
}

/// The parts of a head, in their order.
pub(crate) fn parts_of(alloc: Global, node: &Node<TermId>) -> Result<Vec<TermId>, Memory>
    ensures { IfOk result (λ made. made.items ≡ types_in node.now) }
{
    let mut made = Vec::new(alloc);
    push_parts(&mut made, node)?;
    Ok(made)
}

fn field_typed(alloc: Global, field: &Field<TermId>, part: TypeId) -> Result<Field, Memory>
    ensures { IfOk result (λ made. made ≡ record { label = field.now.label; mutable = field.now.mutable; part = part }) }
{
    Ok(Field {
        label: Bytes::from_slice(alloc, field.label.as_slice())?,
        mutable: field.mutable,
        part,
    })
}

fn fields_typed(
    alloc: Global,
    fields: &[Field<TermId>],
    ids: &[TypeId],
) -> Result<Sequence<Field>, Memory>
    requires { length ids.now ≡ length fields.now }
    ensures { IfOk result (λ made. made ≡ fields_typed fields.now ids.now) }
{
    let mut made = Vec::with_capacity(alloc, fields.len())?;
    for i in 0..fields.len() {
        made.push(field_typed(alloc, &fields[i], ids[i])?)?;
    }
    Ok(Sequence::from_vec(made))
}

fn types_copied(alloc: Global, ids: &[TypeId]) -> Result<Sequence<TypeId>, Memory>
    ensures { IfOk result (λ made. made ≡ ids.now) }
{
    Ok(Sequence::from_vec(Vec::from_slice(alloc, ids)?))
}

/// The head with as many types of a graph in the place of its parts.
pub(crate) fn typed_node(alloc: Global, node: &Node<TermId>, ids: &[TypeId]) -> Result<Node, Memory>
    requires { length ids.now ≡ length (types_in node.now) }
    ensures { IfOk result (λ made. made ≡ typed_node node.now ids.now) }
{
    Ok(match node {
        Node::Number(kind) => Node::Number(*kind),
        Node::Bool => Node::Bool,
        Node::Char => Node::Char,
        Node::Text => Node::Text,
        Node::Blob => Node::Blob,
        Node::Principal => Node::Principal,
        Node::Error => Node::Error,
        Node::Null => Node::Null,
        Node::Any => Node::Any,
        Node::Bottom => Node::Bottom,
        Node::Opt(_) => Node::Opt(ids[0]),
        Node::Array(_) => Node::Array(ids[0]),
        Node::MutArray(_) => Node::MutArray(ids[0]),
        Node::Tuple(_) => Node::Tuple(types_copied(alloc, ids)?),
        Node::Object(fields) => Node::Object(fields_typed(alloc, fields.as_slice(), ids)?),
        Node::Actor(methods) => Node::Actor(fields_typed(alloc, methods.as_slice(), ids)?),
        Node::Variant(tags) => Node::Variant(fields_typed(alloc, tags.as_slice(), ids)?),
        Node::Func(sort, parameters, _) => {
            let n = parameters.len();
            Node::Func(
                *sort,
                types_copied(alloc, &ids[..n])?,
                types_copied(alloc, &ids[n..])?,
            )
        }
        Node::Async(_) => Node::Async(ids[0]),
        Node::Variable(number, _) => Node::Variable(*number, ids[0]),
    })
}
