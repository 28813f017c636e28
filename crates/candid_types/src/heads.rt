//! The head of the Candid type of a node.
ghost use Rattle.std.specs.Prelude.{◌≡◌, IfOk, map};
ghost use Rattle.mo_types.specs.Graph.{head_at};
ghost use Rattle.mo_types.specs.Wire.{function, map_wire, refs, wire_of_node};
ghost use Rattle.mo_types.specs.Wire.{plain_number as plain_of_kind};
ghost use Rattle.candid_types.specs.Shapes.{ref_of};

use crate::entries::{object_entries, service_methods, tuple_entries, variant_entries};
use crate::numbering::{number, numbers, plain};
use mo_num::{Bytes, Kind, Memory, Sequence};
use mo_types::{Node, Plain, Sort, TypeGraph, TypeId, Wire};
use std::alloc::Global;

fn plain_of_kind(kind: Kind) -> Plain
    ensures { result ≡ plain_of_kind kind }
{
    match kind {
        Kind::Nat => Plain::Nat,
        Kind::Int => Plain::Int,
        Kind::Nat8 => Plain::Nat8,
        Kind::Nat16 => Plain::Nat16,
        Kind::Nat32 => Plain::Nat32,
        Kind::Nat64 => Plain::Nat64,
        Kind::Int8 => Plain::Int8,
        Kind::Int16 => Plain::Int16,
        Kind::Int32 => Plain::Int32,
        Kind::Int64 => Plain::Int64,
    }
}

/// A function type. Local ones are not shareable.
fn function(
    alloc: Global,
    sort: Sort,
    parameters: &[TypeId],
    results: &[TypeId],
) -> Result<Wire<usize>, Memory>
    ensures { IfOk result (λ made. map_wire ref_of made ≡ function sort (refs parameters.now) (refs results.now)) }
{
    let annotations = match sort {
        Sort::Local => return Ok(Wire::Simple(Plain::Empty)),
        Sort::Shared => Bytes::new(alloc),
        Sort::Query => Bytes::from_slice(alloc, &[1])?,
    };
    let parameters = Sequence::from_vec(numbers(alloc, parameters)?);
    let results = Sequence::from_vec(numbers(alloc, results)?);
    Ok(Wire::Func(parameters, results, annotations))
}

/// The head of the Candid type of a node. What is not shareable is empty.
pub(crate) fn head_of(alloc: Global, types: &TypeGraph, node: &Node) -> Result<Wire<usize>, Memory>
    ensures { IfOk result (λ made. map_wire ref_of made ≡ wire_of_node (head_at types.now) node.now) }
{
    Ok(match node {
        Node::Number(kind) => Wire::Simple(plain_of_kind(*kind)),
        Node::Bool => Wire::Simple(Plain::Bool),
        Node::Char => Wire::Simple(Plain::Nat32),
        Node::Text => Wire::Simple(Plain::Text),
        Node::Blob => Wire::Vec(plain(Plain::Nat8)),
        Node::Principal => Wire::Simple(Plain::Principal),
        Node::Null => Wire::Simple(Plain::Null),
        Node::Any => Wire::Simple(Plain::Reserved),
        Node::Bottom => Wire::Simple(Plain::Empty),
        Node::Opt(part) => Wire::Opt(number(*part)),
        Node::Array(part) => Wire::Vec(number(*part)),
        Node::Tuple(parts) => Wire::Record(tuple_entries(alloc, parts.as_slice())?),
        Node::Object(fields) => Wire::Record(object_entries(alloc, fields.as_slice())?),
        Node::Actor(methods) => Wire::Service(service_methods(alloc, methods.as_slice())?),
        Node::Variant(tags) => Wire::Variant(variant_entries(alloc, types, tags.as_slice())?),
        Node::Func(sort, parameters, results) => {
            return function(alloc, *sort, parameters.as_slice(), results.as_slice());
        }
        Node::Error | Node::MutArray(_) | Node::Async(_) | Node::Variable(_, _) => {
            Wire::Simple(Plain::Empty)
        }
    })
}
