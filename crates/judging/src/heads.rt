//! What the head of a type is.
ghost use Rattle.std.specs.Prelude.{◌≡◌, ◌<◌, length, cond, IfOk, IfSome, None, Some, map, option_map};
ghost use Rattle.mo_types.specs.Heads as node_heads;
ghost use Rattle.mo_types.specs.Sub.{Each};
ghost use Rattle.typing_rules.specs.Literals.{blob_of};
ghost use Rattle.type_definitions.specs.Meanings.{term};
ghost use Rattle.met_types.specs.States.{IsReached, Kept};
ghost use Rattle.judging.specs.Heads.{HeadHas, PartsFound, blob_at, part_in};

use met_types::Types;
use mo_num::{Kind, Memory};
use mo_types::{Node, TypeId};
use type_terms::TermId;

/// The kind of numbers that a head is.
fn number_at(node: &Node) -> Option<Kind>
    ensures { result ≡ node_heads.number_of node.now }
{
    match node {
        Node::Number(kind) => Some(*kind),
        _ => None,
    }
}

fn is_blob_at(node: &Node) -> bool
    ensures { blob_at node.now ≡ cond result (Some tt) None }
{
    match node {
        Node::Blob => true,
        _ => false,
    }
}

fn option_at(node: &Node) -> Option<TypeId>
    ensures { result ≡ node_heads.opt_of node.now }
{
    match node {
        Node::Opt(part) => Some(*part),
        _ => None,
    }
}

fn tuple_at(node: &Node) -> Option<&[TypeId]>
    ensures { option_map (λ parts. parts.now) result ≡ node_heads.tuple_of node.now }
{
    match node {
        Node::Tuple(parts) => Some(parts.as_slice()),
        _ => None,
    }
}

/// The kind of numbers that a type is.
pub fn number_of(types: &Types, id: TermId) -> Option<Kind>
    requires kept { Kept types.now }
    requires reached { IsReached types.now id }
    ensures { HeadHas node_heads.number_of types.now id (λ later. result) }
{
    match types.node(id) {
        Some(node) => number_at(node),
        None => None,
    }
}

/// Whether a type is that of blobs.
pub fn is_blob(types: &Types, id: TermId) -> bool
    requires kept { Kept types.now }
    requires reached { IsReached types.now id }
    ensures { HeadHas blob_of types.now id (λ later. cond result (Some tt) None) }
{
    match types.node(id) {
        Some(node) => is_blob_at(node),
        None => false,
    }
}

/// The term of a type of the graph.
fn part_in(types: &Types, part: Option<TypeId>) -> Option<TermId>
    ensures { result ≡ part_in types.now part }
{
    match part {
        Some(part) => types.term_at(part),
        None => None,
    }
}

/// The type A of `?A`.
pub fn option_part(types: &Types, id: TermId) -> Option<TermId>
    requires kept { Kept types.now }
    requires reached { IsReached types.now id }
    ensures is { HeadHas node_heads.opt_of types.now id (λ later. option_map (term later) result) }
    ensures reached { IfSome result (IsReached types.now) }
{
    match types.node(id) {
        Some(node) => part_in(types, option_at(node)),
        None => None,
    }
}

/// The types of the graph, as terms.
fn terms_at(types: &Types, parts: &[TypeId]) -> Result<Vec<TermId>, Memory>
    requires { Each (λ p. p.index < length types.now.reached) parts.now }
    ensures { IfOk result (λ made. PartsFound types.now parts.now made.items) }
{
    let mut made = Vec::with_capacity(types.terms().allocator(), parts.len())?;
    for part in parts {
        match types.term_at(*part) {
            Some(id) => made.push(id)?,
            None => return Err(Memory),
        }
    }
    Ok(made)
}

/// The types of the parts of a tuple type.
pub fn tuple_parts(types: &Types, id: TermId) -> Result<Option<Vec<TermId>>, Memory>
    requires kept { Kept types.now }
    requires reached { IsReached types.now id }
    ensures is { IfOk result (λ found. HeadHas node_heads.tuple_of types.now id (λ later. option_map (λ made. map (term later) made.items) found)) }
    ensures reached { IfOk result (λ found. IfSome found (λ made. Each (IsReached types.now) made.items)) }
{
    match types.node(id) {
        Some(node) => match tuple_at(node) {
            Some(parts) => Ok(Some(terms_at(types, parts)?)),
            None => Ok(None),
        },
        None => Ok(None),
    }
}
