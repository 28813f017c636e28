//! The parts of the heads by which members go.
ghost use Rattle.std.specs.Prelude.{◌≡◌, IfSome, Some, option_map};
ghost use Rattle.mo_types.specs.Heads.{mut_array_of};
ghost use Rattle.mo_types.specs.Sub.{find};
ghost use Rattle.typing_rules.specs.Expressions.{element_of};
ghost use Rattle.typing_rules.specs.Members.{object_field};
ghost use Rattle.type_definitions.specs.Meanings.{term};
ghost use Rattle.met_types.specs.States.{IsReached, Kept};
ghost use Rattle.member_heads.specs.Members.{MembersHave, element_at, field_at, field_in, mutable_at, part_at, seen_field};

use crate::bounds::{part_in, promoted};
use met_types::Types;
use mo_types::{Field, Node, TypeId};
use type_terms::TermId;

fn element_at(node: &Node) -> Option<TypeId>
    ensures { result ≡ element_at node.now }
{
    match node {
        Node::Array(part) => Some(*part),
        Node::MutArray(part) => Some(*part),
        _ => None,
    }
}

fn mutable_at(node: &Node) -> Option<TypeId>
    ensures { result ≡ mutable_at node.now }
{
    match node {
        Node::MutArray(part) => Some(*part),
        _ => None,
    }
}

fn part_at(node: &Node, place: u64) -> Option<TypeId>
    ensures { result ≡ part_at place node.now }
{
    match node {
        Node::Tuple(parts) => parts.as_slice().get(place as usize).copied(),
        _ => None,
    }
}

/// The first field of this label: whether it is a `var` field, and its type.
fn found(fields: &[Field], label: &[u8]) -> Option<(bool, TypeId)>
    ensures { result ≡ option_map seen_field (find label.now fields.now) }
{
    for field in fields {
        if field.label.as_slice() == label {
            return Some((field.mutable, field.part));
        }
    }
    None
}

fn field_at(node: &Node, label: &[u8]) -> Option<(bool, TypeId)>
    ensures { result ≡ option_map seen_field (field_at label.now node.now) }
{
    match node {
        Node::Object(fields) => found(fields.as_slice(), label),
        _ => None,
    }
}

/// The same with the term of the type, where there is one.
fn field_in(types: &Types, field: Option<(bool, TypeId)>) -> Option<(bool, TermId)>
    ensures { result ≡ field_in types.now field }
{
    match field {
        Some((mutable, part)) => match types.term_at(part) {
            Some(id) => Some((mutable, id)),
            None => None,
        },
        None => None,
    }
}

/// The type of the elements of an array, which may be one of `var`: Motoko language manual, section "Array types".
pub fn element(types: &Types, id: TermId) -> Option<TermId>
    requires kept { Kept types.now }
    requires reached { IsReached types.now id }
    ensures is { MembersHave element_of types.now id (λ later. option_map (term later) result) }
    ensures reached { IfSome result (IsReached types.now) }
{
    let last = promoted(types, id);
    match types.node(last) {
        Some(node) => part_in(types, element_at(node)),
        None => None,
    }
}

/// The type of the elements of an array of `var`.
pub fn mutable_element(types: &Types, id: TermId) -> Option<TermId>
    requires kept { Kept types.now }
    requires reached { IsReached types.now id }
    ensures is { MembersHave mut_array_of types.now id (λ later. option_map (term later) result) }
    ensures reached { IfSome result (IsReached types.now) }
{
    let last = promoted(types, id);
    match types.node(last) {
        Some(node) => part_in(types, mutable_at(node)),
        None => None,
    }
}

/// The type of this part of a tuple, counted from 0: Motoko language manual, section "Tuple types".
pub fn tuple_part(types: &Types, id: TermId, place: u64) -> Option<TermId>
    requires kept { Kept types.now }
    requires reached { IsReached types.now id }
    ensures is { MembersHave (part_at place) types.now id (λ later. option_map (term later) result) }
    ensures reached { IfSome result (IsReached types.now) }
{
    let last = promoted(types, id);
    match types.node(last) {
        Some(node) => part_in(types, part_at(node, place)),
        None => None,
    }
}

/// A field of an object: whether it is a `var` field, and its type. Motoko language manual, section "Object types".
pub fn object_field(types: &Types, id: TermId, label: &[u8]) -> Option<(bool, TermId)>
    requires kept { Kept types.now }
    requires reached { IsReached types.now id }
    ensures is { MembersHave (λ y. option_map seen_field (object_field label.now y)) types.now id (λ later. option_map (λ q. (q.0, term later q.1)) result) }
    ensures reached { IfSome result (λ q. IsReached types.now q.1) }
{
    let last = promoted(types, id);
    match types.node(last) {
        Some(node) => field_in(types, field_at(node, label)),
        None => None,
    }
}
