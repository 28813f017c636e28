//! The members of values, by the heads of their types.
ghost use Rattle.std.specs.Prelude.{◌≡◌, IfOk};
ghost use Rattle.mo_types.specs.Sub.{find};
ghost use Rattle.typing_rules.specs.Members.{member_type};
ghost use Rattle.met_types.specs.States.{IsReached, Kept};
ghost use Rattle.member_heads.specs.Members.{MembersHave};
ghost use Rattle.member_rules.specs.MemberKinds.{AreReached, FindsMember, found, meant_by, members_at, members_in};

use built_in_members::{array_member, text_member};
use member_heads::promoted;
use met_types::Types;
use mo_num::Memory;
use mo_types::{Field, Node, TypeId};
use type_terms::TermId;

/// What the head of a type says of a member of its values: the type of a field, that there are the members of arrays of such
/// elements, that there are those of texts, or that there is none.
#[derive(Clone, Copy)]
pub(crate) enum Members<T> {
    Field(T),
    Array(T),
    Text,
    Nothing,
}

/// The type of the first field of this label.
fn field_found(fields: &[Field], label: &[u8]) -> Members<TypeId>
    ensures { result ≡ found (find label.now fields.now) }
{
    for field in fields {
        if field.label.as_slice() == label {
            return Members::Field(field.part);
        }
    }
    Members::Nothing
}

fn members_at(node: &Node, label: &[u8]) -> Members<TypeId>
    ensures { result ≡ members_at label.now node.now }
{
    match node {
        Node::Object(fields) => field_found(fields.as_slice(), label),
        Node::Actor(methods) => field_found(methods.as_slice(), label),
        Node::Array(part) => Members::Array(*part),
        Node::MutArray(part) => Members::Array(*part),
        Node::Text => Members::Text,
        _ => Members::Nothing,
    }
}

/// The same with the terms of types.
fn members_in(types: &Types, members: Members<TypeId>) -> Members<TermId>
    ensures { result ≡ members_in types.now members }
{
    match members {
        Members::Field(part) => match types.term_at(part) {
            Some(id) => Members::Field(id),
            None => Members::Nothing,
        },
        Members::Array(part) => match types.term_at(part) {
            Some(id) => Members::Array(id),
            None => Members::Nothing,
        },
        Members::Text => Members::Text,
        Members::Nothing => Members::Nothing,
    }
}

fn members_of(types: &Types, id: TermId, label: &[u8]) -> Members<TermId>
    requires kept { Kept types.now }
    requires reached { IsReached types.now id }
    ensures is { MembersHave (member_type label.now) types.now id (meant_by label.now result) }
    ensures reached { AreReached types.now result }
{
    let last = promoted(types, id);
    match types.node(last) {
        Some(node) => members_in(types, members_at(node, label)),
        None => Members::Nothing,
    }
}

/// The type of a member of a value of this type, if there is such a member.
pub(crate) fn member_kind(
    types: &mut Types,
    id: TermId,
    label: &[u8],
) -> Result<Option<TermId>, Memory>
    requires kept { Kept types.old }
    requires reached { IsReached types.old id }
    ensures { IfOk result (λ found. FindsMember types.old id label.now found types.new) }
{
    match members_of(types, id, label) {
        Members::Field(part) => Ok(Some(part)),
        Members::Array(item) => array_member(types, item, label),
        Members::Text => text_member(types, label),
        Members::Nothing => Ok(None),
    }
}
