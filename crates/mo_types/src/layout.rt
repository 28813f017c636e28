//! A node as a form, a detail and its parts, by which nodes are compared, hashed and counted.
ghost use Rattle.std.specs.Prelude.{◌≡◌, [], ◌<◌, fold};
ghost use Rattle.std.specs.Hash as fed;
ghost use Rattle.std.proofs.Common.{ap};
ghost use Rattle.mo_types.specs.Laid.{seen};
ghost use Rattle.mo_types.specs.Layout.{digest, entries, kind_number, layout, mix, mix_field, mix_id, same_field, same_layout, same_node, sort_number};
ghost use Rattle.mo_types.specs.Same.{decided_equivalence, decided_partial, field_decides, node_decides};

use crate::{Field, Node, Sort, TypeId, label_id};
use mo_num::Kind;
use std::hash::{Hash, Hasher};
use std::slice;

/// What a node consists of.
#[derive(Drop)]
pub(crate) struct Laid<'a> {
    form: u8,
    detail: u32,
    first: &'a [TypeId],
    second: &'a [TypeId],
    fields: &'a [Field],
}

/// A number for each kind, by which kinds are compared.
pub fn kind_number(kind: Kind) -> u32
    ensures { result ≡ kind_number kind }
{
    match kind {
        Kind::Nat => 0,
        Kind::Int => 1,
        Kind::Nat8 => 2,
        Kind::Nat16 => 3,
        Kind::Nat32 => 4,
        Kind::Nat64 => 5,
        Kind::Int8 => 6,
        Kind::Int16 => 7,
        Kind::Int32 => 8,
        Kind::Int64 => 9,
    }
}

/// A number for each sort, by which sorts are compared.
pub fn sort_number(sort: Sort) -> u32
    ensures { result ≡ sort_number sort }
{
    match sort {
        Sort::Local => 0,
        Sort::Shared => 1,
        Sort::Query => 2,
    }
}

fn simple<'a>(form: u8, detail: u32, first: &'a [TypeId], fields: &'a [Field]) -> Laid<'a>
    ensures { seen result ≡ record { form = form; detail = detail; first = first.now; second = []; fields = fields.now } }
{
    Laid {
        form,
        detail,
        first,
        second: &[],
        fields,
    }
}

impl Node {
    #[tactic(auto, unfolding(crate::specs::Layout::layout))]
    pub(crate) fn laid(&self) -> Laid<'_>
        ensures { seen result ≡ layout self.now }
    {
        match self {
            Node::Number(kind) => simple(0, kind_number(*kind), &[], &[]),
            Node::Bool => simple(1, 0, &[], &[]),
            Node::Char => simple(2, 0, &[], &[]),
            Node::Text => simple(3, 0, &[], &[]),
            Node::Blob => simple(4, 0, &[], &[]),
            Node::Principal => simple(5, 0, &[], &[]),
            Node::Error => simple(6, 0, &[], &[]),
            Node::Null => simple(7, 0, &[], &[]),
            Node::Any => simple(8, 0, &[], &[]),
            Node::Bottom => simple(9, 0, &[], &[]),
            Node::Opt(part) => simple(10, 0, slice::from_ref(part), &[]),
            Node::Array(part) => simple(11, 0, slice::from_ref(part), &[]),
            Node::MutArray(part) => simple(12, 0, slice::from_ref(part), &[]),
            Node::Tuple(parts) => simple(13, 0, parts.as_slice(), &[]),
            Node::Object(fields) => simple(14, 0, &[], fields.as_slice()),
            Node::Actor(fields) => simple(15, 0, &[], fields.as_slice()),
            Node::Variant(fields) => simple(16, 0, &[], fields.as_slice()),
            Node::Func(sort, parameters, results) => Laid {
                form: 17,
                detail: sort_number(*sort),
                first: parameters.as_slice(),
                second: results.as_slice(),
                fields: &[],
            },
            Node::Async(part) => simple(18, 0, slice::from_ref(part), &[]),
            Node::Variable(number, bound) => simple(19, *number, slice::from_ref(bound), &[]),
        }
    }

    /// How many fields and parts the node has.
    pub fn entries(&self) -> usize
        ensures { result ≡ entries self.now }
    {
        let laid = self.laid();
        laid.first.len() + laid.second.len() + laid.fields.len()
    }
}

impl PartialEq for Field<TypeId> {
    ghost eq = { same_field };

    ghost laws = { decided_partial field_decides };

    fn eq(&self, other: &Field<TypeId>) -> bool {
        self.label.as_slice() == other.label.as_slice()
            && self.mutable == other.mutable
            && self.part == other.part
    }
}

impl PartialEq for Node<TypeId> {
    ghost eq = { same_node };

    ghost laws = { decided_partial node_decides };

    fn eq(&self, other: &Node<TypeId>) -> bool {
        let a = self.laid();
        let b = other.laid();
        a.form == b.form
            && a.detail == b.detail
            && a.first == b.first
            && a.second == b.second
            && a.fields == b.fields
    }
}

impl Eq for Node<TypeId> {
    ghost laws = { decided_equivalence node_decides };
}

fn mix(digest: u32, x: u32) -> u32
    ensures { result ≡ mix digest x }
{
    ((digest as u64 * 31 + x as u64) % 0x1_0000_0000) as u32
}

fn mix_ids(digest: u32, ids: &[TypeId]) -> u32
    ensures { result ≡ fold mix_id digest ids.now }
{
    let mut mixed = digest;
    for id in ids {
        mixed = mix(mixed, id.index);
    }
    mixed
}

fn mix_fields(digest: u32, fields: &[Field]) -> u32
    ensures { result ≡ fold mix_field digest fields.now }
{
    let mut mixed = digest;
    for field in fields {
        mixed = mix(
            mix(mixed, label_id(field.label.as_slice())),
            field.part.index,
        );
    }
    mixed
}

impl Node {
    #[tactic(auto, unfolding(crate::specs::Layout::digest))]
    fn digest(&self) -> u32
        ensures { result ≡ digest self.now }
    {
        let laid = self.laid();
        let head = mix(laid.form as u32, laid.detail);
        let ids = mix_ids(mix_ids(head, laid.first), laid.second);
        mix_fields(ids, laid.fields)
    }
}

impl Hash for Node<TypeId> {
    ghost hash_input = { λ n. fed.u32 (digest n) };

    ghost respects_eq = { λ a b h. ap (λ n. fed.u32 (digest n)) ((node_decides a b).0 h) };

    fn hash<H: Hasher>(&self, state: &mut H) {
        state.write_u32(self.digest());
    }
}
