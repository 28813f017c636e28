//! Which values may be of a type, by what is outermost in them.
ghost use Rattle.std.specs.Prelude.{◌≡◌, ◌&&◌, is_some, nat_lt};
ghost use Rattle.std.specs.List.{list_all};
ghost use Rattle.mo_types.specs.Values.{is_method_name};
ghost use Rattle.mo_values.specs.Messages.{part_at};
ghost use Rattle.mo_values.specs.Parts.{is_leaf_of, is_principal, is_shared};
ghost use Rattle.value_arena.specs.Heads.{head_of};

use crate::fields::{all_there, has_field};
use mo_num::Principal;
use mo_types::{Datum, Node, Sort};
use value_arena::{ValueHead, in_range, is_character, is_text};

/// Whether the function is one that goes into messages.
fn is_shared(sort: Sort) -> bool
    ensures { result ≡ is_shared sort }
{
    match sort {
        Sort::Local => false,
        Sort::Shared => true,
        Sort::Query => true,
    }
}

/// Whether the bytes are few enough.
fn is_principal(principal: &Principal) -> bool
    ensures { result ≡ is_principal principal.now }
{
    principal.bytes().len() <= 29
}

fn are_printable(bytes: &[u8]) -> bool
    ensures { result ≡ list_all (λ c. nat_lt 32 c && nat_lt c 127) bytes.now }
{
    bytes.iter().all(|byte| 32 < *byte && *byte < 127)
}

/// Whether the bytes are the name of a method.
fn is_name(bytes: &[u8]) -> bool
    ensures { result ≡ is_method_name bytes.now }
{
    !bytes.is_empty() && are_printable(bytes)
}

/// Whether a part without parts inside is a value of a type with this head.
fn is_leaf_of(node: &Node, part: &Datum) -> bool
    ensures { result ≡ is_leaf_of node.now part.now }
{
    match (node, part) {
        (Node::Number(kind), Datum::Number(number)) => in_range(*kind, *number),
        (Node::Bool, Datum::Flag(_)) => true,
        (Node::Char, Datum::Char(code)) => is_character(*code),
        (Node::Text, Datum::Text(text)) => is_text(text.as_slice()),
        (Node::Blob, Datum::Blob(_)) => true,
        (Node::Principal, Datum::Principal(principal)) => is_principal(principal),
        (Node::Null, Datum::Null) => true,
        (Node::Opt(_), Datum::Null) => true,
        (Node::Actor(_), Datum::Actor(principal)) => is_principal(principal),
        (Node::Func(sort, _, _), Datum::Method(principal, name)) => {
            is_shared(*sort) && is_principal(principal) && is_name(name.as_slice())
        }
        _ => false,
    }
}

/// Whether a value with this head and so many values inside may be of a type with this head.
pub(crate) fn fits(node: &Node, head: &ValueHead, count: usize) -> bool
    ensures { result ≡ is_some (part_at node.now (head_of head.now) count) }
{
    if node.is_any() {
        return true;
    }
    match head {
        ValueHead::Leaf(part) => count == 0 && is_leaf_of(node, part),
        ValueHead::Present => match node {
            Node::Opt(_) => count == 1,
            _ => false,
        },
        ValueHead::Tuple => match node {
            Node::Tuple(parts) => count == parts.len(),
            _ => false,
        },
        ValueHead::Array => match node {
            Node::Array(_) => true,
            _ => false,
        },
        ValueHead::Object(labels) => match node {
            Node::Object(fields) => {
                count == labels.len() && all_there(fields.as_slice(), labels.as_slice())
            }
            _ => false,
        },
        ValueHead::Tag(label) => match node {
            Node::Variant(tags) => count == 1 && has_field(tags.as_slice(), label.as_slice()),
            _ => false,
        },
        ValueHead::Error(_, _) => false,
        ValueHead::Cell(_) => false,
        ValueHead::Future(_) => false,
    }
}
