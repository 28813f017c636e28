//! Recursive types that are written out many times, and objects of many fields.
use mo_num::{Bytes, Kind, Sequence};
use mo_types::{Field, Node, TypeGraph, TypeId, TypesFault};
use std::alloc::Global;

/// A question of subtyping.
#[derive(Drop)]
pub struct Question {
    pub types: TypeGraph,
    pub low: TypeId,
    pub high: TypeId,
}

/// Whether one list of numbers is below another, both written out so many times. Each time is two types.
pub fn lists(alloc: Global, low: u32, high: u32) -> Result<Question, TypesFault> {
    let mut types = TypeGraph::new(alloc);
    let low = unrolled(alloc, &mut types, low)?;
    let high = unrolled(alloc, &mut types, high)?;
    Ok(Question { types, low, high })
}

// `type L = ?(Nat, L)`, written out so many times, and once where it is none.
fn unrolled(alloc: Global, types: &mut TypeGraph, times: u32) -> Result<TypeId, TypesFault> {
    let head = types.fresh()?;
    let mut tail = head;
    for _ in 1..times {
        let pair = number_and(alloc, types, tail)?;
        tail = types.intern(Node::Opt(pair))?;
    }
    let pair = number_and(alloc, types, tail)?;
    if types.is_open(head) {
        types.define(head, Node::Opt(pair))?;
    }
    Ok(head)
}

fn number_and(alloc: Global, types: &mut TypeGraph, rest: TypeId) -> Result<TypeId, TypesFault> {
    let number = types.intern(Node::Number(Kind::Nat))?;
    let mut parts = Vec::new(alloc);
    parts.push(number)?;
    parts.push(rest)?;
    types.intern(Node::Tuple(Sequence::from_vec(parts)))
}

/// Whether one object is below another, both of so many fields under the same labels, of Nat in the one and of Int in the
/// other.
pub fn objects(alloc: Global, fields: u32) -> Result<Question, TypesFault> {
    let mut types = TypeGraph::new(alloc);
    let low = object_of(alloc, &mut types, Kind::Nat, fields)?;
    let high = object_of(alloc, &mut types, Kind::Int, fields)?;
    Ok(Question { types, low, high })
}

fn object_of(
    alloc: Global,
    types: &mut TypeGraph,
    kind: Kind,
    count: u32,
) -> Result<TypeId, TypesFault> {
    let part = types.intern(Node::Number(kind))?;
    let mut fields = Vec::new(alloc);
    for number in 0..count {
        fields.push(field(alloc, number, part)?)?;
    }
    types.intern(Node::Object(Sequence::from_vec(fields)))
}

fn field(alloc: Global, number: u32, part: TypeId) -> Result<Field, TypesFault> {
    let Ok(label) = format!(in alloc; "field_{number}") else {
        return Err(TypesFault::Memory);
    };
    Ok(Field {
        label: Bytes::from_vec(label.into_bytes()),
        mutable: false,
        part,
    })
}
