//! Values of large messages.
use mo_num::{Bytes, Kind, Memory, Sequence};
use mo_types::{Datum, Field, Node, TypeGraph, TypeId, TypesFault};
use std::alloc::Global;

/// Values with their types.
#[derive(Drop)]
pub struct Sample {
    pub types: TypeGraph,
    pub ids: Vec<TypeId>,
    pub values: Vec<Datum>,
}

fn field(alloc: Global, label: &[u8], part: TypeId) -> Result<Field, Memory> {
    Ok(Field {
        label: Bytes::from_slice(alloc, label)?,
        mutable: false,
        part,
    })
}

// `[{ id : Nat; name : Text }]`
fn list_of_records(alloc: Global, types: &mut TypeGraph) -> Result<TypeId, TypesFault> {
    let number = types.intern(Node::Number(Kind::Nat))?;
    let text = types.intern(Node::Text)?;
    let Ok(fields) = fields_of(alloc, number, text) else {
        return Err(TypesFault::Memory);
    };
    let record = types.intern(Node::Object(fields))?;
    types.intern(Node::Array(record))
}

fn fields_of(alloc: Global, number: TypeId, text: TypeId) -> Result<Sequence<Field>, Memory> {
    let mut fields = Vec::new(alloc);
    fields.push(field(alloc, b"id", number)?)?;
    fields.push(field(alloc, b"name", text)?)?;
    Ok(Sequence::from_vec(fields))
}

fn add_record(alloc: Global, number: u32, values: &mut Vec<Datum>) -> Result<(), Memory> {
    values.push(Datum::Record(2))?;
    // Numbers of one to five bytes.
    values.push(Datum::Number(i128::from(number) * i128::from(number)))?;
    let name = Bytes::from_slice(alloc, b"a name of twenty one.")?;
    values.push(Datum::Text(name))?;
    Ok(())
}

fn values_of_records(alloc: Global, count: u32) -> Result<Vec<Datum>, Memory> {
    let mut values = Vec::new(alloc);
    values.push(Datum::Many(count))?;
    for number in 0..count {
        add_record(alloc, number, &mut values)?;
    }
    Ok(values)
}

fn one_text(alloc: Global, len: usize) -> Result<Vec<Datum>, Memory> {
    let mut letters = Bytes::new(alloc);
    for _ in 0..len {
        letters.push(b'a')?;
    }
    let mut values = Vec::new(alloc);
    values.push(Datum::Text(letters))?;
    Ok(values)
}

fn sample_of(
    alloc: Global,
    types: TypeGraph,
    id: TypeId,
    values: Result<Vec<Datum>, Memory>,
) -> Result<Sample, Memory> {
    let mut ids = Vec::new(alloc);
    ids.push(id)?;
    let values = values?;
    Ok(Sample { types, ids, values })
}

/// A list of so many records of a number and a text.
pub fn records(alloc: Global, count: u32) -> Option<Sample> {
    let mut types = TypeGraph::new(alloc);
    match list_of_records(alloc, &mut types) {
        Ok(list) => sample_of(alloc, types, list, values_of_records(alloc, count)).ok(),
        Err(_) => None,
    }
}

/// One text of so many letters.
pub fn text(alloc: Global, len: usize) -> Option<Sample> {
    let mut types = TypeGraph::new(alloc);
    match types.intern(Node::Text) {
        Ok(text) => sample_of(alloc, types, text, one_text(alloc, len)).ok(),
        Err(_) => None,
    }
}
