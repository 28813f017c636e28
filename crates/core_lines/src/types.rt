//! Types.
use crate::pieces::{
    put_bare, put_comma, put_flag, put_kind, put_text, put_type, put_types, put_word, put_worded,
};
use mo_num::{Bytes, Kind, Memory};
use mo_types::{Field, Node, Sort, TypeId};
use play_script::put_decimal;
use std::alloc::Global;

/// The name of a kind of numbers.
pub(crate) fn kind_word(kind: Kind) -> &'static [u8] {
    match kind {
        Kind::Nat => b"Nat",
        Kind::Int => b"Int",
        Kind::Nat8 => b"Nat8",
        Kind::Nat16 => b"Nat16",
        Kind::Nat32 => b"Nat32",
        Kind::Nat64 => b"Nat64",
        Kind::Int8 => b"Int8",
        Kind::Int16 => b"Int16",
        Kind::Int32 => b"Int32",
        Kind::Int64 => b"Int64",
    }
}

fn sort_word(sort: Sort) -> &'static [u8] {
    match sort {
        Sort::Local => b"local",
        Sort::Shared => b"shared",
        Sort::Query => b"query",
    }
}

// A type that holds one.
fn put_one(word: &[u8], id: TypeId, out: &mut Bytes) -> Result<(), Memory> {
    put_kind(word, out)?;
    put_type(id, out)?;
    out.extend(b"]")
}

fn put_fields(alloc: Global, word: &[u8], fields: &[Field], out: &mut Bytes) -> Result<(), Memory> {
    put_kind(word, out)?;
    out.extend(b"[")?;
    for (number, field) in fields.iter().enumerate() {
        put_comma(number, out)?;
        out.extend(b"[")?;
        put_text(alloc, field.label.as_slice(), out)?;
        out.extend(b",")?;
        put_flag(field.mutable, out)?;
        out.extend(b",")?;
        put_type(field.part, out)?;
        out.extend(b"]")?;
    }
    out.extend(b"]]")
}

fn put_function(
    sort: Sort,
    parameters: &[TypeId],
    results: &[TypeId],
    out: &mut Bytes,
) -> Result<(), Memory> {
    put_kind(b"func", out)?;
    put_word(sort_word(sort), out)?;
    out.extend(b",")?;
    put_types(parameters, out)?;
    out.extend(b",")?;
    put_types(results, out)?;
    out.extend(b"]")
}

/// The form of a type.
pub(crate) fn put_node(alloc: Global, node: &Node, out: &mut Bytes) -> Result<(), Memory> {
    match node {
        Node::Number(kind) => put_worded(b"number", kind_word(*kind), out),
        Node::Bool => put_bare(b"bool", out),
        Node::Char => put_bare(b"char", out),
        Node::Text => put_bare(b"text", out),
        Node::Blob => put_bare(b"blob", out),
        Node::Principal => put_bare(b"principal", out),
        Node::Error => put_bare(b"error", out),
        Node::Null => put_bare(b"null", out),
        Node::Any => put_bare(b"any", out),
        Node::Bottom => put_bare(b"none", out),
        Node::Opt(inside) => put_one(b"opt", *inside, out),
        Node::Array(element) => put_one(b"array", *element, out),
        Node::MutArray(element) => put_one(b"mutable array", *element, out),
        Node::Tuple(parts) => {
            put_kind(b"tuple", out)?;
            put_types(parts.as_slice(), out)?;
            out.extend(b"]")
        }
        Node::Object(fields) => put_fields(alloc, b"object", fields.as_slice(), out),
        Node::Actor(methods) => put_fields(alloc, b"actor", methods.as_slice(), out),
        Node::Variant(tags) => put_fields(alloc, b"variant", tags.as_slice(), out),
        Node::Func(sort, parameters, results) => {
            put_function(*sort, parameters.as_slice(), results.as_slice(), out)
        }
        Node::Async(of) => put_one(b"async", *of, out),
        Node::Variable(number, bound) => {
            put_kind(b"variable", out)?;
            put_decimal(*number as u64, out)?;
            out.extend(b",")?;
            put_type(*bound, out)?;
            out.extend(b"]")
        }
    }
}
