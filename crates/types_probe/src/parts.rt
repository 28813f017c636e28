//! The parts of types as they are written, and the heads of types whose parts are in a graph.
use crate::built_in::built_in;
use mo_num::{Bytes, Memory, Sequence};
use mo_syntax::{
    Items, Name, Node as Part, Sharing, TypeExpression, TypeField, TypeMethod, TypeTag,
};
use mo_types::{Field, Node, Sort, TypeId};
use probe_base::Stop;
use std::alloc::Global;

// The types in a function's parentheses, or the one without them.
fn put_listed<'a>(
    written: &'a TypeExpression,
    out: &mut Sequence<&'a TypeExpression>,
) -> Result<(), Memory> {
    match written {
        TypeExpression::Parenthesized(items) => {
            for item in items.as_slice() {
                out.push(item.get().annotation.get())?;
            }
            Ok(())
        }
        _ => out.push(written),
    }
}

// How many they are.
fn listed_len(written: &TypeExpression) -> usize {
    match written {
        TypeExpression::Parenthesized(items) => items.len(),
        _ => 1,
    }
}

// The type of a function's results.
fn results_in(sharing: Sharing, written: &TypeExpression) -> Result<&TypeExpression, Stop> {
    match (sharing, written) {
        (Sharing::Local, _) => Ok(written),
        (_, TypeExpression::Async(results)) => Ok(results.get()),
        _ => Err(Stop::Usage),
    }
}

fn put_fields<'a>(
    fields: &'a [Part<TypeField>],
    out: &mut Sequence<&'a TypeExpression>,
) -> Result<(), Memory> {
    for field in fields {
        out.push(field.get().annotation.get())?;
    }
    Ok(())
}

fn put_methods<'a>(
    methods: &'a [Part<TypeMethod>],
    out: &mut Sequence<&'a TypeExpression>,
) -> Result<(), Memory> {
    for method in methods {
        out.push(method.get().annotation.get())?;
    }
    Ok(())
}

fn put_payloads<'a>(
    tags: &'a [Part<TypeTag>],
    out: &mut Sequence<&'a TypeExpression>,
) -> Result<(), Memory> {
    for tag in tags {
        if let Some(payload) = &tag.get().payload {
            out.push(payload.get())?;
        }
    }
    Ok(())
}

/// The parts of a type, in order: of a function its parameters and its results, of a variant what its tags carry.
pub(crate) fn parts_of(
    alloc: Global,
    written: &TypeExpression,
) -> Result<Sequence<&TypeExpression>, Stop> {
    let mut out = Sequence::new(alloc);
    match written {
        TypeExpression::Function(sharing, parameters, results) => {
            put_listed(parameters.get(), &mut out)?;
            put_listed(results_in(*sharing, results.get())?, &mut out)?;
        }
        TypeExpression::Optional(part)
        | TypeExpression::Async(part)
        | TypeExpression::Array(_, part) => out.push(part.get())?,
        TypeExpression::Named(_, None) => {}
        TypeExpression::Named(_, Some(_)) => return Err(Stop::Usage),
        TypeExpression::Parenthesized(_) => put_listed(written, &mut out)?,
        TypeExpression::Object(_, fields, _) => put_fields(fields.as_slice(), &mut out)?,
        TypeExpression::EmptyVariant => {}
        TypeExpression::Variant(tags, _) => put_payloads(tags.as_slice(), &mut out)?,
        TypeExpression::Actor(methods, _) => put_methods(methods.as_slice(), &mut out)?,
    }
    Ok(out)
}

/// Whether the type is a variant with a tag that carries nothing, which stands for one of `()`.
pub(crate) fn has_bare_tag(written: &TypeExpression) -> bool {
    match written {
        TypeExpression::Variant(tags, _) => {
            tags.as_slice()
                .iter()
                .any(|tag| tag.get().payload.is_none())
        }
        _ => false,
    }
}

// The labels of a type in order, each with whether it is mutable, and whether it has a part of its own.
type Labels<'a> = Sequence<(&'a Name, bool, bool)>;

fn labels_of(alloc: Global, written: &TypeExpression) -> Result<Labels<'_>, Stop> {
    let mut out = Sequence::new(alloc);
    match written {
        TypeExpression::Object(_, fields, _) => {
            for field in fields.as_slice() {
                out.push((&field.get().name, field.get().mutable, true))?;
            }
        }
        TypeExpression::Actor(methods, _) => {
            for method in methods.as_slice() {
                out.push((&method.get().name, false, true))?;
            }
        }
        TypeExpression::Variant(tags, _) => {
            for tag in tags.as_slice() {
                out.push((&tag.get().name, false, tag.get().payload.is_some()))?;
            }
        }
        _ => {}
    }
    Ok(out)
}

fn fields_of(
    alloc: Global,
    written: &TypeExpression,
    parts: &[TypeId],
    unit: Option<TypeId>,
) -> Result<Sequence<Field>, Stop> {
    let mut out = Sequence::new(alloc);
    let mut rest = parts.iter();
    for (name, mutable, is_own) in labels_of(alloc, written)?.as_slice() {
        let part = if *is_own { rest.next().copied() } else { unit };
        out.push(Field {
            label: Bytes::from_slice(alloc, name.as_slice())?,
            mutable: *mutable,
            part: part.ok_or(Stop::Usage)?,
        })?;
    }
    Ok(out)
}

fn sequence_of(alloc: Global, parts: &[TypeId]) -> Result<Sequence<TypeId>, Stop> {
    let mut out = Sequence::new(alloc);
    for part in parts {
        out.push(*part)?;
    }
    Ok(out)
}

fn sort_of(sharing: Sharing) -> Sort {
    match sharing {
        Sharing::Local => Sort::Local,
        Sharing::Shared => Sort::Shared,
        Sharing::SharedQuery => Sort::Query,
    }
}

fn function_of(
    alloc: Global,
    sharing: Sharing,
    parameters: usize,
    parts: &[TypeId],
) -> Result<Node, Stop> {
    let (parameters, results) = parts.split_at_checked(parameters).ok_or(Stop::Usage)?;
    let results = sequence_of(alloc, results)?;
    Ok(Node::Func(sort_of(sharing), sequence_of(alloc, parameters)?, results))
}

/// The head of a type with these parts, and with `()` where a tag carries nothing.
pub(crate) fn node_of(
    alloc: Global,
    written: &TypeExpression,
    parts: &[TypeId],
    unit: Option<TypeId>,
) -> Result<Node, Stop> {
    match (written, parts) {
        (TypeExpression::Named(name, None), _) => built_in(name.as_slice()).ok_or(Stop::Usage),
        (TypeExpression::Optional(_), [part]) => Ok(Node::Opt(*part)),
        (TypeExpression::Async(_), [part]) => Ok(Node::Async(*part)),
        (TypeExpression::Array(false, _), [part]) => Ok(Node::Array(*part)),
        (TypeExpression::Array(true, _), [part]) => Ok(Node::MutArray(*part)),
        (TypeExpression::Function(sharing, parameters, _), _) => {
            function_of(alloc, *sharing, listed_len(parameters.get()), parts)
        }
        (TypeExpression::Parenthesized(_), _) => Ok(Node::Tuple(sequence_of(alloc, parts)?)),
        (TypeExpression::EmptyVariant, _) => Ok(Node::Variant(Sequence::new(alloc))),
        (TypeExpression::Object(..), _) => {
            Ok(Node::Object(fields_of(alloc, written, parts, unit)?))
        }
        (TypeExpression::Actor(..), _) => Ok(Node::Actor(fields_of(alloc, written, parts, unit)?)),
        (TypeExpression::Variant(..), _) => {
            Ok(Node::Variant(fields_of(alloc, written, parts, unit)?))
        }
        _ => Err(Stop::Usage),
    }
}
