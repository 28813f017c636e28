//! The nodes of types. Each function adds those of a part to what is counted, within so many levels: a part of more levels than
//! there are addresses is none that memory holds.
ghost use Rattle.std.specs.Prelude.{IfOk, map, option_map};
ghost use Rattle.typing_rules.specs.AbstractTypes.{type_fields, type_nodes};
ghost use Rattle.typing_rules.specs.Nodes.{in_annotation, in_arguments, in_generics, in_type, in_type_arguments, in_type_fields, in_types};
ghost use Rattle.abstract_types.specs.TypeView.{annotation, parameter, type_field, type_node};
ghost use Rattle.node_counts.specs.Counting.{Counts, CountsField};

use crate::capped::one_more;
use abstract_types::{TypeField, TypeForm, TypeNode, TypeParameter};
use mo_num::Memory;
use mo_syntax::Items;

#[cycle(types)]
fn count_type_within(node: &TypeNode, depth: usize, counted: u32) -> Result<u32, Memory>
    ensures { IfOk result (Counts (in_type (type_node node.now)) counted) }
{
    if depth == 0 {
        return Err(Memory);
    }
    let here = one_more(counted);
    match node.form.get() {
        TypeForm::Function(_, parameters, of) => {
            let first = count_types_within(parameters.as_slice(), depth - 1, here)?;
            count_type_within(of, depth - 1, first)
        }
        TypeForm::Optional(of) => count_type_within(of, depth - 1, here),
        TypeForm::Async(of) => count_type_within(of, depth - 1, here),
        TypeForm::Use(_, arguments) => count_types_within(arguments.as_slice(), depth - 1, here),
        TypeForm::Tuple(items) => count_types_within(items.as_slice(), depth - 1, here),
        TypeForm::Array(_, of) => count_type_within(of, depth - 1, here),
        TypeForm::Object(fields) => count_fields_within(fields.as_slice(), depth - 1, here),
        TypeForm::Variant(tags) => count_fields_within(tags.as_slice(), depth - 1, here),
        TypeForm::Actor(methods) => count_fields_within(methods.as_slice(), depth - 1, here),
    }
}

#[cycle(types)]
fn count_types_within(nodes: &[TypeNode], depth: usize, counted: u32) -> Result<u32, Memory>
    ensures { IfOk result (Counts (in_types (type_nodes (map type_node nodes.now))) counted) }
{
    let mut sum = counted;
    for node in nodes {
        sum = count_type_within(node, depth, sum)?;
    }
    Ok(sum)
}

#[cycle(types)]
fn count_field_within(field: &TypeField, depth: usize, counted: u32) -> Result<u32, Memory>
    ensures { IfOk result (CountsField in_type_fields (type_field field.now) counted) }
{
    let here = one_more(counted);
    match field {
        TypeField::Field(_, _, of) => count_type_within(of, depth, here),
        TypeField::EmptyTag(_) => Ok(here),
    }
}

#[cycle(types)]
fn count_fields_within(fields: &[TypeField], depth: usize, counted: u32) -> Result<u32, Memory>
    ensures { IfOk result (Counts (in_type_fields (type_fields (map type_field fields.now))) counted) }
{
    let mut sum = counted;
    for field in fields {
        sum = count_field_within(field, depth, sum)?;
    }
    Ok(sum)
}

/// Adds the nodes of a type.
pub(crate) fn count_type(node: &TypeNode, counted: u32) -> Result<u32, Memory>
    ensures { IfOk result (Counts (in_type (type_node node.now)) counted) }
{
    count_type_within(node, usize::MAX, counted)
}

/// Adds the nodes of a type that may be missing.
pub(crate) fn count_annotation(node: &Option<TypeNode>, counted: u32) -> Result<u32, Memory>
    ensures { IfOk result (Counts (in_annotation (annotation node.now)) counted) }
{
    match node {
        None => Ok(counted),
        Some(node) => count_type(node, counted),
    }
}

fn count_arguments(nodes: &[TypeNode], counted: u32) -> Result<u32, Memory>
    ensures { IfOk result (Counts (in_arguments (map type_node nodes.now)) counted) }
{
    let mut sum = counted;
    for node in nodes {
        sum = count_type(node, sum)?;
    }
    Ok(sum)
}

/// Adds the nodes of the type arguments of a call.
pub(crate) fn count_type_arguments(
    types: &Option<Items<TypeNode>>,
    counted: u32,
) -> Result<u32, Memory>
    ensures { IfOk result (Counts (in_type_arguments (option_map (map type_node) types.now)) counted) }
{
    match types {
        None => Ok(counted),
        Some(types) => count_arguments(types.as_slice(), counted),
    }
}

/// Adds the nodes of the bounds of type parameters.
pub(crate) fn count_generics(generics: &[TypeParameter], counted: u32) -> Result<u32, Memory>
    ensures { IfOk result (Counts (in_generics (map parameter generics.now)) counted) }
{
    let mut sum = counted;
    for one in generics {
        sum = count_annotation(&one.bound, sum)?;
    }
    Ok(sum)
}
