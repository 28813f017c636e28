//! Which types of a graph have values.
ghost use Rattle.std.specs.Prelude.{◌≡◌, IfOk, None, Option, Some, length, ℕ};
ghost use Rattle.mo_types.specs.Values.{types_of};
ghost use Rattle.typed_tree.specs.Types.{AreLawful};
ghost use Rattle.pattern_coverage.specs.Cover.{Tells};
ghost use Rattle.pattern_coverage.specs.Followed.{value_head};
ghost use Rattle.pattern_coverage.specs.Inhabited.{AreDone, IsNext, all_have, by_parts, in_table, some_has, type_at};

use crate::followed::value_node_at;
use mo_num::{Memory, Sequence};
use mo_types::{Field, Node, TypeGraph, TypeId};
use std::alloc::Global;

/// Whether a table has a type.
pub fn is_in(table: &[bool], id: TypeId) -> bool
    ensures { result ≡ in_table table.now id }
{
    match table.get(id.index() as usize) {
        Some(flag) => *flag,
        None => false,
    }
}

fn all_in(table: &[bool], ids: &[TypeId]) -> bool
    ensures { result ≡ all_have (in_table table.now) ids.now }
{
    for id in ids {
        if !is_in(table, *id) {
            return false;
        }
    }
    true
}

fn fields_in(table: &[bool], fields: &[Field]) -> bool
    ensures { result ≡ all_have (in_table table.now) (types_of fields.now) }
{
    for field in fields {
        if !is_in(table, field.part) {
            return false;
        }
    }
    true
}

fn some_in(table: &[bool], tags: &[Field]) -> bool
    ensures { result ≡ some_has (in_table table.now) (types_of tags.now) }
{
    for tag in tags {
        if is_in(table, tag.part) {
            return true;
        }
    }
    false
}

/// Whether a type with this head has values, where those of the table have.
fn has_by_parts(table: &[bool], node: &Node) -> bool
    ensures { result ≡ by_parts (in_table table.now) node.now }
{
    match node {
        Node::Bottom => false,
        Node::Tuple(parts) => all_in(table, parts.as_slice()),
        Node::Object(fields) => fields_in(table, fields.as_slice()),
        Node::Variant(tags) => some_in(table, tags.as_slice()),
        Node::Variable(_, bound) => is_in(table, *bound),
        _ => true,
    }
}

/// The same of the type with a number.
fn is_found(types: &TypeGraph, table: &[bool], index: usize) -> bool
    ensures { result ≡ by_parts (in_table table.now) (value_head types.now (type_at index)) }
{
    match value_node_at(types, index) {
        Some(node) => has_by_parts(table, node),
        None => false,
    }
}

/// The first number that is not in the table, of a type that has values by those that are.
fn next_type(types: &TypeGraph, table: &[bool]) -> Option<usize>
    ensures found { (i : ℕ) → result ≡ Some i → IsNext (value_head types.now) table.now i }
    ensures none { result ≡ None → AreDone (value_head types.now) table.now (length table.now) }
{
    for index in 0..table.len() {
        if !table[index] && is_found(types, table, index) {
            return Some(index);
        }
    }
    None
}

/// Which types of a graph have values.
pub fn types_with_values(alloc: Global, types: &TypeGraph) -> Result<Sequence<bool>, Memory>
    requires { AreLawful types.now }
    ensures { IfOk result (λ table. Tells (value_head types.now) (in_table table)) }
{
    let mut table = vec![in alloc; false; types.len()]?;
    while let Some(index) = next_type(types, table.as_slice()) {
        table[index] = true;
    }
    Ok(Sequence::from_vec(table))
}
