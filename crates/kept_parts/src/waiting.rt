//! The types of the values that come next, and whether each stands under a tag.
ghost use Rattle.std.specs.Prelude.{◌≡◌, ◌++◌, map, reverse, OnOk};
ghost use Rattle.kept_forms.specs.Parts.{asked, is_tag as stands_under, is_unit as is_nothing};

use mo_num::Memory;
use mo_types::{Datum, Node, TypeId};
use part_types::types_inside;
use std::alloc::Global;

// Whether what is inside the part stands under a tag.
fn is_tag(node: &Node, part: &Datum) -> bool
    ensures { result ≡ stands_under node.now part.now }
{
    match (node, part) {
        (Node::Variant(_), Datum::Tag(_)) => true,
        _ => false,
    }
}

/// Whether the type is `()`.
pub(crate) fn is_unit(node: &Node) -> bool
    ensures { result ≡ is_nothing node.now }
{
    match node {
        Node::Tuple(parts) => parts.is_empty(),
        _ => false,
    }
}

// Puts types before those that wait, the first one at the top.
fn put_first(
    inside: Vec<TypeId>,
    under: bool,
    waiting: &mut Vec<(TypeId, bool)>,
) -> Result<(), Memory>
    ensures { OnOk result (reverse waiting.new.items ≡ map (λ t. (t, under)) inside.items ++ reverse waiting.old.items) }
{
    let mut inside = inside;
    while let Some(last) = inside.pop() {
        waiting.push((last, under))?;
    }
    Ok(())
}

/// Puts the types of the values inside a part before those that wait.
pub(crate) fn put_asked(
    alloc: Global,
    node: &Node,
    part: &Datum,
    waiting: &mut Vec<(TypeId, bool)>,
) -> Result<(), Memory>
    ensures { OnOk result (reverse waiting.new.items ≡ asked node.now part.now ++ reverse waiting.old.items) }
{
    let under = is_tag(node, part);
    let inside = types_inside(alloc, node, part)?;
    put_first(inside, under, waiting)
}
