//! Where type parameters lead by their bounds.
ghost use Rattle.std.specs.Prelude.{◌≡◌};
ghost use Rattle.mo_types.specs.Graph.{head_at, node_at};
ghost use Rattle.mo_types.specs.Heads.{map_option};
ghost use Rattle.pattern_coverage.specs.Followed.{along, end_of};
ghost use Rattle.pattern_coverage.specs.Inhabited.{type_at};

use mo_types::{Node, TypeGraph, TypeId};

// The number of the bound, of a type with this head.
fn bound_or(node: &Node, index: usize) -> usize
    ensures { type_at result ≡ along (λ b. b) (type_at index) node.now }
{
    match node {
        Node::Variable(_, bound) => bound.index() as usize,
        _ => index,
    }
}

// The number of the bound of a type parameter, and that of another type itself.
fn next(types: &TypeGraph, index: usize) -> usize
    ensures { type_at result ≡ along (λ b. b) (type_at index) (head_at types.now (type_at index)) }
{
    match types.get_index(index) {
        Some(node) => bound_or(node, index),
        None => index,
    }
}

/// The number of the type that a type leads to.
#[tactic(auto, using(crate::proofs::Ends::one_further, crate::proofs::Ends::stopped))]
fn end_of(types: &TypeGraph, index: usize) -> usize
    ensures { type_at result ≡ end_of types.now (type_at index) }
{
    let mut reached = index;
    for _ in 0..types.len() {
        let further = next(types, reached);
        if further == reached {
            return reached;
        }
        reached = further;
    }
    reached
}

/// The node of a type by its number, and of a type parameter that of its bound.
pub(crate) fn value_node_at(types: &TypeGraph, index: usize) -> Option<&Node>
    ensures { map_option (λ n. n.now) result ≡ node_at types.now (end_of types.now (type_at index)) }
{
    types.get_index(end_of(types, index))
}

/// The node by which the values of a type go: its own, and that of its bound where it is a type parameter.
pub fn value_node(types: &TypeGraph, id: TypeId) -> Option<&Node>
    ensures { map_option (λ n. n.now) result ≡ node_at types.now (end_of types.now id) }
{
    value_node_at(types, id.index() as usize)
}
