//! The type by whose head the members of a value go.
ghost use Rattle.std.specs.Prelude.{◌≡◌, ◌+◌, length, IfSome, option_map};
ghost use Rattle.typing_rules.specs.Heads.{bound_of};
ghost use Rattle.type_definitions.specs.Meanings.{term};
ghost use Rattle.met_types.specs.States.{IsReached, Kept};
ghost use Rattle.judging.specs.Heads.{HeadHas, part_in};
ghost use Rattle.member_heads.specs.Members.{IsPromoted, bound_at};

use met_types::Types;
use mo_types::{Node, TypeId};
use type_terms::TermId;

fn bound_at(node: &Node) -> Option<TypeId>
    ensures { result ≡ bound_at node.now }
{
    match node {
        Node::Variable(_, bound) => Some(*bound),
        _ => None,
    }
}

/// The term of a type of the graph, where there is one.
pub(crate) fn part_in(types: &Types, part: Option<TypeId>) -> Option<TermId>
    ensures { result ≡ part_in types.now part }
{
    match part {
        Some(part) => types.term_at(part),
        None => None,
    }
}

/// The bound of a type parameter.
fn bound(types: &Types, id: TermId) -> Option<TermId>
    requires kept { Kept types.now }
    requires reached { IsReached types.now id }
    ensures is { HeadHas bound_of types.now id (λ later. option_map (term later) result) }
    ensures reached { IfSome result (IsReached types.now) }
{
    match types.node(id) {
        Some(node) => part_in(types, bound_at(node)),
        None => None,
    }
}

/// One more than there are type parameters.
fn turns(types: &Types) -> usize
    ensures { result ≡ length types.now.listed.bounds + 1 }
{
    types.definitions().bounds().len() + 1
}

/// The type by whose head the members of a value go: of a type parameter the bound, and its bound, and so on. Motoko language manual, section "Type
/// parameters".
pub fn promoted(types: &Types, id: TermId) -> TermId
    requires kept { Kept types.now }
    requires reached { IsReached types.now id }
    ensures is { IsPromoted types.now id result }
    ensures reached { IsReached types.now result }
{
    let mut last = id;
    let mut left = turns(types);
    while left > 0 {
        match bound(types, last) {
            Some(next) => last = next,
            None => return last,
        }
        left -= 1;
    }
    last
}
