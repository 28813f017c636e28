//! The types of a header and declared ones.
ghost use Rattle.std.specs.Prelude.{◌≡◌, IfOk, true, false, length};
ghost use Rattle.mo_types.specs.Graph.{head_at};
ghost use Rattle.mo_types.specs.Code.{SameEach};
ghost use Rattle.candid_equal.specs.Types.{pairs_of};

use crate::Pair;
use crate::search::are_equal;
use candid_header::Header;
use candid_types::{Shapes, number};
use mo_num::Memory;
use mo_types::{TableRef, TypeGraph, TypeId};
use std::alloc::Global;

/// Each type with the declared one at its place.
fn pair_up(alloc: Global, wire: &[TableRef], ids: &[TypeId]) -> Result<Vec<Pair>, Memory>
    requires { length wire.now ≡ length ids.now }
    ensures { IfOk result (λ made. made.items ≡ pairs_of wire.now ids.now) }
{
    let mut pairs = Vec::new(alloc);
    for i in 0..wire.len() {
        let declared = number(ids[i]);
        pairs.push(Pair {
            wire: wire[i],
            declared,
        })?;
    }
    Ok(pairs)
}

/// Whether the types of a header's arguments are as many as the declared types, and each is equal to the one at its
/// place. Takes time and memory by the pairs of types that the question leads to.
pub fn has_types(
    alloc: Global,
    header: &Header,
    types: &TypeGraph,
    ids: &[TypeId],
) -> Result<bool, Memory>
    ensures yes { IfOk result (λ b. b ≡ true → SameEach (head_at types.now) header.now.table header.now.arguments ids.now) }
    ensures no { IfOk result (λ b. b ≡ false → SameEach (head_at types.now) header.now.table header.now.arguments ids.now → ⊥) }
{
    if header.arguments.len() != ids.len() {
        return Ok(false);
    }
    let shapes = Shapes::new(alloc, types)?;
    let pairs = pair_up(alloc, header.arguments.as_slice(), ids)?;
    are_equal(alloc, header.table.as_slice(), &shapes, pairs.as_slice())
}
