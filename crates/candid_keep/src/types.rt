//! Types of two graphs.
ghost use Rattle.std.specs.Prelude.{◌≡◌, true, false, IfOk};
ghost use Rattle.mo_types.specs.Graph.{head_at};
ghost use Rattle.candid_keep.specs.Refs.{AreSame};

use crate::header::header_of;
use candid_equal::has_types;
use mo_num::Memory;
use mo_types::{TypeGraph, TypeId};
use std::alloc::Global;

/// Whether types of one graph are as many as types of another, and each is the same Candid type as the one at its place:
/// Motoko language manual, section "Stable variables". Takes time and memory by the pairs of types that the question leads to.
pub fn are_same(
    alloc: Global,
    old: &TypeGraph,
    new: &TypeGraph,
    ids: &[TypeId],
    others: &[TypeId],
) -> Result<bool, Memory>
    ensures yes { IfOk result (λ b. b ≡ true → AreSame (head_at old.now) (head_at new.now) ids.now others.now) }
    ensures no { IfOk result (λ b. b ≡ false → AreSame (head_at old.now) (head_at new.now) ids.now others.now → ⊥) }
{
    let header = header_of(alloc, old, ids)?;
    has_types(alloc, &header, new, others)
}
