//! Numbers of types.
ghost use Rattle.std.specs.Prelude.{◌≡◌, IfOk, map};
ghost use Rattle.mo_types.specs.Wire.{refs};
ghost use Rattle.candid_types.specs.Shapes.{number_of, plain_number, ref_of};
ghost use Rattle.mo_types.specs.declared.wire.Ref.TheVariants.{Of, Just};

use mo_num::Memory;
use mo_types::{Plain, TypeId};
use std::alloc::Global;

/// The number of a type without parts. They are those below 18.
#[tactic(auto, unfolding(crate::specs::Shapes::ref_of))]
pub fn plain(simple: Plain) -> usize
    ensures value { result ≡ plain_number simple }
    ensures stands { ref_of result ≡ Just simple }
{
    match simple {
        Plain::Empty => 0,
        Plain::Null => 1,
        Plain::Bool => 2,
        Plain::Nat => 3,
        Plain::Int => 4,
        Plain::Nat8 => 5,
        Plain::Nat16 => 6,
        Plain::Nat32 => 7,
        Plain::Nat64 => 8,
        Plain::Int8 => 9,
        Plain::Int16 => 10,
        Plain::Int32 => 11,
        Plain::Int64 => 12,
        Plain::Float32 => 13,
        Plain::Float64 => 14,
        Plain::Text => 15,
        Plain::Reserved => 16,
        Plain::Principal => 17,
    }
}

/// The number of a type of a graph. They are those from 18 on.
#[tactic(auto, using(crate::proofs::NumberLemmas::ref_of_id))]
pub fn number(id: TypeId) -> usize
    ensures value { result ≡ number_of id }
    ensures stands { ref_of result ≡ Of id }
{
    18 + id.index() as usize
}

/// The numbers of types.
pub fn numbers(alloc: Global, ids: &[TypeId]) -> Result<Vec<usize>, Memory>
    ensures { IfOk result (λ made. map ref_of made.items ≡ refs ids.now) }
{
    let mut made = Vec::with_capacity(alloc, ids.len())?;
    for id in ids {
        made.push(number(*id))?;
    }
    Ok(made)
}
