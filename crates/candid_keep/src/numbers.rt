//! Numbers of Candid types as references of a header.
ghost use Rattle.std.specs.Prelude.{◌≡◌, ◌-◌, slice_get, IfOk};
ghost use Rattle.candid_types.specs.Shapes.{plains};
ghost use Rattle.candid_keep.specs.Refs.{table_ref};

use mo_num::Memory;
use mo_types::{Plain, TableRef};

// The types without parts, which have the first numbers.
const PLAINS: [Plain; 18] = [
    Plain::Empty,
    Plain::Null,
    Plain::Bool,
    Plain::Nat,
    Plain::Int,
    Plain::Nat8,
    Plain::Nat16,
    Plain::Nat32,
    Plain::Nat64,
    Plain::Int8,
    Plain::Int16,
    Plain::Int32,
    Plain::Int64,
    Plain::Float32,
    Plain::Float64,
    Plain::Text,
    Plain::Reserved,
    Plain::Principal,
];

// The type without parts of a number.
fn plain_at(number: usize) -> Option<Plain>
    ensures { result ≡ slice_get plains number }
{
    PLAINS.get(number).copied()
}

// The entry of a type of the graph. More than 32 bits never come: the types of a graph have no greater numbers.
fn entry(number: usize) -> Result<TableRef, Memory>
    ensures { IfOk result (λ made. made ≡ TableRef.At (number - 18)) }
{
    let index = number.saturating_sub(PLAINS.len());
    if index > u32::MAX as usize {
        return Err(Memory);
    }
    Ok(TableRef::At(index as u32))
}

/// The reference by which the header of a graph has a type.
pub(crate) fn table_ref(number: usize) -> Result<TableRef, Memory>
    ensures { IfOk result (λ made. made ≡ table_ref number) }
{
    match plain_at(number) {
        Some(plain) => Ok(TableRef::Plainly(plain)),
        None => entry(number),
    }
}
