//! The search for a pair of types with different heads.
ghost use Rattle.std.specs.Prelude.{◌≡◌, IfOk, OnOk, true, false, slice_get};
ghost use Rattle.indexmap.specs.IndexSet.{insert_all};
ghost use Rattle.mo_types.specs.Header.{table_head};
ghost use Rattle.candid_types.specs.Shapes.{shape_at};
ghost use Rattle.candid_equal.specs.Pairs.{same_pair};
ghost use Rattle.candid_equal.specs.Asks.{Adds, AllEqual, asks, asked};

use crate::Pair;
use crate::ask::ask;
use candid_types::Shapes;
use indexmap::IndexSet;
use mo_num::Memory;
use mo_types::{Plain, TableRef, Wire};
use std::alloc::Global;

/// Puts the pairs that are not there yet.
fn add_all(pairs: &mut IndexSet<Pair>, more: &[Pair]) -> Result<(), Memory>
    ensures { OnOk result (pairs.new.keys ≡ insert_all same_pair pairs.old.keys more.now) }
{
    for pair in more {
        pairs.insert(*pair)?;
    }
    Ok(())
}

fn ask_declared(
    wire: &Wire<TableRef>,
    shapes: &Shapes,
    declared: usize,
    out: &mut Vec<Pair>,
) -> Result<bool, Memory>
    ensures { IfOk result (λ yes. Adds (asks wire.now (shape_at shapes.now declared)) yes out.old.items out.new.items) }
{
    match shapes.get(declared) {
        Some(shape) => ask(wire, shape, out),
        None => ask(wire, &Wire::Simple(Plain::Empty), out),
    }
}

fn ask_pair(
    table: &[Wire<TableRef>],
    shapes: &Shapes,
    pair: Pair,
    out: &mut Vec<Pair>,
) -> Result<bool, Memory>
    ensures { IfOk result (λ yes. Adds (asked table.now shapes.now pair) yes out.old.items out.new.items) }
{
    match pair.wire {
        TableRef::Plainly(plain) => {
            ask_declared(&Wire::Simple(plain), shapes, pair.declared, out)
        }
        TableRef::At(number) => match table.get(number as usize) {
            Some(entry) => ask_declared(entry, shapes, pair.declared, out),
            None => ask_declared(&Wire::Simple(Plain::Empty), shapes, pair.declared, out),
        },
    }
}

/// Whether the types of each pair are equal.
pub fn are_equal(
    alloc: Global,
    table: &[Wire<TableRef>],
    shapes: &Shapes,
    pairs: &[Pair],
) -> Result<bool, Memory>
    ensures yes { IfOk result (λ b. b ≡ true → AllEqual table.now shapes.now pairs.now) }
    ensures no { IfOk result (λ b. b ≡ false → AllEqual table.now shapes.now pairs.now → ⊥) }
{
    let mut seen = IndexSet::new(alloc);
    add_all(&mut seen, pairs)?;
    for next in 0..usize::MAX {
        match pair_at(&seen, next) {
            None => return Ok(true),
            Some(pair) => {
                let mut more = Vec::new(alloc);
                if !ask_pair(table, shapes, pair, &mut more)? {
                    return Ok(false);
                }
                add_all(&mut seen, more.as_slice())?;
            }
        }
    }
    Err(Memory)
}

fn pair_at(pairs: &IndexSet<Pair>, place: usize) -> Option<Pair>
    ensures { result ≡ slice_get pairs.now.keys place }
{
    pairs.get_index(place).copied()
}
