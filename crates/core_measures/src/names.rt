//! Places of names that are seen around functions.
ghost use Rattle.std.specs.Prelude.{◌≡◌, ◌++◌, ◌∷◌, [], suc, cond, length, IfOk, OnOk};
ghost use Rattle.core_ir.specs.Choices.{nth};
ghost use Rattle.core_ir.specs.Outward.{all_beyond, beyond, distinct, holds};

use crate::measures::sum;
use mo_num::Memory;
use std::alloc::Global;
use std::marker::Model;

/// The places of names, once for each time that they are named.
pub(crate) struct Names {
    places: Vec<u32>,
}

impl Drop for Names {
    fn drop(self) {
        let Names { places: _places } = self;
    }
}

impl Model for Names {
    ghost use Rattle.std.specs.Prelude.{List, ℕ};

    ghost Value = { List ℕ };

    ghost view = { λ n. n.places.items };
}

impl Names {
    // None. Takes no memory.
    pub(crate) fn new(alloc: Global) -> Names
        ensures { result ≡ [] }
    {
        Names {
            places: Vec::new(alloc),
        }
    }

    // One more.
    pub(crate) fn add(&mut self, place: u32) -> Result<(), Memory>
        ensures { OnOk result (self.new ≡ self.old ++ place ∷ []) }
    {
        self.places.push(place)?;
        Ok(())
    }

    // The places.
    pub(crate) fn as_slice(&self) -> &[u32]
        ensures { result.now ≡ self.now }
    {
        self.places.as_slice()
    }
}

/// The names that a group sees and its functions name; a group that is not there names none.
pub(crate) fn needed(needs: &[Names], group: u32) -> &[u32]
    ensures { result.now ≡ nth [] needs.now group }
{
    match needs.get(group as usize) {
        Some(names) => names.as_slice(),
        None => &[],
    }
}

/// A name, if it is beyond the nearest ones, so many of them.
pub(crate) fn add_beyond(near: u32, place: u32, names: &mut Names) -> Result<(), Memory>
    ensures { OnOk result (names.new ≡ names.old ++ beyond near place) }
{
    if place < near {
        return Ok(());
    }
    names.add(place - near)
}

/// Those of these names that are.
pub(crate) fn add_all_beyond(near: u32, places: &[u32], names: &mut Names) -> Result<(), Memory>
    ensures { OnOk result (names.new ≡ names.old ++ all_beyond near places.now) }
{
    for place in places {
        add_beyond(near, *place, names)?;
    }
    Ok(())
}

// Whether a place is one of these.
fn is_among(place: u32, places: &[u32]) -> bool
    ensures { result ≡ holds place places.now }
{
    for other in places {
        if *other == place {
            return true;
        }
    }
    false
}

// The count with a place before others, of which there are so many.
fn counted_with(place: u32, behind: &[u32], count: u32) -> Result<u32, Memory>
    ensures { IfOk result (λ n. n ≡ cond (holds place behind.now) count (suc count)) }
{
    if is_among(place, behind) {
        return Ok(count);
    }
    sum(1, count)
}

/// How many places there are, each counted once.
pub(crate) fn distinct_count(places: &[u32]) -> Result<u32, Memory>
    ensures { IfOk result (λ n. n ≡ length (distinct places.now)) }
{
    let mut all = 0;
    let mut number = places.len();
    while number > 0 {
        let behind = &places[number..];
        number -= 1;
        all = counted_with(places[number], behind, all)?;
    }
    Ok(all)
}
