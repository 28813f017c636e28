//! A list of names with an index.
ghost use Rattle.std.specs.Prelude.{◌≡◌, ◌++◌, ◌∷◌, ◌-◌, [], List, ℕ, ◌<◌, take, length, IfSome, IsSome, OnOk, OnErr, Some, None, cond};
ghost use Rattle.std.specs.Str.{bytes_eq};
ghost use Rattle.indexmap.specs.IndexMap.{get_by};
ghost use Rattle.mo_name_table.specs.Places.{last_place, place_at};

use indexmap::IndexMap;
use mo_num::{Bytes, Memory};
use std::alloc::Global;
use std::marker::Model;

/// A list of names, which contracts see as the list of their bytes. The last place of a name is known in constant time.
pub struct NamePlaces {
    alloc: Global,
    names: Vec<Bytes>,
    /// For each name of the list the last place before it at which the same name stands.
    hidden: Vec<Option<usize>>,
    /// For each name its last place in the list. A name that was taken away may have none.
    places: IndexMap<Vec<u8>, Option<usize>>,
}

// Written here, so that it is proved here, and not again in each crate that lets names go.
impl Drop for NamePlaces {
    fn drop(self) {
        let NamePlaces {
            alloc: _alloc,
            names: _names,
            hidden: _hidden,
            places: _places,
        } = self;
    }
}

impl Model for NamePlaces {
    ghost use Rattle.std.specs.Prelude.{List, ℕ};
    ghost use Rattle.mo_name_table.specs.Places.{Kept, place_at};

    ghost Value = { List (List ℕ) };

    ghost view = { λ t. t.names.items };

    ghost invariant = { λ t. Kept (place_at t.places) t.hidden.items t.names.items };
}

/// The place that is kept for a name.
fn place_of(places: &IndexMap<Vec<u8>, Option<usize>>, name: &[u8]) -> Option<usize>
    ensures { result ≡ place_at places.now name.now }
{
    match places.get(name) {
        Some(place) => *place,
        None => None,
    }
}

/// Makes room for the place of a name. The places that are kept stay.
fn make_room(
    alloc: Global,
    places: &mut IndexMap<Vec<u8>, Option<usize>>,
    name: &[u8],
) -> Result<(), Memory>
    ensures stay { (x : List ℕ) → place_at places.new x ≡ place_at places.old x }
    ensures room { OnOk result (IsSome (get_by (λ k. bytes_eq name.now k.items) places.new)) }
{
    if places.contains_key(name) {
        return Ok(());
    }
    let key = Vec::from_slice(alloc, name)?;
    places.insert(key, None)?;
    Ok(())
}

/// Keeps a place for a name for which there is room.
fn keep(places: &mut IndexMap<Vec<u8>, Option<usize>>, name: &[u8], place: Option<usize>)
    requires { IsSome (get_by (λ k. bytes_eq name.now k.items) places.old) }
    ensures { (x : List ℕ) → place_at places.new x ≡ cond (bytes_eq name.now x) place (place_at places.old x) }
{
    if let Some(kept) = places.get_mut(name) {
        *kept = place;
    }
}

/// Adds a name and the place that it hides. After an error both lists are as before.
fn push_both(
    names: &mut Vec<Bytes>,
    hidden: &mut Vec<Option<usize>>,
    name: Bytes,
    place: Option<usize>,
) -> Result<(), Memory>
    ensures names { OnOk result (names.new.items ≡ names.old.items ++ name ∷ []) }
    ensures hidden { OnOk result (hidden.new.items ≡ hidden.old.items ++ place ∷ []) }
    ensures same_names { OnErr result (names.new.items ≡ names.old.items) }
    ensures same_hidden { OnErr result (hidden.new.items ≡ hidden.old.items) }
{
    hidden.push(place)?;
    match names.push(name) {
        Ok(()) => Ok(()),
        Err(_) => {
            hidden.pop();
            Err(Memory)
        }
    }
}

impl NamePlaces {
    /// No names. Takes no memory.
    pub fn new(alloc: Global) -> NamePlaces
        ensures { result ≡ [] }
    {
        NamePlaces {
            alloc,
            names: Vec::new(alloc),
            hidden: Vec::new(alloc),
            places: IndexMap::new(alloc),
        }
    }

    /// How many names there are.
    pub fn len(&self) -> usize
        ensures { result ≡ length self.now }
    {
        self.names.len()
    }

    /// The last place at which the name stands, counted from 0.
    pub fn find(&self, name: &[u8]) -> Option<usize>
        ensures last { result ≡ last_place self.now name.now }
        ensures within { IfSome result (λ place. place < length self.now) }
    {
        place_of(&self.places, name)
    }

    /// Adds a copy of a name at the end. After an error the names are as before.
    pub fn push(&mut self, name: &[u8]) -> Result<(), Memory>
        ensures ok { OnOk result (self.new ≡ self.old ++ name.now ∷ []) }
        ensures err { OnErr result (self.new ≡ self.old) }
    {
        let place = self.names.len();
        let covered = place_of(&self.places, name);
        let copy = Bytes::from_slice(self.alloc, name)?;
        make_room(self.alloc, &mut self.places, name)?;
        push_both(&mut self.names, &mut self.hidden, copy, covered)?;
        keep(&mut self.places, name, Some(place));
        Ok(())
    }

    /// Takes the last name away, if there is one. What it hid is found again.
    pub fn pop(&mut self)
        ensures { self.new ≡ take (length self.old - 1) self.old }
    {
        let uncovered = self.hidden.pop().unwrap_or(None);
        if let Some(name) = self.names.pop() {
            keep(&mut self.places, name.as_slice(), uncovered);
        }
    }
}
