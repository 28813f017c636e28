//! A list of names with an index.
ghost use Rattle.std.specs.Prelude.{◌≡◌, ◌++◌, ◌∷◌, ◌-◌, [], List, ℕ, ◌<◌, take, length, IfSome, IsSome, OnOk, OnErr, IfOk, Some, None, cond};
ghost use Rattle.std.specs.List.{list_any};
ghost use Rattle.std.specs.Str.{bytes_eq};
ghost use Rattle.indexmap.specs.IndexMap.{get_by};
ghost use Rattle.mo_name_table.specs.Places.{last_place, place_at, texts};

use crate::names::Names;
use indexmap::IndexMap;
use mo_num::Memory;
use mo_syntax::Name;
use std::alloc::Global;
use std::marker::Model;

/// A list of names with their places, which contracts see as the list of their bytes. The last place of a name is known in constant time.
#[derive(Drop)]
pub struct NameTable {
    alloc: Global,
    names: Vec<Name>,
    /// For each name of the list the last place before it at which the same name stands.
    hidden: Vec<Option<usize>>,
    /// For each name its last place in the list. A name that was taken away may have none.
    places: IndexMap<Vec<u8>, Option<usize>>,
}

impl Model for NameTable {
    ghost use Rattle.std.specs.Prelude.{List, ℕ};
    ghost use Rattle.mo_name_table.specs.Places.{Kept, place_at, texts};

    ghost Value = { List (List ℕ) };

    ghost view = { λ t. texts t.names.items };

    ghost invariant = { λ t. Kept (place_at t.places) t.hidden.items (texts t.names.items) };
}

/// The place that is kept for a name.
fn place_of(places: &IndexMap<Vec<u8>, Option<usize>>, name: &Name) -> Option<usize>
    ensures { result ≡ place_at places.now name.now.bytes }
{
    match places.get(name.as_slice()) {
        Some(place) => *place,
        None => None,
    }
}

/// Makes room for the place of a name. The places that are kept stay.
fn make_room(
    alloc: Global,
    places: &mut IndexMap<Vec<u8>, Option<usize>>,
    name: &Name,
) -> Result<(), Memory>
    ensures stay { (x : List ℕ) → place_at places.new x ≡ place_at places.old x }
    ensures room { OnOk result (IsSome (get_by (λ k. bytes_eq name.now.bytes k.items) places.new)) }
{
    if places.contains_key(name.as_slice()) {
        return Ok(());
    }
    let key = Vec::from_slice(alloc, name.as_slice())?;
    places.insert(key, None)?;
    Ok(())
}

/// Keeps a place for a name for which there is room.
fn keep(places: &mut IndexMap<Vec<u8>, Option<usize>>, name: &Name, place: Option<usize>)
    requires { IsSome (get_by (λ k. bytes_eq name.now.bytes k.items) places.old) }
    ensures { (x : List ℕ) → place_at places.new x ≡ cond (bytes_eq name.now.bytes x) place (place_at places.old x) }
{
    if let Some(kept) = places.get_mut(name.as_slice()) {
        *kept = place;
    }
}

/// Adds a name and the place that it hides. After an error both lists are as before.
fn push_both(
    names: &mut Vec<Name>,
    hidden: &mut Vec<Option<usize>>,
    name: Name,
    place: Option<usize>,
) -> Result<(), Memory>
    ensures names { OnOk result (names.new.items ≡ names.old.items ++ name ∷ []) }
    ensures hidden { OnOk result (hidden.new.items ≡ hidden.old.items ++ place ∷ []) }
    ensures same_names { OnErr result (names.new.items ≡ names.old.items) }
    ensures same_hidden { OnErr result (hidden.new.items ≡ hidden.old.items) }
{
    hidden.push(place)?;
    match names.push(name) {
        Ok(()) => Ok(()),
        Err(_) => {
            hidden.pop();
            Err(Memory)
        }
    }
}

impl NameTable {
    /// No names. Takes no memory.
    pub fn new(alloc: Global) -> NameTable
        ensures { result ≡ [] }
    {
        NameTable {
            alloc,
            names: Vec::new(alloc),
            hidden: Vec::new(alloc),
            places: IndexMap::new(alloc),
        }
    }

    /// The table of these names.
    pub fn from_names(alloc: Global, names: Names) -> Result<NameTable, Memory>
        ensures { IfOk result (λ made. made ≡ texts names) }
    {
        let mut table = NameTable::new(alloc);
        table.append(names)?;
        Ok(table)
    }

    /// The names in their order.
    pub fn as_slice(&self) -> &[Name]
        ensures { texts result.now ≡ self.now }
    {
        self.names.as_slice()
    }

    /// How many names there are.
    pub fn len(&self) -> usize
        ensures { result ≡ length self.now }
    {
        self.names.len()
    }

    /// The last place at which the name stands, counted from 0.
    pub fn find(&self, name: &Name) -> Option<usize>
        ensures last { result ≡ last_place self.now name.now.bytes }
        ensures within { IfSome result (λ place. place < length self.now) }
    {
        place_of(&self.places, name)
    }

    /// Whether the name is one of these.
    pub fn contains(&self, name: &Name) -> bool
        ensures { result ≡ list_any (λ y. bytes_eq name.now.bytes y) self.now }
    {
        self.find(name).is_some()
    }

    /// Adds a name at the end. After an error the names are as before.
    pub fn push(&mut self, name: Name) -> Result<(), Memory>
        ensures ok { OnOk result (self.new ≡ self.old ++ name.bytes ∷ []) }
        ensures err { OnErr result (self.new ≡ self.old) }
    {
        let place = self.names.len();
        let covered = place_of(&self.places, &name);
        make_room(self.alloc, &mut self.places, &name)?;
        push_both(&mut self.names, &mut self.hidden, name, covered)?;
        keep(&mut self.places, &self.names[place], Some(place));
        Ok(())
    }

    /// Adds a copy of a name at the end. After an error the names are as before.
    pub fn push_copy(&mut self, name: &Name) -> Result<(), Memory>
        ensures ok { OnOk result (self.new ≡ self.old ++ name.now.bytes ∷ []) }
        ensures err { OnErr result (self.new ≡ self.old) }
    {
        let copy = name.copy(self.alloc)?;
        self.push(copy)
    }

    /// Adds copies of names at the end.
    pub fn push_copies(&mut self, names: &[Name]) -> Result<(), Memory>
        ensures { OnOk result (self.new ≡ self.old ++ texts names.now) }
    {
        for name in names {
            self.push_copy(name)?;
        }
        Ok(())
    }

    /// Adds names at the end.
    pub fn append(&mut self, names: Names) -> Result<(), Memory>
        ensures { OnOk result (self.new ≡ self.old ++ texts names) }
    {
        for name in names.into_vec() {
            self.push(name)?;
        }
        Ok(())
    }

    /// Takes the last name away, if there is one. What it hid is found again.
    fn pop(&mut self)
        ensures { self.new ≡ take (length self.old - 1) self.old }
    {
        let uncovered = self.hidden.pop().unwrap_or(None);
        if let Some(name) = self.names.pop() {
            keep(&mut self.places, &name, uncovered);
        }
    }

    /// Keeps only the first names. Costs the names that are taken away.
    pub fn truncate(&mut self, len: usize)
        ensures { self.new ≡ take len self.old }
    {
        while self.len() > len {
            self.pop();
        }
    }
}
