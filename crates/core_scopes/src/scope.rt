//! Scopes.
ghost use Rattle.std.specs.Prelude.{◌≡◌, ◌≤◌, ◌+◌, ◌-◌, ◌∷◌, ◌++◌, [], suc, length, map, List, ℕ, OnOk, IfOk};
ghost use Rattle.core_ir.specs.View.{expression, goal};
ghost use Rattle.elaboration.specs.Checks.{Checked, behind, locals};
ghost use Rattle.elaboration.specs.Scopes as scopes;
ghost use Rattle.core_scopes.specs.Seen.{IsMark, IsWithin, seen_place, scope};

use crate::exits::Exits;
use crate::place::{Place, at_place, between};
use crate::stack::Stack;
use core_ir::{Expression, Goal};
use mo_num::Memory;
use std::alloc::Global;
use std::marker::Model;
use std::mem;

/// How many names and labels there were.
#[derive(Clone, Copy)]
pub struct Mark {
    places: usize,
    names: u32,
    exits: usize,
    labels: u32,
}

/// Where the names and labels of the source are, as contracts see it.
pub struct Scope {
    alloc: Global,
    places: Stack<Place>,
    names: u32,
    exits: Exits,
    labels: u32,
}

// Written here, so that it is proved here, and not again in each crate that lets scopes go.
impl Drop for Scope {
    fn drop(self) {
        let Scope {
            alloc: _alloc,
            places: _places,
            names: _names,
            exits: _exits,
            labels: _labels,
        } = self;
    }
}

impl Model for Scope {
    ghost use Rattle.core_scopes.specs.Seen.{scope};
    ghost use Rattle.elaboration.specs.Scopes.{Scope};

    ghost Value = { Scope };

    ghost view = { λ s. scope s.places s.names s.exits s.labels };
}

// There are never so many names or labels that their number is none of 32 bits.
fn more(all: u32, further: u32) -> Result<u32, Memory>
    ensures { IfOk result (λ sum. sum ≡ further + all) }
{
    match all.checked_add(further) {
        Some(sum) => Ok(sum),
        None => Err(Memory),
    }
}

// The names from the first level up to the end, each before the next.
fn add_locals(places: &mut Stack<Place>, first: u32, end: u32) -> Result<(), Memory>
    requires { first ≤ end }
    ensures { OnOk result (map seen_place places.new ≡ scopes.places_from first (end - first) ++ map seen_place places.old) }
{
    for level in first..end {
        places.push(Place::Local(level))?;
    }
    Ok(())
}

// The names at these levels, the first one nearest.
fn add_bound(places: &mut Stack<Place>, bound: &[u32]) -> Result<(), Memory>
    ensures { OnOk result (map seen_place places.new ≡ locals bound.now ++ map seen_place places.old) }
{
    for level in bound.iter().rev().copied() {
        places.push(Place::Local(level))?;
    }
    Ok(())
}

impl Scope {
    /// Outside everything. Takes no memory.
    pub fn new(alloc: Global) -> Scope
        ensures { result ≡ scope [] 0 [] 0 }
    {
        Scope {
            alloc,
            places: Stack::new(alloc),
            names: 0,
            exits: Exits::new(alloc),
            labels: 0,
        }
    }

    /// How many names there are in Core.
    pub fn names(&self) -> u32
        ensures { result ≡ self.now.names }
    {
        self.names
    }

    /// How many names of the source there are.
    pub fn places(&self) -> usize
        ensures { result ≡ length self.now.places }
    {
        self.places.len()
    }

    /// The value of a name of the source, which stands behind so many others.
    pub fn read_name(&self, index: u32) -> Result<Expression, Memory>
        ensures { IfOk result (λ made. expression made ≡ scopes.read_name self.now index) }
    {
        match self.places.get(index as usize) {
            Some(place) => at_place(self.alloc, self.names, place),
            None => at_place(self.alloc, self.names, Place::Nowhere),
        }
    }

    /// The jump out of the label of the source behind so many others, or out of the function.
    #[tactic(auto, unfolding(core_ir::specs::View::goal))]
    pub fn leaving(&self, label: u32) -> Goal
        ensures { goal result ≡ scopes.leaving self.now label }
    {
        match self.exits.get(label as usize) {
            Some(around) => Goal::Break(between(self.labels, around)),
            None => Goal::Return,
        }
    }

    /// A name of the source, the nearest, which is no further name of Core.
    pub fn push(&mut self, place: Place) -> Result<(), Memory>
        ensures { OnOk result (self.new ≡ record self.old { places = seen_place place ∷ self.old.places }) }
    {
        self.places.push(place)
    }

    /// So many further names of Core alone.
    pub fn go_beside(&mut self, names: u32) -> Result<(), Memory>
        ensures { OnOk result (self.new ≡ scopes.beside names self.old) }
    {
        self.names = more(self.names, names)?;
        Ok(())
    }

    /// A further label of Core alone.
    pub fn go_inside(&mut self) -> Result<(), Memory>
        ensures { OnOk result (self.new ≡ scopes.inside self.old) }
    {
        self.labels = more(self.labels, 1)?;
        Ok(())
    }

    /// A further label of both.
    pub fn add_label(&mut self) -> Result<(), Memory>
        ensures { OnOk result (self.new ≡ scopes.labelled self.old) }
    {
        let around = self.labels;
        self.labels = more(around, 1)?;
        self.exits.push(around)
    }

    /// So many further names of both.
    pub fn go_under(&mut self, count: u32) -> Result<(), Memory>
        ensures { OnOk result (self.new ≡ scopes.under count self.old) }
    {
        let first = self.names;
        let names = more(first, count)?;
        add_locals(&mut self.places, first, names)?;
        self.names = names;
        Ok(())
    }

    /// The names of the source at these levels, the nearest first, where there are so many names in Core.
    pub fn go_behind(&mut self, bound: &[u32], names: u32) -> Result<(), Memory>
        ensures { OnOk result (self.new ≡ record self.old { places = locals bound.now ++ self.old.places; names = names }) }
    {
        add_bound(&mut self.places, bound)?;
        self.names = names;
        Ok(())
    }

    /// The body of a function with so many parameters, where its group is in scope. It gives the labels around, which are not
    /// those of the body.
    pub fn enter_body(&mut self, parameters: u32) -> Result<Exits, Memory>
        ensures labels { IfOk result (λ exits. exits ≡ self.old.exits) }
        ensures body { OnOk result (self.new ≡ scopes.in_body parameters self.old) }
    {
        self.names = more(self.names, parameters)?;
        self.labels = 0;
        Ok(mem::replace(&mut self.exits, Exits::new(self.alloc)))
    }

    /// Behind the body, with the labels around.
    pub fn leave_body(&mut self, exits: Exits, labels: u32)
        ensures { self.new ≡ record self.old { exits = exits; labels = labels } }
    {
        self.exits = exits;
        self.labels = labels;
    }

    /// How many labels there are in Core.
    pub fn labels(&self) -> u32
        ensures { result ≡ self.now.labels }
    {
        self.labels
    }

    /// How many names and labels there are now.
    pub fn mark(&self) -> Mark
        ensures { IsMark result self.now }
    {
        Mark {
            places: self.places.len(),
            names: self.names,
            exits: self.exits.len(),
            labels: self.labels,
        }
    }

    /// As it was: the nearest names and labels are taken away.
    pub fn back(&mut self, mark: Mark)
        ensures within { (before : scopes.Scope) → IsMark mark before → IsWithin before self.old → self.new ≡ before }
        ensures labelled { (before : scopes.Scope) → IsMark mark before → self.old ≡ scopes.labelled before → self.new ≡ before }
        ensures inside { (before : scopes.Scope) → IsMark mark before → self.old ≡ scopes.inside before → self.new ≡ before }
        ensures beside { (before : scopes.Scope) (n : ℕ) → IsMark mark before → self.old ≡ scopes.beside n before → self.new ≡ before }
        ensures beside_inside { (before : scopes.Scope) (n : ℕ) → IsMark mark before → self.old ≡ scopes.beside n (scopes.inside before) → self.new ≡ before }
        ensures inside_beside { (before : scopes.Scope) (n : ℕ) → IsMark mark before → self.old ≡ scopes.inside (scopes.beside n before) → self.new ≡ before }
        ensures behind { (before : scopes.Scope) (c : Checked) → IsMark mark before → self.old ≡ behind c before → self.new ≡ before }
        ensures behind_beside { (before : scopes.Scope) (n : ℕ) (c : Checked) → IsMark mark before → self.old ≡ behind c (scopes.beside n before) → self.new ≡ before }
        ensures inside_behind { (before : scopes.Scope) (n : ℕ) (c : Checked) → IsMark mark before → self.old ≡ scopes.inside (behind c (scopes.beside n before)) → self.new ≡ before }
    {
        self.places.truncate(mark.places);
        self.names = mark.names;
        self.exits.truncate(mark.exits);
        self.labels = mark.labels;
    }
}
