//! Scopes of a body.
ghost use Rattle.std.specs.Prelude.{◌≡◌, ◌≤◌, ◌+◌, ◌++◌, ◌∷◌, [], length, slice_get, Some, IfOk, IfErr, OnOk, OnErr};
ghost use Rattle.core_ir.specs.ScopeNames.{EntriesFit, Jumps, name_at, named, names_at, outermost_names, scope_names};

use crate::code::Operand;
use crate::constant::Constant;
use crate::shared::Shared;
use mo_num::Memory;
use std::alloc::Global;
use std::marker::Model;

/// The names in the outermost scope of a body: its parameters, the functions of its group, and what the group sees.
#[derive(Clone, Copy, Debug, PartialEq, Eq)]
pub struct Outermost {
    pub parameters: u32,
    pub functions: u32,
    pub sees: u32,
}

impl Outermost {
    /// The operand that reads the name at this place; one that is not there reads `()`.
    pub fn name(&self, alloc: Global, place: usize) -> Result<Operand, Memory>
        ensures { IfOk result (λ operand. operand ≡ name_at (outermost_names self.now) place) }
    {
        let parameters = self.parameters as usize;
        if place < parameters {
            return Ok(Operand::Slot(place as u32));
        }
        let place = place - parameters;
        let functions = self.functions as usize;
        if place < functions {
            return Ok(Operand::Member(place as u32));
        }
        let place = place - functions;
        if place < self.sees as usize {
            return Ok(Operand::Captured(place as u32));
        }
        Ok(Operand::Constant(Shared::new(alloc, Constant::Unit)?))
    }
}

/// A scope: its nearest name, and the scope around that. The jump leads out past so many names, so that a name that is far away
/// is found in few steps.
#[derive(Drop)]
pub(crate) struct Entry {
    pub name: Operand,
    pub outer: u32,
    pub jump: u32,
    pub skip: u32,
}

/// The scopes of a body inside its outermost one, which contracts see as the lists of their names, the nearest first. Scope 0 has
/// none; the others are numbered from 1.
pub struct Scopes {
    entries: Vec<Entry>,
}

// Written here, so that it is proved here, and not again in each crate that lets scopes go.
impl Drop for Scopes {
    fn drop(self) {
        let Scopes { entries: _entries } = self;
    }
}

impl Model for Scopes {
    ghost use Rattle.std.specs.Prelude.{List};
    ghost use Rattle.core_ir.specs.declared.code.Operand.{Operand};
    ghost use Rattle.core_ir.specs.ScopeNames.{EntriesFit, named};

    ghost Value = { List (List Operand) };

    ghost view = { λ s. named s.entries.items };

    ghost invariant = { λ s. EntriesFit s.entries.items };
}

impl Scopes {
    /// The outermost scope alone. Takes no memory.
    pub fn new(alloc: Global) -> Scopes
        ensures { result ≡ [] }
    {
        Scopes {
            entries: Vec::new(alloc),
        }
    }

    /// Adds a scope of a name and all names of another scope, and gives its number.
    pub fn add(&mut self, name: Operand, outer: u32) -> Result<u32, Memory>
        requires { outer ≤ length self.old }
        ensures added { OnOk result (self.new ≡ self.old ++ (name ∷ names_at self.old outer) ∷ []) }
        ensures number { IfOk result (λ number. number ≡ length self.new) }
        ensures err { OnErr result (self.new ≡ self.old) }
    {
        let Ok(number) = u32::try_from(self.entries.len() + 1) else {
            return Err(Memory);
        };
        let (jump, skip) = jump_from(&self.entries, outer);
        self.entries.push(Entry {
            name,
            outer,
            jump,
            skip,
        })?;
        Ok(number)
    }

    /// The operand that reads the name at this place of a scope; one that is not there reads `()`.
    pub fn name(
        &self,
        alloc: Global,
        outermost: &Outermost,
        scope: u32,
        place: u32,
    ) -> Result<Operand, Memory>
        ensures { IfOk result (λ operand. operand ≡ name_at (scope_names self.now outermost.now scope) place) }
    {
        if scope as usize > self.entries.len() {
            return outermost.name(alloc, place as usize);
        }
        match find(&self.entries, scope, place) {
            Ok(name) => name.copy(),
            Err(beyond) => outermost.name(alloc, beyond as usize),
        }
    }
}

// Where a scope inside this one jumps to, and how many names it skips: as far as two jumps from here lead, if they are equally
// long, and else to this scope. So no name is more than a few jumps away.
fn jump_from(entries: &[Entry], outer: u32) -> (u32, u32)
    requires within { outer ≤ length entries.now }
    requires fit { EntriesFit entries.now }
    ensures { Jumps (named entries.now) outer result.0 result.1 }
{
    if outer == 0 {
        return (0, 1);
    }
    let near = &entries[outer as usize - 1];
    if near.jump == 0 {
        return (outer, 1);
    }
    let far = &entries[near.jump as usize - 1];
    if near.skip != far.skip || near.skip >= 0x7fff_ffff {
        return (outer, 1);
    }
    (far.jump, 1 + near.skip + far.skip)
}

// The name at this place of a scope, or the place beyond all names of the scope.
fn find(entries: &[Entry], scope: u32, place: u32) -> Result<&Operand, u32>
    requires within { scope ≤ length entries.now }
    requires fit { EntriesFit entries.now }
    ensures found { IfOk result (λ name. slice_get (names_at (named entries.now) scope) place ≡ Some name.now) }
    ensures beyond { IfErr result (λ left. place ≡ length (names_at (named entries.now) scope) + left) }
{
    let mut at = scope;
    let mut left = place;
    while at > 0 {
        let entry = &entries[at as usize - 1];
        if left == 0 {
            return Ok(&entry.name);
        }
        if entry.skip <= left {
            left -= entry.skip;
            at = entry.jump;
        } else {
            left -= 1;
            at = entry.outer;
        }
    }
    Err(left)
}
