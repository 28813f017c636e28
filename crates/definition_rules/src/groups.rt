//! Groups of definitions that use each other.
ghost use Rattle.std.specs.Prelude.{◌≡◌, ◌<◌, ◌∷◌, [], length, slice_get, IfOk, OnOk};
ghost use Rattle.mo_types.specs.Sub.{Each};
ghost use Rattle.type_terms.specs.Tables.{Founded};
ghost use Rattle.type_definitions.specs.Definitions.{Stand};
ghost use Rattle.definition_rules.specs.Uses.{Adds, AddsFrom, AddsParts, AddsUsed, AddsUsesAt, AddsUsesOf, AreWithin, LeadsTo, name_of};

use indexmap::IndexSet;
use mo_num::Memory;
use type_definitions::Definitions;
use type_terms::{Form, TermId, Terms};

/// Adds the types that are not there yet.
fn add_all(found: &mut IndexSet<TermId>, ids: &[TermId]) -> Result<(), Memory>
    ensures { OnOk result (Adds found.old.keys ids.now found.new.keys) }
{
    for id in ids {
        found.insert(*id)?;
    }
    Ok(())
}

/// Adds the parts of a type that are not there yet.
fn add_parts(terms: &Terms, found: &mut IndexSet<TermId>, id: TermId) -> Result<(), Memory>
    requires { id.index < length terms.now }
    ensures adds { OnOk result (AddsParts terms.now id found.old.keys found.new.keys) }
    ensures founded { OnOk result (Founded terms.now) }
{
    match terms.get_index(id.index() as usize) {
        Some(form) => {
            let parts = form.parts(terms.allocator())?;
            add_all(found, parts.as_slice())
        }
        None => unreachable!(),
    }
}

/// The types within a type, itself among them.
pub(crate) fn types_within(terms: &Terms, id: TermId) -> Result<IndexSet<TermId>, Memory>
    requires { id.index < length terms.now }
    ensures within { IfOk result (λ found. AreWithin terms.now id found.keys) }
    ensures inside { IfOk result (λ found. Each (λ a. a.index < length terms.now) found.keys) }
    ensures founded { OnOk result (Founded terms.now) }
{
    let mut found = IndexSet::new(terms.allocator());
    add_all(&mut found, &[id])?;
    add_parts(terms, &mut found, id)?;
    for place in 1..usize::MAX {
        match type_at(&found, place) {
            Some(within) => add_parts(terms, &mut found, within)?,
            None => return Ok(found),
        }
    }
    Err(Memory)
}

fn type_at(found: &IndexSet<TermId>, place: usize) -> Option<TermId>
    ensures { result ≡ slice_get found.now.keys place }
{
    found.get_index(place).copied()
}

fn add_name(names: &mut IndexSet<u32>, name: u32) -> Result<(), Memory>
    ensures { OnOk result (Adds names.old.keys (name ∷ []) names.new.keys) }
{
    names.insert(name)?;
    Ok(())
}

/// Adds the name that a type is a use of.
fn add_use(terms: &Terms, names: &mut IndexSet<u32>, id: TermId) -> Result<(), Memory>
    requires { id.index < length terms.now }
    ensures { OnOk result (Adds names.old.keys (name_of terms.now id) names.new.keys) }
{
    match terms.form(id) {
        Form::Use(name, _) => add_name(names, *name),
        _ => Ok(()),
    }
}

/// Adds the names that a type uses.
fn add_used(terms: &Terms, names: &mut IndexSet<u32>, id: TermId) -> Result<(), Memory>
    requires { id.index < length terms.now }
    ensures { OnOk result (AddsUsed terms.now id names.old.keys names.new.keys) }
{
    let found = types_within(terms, id)?;
    for within in found.as_slice() {
        add_use(terms, names, *within)?;
    }
    Ok(())
}

/// Adds the names that the definition of a name uses.
fn add_uses_of(
    terms: &Terms,
    definitions: &Definitions,
    names: &mut IndexSet<u32>,
    name: u32,
) -> Result<(), Memory>
    requires { Stand terms.now definitions.now }
    ensures { OnOk result (AddsUsesOf definitions.now terms.now name names.old.keys names.new.keys) }
{
    match definitions.find(name) {
        Some(definition) => add_used(terms, names, definition.right),
        None => Ok(()),
    }
}

fn name_at(names: &IndexSet<u32>, place: usize) -> Option<u32>
    ensures { result ≡ slice_get names.now.keys place }
{
    names.get_index(place).copied()
}

/// Adds the names that the definition of the name at a place uses.
fn add_uses_at(
    terms: &Terms,
    definitions: &Definitions,
    names: &mut IndexSet<u32>,
    place: usize,
) -> Result<(), Memory>
    requires { Stand terms.now definitions.now }
    ensures { OnOk result (AddsUsesAt definitions.now terms.now place names.old.keys names.new.keys) }
{
    match name_at(names, place) {
        Some(name) => add_uses_of(terms, definitions, names, name),
        None => Ok(()),
    }
}

/// Adds the names that the definitions of the names from a place on use, and gives the place behind the last of these.
fn add_round(
    terms: &Terms,
    definitions: &Definitions,
    names: &mut IndexSet<u32>,
    place: usize,
) -> Result<usize, Memory>
    requires { Stand terms.now definitions.now }
    ensures many { IfOk result (λ many. many ≡ length names.old.keys) }
    ensures adds { OnOk result (AddsFrom definitions.now terms.now place (length names.old.keys) names.old.keys names.new.keys) }
{
    let many = names.len();
    for i in place..many {
        add_uses_at(terms, definitions, names, i)?;
    }
    Ok(many)
}

/// Whether what a definition of this right side uses leads to a name.
pub(crate) fn leads_to(
    terms: &Terms,
    definitions: &Definitions,
    right: TermId,
    name: u32,
) -> Result<bool, Memory>
    requires stand { Stand terms.now definitions.now }
    requires within { right.index < length terms.now }
    ensures { IfOk result (LeadsTo definitions.now terms.now right name) }
{
    let mut names = IndexSet::new(terms.allocator());
    add_used(terms, &mut names, right)?;
    let mut place = 0;
    for _round in 0..definitions.types().len() {
        place = add_round(terms, definitions, &mut names, place)?;
    }
    Ok(names.contains(&name))
}
