//! The rules on names and lists of names.
ghost use Rattle.std.specs.Prelude.{◌≡◌, ◌==◌, length, ◌∷◌, ◌++◌, [], not, Bool, Option, List, ℕ, OnOk, IfOk, nat_eq};
ghost use Rattle.std.specs.List.{list_any, flat_map};
ghost use Rattle.mo_types.specs.Label.{label_id};
ghost use Rattle.mo_scopes.specs.Findings.{contains, begins_reserved, digits_and_mark, is_position, broken_where, identifier, label, behind, together, has_number, with_number, numbered_behind, labels, used, each_identifier, each_label};

use crate::finding::{Finding, Findings};
use crate::meaning::Meaning;
use crate::rule::{Breach, Rule};
use indexmap::IndexSet;
use mo_name_table::NameTable;
use mo_num::Memory;
use mo_syntax::{Name, Place};
use mo_types::label_id;
use std::alloc::Global;

fn begins_reserved(name: &[u8]) -> bool
    ensures { result ≡ begins_reserved name.now }
{
    match name {
        [first, second, ..] => *first == b'_' && *second == b'_',
        _ => false,
    }
}

fn digits_and_mark(name: &[u8]) -> bool
    ensures { result ≡ digits_and_mark name.now }
{
    for index in 0..name.len() {
        if !name[index].is_ascii_digit() {
            return name[index] == b'_' && index + 1 == name.len();
        }
    }
    false
}

fn is_position(name: &[u8]) -> bool
    ensures { result ≡ is_position name.now }
{
    match name {
        [first, digit, rest @ ..] => {
            *first == b'_' && digit.is_ascii_digit() && digits_and_mark(rest)
        }
        _ => false,
    }
}

/// Adds that the rule is broken at the place, where it is.
pub fn broken_where(
    is_broken: bool,
    rule: Rule,
    place: Place,
    found: &mut Findings,
) -> Result<(), Memory>
    ensures { OnOk result (found.new ≡ found.old ++ broken_where is_broken rule place) }
{
    if is_broken {
        found.push(Finding::Breach(Breach { rule, place }))
    } else {
        Ok(())
    }
}

/// The rule on a name.
pub fn identifier(name: &Name, found: &mut Findings) -> Result<(), Memory>
    ensures { OnOk result (found.new ≡ found.old ++ identifier name.now) }
{
    broken_where(
        begins_reserved(name.as_slice()),
        Rule::Reserved,
        name.place(),
        found,
    )
}

/// The rule on a label of an object, variant or actor.
pub fn label(name: &Name, found: &mut Findings) -> Result<(), Memory>
    ensures { OnOk result (found.new ≡ found.old ++ label name.now) }
{
    broken_where(
        begins_reserved(name.as_slice()) || is_position(name.as_slice()),
        Rule::Reserved,
        name.place(),
        found,
    )
}

/// The use of a name: its meaning, or that it has none.
pub fn used(meaning: Option<Meaning>, name: &Name, found: &mut Findings) -> Result<(), Memory>
    ensures { OnOk result (found.new ≡ found.old ++ used meaning name.now) }
{
    match meaning {
        Some(meaning) => found.push(Finding::Meaning(meaning)),
        None => broken_where(true, Rule::Unknown, name.place(), found),
    }
}

pub fn each_identifier(names: &[Name], found: &mut Findings) -> Result<(), Memory>
    ensures { OnOk result (found.new ≡ found.old ++ each_identifier names.now) }
{
    for name in names {
        identifier(name, found)?;
    }
    Ok(())
}

pub fn each_label(names: &[Name], found: &mut Findings) -> Result<(), Memory>
    ensures { OnOk result (found.new ≡ found.old ++ each_label names.now) }
{
    for name in names {
        label(name, found)?;
    }
    Ok(())
}

/// Adds a copy of a name, and says whether the name was there.
fn note_name(front: &mut NameTable, name: &Name) -> Result<bool, Memory>
    ensures was { IfOk result (λ was. was ≡ contains front.old name.now.bytes) }
    ensures added { OnOk result (front.new ≡ front.old ++ name.now.bytes ∷ []) }
{
    let was = front.contains(name);
    front.push_copy(name)?;
    Ok(was)
}

/// The rule on the names that one list, pattern or type binds, broken at each that stands earlier in the list too.
pub fn together(alloc: Global, names: &[Name], found: &mut Findings) -> Result<(), Memory>
    ensures { OnOk result (found.new ≡ found.old ++ together names.now) }
{
    let mut front = NameTable::new(alloc);
    for name in names {
        let is_there = note_name(&mut front, name)?;
        broken_where(is_there, Rule::Twice, name.place(), found)?;
    }
    Ok(())
}

/// Adds a number, and says whether it was there.
fn note_number(front: &mut IndexSet<u32>, number: u32) -> Result<bool, Memory>
    ensures was { IfOk result (λ was. was ≡ has_number front.old.keys number) }
    ensures keys { OnOk result (front.new.keys ≡ with_number front.old.keys number) }
{
    let is_new = front.insert(number)?;
    Ok(!is_new)
}

/// The rule on the labels of one object, variant or actor, broken at each whose number stands earlier in the list too.
pub fn labels(alloc: Global, names: &[Name], found: &mut Findings) -> Result<(), Memory>
    ensures { OnOk result (found.new ≡ found.old ++ labels names.now) }
{
    let mut front = IndexSet::new(alloc);
    for name in names {
        let clashes = note_number(&mut front, label_id(name.as_slice()))?;
        broken_where(clashes, Rule::LabelClash, name.place(), found)?;
    }
    Ok(())
}
