//! What the names of a source mean, or the rule that is broken.
use crate::meanings::meaning_lines;
use crate::reading::tree_of;
use mo_names::{Finding, NameFault, find_names};
use mo_order::{first_misplaced, resolve};
use mo_syntax::Place;
use probe_base::Stop;
use std::alloc::{AllocError, Global};

/// The kind of a fault, and its place.
pub(crate) fn kind_and_place(fault: NameFault) -> Result<(&'static str, Place), Stop> {
    match fault {
        NameFault::Unknown(place) => Ok(("Name.Unknown", place)),
        NameFault::Twice(place) => Ok(("Name.Twice", place)),
        NameFault::UsedBeforeDefined(place) => Ok(("Name.UsedBeforeDefined", place)),
        NameFault::LabelClash(place) => Ok(("Name.LabelClash", place)),
        NameFault::Reserved(place) => Ok(("Name.Reserved", place)),
        NameFault::Memory => Err(Stop::Memory),
    }
}

fn put_place(alloc: Global, out: &mut String, place: Place) -> Result<(), AllocError> {
    let start = place.start;
    let end = place.end;
    out.push_str(format!(in alloc; "{start} {end}\n")?.as_str())
}

fn fault_line(alloc: Global, fault: NameFault) -> Result<String, Stop> {
    let (kind, place) = kind_and_place(fault)?;
    let mut out = format!(in alloc; "{kind} ")?;
    put_place(alloc, &mut out, place)?;
    Ok(out)
}

/// A line for each use of a name, or the fault.
pub(crate) fn names_of(alloc: Global, source: &[u8]) -> Result<String, Stop> {
    let tree = match tree_of(alloc, source)? {
        Ok(tree) => tree,
        Err(line) => return Ok(line),
    };
    match resolve(alloc, &tree) {
        Ok(named) => Ok(meaning_lines(alloc, named.as_slice())?),
        Err(fault) => fault_line(alloc, fault),
    }
}

// Whether a rule of scopes is broken, whatever the order of declarations.
fn has_breach(findings: &[Finding]) -> bool {
    findings
        .iter()
        .any(|finding| matches!(finding, Finding::Breach(_)))
}

/// Whether the rules of scopes are kept, and where a value is used before it is defined: each without regard to the other.
pub(crate) fn name_parts(alloc: Global, source: &[u8]) -> Result<String, Stop> {
    let tree = match tree_of(alloc, source)? {
        Ok(tree) => tree,
        Err(line) => return Ok(line),
    };
    let breach = has_breach(find_names(alloc, &tree)?.as_slice());
    let mut out = String::from_str(alloc, if breach { "broken, " } else { "kept, " })?;
    match first_misplaced(alloc, &tree)? {
        Some(place) => put_place(alloc, &mut out, place)?,
        None => out.push_str("in order\n")?,
    }
    Ok(out)
}
