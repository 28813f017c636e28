//! A literal and a tag that are left.
ghost use Rattle.std.specs.Prelude.{◌≡◌, suc, IfOk, length};
ghost use Rattle.std.specs.Option.{option_copied};
ghost use Rattle.mo_values.specs.Parts.{is_in_range};
ghost use Rattle.pattern_coverage.specs.Inhabited.{in_table};
ghost use Rattle.pattern_coverage.specs.Leaves.{is_among};
ghost use Rattle.shape_patterns.specs.Choice.{first_left, is_small_left, literal_left, numbered, small_left, tag_left};

use mo_coverage::{is_among, is_label_among, is_literal_number, leaf_at};
use mo_num::{Bytes, Kind, Memory};
use mo_types::{Datum, Field, Node};
use pattern_coverage::is_in;
use std::alloc::Global;

fn is_in_range(kind: Kind, number: i128) -> bool
    ensures { result ≡ is_in_range kind number }
{
    kind.least() <= number && number <= kind.greatest()
}

// Whether the number is in the range and none of these.
fn is_small_left(kind: Kind, number: usize, parts: &[Datum]) -> bool
    ensures { result ≡ is_small_left kind number parts.now }
{
    let literal = Datum::Number(number as i128);
    let met = is_among(&literal, parts);
    is_in_range(kind, number as i128) && !met
}

// The first of 0, 1, 2 and so on that is.
fn small_left(kind: Kind, parts: &[Datum]) -> Option<Datum>
    ensures { result ≡ small_left kind (suc (length parts.now)) 0 parts.now }
{
    let count = parts.len();
    for number in 0..count {
        if is_small_left(kind, number, parts) {
            return Some(Datum::Number(number as i128));
        }
    }
    if is_small_left(kind, count, parts) {
        return Some(Datum::Number(count as i128));
    }
    None
}

// The literal of the type with this number, where there are so many.
fn numbered(alloc: Global, node: &Node, number: usize) -> Result<Datum, Memory>
    ensures { IfOk result (λ made. made ≡ numbered node.now number) }
{
    if is_literal_number(node, number) {
        leaf_at(alloc, node, number)
    } else {
        Ok(Datum::Null)
    }
}

// Whether the literal with this number is one of these.
fn is_met(alloc: Global, node: &Node, number: usize, parts: &[Datum]) -> Result<bool, Memory>
    ensures { IfOk result (λ met. met ≡ is_among (numbered node.now number) parts.now) }
{
    let literal = numbered(alloc, node, number)?;
    Ok(is_among(&literal, parts))
}

// The first literal of the type that is none of these.
fn first_left(alloc: Global, node: &Node, parts: &[Datum]) -> Result<Datum, Memory>
    ensures { IfOk result (λ made. made ≡ first_left node.now (length parts.now) 0 parts.now) }
{
    let count = parts.len();
    for number in 0..count {
        if !is_met(alloc, node, number, parts)? {
            return numbered(alloc, node, number);
        }
    }
    numbered(alloc, node, count)
}

/// A literal of the type that is none of these, where one is left: of numbers the least that is not negative, if there is one.
pub(crate) fn literal_left(alloc: Global, node: &Node, parts: &[Datum]) -> Result<Datum, Memory>
    ensures { IfOk result (λ made. made ≡ literal_left node.now parts.now) }
{
    let small = match node {
        Node::Number(kind) => small_left(*kind, parts),
        _ => None,
    };
    match small {
        Some(literal) => Ok(literal),
        None => first_left(alloc, node, parts),
    }
}

/// The first tag with values that is none of these.
pub(crate) fn tag_left<'a>(table: &[bool], tags: &'a [Field], labels: &[Bytes]) -> Option<&'a Field>
    ensures { option_copied result ≡ tag_left (in_table table.now) tags.now labels.now }
{
    for tag in tags {
        if is_in(table, tag.part) && !is_label_among(tag.label.as_slice(), labels) {
            return Some(tag);
        }
    }
    None
}
