//! The parts of tuples and objects, cut place by place.
ghost use Rattle.std.specs.Prelude.{◌≡◌, ◌∷◌, ◌++◌, [], IfOk, OnOk, length, slice_get, slice_set, true};
ghost use Rattle.mo_types.specs.Values.{copies};
ghost use Rattle.mo_values.specs.Messages.{labels};
ghost use Rattle.pattern_coverage.specs.Known.{Fields, Parts, Unknown};
ghost use Rattle.mo_coverage.specs.ColumnView.{column_in, columns_in, taking_in};
ghost use Rattle.mo_coverage.specs.Columns.{column, none_match, spread, take_object, take_tuple, wholes};
ghost use Rattle.mo_coverage.specs.Pieces.{pieces_in};
ghost use Rattle.mo_coverage.specs.Shapes.{all_known, known, one_known};

use crate::pieces::Piece;
use crate::shape::{Shape, copy_all};
use mo_num::{Bytes, Memory, Sequence};
use mo_types::Field;
use std::alloc::Global;
use std::mem;

/// What is known of the parts, and whether all that were cut match.
#[derive(Drop)]
pub(crate) struct Column {
    pub matched: bool,
    pub parts: Vec<Shape>,
}

/// What is known of the parts, or of the whole where that tells nothing of parts.
#[derive(Drop)]
pub(crate) enum Taken {
    Parts(Vec<Shape>),
    Other(Shape),
}

// The parts with this at a place, if there is one.
fn with_part(mut parts: Vec<Shape>, place: usize, mut shape: Shape) -> Vec<Shape>
    ensures { all_known result.items ≡ slice_set (all_known parts.items) place (known shape) }
{
    if place < parts.len() {
        mem::swap(&mut parts[place], &mut shape);
    }
    parts
}

fn put(parts: Vec<Shape>, place: usize, piece: Piece) -> Column
    ensures { column_in result ≡ column piece.matched (slice_set (all_known parts.items) place (known piece.known)) }
{
    let Piece { matched, known } = piece;
    Column {
        matched,
        parts: with_part(parts, place, known),
    }
}

/// What is known of the part at a place, which is forgotten there.
#[tactic(auto, unfolding(crate::specs::Shapes::known))]
pub(crate) fn take_part(parts: &mut Vec<Shape>, place: usize) -> Option<Shape>
    ensures taken { one_known result ≡ slice_get (all_known parts.old.items) place }
    ensures left { all_known parts.new.items ≡ slice_set (all_known parts.old.items) place Unknown }
{
    if place < parts.len() {
        Some(mem::replace(&mut parts[place], Shape::Unknown))
    } else {
        None
    }
}

/// Adds a column for each piece of the part at a place.
#[tactic(auto, using(crate::proofs::Lists::column_added))]
pub(crate) fn add_spread(
    alloc: Global,
    place: usize,
    parts: Vec<Shape>,
    pieces: Vec<Piece>,
    columns: &mut Vec<Column>,
) -> Result<(), Memory>
    ensures { OnOk result (columns_in columns.new.items ≡ columns_in columns.old.items ++ spread place (all_known parts.items) (pieces_in pieces.items)) }
{
    let mut front = pieces;
    let last = front.pop();
    for piece in front {
        let copied = copy_all(alloc, parts.as_slice())?;
        columns.push(put(copied, place, piece))?;
    }
    if let Some(piece) = last {
        columns.push(put(parts, place, piece))?;
    }
    Ok(())
}

/// The column with these parts, which matches.
pub(crate) fn one_column(alloc: Global, parts: Vec<Shape>) -> Result<Vec<Column>, Memory>
    ensures { IfOk result (λ made. columns_in made.items ≡ column true (all_known parts.items) ∷ []) }
{
    let mut made = Vec::new(alloc);
    made.push(Column {
        matched: true,
        parts,
    })?;
    Ok(made)
}

/// The same columns, of which none matches.
#[tactic(auto, using(crate::proofs::Lists::column_added))]
pub(crate) fn unmatched(alloc: Global, columns: Vec<Column>) -> Result<Vec<Column>, Memory>
    ensures { IfOk result (λ made. columns_in made.items ≡ none_match (columns_in columns.items)) }
{
    let mut made = Vec::new(alloc);
    for column in columns {
        let Column {
            matched: _matched,
            parts,
        } = column;
        made.push(Column {
            matched: false,
            parts,
        })?;
    }
    Ok(made)
}

/// Columns as pieces of tuples.
#[tactic(auto, unfolding(crate::specs::Shapes::known), using(crate::proofs::Added::one_added))]
pub(crate) fn tuples(alloc: Global, columns: Vec<Column>) -> Result<Vec<Piece>, Memory>
    ensures { IfOk result (λ made. pieces_in made.items ≡ wholes Parts (columns_in columns.items)) }
{
    let mut made = Vec::new(alloc);
    for column in columns {
        let Column { matched, parts } = column;
        let known = Shape::Parts(parts);
        made.push(Piece { matched, known })?;
    }
    Ok(made)
}

/// Columns as pieces of objects.
#[tactic(auto, unfolding(crate::specs::Shapes::known), using(crate::proofs::Added::one_added))]
pub(crate) fn objects(
    alloc: Global,
    fields: &[Field],
    columns: Vec<Column>,
) -> Result<Vec<Piece>, Memory>
    ensures { IfOk result (λ made. pieces_in made.items ≡ wholes (Fields (labels fields.now)) (columns_in columns.items)) }
{
    let mut made = Vec::new(alloc);
    for column in columns {
        let Column { matched, parts } = column;
        let known = Shape::Fields(labels_of(alloc, fields)?, parts);
        made.push(Piece { matched, known })?;
    }
    Ok(made)
}

fn labels_of(alloc: Global, fields: &[Field]) -> Result<Sequence<Bytes>, Memory>
    ensures { IfOk result (λ made. made ≡ labels fields.now) }
{
    let mut made = Sequence::new(alloc);
    for field in fields {
        made.push(Bytes::from_slice(alloc, field.label.as_slice())?)?;
    }
    Ok(made)
}

#[tactic(auto, unfolding(crate::specs::Shapes::known))]
fn unknowns(alloc: Global, count: usize) -> Result<Vec<Shape>, Memory>
    ensures { IfOk result (λ made. all_known made.items ≡ copies count Unknown) }
{
    let mut made = Vec::new(alloc);
    while made.len() < count {
        made.push(Shape::Unknown)?;
    }
    Ok(made)
}

/// What is known of the parts of a tuple with so many parts.
#[tactic(auto, unfolding(crate::specs::Shapes::known), using(crate::proofs::Lists::list_back))]
pub(crate) fn take_tuple(alloc: Global, count: usize, shape: Shape) -> Result<Taken, Memory>
    ensures { IfOk result (λ taken. taking_in taken ≡ take_tuple count (known shape)) }
{
    match shape {
        Shape::Unknown => Ok(Taken::Parts(unknowns(alloc, count)?)),
        Shape::Parts(parts) => Ok(Taken::Parts(parts)),
        other => Ok(Taken::Other(other)),
    }
}

/// What is known of the parts of an object with so many fields.
#[tactic(auto, unfolding(crate::specs::Shapes::known), using(crate::proofs::Lists::list_back))]
pub(crate) fn take_object(alloc: Global, count: usize, shape: Shape) -> Result<Taken, Memory>
    ensures { IfOk result (λ taken. taking_in taken ≡ take_object count (known shape)) }
{
    match shape {
        Shape::Unknown => Ok(Taken::Parts(unknowns(alloc, count)?)),
        Shape::Fields(_, parts) => Ok(Taken::Parts(parts)),
        other => Ok(Taken::Other(other)),
    }
}
