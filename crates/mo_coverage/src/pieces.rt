//! Pieces of the values of a type.
ghost use Rattle.std.specs.Prelude.{◌≡◌, ◌∷◌, ◌++◌, [], IfOk, OnOk};
ghost use Rattle.pattern_coverage.specs.Cutting.{around, piece};
ghost use Rattle.pattern_coverage.specs.Known.{Holds, Under};
ghost use Rattle.mo_coverage.specs.Openings.{wrap};
ghost use Rattle.mo_coverage.specs.Pieces.{left_in, piece_in, pieces_in};
ghost use Rattle.mo_coverage.specs.Shapes.{known};

use crate::shape::Shape;
use mo_num::{Bytes, Memory};
use std::alloc::Global;

/// Values of which this is known: a pattern matches all of them, or none.
#[derive(Drop)]
pub(crate) struct Piece {
    pub matched: bool,
    pub known: Shape,
}

/// A piece alone.
pub(crate) fn one(alloc: Global, matched: bool, shape: Shape) -> Result<Vec<Piece>, Memory>
    ensures { IfOk result (λ made. pieces_in made.items ≡ piece matched (known shape) ∷ []) }
{
    let mut made = Vec::new(alloc);
    made.push(Piece {
        matched,
        known: shape,
    })?;
    Ok(made)
}

/// A piece, and one that is not matched, if there is one.
pub(crate) fn with_left(
    alloc: Global,
    piece: Piece,
    left: Option<Shape>,
) -> Result<Vec<Piece>, Memory>
    ensures { IfOk result (λ made. pieces_in made.items ≡ piece_in piece ∷ left_in left) }
{
    let mut made = Vec::new(alloc);
    made.push(piece)?;
    if let Some(known) = left {
        made.push(Piece {
            matched: false,
            known,
        })?;
    }
    Ok(made)
}

/// Adds a piece that is not matched, if there is one.
pub(crate) fn add_left(left: Option<Shape>, pieces: &mut Vec<Piece>) -> Result<(), Memory>
    ensures { OnOk result (pieces_in pieces.new.items ≡ pieces_in pieces.old.items ++ left_in left) }
{
    if let Some(known) = left {
        pieces.push(Piece {
            matched: false,
            known,
        })?;
    }
    Ok(())
}

/// Adds pieces of what an option holds.
#[tactic(auto, unfolding(crate::specs::Shapes::known), using(crate::proofs::Added::one_added))]
pub(crate) fn add_held(
    alloc: Global,
    inside: Vec<Piece>,
    pieces: &mut Vec<Piece>,
) -> Result<(), Memory>
    ensures { OnOk result (pieces_in pieces.new.items ≡ pieces_in pieces.old.items ++ around Holds (pieces_in inside.items)) }
{
    for piece in inside {
        let Piece { matched, known } = piece;
        let known = Shape::Holds(Box::new(alloc, known)?);
        pieces.push(Piece { matched, known })?;
    }
    Ok(())
}

/// Adds pieces of what stands under a tag.
#[tactic(auto, unfolding(crate::specs::Shapes::known), using(crate::proofs::Added::one_added))]
pub(crate) fn add_under(
    alloc: Global,
    label: &Bytes,
    inside: Vec<Piece>,
    pieces: &mut Vec<Piece>,
) -> Result<(), Memory>
    ensures { OnOk result (pieces_in pieces.new.items ≡ pieces_in pieces.old.items ++ around (Under label.now) (pieces_in inside.items)) }
{
    for piece in inside {
        let Piece { matched, known } = piece;
        let label = Bytes::from_slice(alloc, label.as_slice())?;
        let known = Shape::Under(label, Box::new(alloc, known)?);
        pieces.push(Piece { matched, known })?;
    }
    Ok(())
}

/// Adds the same pieces.
pub(crate) fn add_all(more: Vec<Piece>, pieces: &mut Vec<Piece>) -> Result<(), Memory>
    ensures { OnOk result (pieces.new.items ≡ pieces.old.items ++ more.items) }
{
    for piece in more {
        pieces.push(piece)?;
    }
    Ok(())
}

/// Adds pieces of what stands under a tag, or of what an option holds.
pub(crate) fn add_wrapped(
    alloc: Global,
    tag: &Option<Bytes>,
    inside: Vec<Piece>,
    pieces: &mut Vec<Piece>,
) -> Result<(), Memory>
    ensures { OnOk result (pieces_in pieces.new.items ≡ pieces_in pieces.old.items ++ around (wrap tag.now) (pieces_in inside.items)) }
{
    match tag {
        Some(label) => add_under(alloc, label, inside, pieces),
        None => add_held(alloc, inside, pieces),
    }
}
