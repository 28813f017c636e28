//! Literals as patterns.
ghost use Rattle.std.specs.Prelude.{◌≡◌, ◌∷◌, IfOk, true};
ghost use Rattle.typed_tree.specs.PatternView.{literal_part};
ghost use Rattle.pattern_coverage.specs.Cutting.{piece};
ghost use Rattle.pattern_coverage.specs.Inhabited.{in_table};
ghost use Rattle.pattern_coverage.specs.Leaves.{remains};
ghost use Rattle.pattern_coverage.specs.Known.{Holds, Is, IsNot, Unknown};
ghost use Rattle.mo_coverage.specs.Openings.{besides_left, if_so, left, literal_cut};
ghost use Rattle.mo_coverage.specs.Pieces.{pieces_in};
ghost use Rattle.mo_coverage.specs.Shapes.{known, one_known};

use crate::leaves::{copy_part, is_among, is_leaf_of, remains, same_part};
use crate::pieces::{Piece, one, with_left};
use crate::shape::Shape;
use mo_num::{Bytes, Memory, Sequence};
use mo_types::{Datum, Node};
use pattern_coverage::is_in;
use std::alloc::Global;
use typed_tree::Literal;

/// The outermost part of a literal's value.
pub(crate) fn part_of(alloc: Global, literal: &Literal) -> Result<Datum, Memory>
    ensures { IfOk result (λ part. part ≡ literal_part literal.now) }
{
    match literal {
        Literal::Unit => Ok(Datum::Record(0)),
        Literal::Null => Ok(Datum::Null),
        Literal::Flag(flag) => Ok(Datum::Flag(*flag)),
        Literal::Number(number) => Ok(Datum::Number(*number)),
        Literal::Character(code) => Ok(Datum::Char(*code)),
        Literal::Text(text) => Ok(Datum::Text(Bytes::from_slice(alloc, text.as_slice())?)),
        Literal::Blob(blob) => Ok(Datum::Blob(Bytes::from_slice(alloc, blob.as_slice())?)),
        Literal::Actor(own) => Ok(Datum::Actor(own.copy())),
    }
}

#[tactic(auto, unfolding(crate::specs::Shapes::known))]
fn held(alloc: Global, there: bool) -> Result<Option<Shape>, Memory>
    ensures { IfOk result (λ left. one_known left ≡ if_so there (Holds Unknown)) }
{
    if there {
        Ok(Some(Shape::Holds(Box::new(alloc, Shape::Unknown)?)))
    } else {
        Ok(None)
    }
}

#[tactic(auto, unfolding(crate::specs::Shapes::known))]
fn other_literals(
    alloc: Global,
    part: Datum,
    met: Sequence<Datum>,
    node: &Node,
) -> Result<Option<Shape>, Memory>
    ensures { IfOk result (λ left. one_known left ≡ if_so (remains node.now (part ∷ met)) (IsNot (part ∷ met))) }
{
    let mut met = met.into_vec();
    met.insert(0, part)?;
    if remains(alloc, node, met.as_slice())? {
        Ok(Some(Shape::IsNot(Sequence::from_vec(met))))
    } else {
        Ok(None)
    }
}

// What is left besides this literal, and these.
fn besides(
    alloc: Global,
    table: &[bool],
    part: Datum,
    met: Sequence<Datum>,
    node: &Node,
) -> Result<Option<Shape>, Memory>
    ensures { IfOk result (λ left. one_known left ≡ besides_left (in_table table.now) part met node.now) }
{
    match node {
        Node::Opt(inside) => held(alloc, is_in(table, *inside)),
        _ => other_literals(alloc, part, met, node),
    }
}

// Of a literal that is none of these.
#[tactic(auto, unfolding(crate::specs::Shapes::known))]
fn cut_new(
    alloc: Global,
    table: &[bool],
    part: Datum,
    met: Sequence<Datum>,
    node: &Node,
) -> Result<Vec<Piece>, Memory>
    ensures { IfOk result (λ made. pieces_in made.items ≡ piece true (Is part) ∷ left (besides_left (in_table table.now) part met node.now)) }
{
    let known = Shape::Is(copy_part(alloc, &part)?);
    let left = besides(alloc, table, part, met, node)?;
    with_left(
        alloc,
        Piece {
            matched: true,
            known,
        },
        left,
    )
}

/// The pieces that a literal makes of values of a type.
#[tactic(auto, unfolding(crate::specs::Shapes::known))]
pub(crate) fn cut_literal(
    alloc: Global,
    table: &[bool],
    part: Datum,
    node: &Node,
    shape: Shape,
) -> Result<Vec<Piece>, Memory>
    ensures { IfOk result (λ made. pieces_in made.items ≡ literal_cut (in_table table.now) part node.now (known shape)) }
{
    match shape {
        Shape::Unknown => {
            if is_leaf_of(node, &part) {
                cut_new(alloc, table, part, Sequence::new(alloc), node)
            } else {
                one(alloc, false, Shape::Unknown)
            }
        }
        Shape::Is(other) => one(alloc, same_part(&part, &other), Shape::Is(other)),
        Shape::IsNot(met) => {
            if is_leaf_of(node, &part) && !is_among(&part, met.as_slice()) {
                cut_new(alloc, table, part, met, node)
            } else {
                one(alloc, false, Shape::IsNot(met))
            }
        }
        other => one(alloc, false, other),
    }
}
