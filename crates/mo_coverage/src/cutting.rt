//! Patterns cut what is known of a value into pieces: of each it is sure that the pattern matches all of its values, or none.
ghost use Rattle.std.specs.Prelude.{◌≡◌, ◌∷◌, [], IfOk, OnOk, ◌++◌, true, false, Some};
ghost use Rattle.typed_tree.specs.PatternView.{literal_pattern, pats, pattern, patterns};
ghost use Rattle.typed_tree.specs.Patterns.{Fields, NoPat, Parts};
ghost use Rattle.typed_tree.specs.ViewLaws.{labels_of, patterns_of};
ghost use Rattle.pattern_coverage.specs.Cutting.{cut, or_else};
ghost use Rattle.pattern_coverage.specs.Followed.{value_head};
ghost use Rattle.pattern_coverage.specs.Inhabited.{in_table};
ghost use Rattle.mo_coverage.specs.ColumnView.{column_in, columns_in};
ghost use Rattle.mo_coverage.specs.Columns.{column, cut_one, cut_typed, fields_cut, parts_cut};
ghost use Rattle.mo_coverage.specs.Opened.{opened_in};
ghost use Rattle.mo_coverage.specs.Openings.{pieces_of, wrap};
ghost use Rattle.mo_coverage.specs.Pieces.{pieces_in};
ghost use Rattle.mo_coverage.specs.Shapes.{all_known, known};

use crate::columns::{
    Column, Taken, add_spread, objects, one_column, take_object, take_part, take_tuple, tuples,
    unmatched,
};
use crate::literals::{cut_literal, part_of};
use crate::opening::{Opened, open_option, open_tag};
use crate::pieces::{Piece, add_all, add_left, add_wrapped, one};
use crate::shape::Shape;
use crate::tags::{seat_at, seat_of};
use mo_num::{Bytes, Memory};
use mo_types::{Field, Node, TypeGraph, TypeId};
use pattern_coverage::value_node;
use std::alloc::Global;
use typed_tree::{Literal, PatternField, PatternForm, TypedPattern};

fn cut_unit(
    alloc: Global,
    types: &TypeGraph,
    table: &[bool],
    id: TypeId,
    shape: Shape,
) -> Result<Vec<Piece>, Memory>
    ensures { IfOk result (λ made. pieces_in made.items ≡ cut (value_head types.now) (in_table table.now) (Parts NoPat) id (known shape)) }
{
    let _table = table;
    match value_node(types, id) {
        Some(Node::Tuple(ids)) => match take_tuple(alloc, ids.len(), shape)? {
            Taken::Parts(parts) => one(alloc, true, Shape::Parts(parts)),
            Taken::Other(other) => one(alloc, false, other),
        },
        _ => one(alloc, false, shape),
    }
}

#[tactic(auto, using(crate::proofs::Meets::literal_meets))]
fn cut_constant(
    alloc: Global,
    types: &TypeGraph,
    table: &[bool],
    literal: &Literal,
    id: TypeId,
    shape: Shape,
) -> Result<Vec<Piece>, Memory>
    ensures { IfOk result (λ made. pieces_in made.items ≡ cut (value_head types.now) (in_table table.now) (literal_pattern literal.now) id (known shape)) }
{
    match literal {
        Literal::Unit => cut_unit(alloc, types, table, id, shape),
        _ => {
            let part = part_of(alloc, literal)?;
            match value_node(types, id) {
                Some(node) => cut_literal(alloc, table, part, node, shape),
                None => cut_literal(alloc, table, part, &Node::Bottom, shape),
            }
        }
    }
}

/// The pieces that a pattern makes of the values of a type of which something is known. The recursion is as deep as the pattern,
/// which the parser bounds.
#[cycle(pattern)]
#[tactic(auto, unfolding(typed_tree::specs::PatternView::pattern, typed_tree::specs::PatternView::pattern_form, typed_tree::specs::ViewLaws::field))]
pub(crate) fn cut(
    alloc: Global,
    types: &TypeGraph,
    table: &[bool],
    typed: &TypedPattern,
    id: TypeId,
    shape: Shape,
) -> Result<Vec<Piece>, Memory>
    ensures { IfOk result (λ made. pieces_in made.items ≡ cut (value_head types.now) (in_table table.now) (pattern typed.now) id (known shape)) }
{
    match typed.form.get() {
        PatternForm::Wildcard | PatternForm::Bind => one(alloc, true, shape),
        PatternForm::Constant(literal) => cut_constant(alloc, types, table, literal, id, shape),
        PatternForm::Present(inside) => {
            let opened = open_option(types, table, id, shape);
            cut_opened(alloc, types, table, inside, &None, opened)
        }
        PatternForm::Tagged(label, payload) => {
            let opened = open_tag(alloc, types, table, label, id, shape)?;
            let tag = Some(Bytes::from_slice(alloc, label.as_slice())?);
            cut_opened(alloc, types, table, payload, &tag, opened)
        }
        PatternForm::Parts(parts) => { cut_tuple(alloc, types, table, parts.as_slice(), id, shape) }
        PatternForm::Fields(fields) => {
            cut_object(alloc, types, table, fields.as_slice(), id, shape)
        }
        PatternForm::Either(first, second) => {
            let pieces = cut(alloc, types, table, first, id, shape)?;
            cut_others(alloc, types, table, second, id, pieces)
        }
    }
}

// What is opened, with the part inside cut.
#[cycle(pattern)]
fn cut_opened(
    alloc: Global,
    types: &TypeGraph,
    table: &[bool],
    typed: &TypedPattern,
    tag: &Option<Bytes>,
    opened: Opened,
) -> Result<Vec<Piece>, Memory>
    ensures { IfOk result (λ made. pieces_in made.items ≡ pieces_of (λ u j. cut (value_head types.now) (in_table table.now) (pattern typed.now) u j) (wrap tag.now) (opened_in opened)) }
{
    let Opened {
        before,
        inside,
        after,
    } = opened;
    let mut pieces = Vec::new(alloc);
    add_left(before, &mut pieces)?;
    match inside {
        Some((id, shape)) => {
            let inside = cut(alloc, types, table, typed, id, shape)?;
            add_wrapped(alloc, tag, inside, &mut pieces)?;
            add_left(after, &mut pieces)?;
            Ok(pieces)
        }
        None => {
            add_left(after, &mut pieces)?;
            Ok(pieces)
        }
    }
}

// Of the pieces those that do not match are cut by a further pattern.
#[cycle(pattern)]
fn cut_others(
    alloc: Global,
    types: &TypeGraph,
    table: &[bool],
    typed: &TypedPattern,
    id: TypeId,
    pieces: Vec<Piece>,
) -> Result<Vec<Piece>, Memory>
    ensures { IfOk result (λ made. pieces_in made.items ≡ or_else (pieces_in pieces.items) (λ j. cut (value_head types.now) (in_table table.now) (pattern typed.now) id j)) }
{
    let mut made = Vec::new(alloc);
    for piece in pieces {
        if piece.matched {
            made.push(piece)?;
        } else {
            let others = cut(alloc, types, table, typed, id, piece.known)?;
            add_all(others, &mut made)?;
        }
    }
    Ok(made)
}

#[cycle(pattern)]
fn cut_tuple(
    alloc: Global,
    types: &TypeGraph,
    table: &[bool],
    parts: &[TypedPattern],
    id: TypeId,
    shape: Shape,
) -> Result<Vec<Piece>, Memory>
    ensures { IfOk result (λ made. pieces_in made.items ≡ cut (value_head types.now) (in_table table.now) (Parts (patterns parts.now)) id (known shape)) }
{
    match value_node(types, id) {
        Some(Node::Tuple(ids)) => match take_tuple(alloc, ids.len(), shape)? {
            Taken::Parts(known) => {
                let columns = one_column(alloc, known)?;
                let columns = cut_parts(alloc, types, table, parts, ids.as_slice(), columns)?;
                tuples(alloc, columns)
            }
            Taken::Other(other) => one(alloc, false, other),
        },
        _ => one(alloc, false, shape),
    }
}

#[cycle(pattern)]
fn cut_object(
    alloc: Global,
    types: &TypeGraph,
    table: &[bool],
    parts: &[PatternField],
    id: TypeId,
    shape: Shape,
) -> Result<Vec<Piece>, Memory>
    ensures { IfOk result (λ made. pieces_in made.items ≡ cut (value_head types.now) (in_table table.now) (Fields (labels_of parts.now) (pats (patterns_of parts.now))) id (known shape)) }
{
    match value_node(types, id) {
        Some(Node::Object(fields)) => match take_object(alloc, fields.len(), shape)? {
            Taken::Parts(known) => {
                let columns = one_column(alloc, known)?;
                let columns = cut_fields(alloc, types, table, parts, fields.as_slice(), columns)?;
                objects(alloc, fields.as_slice(), columns)
            }
            Taken::Other(other) => one(alloc, false, other),
        },
        _ => one(alloc, false, shape),
    }
}

// The columns cut by a pattern for each part.
#[cycle(pattern)]
fn cut_parts(
    alloc: Global,
    types: &TypeGraph,
    table: &[bool],
    parts: &[TypedPattern],
    ids: &[TypeId],
    columns: Vec<Column>,
) -> Result<Vec<Column>, Memory>
    ensures { IfOk result (λ made. columns_in made.items ≡ parts_cut (value_head types.now) (in_table table.now) (patterns parts.now) 0 ids.now (columns_in columns.items)) }
{
    let mut columns = columns;
    for (place, part) in parts.iter().enumerate() {
        columns = cut_seat(
            alloc,
            types,
            table,
            part,
            seat_at(ids, place),
            true,
            columns,
        )?;
    }
    Ok(columns)
}

#[cycle(pattern)]
#[tactic(auto, unfolding(typed_tree::specs::PatternView::pattern, typed_tree::specs::ViewLaws::field))]
fn cut_fields(
    alloc: Global,
    types: &TypeGraph,
    table: &[bool],
    parts: &[PatternField],
    fields: &[Field],
    columns: Vec<Column>,
) -> Result<Vec<Column>, Memory>
    ensures { IfOk result (λ made. columns_in made.items ≡ fields_cut (value_head types.now) (in_table table.now) (labels_of parts.now) (pats (patterns_of parts.now)) fields.now (columns_in columns.items)) }
{
    let mut columns = columns;
    for part in parts {
        let seat = seat_of(fields, part.label.as_slice());
        columns = cut_seat(alloc, types, table, &part.pattern, seat, false, columns)?;
    }
    Ok(columns)
}

// The columns with the part at a seat cut, if there is one; whether none matches where nothing is known of the place.
#[cycle(pattern)]
fn cut_seat(
    alloc: Global,
    types: &TypeGraph,
    table: &[bool],
    typed: &TypedPattern,
    seat: Option<(usize, TypeId)>,
    strict: bool,
    columns: Vec<Column>,
) -> Result<Vec<Column>, Memory>
    ensures { IfOk result (λ made. columns_in made.items ≡ cut_typed (λ u j. cut (value_head types.now) (in_table table.now) (pattern typed.now) u j) strict seat (columns_in columns.items)) }
{
    match seat {
        Some((place, id)) => {
            let mut made = Vec::new(alloc);
            for column in columns {
                cut_one(
                    alloc, types, table, typed, place, id, strict, column, &mut made,
                )?;
            }
            Ok(made)
        }
        None => unmatched(alloc, columns),
    }
}

#[cycle(pattern)]
fn cut_one(
    alloc: Global,
    types: &TypeGraph,
    table: &[bool],
    typed: &TypedPattern,
    place: usize,
    id: TypeId,
    strict: bool,
    column: Column,
    columns: &mut Vec<Column>,
) -> Result<(), Memory>
    ensures { OnOk result (columns_in columns.new.items ≡ columns_in columns.old.items ++ cut_one (λ j. cut (value_head types.now) (in_table table.now) (pattern typed.now) id j) strict place (column_in column)) }
{
    let Column { matched, mut parts } = column;
    if !matched {
        columns.push(Column { matched, parts })?;
        return Ok(());
    }
    match take_part(&mut parts, place) {
        Some(shape) => {
            let pieces = cut(alloc, types, table, typed, id, shape)?;
            add_spread(alloc, place, parts, pieces, columns)
        }
        None => {
            if strict {
                columns.push(Column {
                    matched: false,
                    parts,
                })?;
                return Ok(());
            }
            let pieces = cut(alloc, types, table, typed, id, Shape::Unknown)?;
            add_spread(alloc, place, parts, pieces, columns)
        }
    }
}
