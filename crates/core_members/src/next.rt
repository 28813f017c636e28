//! `next` of iterators.
ghost use Rattle.std.specs.Prelude.{◌≡◌, suc, IfOk};
ghost use Rattle.core_ir.specs.Writing.{num};
ghost use Rattle.core_ir.specs.Expressions as tree;
ghost use Rattle.core_ir.specs.declared.constant.Constant.TheVariants as constant;
ghost use Rattle.core_ir.specs.declared.primitive.Primitive.TheVariants as primitive;
ghost use Rattle.core_ir.specs.View.{expression};
ghost use Rattle.mo_num.specs.declared.kind.Kind.TheVariants as kind;
ghost use Rattle.mo_num.specs.declared.operator.Operator.TheVariants as operator;
ghost use Rattle.mo_types.specs.declared.datum.Datum.TheVariants as part;
ghost use Rattle.mo_values.specs.declared.operation.Comparison.TheVariants as comparison;
ghost use Rattle.mo_values.specs.declared.operation.Operation.TheVariants as op;
ghost use Rattle.mo_values.specs.declared.operation.Scalar.TheVariants as scalar;
ghost use Rattle.elaboration.specs.Members as members;
ghost use Rattle.elaboration.specs.Scopes as scopes;
ghost use Rattle.core_members.specs.Seen.{seen_over, seen_picks};

use crate::form::Over;
use crate::operands::sum;
use core_ir::{Constant, Expression, Primitive, Shared};
use core_layers::{choice, does, first_function, let_in, one, operation, two};
use core_scopes::name_at;
use mo_num::{Bytes, Kind, Memory, Operator, Sequence};
use mo_syntax::Place;
use mo_types::Datum;
use mo_values::{Comparison, Operation, Scalar};
use std::alloc::Global;

/// What an iterator over an array gives for the next place.
#[derive(Clone, Copy, Debug, PartialEq, Eq)]
pub(crate) enum Picks {
    /// What the cell there holds.
    Cells,
    /// The element there.
    Elements,
    /// The place itself.
    Places,
}

#[tactic(auto, unfolding(core_ir::specs::View::expression))]
fn number(alloc: Global, number: u32) -> Result<Expression, Memory>
    ensures { IfOk result (λ made. expression made ≡ num number) }
{
    let part = Datum::Number(number as i128);
    Ok(Expression::Constant(Shared::new(alloc, Constant::Leaf(part))?))
}

// Of the array and the place in the names of these levels.
fn picked(
    alloc: Global,
    picks: Picks,
    names: u32,
    array: u32,
    place: u32,
) -> Result<Expression, Memory>
    ensures { IfOk result (λ made. expression made ≡ seen_picks picks (scopes.name names array) (scopes.name names place)) }
{
    match picks {
        Picks::Cells => {
            let both = two(alloc, name_at(names, array), name_at(names, place))?;
            let cell = operation(alloc, Operation::Element, both)?;
            does(alloc, Primitive::Read, one(alloc, cell)?)
        }
        Picks::Elements => {
            let both = two(alloc, name_at(names, array), name_at(names, place))?;
            operation(alloc, Operation::Element, both)
        }
        Picks::Places => Ok(name_at(names, place)),
    }
}

// Whether the array has the place.
fn has_place(alloc: Global, names: u32, array: u32, place: u32) -> Result<Expression, Memory>
    ensures { IfOk result (λ made. expression made ≡ members.does (primitive.Operate (op.Compare comparison.Less (scalar.Number kind.Nat))) (scopes.two (scopes.name names place) (members.does (primitive.Operate op.ArraySize) (scopes.one (scopes.name names array))))) }
{
    let size = operation(
        alloc,
        Operation::ArraySize,
        one(alloc, name_at(names, array))?,
    )?;
    let less = Operation::Compare(Comparison::Less, Scalar::Number(Kind::Nat));
    operation(alloc, less, two(alloc, name_at(names, place), size)?)
}

// The cell gets the place behind this one.
fn moved_on(alloc: Global, names: u32, cell: u32, place: u32) -> Result<Expression, Memory>
    ensures { IfOk result (λ made. expression made ≡ members.does primitive.Write (scopes.two (scopes.name names cell) (members.does (primitive.Operate (op.Arithmetic operator.Add kind.Nat)) (scopes.two (scopes.name names place) (num 1))))) }
{
    let more = operation(
        alloc,
        Operation::Arithmetic(Operator::Add, Kind::Nat),
        two(alloc, name_at(names, place), number(alloc, 1)?)?,
    )?;
    does(
        alloc,
        Primitive::Write,
        two(alloc, name_at(names, cell), more)?,
    )
}

#[tactic(auto, unfolding(core_ir::specs::View::expression))]
fn null(alloc: Global) -> Result<Expression, Memory>
    ensures { IfOk result (λ made. expression made ≡ tree.Constant? (constant.Leaf part.Null)) }
{
    Ok(Expression::Constant(Shared::new(alloc, Constant::Leaf(Datum::Null))?))
}

// The next value of an iterator over an array, in the names of these levels.
fn next_by(
    alloc: Global,
    place: Place,
    picks: Picks,
    names: u32,
    array: u32,
    cell: u32,
) -> Result<Expression, Memory>
    ensures { IfOk result (λ made. expression made ≡ members.next_by (seen_picks picks) names array cell) }
{
    let with_place = sum(1, names)?;
    let behind = sum(1, with_place)?;
    let value = picked(alloc, picks, behind, array, names)?;
    let found = operation(alloc, Operation::MakeOption, one(alloc, value)?)?;
    let moved = moved_on(alloc, with_place, cell, names)?;
    let goes_on = let_in(alloc, place, moved, found)?;
    let condition = has_place(alloc, with_place, array, names)?;
    let chosen = choice(
        alloc,
        place,
        Primitive::Copy,
        condition,
        goes_on,
        null(alloc)?,
    )?;
    let held = does(alloc, Primitive::Read, one(alloc, name_at(names, cell))?)?;
    let_in(alloc, place, held, chosen)
}

/// The next value of an iterator over what is in the name of the one level, with its place in the cell of the other.
pub(crate) fn next(
    alloc: Global,
    place: Place,
    over: Over,
    names: u32,
    whole: u32,
    cell: u32,
) -> Result<Expression, Memory>
    ensures { IfOk result (λ made. expression made ≡ members.next (seen_over over) names whole cell) }
{
    match over {
        Over::Elements => {
            let cells = next_by(alloc, place, Picks::Cells, names, whole, cell)?;
            let elements = next_by(alloc, place, Picks::Elements, names, whole, cell)?;
            choice(
                alloc,
                place,
                Primitive::IsMutable,
                name_at(names, whole),
                cells,
                elements,
            )
        }
        Over::Places => next_by(alloc, place, Picks::Places, names, whole, cell),
        Over::Characters => {
            let both = two(alloc, name_at(names, cell), name_at(names, whole))?;
            does(alloc, Primitive::NextChar, both)
        }
    }
}

/// An object whose one method is the first function of this group; the group sees a new cell with the first place.
pub(crate) fn iterator(alloc: Global, place: Place, group: u32) -> Result<Expression, Memory>
    ensures { IfOk result (λ made. expression made ≡ members.iterator 0 0 group) }
{
    let first = does(alloc, Primitive::New, one(alloc, number(alloc, 0)?)?)?;
    let method = first_function(alloc, place, group)?;
    let method = let_in(alloc, place, first, method)?;
    let mut labels = Sequence::new(alloc);
    labels.push(Bytes::from_slice(alloc, b"next")?)?;
    operation(alloc, Operation::MakeObject(labels), one(alloc, method)?)
}
