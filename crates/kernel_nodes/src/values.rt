//! Values, names and cells.
ghost use Rattle.std.specs.Prelude.{◌≡◌, ◌∷◌, [], IfOk};
ghost use Rattle.kernel_types.specs.Numbers.{number, number_of};
ghost use Rattle.kernel_nodes.specs.Made.{alone_at, cell_at, constant_at, flag_in, held_at, leaves_at, name_at, named_at, tuple_at, unit_in};
ghost use Rattle.kernel_nodes.specs.Made.{functions_step};

use crate::nodes::{acts, at, on_number, operates};
use crate::operands::one;
use kernel_types::KernelTypes;
use mo_num::Memory;
use mo_syntax::Items;
use mo_types::TypeId;
use mo_values::Operation;
use std::alloc::Global;
use type_terms::TermId;
use typed_tree::{Action, Form, Function, Literal, Step, TypedExpression};

/// A literal as a value of a type.
pub fn constant(
    alloc: Global,
    types: &KernelTypes,
    kind: TermId,
    literal: Literal,
) -> Result<TypedExpression, Memory>
    ensures { IfOk result (λ made. made ≡ constant_at types.now kind literal) }
{
    at(alloc, types, kind, Form::Constant(literal))
}

/// `()`
pub fn unit_value(alloc: Global, types: &KernelTypes) -> Result<TypedExpression, Memory>
    ensures { IfOk result (λ made. made ≡ unit_in types.now) }
{
    let unit = types.unit(alloc)?;
    on_number(alloc, unit, Form::Constant(Literal::Unit))
}

/// `true` or `false`
pub fn flag(alloc: Global, types: &KernelTypes, value: bool) -> Result<TypedExpression, Memory>
    ensures { IfOk result (λ made. made ≡ flag_in types.now value) }
{
    let boolean = types.boolean()?;
    on_number(alloc, boolean, Form::Constant(Literal::Flag(value)))
}

/// The name before which so many stand.
pub fn name(
    alloc: Global,
    types: &KernelTypes,
    kind: TermId,
    index: u32,
) -> Result<TypedExpression, Memory>
    ensures { IfOk result (λ made. made ≡ name_at types.now kind index) }
{
    at(alloc, types, kind, Form::Name(index))
}

/// What an expression stands for, which is what its cell holds where it is a cell.
pub fn held(
    alloc: Global,
    types: &KernelTypes,
    kind: TermId,
    is_cell: bool,
    of: TypedExpression,
) -> Result<TypedExpression, Memory>
    ensures { IfOk result (λ made. made ≡ held_at types.now kind is_cell of) }
{
    if is_cell {
        let operands = one(alloc, of)?;
        acts(alloc, types, kind, Action::Read, operands)
    } else {
        Ok(of)
    }
}

/// What the name stands for before which so many stand, where it is one of a cell or not.
pub fn of_names(
    alloc: Global,
    types: &KernelTypes,
    kind: TermId,
    index: u32,
    is_cell: bool,
) -> Result<TypedExpression, Memory>
    ensures { IfOk result (λ made. made ≡ named_at types.now kind index is_cell) }
{
    let value = name(alloc, types, kind, index)?;
    held(alloc, types, kind, is_cell, value)
}

/// A new cell of the type of this number, which holds the value.
pub fn new_cell(
    alloc: Global,
    of_type: TypeId,
    of: TypedExpression,
) -> Result<TypedExpression, Memory>
    ensures { IfOk result (λ made. made ≡ cell_at of_type of) }
{
    let operands = one(alloc, of)?;
    on_number(alloc, of_type, Form::Do(Action::New, operands))
}

/// `(a, .., b)`, or `()`.
pub fn tuple(
    alloc: Global,
    types: &KernelTypes,
    kind: TermId,
    items: Items<TypedExpression>,
) -> Result<TypedExpression, Memory>
    ensures { IfOk result (λ made. made ≡ tuple_at types.now kind items) }
{
    if items.is_empty() {
        constant(alloc, types, kind, Literal::Unit)
    } else {
        operates(alloc, types, kind, Operation::MakeTuple, items)
    }
}

/// Leaves so many labels and the next one with a value.
pub fn leaves(
    alloc: Global,
    types: &KernelTypes,
    kind: TermId,
    exits: u32,
    of: TypedExpression,
) -> Result<TypedExpression, Memory>
    ensures { IfOk result (λ made. made ≡ leaves_at types.now kind exits of) }
{
    let operands = one(alloc, of)?;
    acts(alloc, types, kind, Action::Break(exits), operands)
}

fn alone_step(alloc: Global, function: Function) -> Result<Items<Step>, Memory>
    ensures { IfOk result (λ made. made ≡ functions_step (function ∷ []) ∷ []) }
{
    let mut functions = Items::new(alloc);
    functions.push(function)?;
    let mut steps = Items::new(alloc);
    steps.push(Step::Functions(functions))?;
    Ok(steps)
}

/// A function without a name, as the value of a group of its own.
pub fn alone(
    alloc: Global,
    types: &KernelTypes,
    kind: TermId,
    function: Function,
) -> Result<TypedExpression, Memory>
    ensures { IfOk result (λ made. made ≡ alone_at types.now kind function) }
{
    let steps = alone_step(alloc, function)?;
    let value = name(alloc, types, kind, 0)?;
    at(alloc, types, kind, Form::Block(steps, value))
}
