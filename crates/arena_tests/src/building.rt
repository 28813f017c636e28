//! Expressions by their parts. Their types are left open, since the machine does not look at them.
use mo_num::{Kind, Memory, Operator, Sequence};
use mo_syntax::{Items, Node, Place};
use mo_types::{Sort, TypeGraph, TypeId, TypesFault};
use mo_values::{Comparison, Operation, Scalar};
use std::alloc::Global;
use typed_tree::{
    Action, Form, Function, Literal, PatternForm, Step, TypedExpression, TypedPattern,
};

/// Some type.
pub(crate) fn any_type(alloc: Global) -> Result<TypeId, Memory> {
    let mut types = TypeGraph::new(alloc);
    match types.fresh() {
        Ok(id) => Ok(id),
        Err(_) => Err(Memory),
    }
}

/// An expression of a form.
pub(crate) fn expression(alloc: Global, form: Form) -> Result<TypedExpression, Memory> {
    let place = Place { start: 0, end: 0 };
    Ok(TypedExpression {
        of_type: any_type(alloc)?,
        form: Node::new(alloc, place, form)?,
    })
}

/// A pattern of a form.
pub(crate) fn pattern(alloc: Global, form: PatternForm) -> Result<TypedPattern, Memory> {
    let place = Place { start: 0, end: 0 };
    Ok(TypedPattern {
        of_type: any_type(alloc)?,
        form: Node::new(alloc, place, form)?,
    })
}

/// A natural number.
pub(crate) fn number(alloc: Global, value: i128) -> Result<TypedExpression, Memory> {
    expression(alloc, Form::Constant(Literal::Number(value)))
}

/// A name.
pub(crate) fn name(alloc: Global, between: u32) -> Result<TypedExpression, Memory> {
    expression(alloc, Form::Name(between))
}

/// What is done with one operand.
pub(crate) fn one(
    alloc: Global,
    action: Action,
    operand: TypedExpression,
) -> Result<TypedExpression, Memory> {
    let mut operands = Items::new(alloc);
    operands.push(operand)?;
    expression(alloc, Form::Do(action, operands))
}

/// What is done with two operands.
pub(crate) fn two(
    alloc: Global,
    action: Action,
    left: TypedExpression,
    right: TypedExpression,
) -> Result<TypedExpression, Memory> {
    let mut operands = Items::new(alloc);
    operands.push(left)?;
    operands.push(right)?;
    expression(alloc, Form::Do(action, operands))
}

/// `left op right`, at Nat.
pub(crate) fn calculated(
    alloc: Global,
    operator: Operator,
    left: TypedExpression,
    right: TypedExpression,
) -> Result<TypedExpression, Memory> {
    let action = Action::Operate(Operation::Arithmetic(operator, Kind::Nat));
    two(alloc, action, left, right)
}

/// `left < right`, at Nat.
pub(crate) fn less(
    alloc: Global,
    left: TypedExpression,
    right: TypedExpression,
) -> Result<TypedExpression, Memory> {
    let action = Action::Operate(Operation::Compare(Comparison::Less, Scalar::Number(Kind::Nat)));
    two(alloc, action, left, right)
}

/// What a variable holds, by its name.
pub(crate) fn held(alloc: Global, between: u32) -> Result<TypedExpression, Memory> {
    let cell = name(alloc, between)?;
    one(alloc, Action::Read, cell)
}

/// `x := x + a`, for the variable of this name.
pub(crate) fn increased(
    alloc: Global,
    between: u32,
    more: TypedExpression,
) -> Result<TypedExpression, Memory> {
    let sum = calculated(alloc, Operator::Add, held(alloc, between)?, more)?;
    two(alloc, Action::Write, name(alloc, between)?, sum)
}

/// A declaration, and what stands behind it.
pub(crate) fn behind(
    alloc: Global,
    step: Step,
    value: TypedExpression,
) -> Result<TypedExpression, Memory> {
    let mut steps = Items::new(alloc);
    steps.push(step)?;
    expression(alloc, Form::Block(steps, value))
}

/// A function with one parameter, and an expression in which its name is the nearest.
pub(crate) fn with_function(
    alloc: Global,
    body: TypedExpression,
    value: TypedExpression,
) -> Result<TypedExpression, Memory> {
    let mut parameters = Items::new(alloc);
    parameters.push(pattern(alloc, PatternForm::Bind)?)?;
    let mut functions = Items::new(alloc);
    functions.push(Function {
        sort: Sort::Local,
        type_parameters: Sequence::new(alloc),
        nodes: 1,
        parameters,
        body,
    })?;
    behind(alloc, Step::Functions(functions), value)
}
