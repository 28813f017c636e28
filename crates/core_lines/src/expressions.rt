//! Expressions.
use crate::actions::{put_constant, put_constructor, put_primitive};
use crate::pieces::{put_bare, put_comma, put_kind, put_numbered, put_types};
use core_ir::{Binding, Expression, Goal};
use mo_num::{Bytes, Memory};
use play_script::put_decimal;
use std::alloc::Global;

/// An expression.
#[cycle(expressions)]
pub(crate) fn put_expression(
    alloc: Global,
    expression: &Expression,
    out: &mut Bytes,
) -> Result<(), Memory> {
    match expression {
        Expression::Constant(constant) => {
            put_kind(b"constant", out)?;
            put_constant(alloc, constant.get(), out)?;
            out.extend(b"]")
        }
        Expression::Name(level) => put_numbered(b"name", *level, out),
        Expression::Global(number) => put_numbered(b"global", *number, out),
        Expression::Do(goal, operands) => {
            put_kind(b"do", out)?;
            put_goal(alloc, goal, out)?;
            put_operands(alloc, operands.as_slice(), out)?;
            out.extend(b"]")
        }
        Expression::Block(bindings, value) => {
            put_kind(b"block", out)?;
            put_bindings(alloc, bindings.as_slice(), out)?;
            put_expression(alloc, value.get(), out)?;
            out.extend(b"]")
        }
        Expression::Loop(body) => {
            put_kind(b"loop", out)?;
            put_expression(alloc, body.get(), out)?;
            out.extend(b"]")
        }
        Expression::Label(body) => {
            put_kind(b"label", out)?;
            put_expression(alloc, body.get(), out)?;
            out.extend(b"]")
        }
        Expression::Try(body, handler) => {
            put_kind(b"try", out)?;
            put_expression(alloc, body.get(), out)?;
            out.extend(b",")?;
            put_expression(alloc, handler.get(), out)?;
            out.extend(b"]")
        }
    }
}

// The operands, each behind a comma.
#[cycle(expressions)]
fn put_operands(alloc: Global, operands: &[Expression], out: &mut Bytes) -> Result<(), Memory> {
    for operand in operands {
        out.extend(b",")?;
        put_expression(alloc, operand, out)?;
    }
    Ok(())
}

// The bindings, and a comma behind them.
#[cycle(expressions)]
fn put_bindings(alloc: Global, bindings: &[Binding], out: &mut Bytes) -> Result<(), Memory> {
    out.extend(b"[")?;
    for (number, binding) in bindings.iter().enumerate() {
        put_comma(number, out)?;
        put_binding(alloc, binding, out)?;
    }
    out.extend(b"],")
}

#[cycle(expressions)]
fn put_binding(alloc: Global, binding: &Binding, out: &mut Bytes) -> Result<(), Memory> {
    match binding {
        Binding::Value(value) => put_expression(alloc, value, out),
        Binding::Functions(number) => put_decimal(*number as u64, out),
    }
}

#[cycle(expressions)]
fn put_goal(alloc: Global, goal: &Goal, out: &mut Bytes) -> Result<(), Memory> {
    match goal {
        Goal::Operate(primitive) => put_primitive(alloc, primitive.get(), out),
        Goal::Choose(primitive, first, second) => {
            put_kind(b"choose", out)?;
            put_primitive(alloc, primitive.get(), out)?;
            out.extend(b",")?;
            put_expression(alloc, first.get(), out)?;
            out.extend(b",")?;
            put_expression(alloc, second.get(), out)?;
            out.extend(b"]")
        }
        Goal::Match(constructor, first, second) => {
            put_kind(b"match", out)?;
            put_constructor(alloc, constructor.get(), out)?;
            out.extend(b",")?;
            put_expression(alloc, first.get(), out)?;
            out.extend(b",")?;
            put_expression(alloc, second.get(), out)?;
            out.extend(b"]")
        }
        Goal::Call => put_bare(b"call", out),
        Goal::Tabulate => put_bare(b"tabulate", out),
        Goal::Send(signature) => {
            let types = signature.get();
            put_kind(b"send", out)?;
            put_types(types.parameters.as_slice(), out)?;
            out.extend(b",")?;
            put_types(types.results.as_slice(), out)?;
            out.extend(b"]")
        }
        Goal::Throw => put_bare(b"throw", out),
        Goal::Await => put_bare(b"await", out),
        Goal::Break(labels) => put_numbered(b"break", *labels, out),
        Goal::Return => put_bare(b"return", out),
    }
}
