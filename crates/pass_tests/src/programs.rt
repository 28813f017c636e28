//! A program of one method, whose answer takes a call of a function that sees a name of the method, and what a future gives.
use core_ir::{
    Binding, Constant, Core, CoreBody, Expression, Goal, Group, Method, Primitive, Program, Shared,
    Signature,
};
use mo_num::{Bytes, Kind, Memory, Operator, Sequence};
use mo_syntax::{Items, Node, Place};
use mo_types::TypeGraph;
use mo_values::Operation;
use std::alloc::Global;

fn two(alloc: Global, left: Expression, right: Expression) -> Result<Items<Expression>, Memory> {
    let mut both = Items::new(alloc);
    both.push(left)?;
    both.push(right)?;
    Ok(both)
}

// `left + right`
fn sum(alloc: Global, left: Expression, right: Expression) -> Result<Expression, Memory> {
    let add = Primitive::Operate(Operation::Arithmetic(Operator::Add, Kind::Nat));
    Ok(Expression::Do(
        Goal::Operate(Shared::new(alloc, add)?),
        two(alloc, left, right)?,
    ))
}

// `func f(x) = x + c` is group 0; `f(c) + (await a)`, where a and c are arguments behind the context.
fn answer(alloc: Global) -> Result<Expression, Memory> {
    let mut future = Items::new(alloc);
    future.push(Expression::Name(2))?;
    let call = two(alloc, Expression::Name(0), Expression::Name(3))?;
    let value = sum(
        alloc,
        Expression::Do(Goal::Call, call),
        Expression::Do(Goal::Await, future),
    )?;
    let mut bindings = Items::new(alloc);
    bindings.push(Binding::Functions(0))?;
    let place = Place { start: 0, end: 0 };
    Ok(Expression::Block(bindings, Node::new(alloc, place, value)?))
}

fn body(parameters: u32, nodes: u32, expression: Expression) -> CoreBody {
    CoreBody {
        parameters,
        nodes,
        expression,
    }
}

fn nothing(alloc: Global, parameters: u32) -> Result<CoreBody, Memory> {
    let unit = Shared::new(alloc, Constant::Unit)?;
    Ok(body(parameters, 2, Expression::Constant(unit)))
}

fn groups(alloc: Global) -> Result<Sequence<Group<CoreBody>>, Memory> {
    let value = sum(alloc, Expression::Name(0), Expression::Name(4))?;
    let mut bodies = Sequence::new(alloc);
    bodies.push(body(1, 4, value))?;
    let mut groups = Sequence::new(alloc);
    groups.push(Group { sees: 3, bodies })?;
    Ok(groups)
}

fn methods(alloc: Global) -> Result<Sequence<Method<CoreBody>>, Memory> {
    let signature = Signature {
        parameters: Sequence::new(alloc),
        results: Sequence::new(alloc),
    };
    let mut methods = Sequence::new(alloc);
    methods.push(Method {
        name: Shared::new(alloc, Bytes::new(alloc))?,
        query: false,
        signature: Shared::new(alloc, signature)?,
        body: body(3, 12, answer(alloc)?),
    })?;
    Ok(methods)
}

pub(crate) fn small(alloc: Global) -> Result<Core, Memory> {
    Ok(Core {
        program: Program {
            types: Shared::new(alloc, TypeGraph::new(alloc))?,
            groups: groups(alloc)?,
            methods: methods(alloc)?,
            stable: Shared::new(alloc, Sequence::new(alloc))?,
            save: nothing(alloc, 0)?,
            start: nothing(alloc, 1)?,
        },
    })
}
