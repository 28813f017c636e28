//! Parts of programs.
use core_ir::{Constant, CoreBody, Expression, Goal, Primitive, Shared};
use mo_num::{Kind, Memory, Operator};
use mo_syntax::{Items, Node, Place};
use mo_types::Datum;
use mo_values::Operation;
use std::alloc::Global;

/// Constants and primitives that all of a program shares.
#[derive(Drop)]
pub struct Pieces {
    pub unit: Shared<Constant>,
    pub flag: Shared<Constant>,
    pub add: Shared<Primitive>,
    pub copy: Shared<Primitive>,
}

impl Pieces {
    /// The parts, made once.
    pub fn new(alloc: Global) -> Result<Pieces, Memory> {
        Ok(Pieces {
            unit: Shared::new(alloc, Constant::Unit)?,
            flag: Shared::new(alloc, Constant::Leaf(Datum::Flag(true)))?,
            add: Shared::new(
                alloc,
                Primitive::Operate(Operation::Arithmetic(Operator::Add, Kind::Nat)),
            )?,
            copy: Shared::new(alloc, Primitive::Copy)?,
        })
    }

    /// `()`
    pub fn nothing(&self) -> Result<Expression, Memory> {
        Ok(Expression::Constant(self.unit.share()?))
    }

    /// `x + y`, of names.
    pub fn sum(&self, alloc: Global, left: u32, right: u32) -> Result<Expression, Memory> {
        let mut both = Items::new(alloc);
        both.push(Expression::Name(left))?;
        both.push(Expression::Name(right))?;
        Ok(Expression::Do(Goal::Operate(self.add.share()?), both))
    }

    /// `if true first else second`
    pub fn choice(
        &self,
        alloc: Global,
        first: Expression,
        second: Expression,
    ) -> Result<Expression, Memory> {
        let mut tested = Items::new(alloc);
        tested.push(Expression::Constant(self.flag.share()?))?;
        Ok(Expression::Do(
            Goal::Choose(
                self.copy.share()?,
                node(alloc, first)?,
                node(alloc, second)?,
            ),
            tested,
        ))
    }
}

/// `await x`, of a name.
pub fn awaited(alloc: Global, name: u32) -> Result<Expression, Memory> {
    let mut future = Items::new(alloc);
    future.push(Expression::Name(name))?;
    Ok(Expression::Do(Goal::Await, future))
}

/// The expression as a part of another one.
pub fn node(alloc: Global, expression: Expression) -> Result<Node<Expression>, Memory> {
    Node::new(alloc, Place { start: 0, end: 0 }, expression)
}

/// A body of so many parameters and nodes.
pub fn body(parameters: u32, nodes: u32, expression: Expression) -> CoreBody {
    CoreBody {
        parameters,
        nodes,
        expression,
    }
}
