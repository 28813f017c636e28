//! Programs of one method.
use crate::pieces::{Pieces, awaited, body, node};
use core_ir::{Binding, Core, CoreBody, Expression, Group, Method, Program, Shared, Signature};
use mo_num::{Bytes, Memory, Sequence};
use mo_syntax::Items;
use mo_types::TypeGraph;
use std::alloc::Global;

// After so many statements one waits.
const STATEMENTS_AN_AWAIT: u32 = 10;

/// A block of so many statements, of which each tenth waits; the others add two names. Each has 3 nodes.
pub fn straight(alloc: Global, statements: u32) -> Result<Core, Memory> {
    let pieces = Pieces::new(alloc)?;
    let mut bindings = Items::new(alloc);
    for number in 0..statements {
        let value = if number % STATEMENTS_AN_AWAIT == 0 {
            awaited(alloc, 0)?
        } else {
            pieces.sum(alloc, 0, 1)?
        };
        bindings.push(Binding::Value(value))?;
    }
    let value = Expression::Block(bindings, node(alloc, pieces.nothing()?)?);
    let nodes = statements.saturating_mul(3);
    program(alloc, &pieces, Sequence::new(alloc), nodes, value)
}

// Choices in one another, of which the innermost waits in the end.
fn nest(alloc: Global, pieces: &Pieces, depth: u32) -> Result<Expression, Memory> {
    let mut inner = awaited(alloc, 0)?;
    for _ in 0..depth {
        inner = pieces.choice(alloc, pieces.sum(alloc, 0, 1)?, inner)?;
    }
    Ok(inner)
}

/// A block of so many statements, each of choices that stand so deep in one another and wait in the innermost. Each choice has 5
/// nodes.
pub fn nested(alloc: Global, statements: u32, depth: u32) -> Result<Core, Memory> {
    let pieces = Pieces::new(alloc)?;
    let mut bindings = Items::new(alloc);
    for _ in 0..statements {
        bindings.push(Binding::Value(nest(alloc, &pieces, depth)?))?;
    }
    let value = Expression::Block(bindings, node(alloc, pieces.nothing()?)?);
    let nodes = statements.saturating_mul(depth).saturating_mul(5);
    program(alloc, &pieces, Sequence::new(alloc), nodes, value)
}

/// So many functions, each of which adds a name of the method to its argument. Each has 5 nodes, and the names of all functions before
/// it are in its scope.
pub fn closures(alloc: Global, functions: u32) -> Result<Core, Memory> {
    let pieces = Pieces::new(alloc)?;
    let mut groups = Sequence::new(alloc);
    let mut bindings = Items::new(alloc);
    for number in 0..functions {
        let mut bodies = Sequence::new(alloc);
        // its argument, itself, the functions before it, and then the context of the call
        let context = number.saturating_add(2);
        bodies.push(body(1, 5, pieces.sum(alloc, 0, context)?))?;
        groups.push(Group {
            sees: number.saturating_add(3),
            bodies,
        })?;
        bindings.push(Binding::Functions(number))?;
    }
    let value = Expression::Block(bindings, node(alloc, pieces.nothing()?)?);
    let nodes = functions.saturating_mul(5);
    program(alloc, &pieces, groups, nodes, value)
}

fn program(
    alloc: Global,
    pieces: &Pieces,
    groups: Sequence<Group<CoreBody>>,
    nodes: u32,
    value: Expression,
) -> Result<Core, Memory> {
    let signature = Signature {
        parameters: Sequence::new(alloc),
        results: Sequence::new(alloc),
    };
    let mut methods = Sequence::new(alloc);
    methods.push(Method {
        name: Shared::new(alloc, Bytes::new(alloc))?,
        query: false,
        signature: Shared::new(alloc, signature)?,
        body: body(3, nodes, value),
    })?;
    Ok(Core {
        program: Program {
            types: Shared::new(alloc, TypeGraph::new(alloc))?,
            groups,
            methods,
            stable: Shared::new(alloc, Sequence::new(alloc))?,
            save: body(0, 2, pieces.nothing()?),
            start: body(1, 2, pieces.nothing()?),
        },
    })
}
