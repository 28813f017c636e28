//! What a graph of types answers to one step after another.
//!
//! A step is a type, `N fresh`, which makes so many types that are not defined yet, or `N = TYPE`, which defines the
//! type of that number where a step has made it. The answer has a line for each step: the number of the type, of several
//! the last one, or why it is refused.
use crate::types::Types;
use mo_num::{Bytes, Sequence};
use mo_types::{Node, TypeGraph, TypeId, TypesFault};
use probe_base::{Stop, number_of, text_of, yes_or_no};
use std::alloc::Global;

/// ONE OTHER: `yes` where two types are one in a graph.
pub(crate) fn are_same(alloc: Global, words: &[Bytes]) -> Result<String, Stop> {
    let [one, other] = words else {
        return Err(Stop::Usage);
    };
    let mut types = Types::empty(alloc);
    let one = types.one(one.as_slice())?;
    yes_or_no(alloc, one == types.one(other.as_slice())?)
}

// So many types, each put behind those that were made.
fn fresh(
    graph: &mut TypeGraph,
    count: u32,
    made: &mut Sequence<TypeId>,
) -> Result<u32, TypesFault> {
    let mut last = 0;
    for _ in 0..count {
        let id = graph.fresh()?;
        if made.push(id).is_err() {
            return Err(TypesFault::Memory);
        }
        last = id.index();
    }
    Ok(last)
}

fn define(graph: &mut TypeGraph, id: TypeId, node: Node) -> Result<u32, TypesFault> {
    if !graph.is_open(id) {
        return Err(TypesFault::Memory);
    }
    graph.define(id, node)?;
    Ok(id.index())
}

// The type of this number among those that were made.
fn find(made: &[TypeId], number: u32) -> Result<TypeId, Stop> {
    for id in made {
        if id.index() == number {
            return Ok(*id);
        }
    }
    Err(Stop::Usage)
}

fn take_step(
    types: &mut Types,
    made: &mut Sequence<TypeId>,
    step: &[u8],
) -> Result<Result<u32, TypesFault>, Stop> {
    if let Some(count) = text_of(step)?.strip_suffix(" fresh") {
        return Ok(fresh(&mut types.graph, number_of(count.as_bytes())?, made));
    }
    match text_of(step)?.split_once(" = ") {
        Some((number, written)) => {
            let id = find(made.as_slice(), number_of(number.as_bytes())?)?;
            let node = types.head(written.as_bytes())?;
            Ok(define(&mut types.graph, id, node))
        }
        None => {
            let node = types.head(step)?;
            Ok(types.graph.intern(node).map(|id| id.index()))
        }
    }
}

/// STEP ..: what the graph answers to the steps.
pub(crate) fn answers(alloc: Global, steps: &[Bytes]) -> Result<String, Stop> {
    let mut types = Types::empty(alloc);
    let mut made = Sequence::new(alloc);
    let mut out = String::new(alloc);
    for step in steps {
        match take_step(&mut types, &mut made, step.as_slice())? {
            Ok(number) => out.push_str(format!(in alloc; "{number}\n")?.as_str())?,
            Err(TypesFault::TooManyTypes) => out.push_str("TooManyTypes\n")?,
            Err(TypesFault::Memory) => return Err(Stop::Memory),
        }
    }
    Ok(out)
}
