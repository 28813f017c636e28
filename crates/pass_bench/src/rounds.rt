//! One call of each pass, by the clock.
use crate::programs;
use crate::sizes::{instructions, segments};
use closure_conv::convert;
use core_ir::Core;
use mo_num::Memory;
use std::alloc::Global;
use std::io;
use std::io::ErrorKind;
use std::time::Instant;
use suspend_split::split;

/// What a program is made of.
#[derive(Clone, Copy)]
pub enum Shape {
    /// Statements one after another, of 3 nodes each.
    Straight,
    /// Statements of choices that stand so deep in one another, of 5 nodes each.
    Nested(u32),
    /// Functions in the scope of one another, of 5 nodes each.
    Closures,
}

fn lacking() -> io::Error {
    io::Error::from(ErrorKind::OutOfMemory)
}

// A program of so many nodes.
fn of_nodes(alloc: Global, shape: Shape, nodes: u32) -> Result<Core, Memory> {
    match shape {
        Shape::Straight => programs::straight(alloc, nodes / 3),
        Shape::Nested(depth) => {
            programs::nested(alloc, nodes / 5 / if depth == 0 { 1 } else { depth }, depth)
        }
        Shape::Closures => programs::closures(alloc, nodes / 5),
    }
}

/// Both passes, each once, on a program of so many nodes: a line with the microseconds of each and what it makes. A process calls
/// each pass once, as a compiler does, so that neither finds memory that an earlier call let go.
pub fn measure(rt: &HostRuntime, alloc: Global, shape: Shape, nodes: u32) -> io::Result<()> {
    let Ok(core) = of_nodes(alloc, shape, nodes) else {
        return Err(lacking());
    };
    let start = Instant::now(rt)?;
    let Ok(made) = split(alloc, &core) else {
        return Err(lacking());
    };
    let splitting = start.elapsed(rt)?.as_micros();
    let start = Instant::now(rt)?;
    let Ok(flat) = convert(alloc, &made) else {
        return Err(lacking());
    };
    let converting = start.elapsed(rt)?.as_micros();
    let count = instructions(&made.program);
    let parts = segments(&made.program);
    let seen = instructions(&flat.program);
    println!(rt; "{splitting} {count} {parts} {converting} {seen}")
}
