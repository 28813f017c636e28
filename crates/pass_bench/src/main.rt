//! Measures splitting and the conversion of closures on large programs, by the clock.
#![tactic(auto)]

mod pieces;
mod programs;
mod rounds;
mod sizes;

use crate::rounds::{Shape, measure};
use std::{env, io};

fn main(rt: HostRuntime) -> io::Result<()> {
    let mut words = env::args(&rt)?;
    let _ = words.next();
    let Some(what) = words.next() else {
        return usage(&rt);
    };
    let Some(size) = words.next() else {
        return usage(&rt);
    };
    match (shape(what.as_str()), size.parse::<u32>()) {
        (Some(shape), Ok(nodes)) => measure(&rt, rt.alloc(), shape, nodes),
        _ => usage(&rt),
    }
}

fn shape(what: &str) -> Option<Shape> {
    if what == "straight" {
        Some(Shape::Straight)
    } else if what == "nested" {
        Some(Shape::Nested(25))
    } else if what == "deep" {
        Some(Shape::Nested(250))
    } else if what == "closures" {
        Some(Shape::Closures)
    } else {
        None
    }
}

fn usage(rt: &HostRuntime) -> io::Result<()> {
    println!(rt; "usage: pass_bench straight, nested, deep or closures, and how many nodes")
}
