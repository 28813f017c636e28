//! The types that wait for their values, the next one at the top.
ghost use Rattle.std.specs.Prelude.{◌≡◌, ◌++◌, ◌+◌, ◌<◌, ◌^◌, reverse, OnOk, IfOk, IsSome, slice_get};
ghost use Rattle.candid_types.specs.Shapes.{shape_at};
ghost use Rattle.candid_types.specs.Inside.{times, below, inside_by};
ghost use Rattle.candid_read.specs.Whole.{entries_of, entry_type, goal_types, all_types, left, IfFault, NextIs, Splits};
ghost use Rattle.candid_types.specs.Inside.{times as times_of};

use candid_header::Stop;
use candid_types::Shapes;
use mo_types::{Datum, Entry, Wire};
use std::alloc::Global;

/// Types that wait: a type so many times, or the parts of a record from one on.
#[derive(Clone, Copy, Debug, PartialEq, Eq)]
pub enum Goal {
    Copies { of: usize, count: u32 },
    Rest { of: usize, from: usize },
}

/// How many values are inside a part, or which tag it has.
fn times(part: &Datum) -> u32
    ensures { result ≡ times_of part.now }
{
    match part {
        Datum::Null => 0,
        Datum::Flag(_) => 0,
        Datum::Number(_) => 0,
        Datum::Char(_) => 0,
        Datum::Text(_) => 0,
        Datum::Blob(_) => 0,
        Datum::Principal(_) => 0,
        Datum::Actor(_) => 0,
        Datum::Method(_, _) => 0,
        Datum::Present => 1,
        Datum::Many(count) => *count,
        Datum::Record(count) => *count,
        Datum::Tag(tag) => *tag,
    }
}

fn entry_type(entries: &[Entry<usize>], from: usize) -> Option<usize>
    ensures found { result ≡ entry_type (slice_get entries.now from) }
    ensures room { IsSome result → from + 1 < 2 ^ 64 }
{
    match entries.get(from) {
        Some(entry) => Some(entry.part),
        None => None,
    }
}

/// The type of a part of a record.
fn part_type(shapes: &Shapes, of: usize, from: usize) -> Option<usize>
    ensures found { result ≡ entry_type (slice_get (entries_of (shape_at shapes.now of)) from) }
    ensures room { IsSome result → from + 1 < 2 ^ 64 }
{
    match shapes.get(of) {
        None => None,
        Some(head) => match head {
            Wire::Simple(_) => None,
            Wire::Opt(_) => None,
            Wire::Vec(_) => None,
            Wire::Record(entries) => entry_type(entries.as_slice(), from),
            Wire::Variant(entries) => entry_type(entries.as_slice(), from),
            Wire::Func(_, _, _) => None,
            Wire::Service(_) => None,
        },
    }
}

/// The first type of a goal, and the others.
#[tactic(auto, using(crate::proofs::Waits::copies_more, crate::proofs::Waits::drop_more, crate::proofs::Waits::drop_none))]
fn split(shapes: &Shapes, goal: Goal) -> Option<(usize, Goal)>
    ensures { Splits shapes.now (goal_types shapes.now goal) result }
{
    match goal {
        Goal::Copies { of, count } => {
            if 0 < count {
                let count = count - 1;
                Some((of, Goal::Copies { of, count }))
            } else {
                None
            }
        }
        Goal::Rest { of, from } => match part_type(shapes, of, from) {
            Some(first) => {
                let from = from + 1;
                Some((first, Goal::Rest { of, from }))
            }
            None => None,
        },
    }
}

/// Takes the next type off.
#[tactic(auto, using(crate::proofs::Waits::put_one, crate::proofs::Waits::took_one))]
pub fn next(shapes: &Shapes, goals: &mut Vec<Goal>) -> Result<Option<usize>, Stop>
    ensures { NextIs result (left shapes.now (reverse goals.old.items)) (left shapes.now (reverse goals.new.items)) }
{
    while let Some(goal) = goals.pop() {
        match split(shapes, goal) {
            None => {}
            Some((first, rest)) => {
                goals.push(rest)?;
                return Ok(Some(first));
            }
        }
    }
    Ok(None)
}

/// The types of the values inside a part.
fn goal_of(shapes: &Shapes, of: usize, count: u32) -> Option<Goal>
    ensures { all_types shapes.now result ≡ inside_by (shape_at shapes.now of) count }
{
    match shapes.get(of) {
        None => None,
        Some(head) => match head {
            Wire::Simple(_) => None,
            Wire::Opt(part) => Some(Goal::Copies { of: *part, count }),
            Wire::Vec(item) => Some(Goal::Copies { of: *item, count }),
            Wire::Record(_) => Some(Goal::Rest { of, from: 0 }),
            Wire::Variant(tags) => match tags.as_slice().get(count as usize) {
                Some(tag) => Some(Goal::Copies {
                    of: tag.part,
                    count: 1,
                }),
                None => None,
            },
            Wire::Func(_, _, _) => None,
            Wire::Service(_) => None,
        },
    }
}

/// Puts the types of the values inside a part.
#[tactic(auto, using(crate::proofs::Waits::put_one), unfolding(candid_types::specs::Inside::below))]
pub fn put(shapes: &Shapes, of: usize, part: &Datum, goals: &mut Vec<Goal>) -> Result<(), Stop>
    ensures quiet { IfFault result (λ _. ⊥) }
    ensures ok { OnOk result (left shapes.now (reverse goals.new.items) ≡ below shapes.now of part.now ++ left shapes.now (reverse goals.old.items)) }
{
    if let Some(goal) = goal_of(shapes, of, times(part)) {
        goals.push(goal)?;
    }
    Ok(())
}

/// The types, each once, the first one at the top.
#[tactic(auto, using(crate::proofs::Waits::put_one))]
pub fn start(alloc: Global, shapes: &Shapes, types: &[usize]) -> Result<Vec<Goal>, Stop>
    ensures quiet { IfFault result (λ _. ⊥) }
    ensures ok { IfOk result (λ goals. left shapes.now (reverse goals.items) ≡ types.now) }
{
    let mut goals = Vec::new(alloc);
    for of in types.iter().rev().copied() {
        goals.push(Goal::Copies { of, count: 1 })?;
    }
    Ok(goals)
}
