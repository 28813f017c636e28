//! Expressions (WebAssembly Core 1.0, section 5.4.7), read with no recursion on their nesting.
ghost use Rattle.std.specs.Prelude.{◌≡◌, ◌<◌, reverse};
ghost use Rattle.exact_reading.specs.Reading.{Tells, Gives};
ghost use Rattle.wasm_read.specs.Codes.{next_at, after, after_op, Tracks, expression_at};

use crate::fault::Fault;
use crate::instruction::read_op;
use crate::number::read_u32;
use exact_reading::Stop;
use mo_num::Sequence;
use std::alloc::Global;
use wasm_tree::{Expression, Op};

/// Where an expression goes on.
#[derive(Clone, Copy)]
pub enum Place {
    /// Its last `end` has come.
    Closed,
    /// So many labels of a `br_table` come next.
    Open(u64),
}

/// An instruction, or one of the labels that are owed.
fn read_next(owed: u64, bytes: &[u8]) -> Result<(Op, &[u8]), Fault>
    ensures { Tells (λ x. (x.0, x.1.now)) result (next_at owed bytes.now) }
{
    if owed == 0 {
        return read_op(bytes);
    }
    let (label, rest) = read_u32(bytes)?;
    Ok((Op::Target(label), rest))
}

/// Keeps the blocks that are open, the innermost last, each with whether an `else` may come.
fn track(op: Op, owed: u64, opens: &mut Vec<bool>) -> Result<Place, Stop<Fault>>
    ensures { Tracks (after op owed (reverse opens.old.items)) result (reverse opens.new.items) }
{
    if owed > 0 {
        return Ok(Place::Open(owed - 1));
    }
    track_op(op, opens)
}

fn track_op(op: Op, opens: &mut Vec<bool>) -> Result<Place, Stop<Fault>>
    ensures { Tracks (after_op op (reverse opens.old.items)) result (reverse opens.new.items) }
{
    match op {
        Op::End => match opens.pop() {
            None => Ok(Place::Closed),
            Some(_) => Ok(Place::Open(0)),
        },
        Op::Else => match opens.pop() {
            Some(true) => {
                opens.push(false)?;
                Ok(Place::Open(0))
            }
            _ => Err(Stop::Fault(Fault::Malformed)),
        },
        Op::Block(_) | Op::Loop(_) => {
            opens.push(false)?;
            Ok(Place::Open(0))
        }
        Op::If(_) => {
            opens.push(true)?;
            Ok(Place::Open(0))
        }
        Op::BrTable(count) => Ok(Place::Open(count as u64 + 1)),
        Op::Target(_) => Err(Stop::Fault(Fault::Malformed)),
        _ => Ok(Place::Open(0)),
    }
}

/// The instructions up to the `end` that closes them, which is left out.
fn read_ops(alloc: Global, bytes: &[u8]) -> Result<(Vec<Op>, &[u8]), Stop<Fault>>
    ensures { Gives (λ x. (x.0.items, x.1.now)) result (expression_at bytes.now) }
{
    let mut ops = Vec::new(alloc);
    let mut opens = Vec::new(alloc);
    let mut owed = 0;
    let mut rest = bytes;
    for _ in 0..bytes.len() {
        let (next, left) = read_next(owed, rest)?;
        rest = left;
        match track(next, owed, &mut opens)? {
            Place::Closed => return Ok((ops, rest)),
            Place::Open(now) => {
                ops.push(next)?;
                owed = now;
            }
        }
    }
    Err(Stop::Fault(Fault::Malformed))
}

/// An expression.
pub fn read_expression(alloc: Global, bytes: &[u8]) -> Result<(Expression, &[u8]), Stop<Fault>>
    ensures { Gives (λ x. (x.0, x.1.now)) result (expression_at bytes.now) }
{
    let (ops, rest) = read_ops(alloc, bytes)?;
    Ok((Sequence::from_vec(ops), rest))
}
