//! Lines and columns of places in a source.
ghost use Rattle.std.specs.Prelude.{IfOk};
ghost use Rattle.mo_front.specs.Places.{IsAt};

use byte_lanes::line_starts;
use mo_lexer::{MOST_BYTES, line_column};
use mo_num::Memory;
use std::alloc::{AllocError, Global};

/// The line and the column of a place, in bytes and from 1. In a source of more than 1,048,576 bytes, and behind them, they are 1 and 1.
pub fn line_and_column(alloc: Global, source: &[u8], place: u32) -> Result<(u32, u32), Memory>
    ensures { IfOk result (IsAt source.now place) }
{
    if source.len() > MOST_BYTES || place as usize > MOST_BYTES {
        return Ok((1, 1));
    }
    match line_starts(alloc, source) {
        Ok(starts) => Ok(line_column(&starts, place)),
        Err(AllocError) => Err(Memory),
    }
}
