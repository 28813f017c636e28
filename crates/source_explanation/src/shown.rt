//! A place of a source, shown.
ghost use Rattle.std.specs.Prelude.{IfOk};
ghost use Rattle.source_explanation.specs.Shown.{IsHead, IsShown};

use marked_lines::marked_line;
use mo_front::line_and_column;
use mo_num::{Bytes, Memory};
use play_script::put_decimal;
use std::alloc::Global;

// The line and the column of a place, and what is said of it.
fn head(alloc: Global, source: &[u8], place: u32, said: &[u8]) -> Result<Bytes, Memory>
    ensures { IfOk result (IsHead source.now place said.now) }
{
    let (row, column) = line_and_column(alloc, source, place)?;
    let mut out = Bytes::new(alloc);
    put_decimal(row as u64, &mut out)?;
    out.push(b':')?;
    put_decimal(column as u64, &mut out)?;
    out.push(b' ')?;
    out.extend(said)?;
    out.push(b'\n')?;
    Ok(out)
}

/// What is said of a place, the line of the source with a mark below the place, and a text behind them.
pub(crate) fn shown(
    alloc: Global,
    source: &[u8],
    place: u32,
    said: &[u8],
    rest: &[u8],
) -> Result<Bytes, Memory>
    ensures { IfOk result (IsShown source.now place said.now rest.now) }
{
    let mut out = head(alloc, source, place, said)?;
    let line = marked_line(alloc, source, place as usize)?;
    out.extend(line.as_slice())?;
    out.extend(rest)?;
    Ok(out)
}
