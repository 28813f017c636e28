//! Places as lines and columns.
ghost use Rattle.std.specs.Prelude.{◌≡◌, ◌≤◌, Some, slice_get};
ghost use Rattle.std.specs.List.Sorted.{IsStrictlyIncreasing};
ghost use Rattle.mo_lexer.specs.Places.{IsLineColumn};

use byte_lanes::Starts;

/// The line and the column of a place in a text whose lines start at the places of the list. Lines and bytes count from 1.
pub fn line_column(starts: &Starts, place: u32) -> (u32, u32)
    requires first { slice_get starts.now 0 ≡ Some 0 }
    requires rises { IsStrictlyIncreasing starts.now }
    requires within { place ≤ 1048576 }
    ensures { IsLineColumn starts.now place result }
{
    let starts = starts.as_slice();
    let mut line = 1;
    while line < starts.len() && starts[line] <= place {
        line += 1;
    }
    (line as u32, place - starts[line - 1] + 1)
}
