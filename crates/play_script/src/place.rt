//! Where a script spells an event.
ghost use Rattle.std.specs.Prelude.{◌≤◌, ◌<◌, List, length};
ghost use Rattle.play_script.specs.declared.event.Event.{Event};
ghost use Rattle.play_script.specs.Words.{lines_of};
ghost use Rattle.play_script.specs.Scripts.{script_limit, Spell};
ghost use Rattle.play_script.specs.Places.{IsLineOf};

use crate::line::is_skipped;
use crate::words::split_line;

/// The number, counted from 1, of the line that spells the event with this index, counted from 0.
pub fn event_line(text: &[u8], index: usize) -> u32
    requires { length text.now ≤ script_limit }
    ensures { (events : List Event) → Spell (lines_of text.now) events → index < length events → IsLineOf text.now events index result }
{
    let mut rest = text;
    let mut number = 0;
    let mut left = index;
    while !rest.is_empty() {
        let (line, others) = split_line(rest);
        number += 1;
        if !is_skipped(line) {
            if left == 0 {
                return number;
            }
            left -= 1;
        }
        rest = others;
    }
    number
}
