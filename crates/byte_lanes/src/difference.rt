//! The first place at which two slices differ.
ghost use Rattle.std.specs.Prelude.{◌≡◌, ◌↔◌, length, IsNone, IfSome};
ghost use Rattle.byte_lanes.specs.Difference.{IsFirstDifference};

use crate::mask::{LANES, differing, lowest};

/// The least place at which `a` and `b`, of equal lengths, differ, and `None` exactly where they are equal. Takes no memory.
pub fn first_difference(a: &[u8], b: &[u8]) -> Option<usize>
    requires { length a.now ≡ length b.now }
    ensures none { IsNone result ↔ (a.now ≡ b.now) }
    ensures least { IfSome result (IsFirstDifference a.now b.now) }
{
    let mut at = 0;
    while LANES <= a.len() - at {
        let mask = differing(a, b, at);
        if mask != 0 {
            return Some(at + lowest(mask));
        }
        at += LANES;
    }
    for place in at..a.len() {
        if a[place] != b[place] {
            return Some(place);
        }
    }
    None
}
