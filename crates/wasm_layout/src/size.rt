//! How large a module is.
ghost use Rattle.std.specs.Prelude.{◌≡◌, ◌<◌, ◌^◌, IsTrue, ◌↔◌, MatchOption};
ghost use Rattle.wasm_layout.specs.Sizes.{locals_of, room_of, IsTooLarge, IsSmall};

use wasm_tree::{Function, Locals};

const MOST: usize = u32::MAX as usize;

/// Whether there are fewer than 2^32 locals.
fn are_few(groups: &[Locals]) -> bool
    ensures { IsTrue result ↔ (locals_of groups.now < 2 ^ 32) }
{
    let mut left = u32::MAX;
    for group in groups {
        if group.count > left {
            return false;
        }
        left -= group.count;
    }
    true
}

/// How many locals there are.
pub fn locals(groups: &[Locals]) -> usize
    requires { locals_of groups.now < 2 ^ 32 }
    ensures { result ≡ locals_of groups.now }
{
    let mut count = 0;
    for group in groups {
        count += group.count as usize;
    }
    count
}

/// How many steps the functions take at most, unless they are too large.
pub fn room(functions: &[Function]) -> Option<usize>
    ensures { MatchOption result (IsTooLarge functions.now) (λ room. (room ≡ room_of functions.now) × IsSmall functions.now) }
{
    let mut room = 0;
    for function in functions {
        let len = function.body.as_slice().len();
        if len >= MOST - room || !are_few(function.locals.as_slice()) {
            return None;
        }
        room += len + 1;
    }
    Some(room)
}
