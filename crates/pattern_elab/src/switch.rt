//! The tests of a `switch`.
ghost use Rattle.std.specs.Prelude.{◌≡◌, IfOk, map};
ghost use Rattle.typed_tree.specs.PatternView.{pattern};
ghost use Rattle.pattern_elab.specs.Cases.{IsMade, IsOrdered, IsSmall};

use crate::decision::{Place, Target, Tests};
use crate::making::{State, add_pattern};
use mo_num::{Memory, Sequence};
use std::alloc::Global;
use typed_tree::TypedPattern;

/// The tests by which the first of the patterns that matches is found, by the law `tests_choose_the_first_match`: Motoko language
/// manual, section "Switch". There is at most one for each node of the patterns, and each names tests with smaller numbers alone, so
/// that none is made twice.
pub fn cases(alloc: Global, patterns: &[TypedPattern]) -> Result<Tests, Memory>
    ensures made { IfOk result (λ made. IsMade (map pattern patterns.now) made) }
    ensures ordered { IfOk result (λ made. IsOrdered made) }
    ensures small { IfOk result (λ made. IsSmall (map pattern patterns.now) made) }
{
    let mut state = State {
        places: Sequence::new(alloc),
        tests: Sequence::new(alloc),
    };
    state.place(Place::Whole)?;
    let mut start = Target::Nothing;
    let mut number = patterns.len();
    while number > 0 {
        number -= 1;
        start = add_pattern(
            alloc,
            &patterns[number],
            0,
            Target::Chosen(number),
            start,
            &mut state,
        )?;
    }
    let State { places, tests } = state;
    Ok(Tests {
        places,
        tests,
        start,
    })
}
