//! Conditions that types are below others.
ghost use Rattle.std.specs.Prelude.{◌≡◌, length};
ghost use Rattle.mo_types.specs.Sub.{Each};
ghost use Rattle.met_types.specs.States.{IsReached, Kept};
ghost use Rattle.value_scopes.specs.declared.scopes.Scopes.{Scopes};
ghost use Rattle.judging.specs.Answers.{Answers};
ghost use Rattle.judging.specs.Parts.{Sound};
ghost use Rattle.judging.specs.Views.{no_more, nothing};
ghost use Rattle.type_steps.specs.Steps.{needing, needing_each};

use judging::Checker;
use type_judgements::{Refusal, needs_below};
use type_terms::TermId;
use typing_rules::Condition;

/// The condition at the place, that the one type is below the other.
fn needs_one(
    checker: &Checker,
    condition: Condition,
    place: u32,
    low: TermId,
    high: TermId,
) -> Result<(), Refusal>
    requires kept { Kept checker.now.types }
    requires low { IsReached checker.now.types low }
    requires high { IsReached checker.now.types high }
    ensures { (c : Scopes) → Sound checker.now c → Answers nothing no_more (needing condition place low high) c checker.now c checker.now result }
{
    needs_below(
        checker.types.terms().allocator(),
        &checker.types,
        condition,
        place,
        low,
        high,
    )
}

/// The condition at the place, that each of the types is below the one that stands at its place among the others: Motoko language
/// manual, section "Subtyping". Nothing is asked behind the first that is not.
pub fn needs_each_below(
    checker: &Checker,
    condition: Condition,
    place: u32,
    lows: &[TermId],
    highs: &[TermId],
) -> Result<(), Refusal>
    requires kept { Kept checker.now.types }
    requires number { length lows.now ≡ length highs.now }
    requires lows { Each (IsReached checker.now.types) lows.now }
    requires highs { Each (IsReached checker.now.types) highs.now }
    ensures { (c : Scopes) → Sound checker.now c → Answers nothing no_more (needing_each condition place lows.now highs.now) c checker.now c checker.now result }
{
    for i in 0..lows.len() {
        needs_one(checker, condition, place, lows[i], highs[i])?;
    }
    Ok(())
}
