//! The steps of rules.
ghost use Rattle.std.specs.Prelude.{◌≡◌, OnOk, IfErr};
ghost use Rattle.typing_rules.specs.Judgements.{Fine, IsBelow, Meets, Needs, Tests};
ghost use Rattle.type_definitions.specs.Meanings.{term};
ghost use Rattle.type_definitions.specs.Tables.{Within};
ghost use Rattle.met_types.specs.States.{Goes, IsReached, Kept, State};
ghost use Rattle.type_judgements.specs.Judged.{Judged};
ghost use Rattle.type_judgements.specs.LeftBehind.{LeavesOn};

use crate::Refusal;
use met_types::Types;
use std::alloc::Global;
use type_terms::TermId;
use typing_rules::Condition;

/// The type is met.
pub fn meets(types: &mut Types, id: TermId) -> Result<(), Refusal>
    requires kept { Kept types.old }
    requires within { Within types.old.forms id }
    ensures kept { OnOk result (Kept types.new) }
    ensures goes { OnOk result (Goes types.old types.new) }
    ensures left { IfErr result (LeavesOn types.old types.new) }
    ensures reached { OnOk result (IsReached types.new id) }
    ensures judged { Judged (λ later. Meets (term later id) Fine) types.old types.new (λ made later. made) result }
{
    types.meet(id)?;
    Ok(())
}

/// The condition at the place, that a type is a subtype of another.
pub fn needs_below(
    alloc: Global,
    types: &Types,
    condition: Condition,
    place: u32,
    low: TermId,
    high: TermId,
) -> Result<(), Refusal>
    requires kept { Kept types.now }
    requires low { IsReached types.now low }
    requires high { IsReached types.now high }
    ensures { Judged (λ later. Needs condition place (IsBelow (term later low) (term later high)) Fine) types.now types.now (λ made later. made) result }
{
    if types.is_below(alloc, low, high)? {
        Ok(())
    } else {
        Err(Refusal::False(place, condition))
    }
}

/// The condition at the place, that it is so. The types are as they are.
pub fn tests(condition: Condition, place: u32, holds: bool) -> Result<(), Refusal>
    ensures { (s : State) → Judged (λ later. Tests condition place holds Fine) s s (λ made later. made) result }
{
    if holds {
        Ok(())
    } else {
        Err(Refusal::False(place, condition))
    }
}
