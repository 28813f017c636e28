//! The greatest of several types.
ghost use Rattle.std.specs.Prelude.{IfOk, map};
ghost use Rattle.mo_types.specs.Sub.{Each};
ghost use Rattle.typing_rules.specs.Ends.{Greatest};
ghost use Rattle.type_definitions.specs.Meanings.{term};
ghost use Rattle.met_types.specs.States.{IsReached, Kept};
ghost use Rattle.type_judgements.specs.Judged.{Judged};
ghost use Rattle.judging.specs.Questions.{IsAboveAll};

use met_types::Types;
use mo_num::Memory;
use type_judgements::Refusal;
use type_terms::TermId;
use typing_rules::Condition;

/// Whether all are below this one. Nothing is asked behind the first that is not.
fn is_above_all(types: &Types, kind: TermId, kinds: &[TermId]) -> Result<bool, Memory>
    requires kept { Kept types.now }
    requires kind { IsReached types.now kind }
    requires kinds { Each (IsReached types.now) kinds.now }
    ensures { IfOk result (IsAboveAll types.now kind kinds.now) }
{
    for one in kinds {
        if !types.is_below(types.terms().allocator(), *one, kind)? {
            return Ok(false);
        }
    }
    Ok(true)
}

/// The first of several types that all others are below, or the condition that there is one, which is false: Motoko language
/// manual, section "Subtyping".
pub fn greatest(
    types: &Types,
    condition: Condition,
    place: u32,
    kinds: &[TermId],
) -> Result<TermId, Refusal>
    requires kept { Kept types.now }
    requires kinds { Each (IsReached types.now) kinds.now }
    ensures reached { IfOk result (IsReached types.now) }
    ensures judged { Judged (λ later. Greatest condition place (map (term later) kinds.now)) types.now types.now (λ kind later. term later kind) result }
{
    for one in kinds {
        if is_above_all(types, *one, kinds)? {
            return Ok(*one);
        }
    }
    Err(Refusal::False(place, condition))
}
