//! Types that are met.
ghost use Rattle.std.specs.Prelude.{OnOk};
ghost use Rattle.mo_types.specs.Sub.{Each};
ghost use Rattle.type_definitions.specs.Tables.{Within};
ghost use Rattle.met_types.specs.States.{Goes, IsReached, Kept};
ghost use Rattle.value_scopes.specs.declared.scopes.Scopes.{Scopes};
ghost use Rattle.judging.specs.Answers.{Answers};
ghost use Rattle.judging.specs.Parts.{Sound};
ghost use Rattle.judging.specs.Views.{no_more, nothing};
ghost use Rattle.type_steps.specs.Steps.{meeting, meeting_each};

use judging::Checker;
use type_judgements::{Refusal, meets};
use type_terms::TermId;

/// The type is met.
pub fn meets_kind(checker: &mut Checker, kind: TermId) -> Result<(), Refusal>
    requires kept { Kept checker.old.types }
    requires within { Within checker.old.types.forms kind }
    ensures kept { OnOk result (Kept checker.new.types) }
    ensures goes { OnOk result (Goes checker.old.types checker.new.types) }
    ensures reached { OnOk result (IsReached checker.new.types kind) }
    ensures answer { (c : Scopes) → Sound checker.old c → Answers nothing no_more (meeting kind) c checker.old c checker.new result }
{
    meets(&mut checker.types, kind)
}

/// The types are met, one after the other.
pub fn meets_each(checker: &mut Checker, kinds: &[TermId]) -> Result<(), Refusal>
    requires kept { Kept checker.old.types }
    requires within { Each (Within checker.old.types.forms) kinds.now }
    ensures kept { OnOk result (Kept checker.new.types) }
    ensures goes { OnOk result (Goes checker.old.types checker.new.types) }
    ensures reached { OnOk result (Each (IsReached checker.new.types) kinds.now) }
    ensures answer { (c : Scopes) → Sound checker.old c → Answers nothing no_more (meeting_each kinds.now) c checker.old c checker.new result }
{
    for i in 0..kinds.len() {
        meets_kind(checker, kinds[i])?;
    }
    Ok(())
}
