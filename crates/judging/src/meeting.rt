//! Types without parts that are met.
ghost use Rattle.std.specs.Prelude.{◌≡◌, [], IfOk, OnOk};
ghost use Rattle.type_terms.specs.Layouts.{parts};
ghost use Rattle.typing_rules.specs.Judgements.{Gives, Meets};
ghost use Rattle.typing_rules.specs.Terms as terms;
ghost use Rattle.type_definitions.specs.Meanings.{term, term_of};
ghost use Rattle.met_types.specs.States.{Goes, IsReached, Kept};
ghost use Rattle.value_scopes.specs.declared.scopes.Scopes.{Scopes};
ghost use Rattle.judging.specs.Answers.{Answers};
ghost use Rattle.judging.specs.Parts.{Sound};
ghost use Rattle.judging.specs.Views.{term_in};

use crate::checker::{Checker, unit};
use type_judgements::{Refusal, meets};
use type_terms::{Form, TermId};

/// A type without parts is met.
pub fn meets_plain(checker: &mut Checker, kind: Form) -> Result<TermId, Refusal>
    requires kept { Kept checker.old.types }
    requires plain { parts kind ≡ [] }
    ensures kept { OnOk result (Kept checker.new.types) }
    ensures goes { OnOk result (Goes checker.old.types checker.new.types) }
    ensures reached { IfOk result (IsReached checker.new.types) }
    ensures answer { (c : Scopes) → Sound checker.old c → Answers term_in IsReached (λ v. Meets (term_of (term v.later) kind) (Gives (term_of (term v.later) kind))) c checker.old c checker.new result }
{
    let id = checker.types.intern(kind)?;
    meets(&mut checker.types, id)?;
    Ok(id)
}

/// The type () is met.
pub fn meets_unit(checker: &mut Checker) -> Result<TermId, Refusal>
    requires kept { Kept checker.old.types }
    ensures kept { OnOk result (Kept checker.new.types) }
    ensures goes { OnOk result (Goes checker.old.types checker.new.types) }
    ensures reached { IfOk result (IsReached checker.new.types) }
    ensures answer { (c : Scopes) → Sound checker.old c → Answers term_in IsReached (λ v. Meets terms.unit (Gives terms.unit)) c checker.old c checker.new result }
{
    let kind = unit(checker);
    meets_plain(checker, kind)
}
