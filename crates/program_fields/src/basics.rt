//! The types that every program has, whether a node has them or not.
ghost use Rattle.std.specs.Prelude.{◌≡◌};
ghost use Rattle.typing_rules.specs.Judgements.{Fine, MeetsEach};
ghost use Rattle.typing_rules.specs.Programs.{basics};
ghost use Rattle.met_types.specs.States.{Kept};
ghost use Rattle.value_scopes.specs.declared.scopes.Scopes.{Scopes as ScopesValue};
ghost use Rattle.judging.specs.Answers.{Answers};
ghost use Rattle.judging.specs.Parts.{Sound};
ghost use Rattle.judging.specs.Views.{no_more, nothing};
ghost use Rattle.program_fields.specs.Fields.{found_type, own_in};

use judging::{Checker, meets_plain, meets_unit};
use mo_num::{Bytes, Kind};
use type_judgements::Refusal;
use type_steps::meets_kind;
use type_terms::{Form, TermId};
use value_scopes::Scopes;

/// The types `()`, `Bool` and `Nat` are met.
pub(crate) fn meets_basics(checker: &mut Checker) -> Result<(), Refusal>
    requires { Kept checker.old.types }
    ensures { (c : ScopesValue) → Sound checker.old c → Answers nothing no_more (λ v. MeetsEach basics Fine) c checker.old c checker.new result }
{
    meets_unit(checker)?;
    meets_plain(checker, Form::Boolean)?;
    meets_plain(checker, Form::Number(Kind::Nat))?;
    Ok(())
}

/// The type that the name of a program has, if there is a name.
fn own_type(scopes: &Scopes, name: &Option<Bytes>) -> Option<TermId>
    ensures { result ≡ found_type scopes.now.values name.now }
{
    match name {
        None => None,
        Some(name) => match scopes.values.find(name.as_slice()) {
            None => None,
            Some(bound) => Some(bound.kind),
        },
    }
}

/// The type that the name of a program has is met, if there is a name.
pub(crate) fn meets_own(
    checker: &mut Checker,
    scopes: &Scopes,
    name: &Option<Bytes>,
) -> Result<(), Refusal>
    requires { Sound checker.old scopes.now }
    ensures { Answers nothing no_more (λ v. MeetsEach (own_in name.now v) Fine) scopes.now checker.old scopes.now checker.new result }
{
    match own_type(scopes, name) {
        None => Ok(()),
        Some(kind) => meets_kind(checker, kind),
    }
}
