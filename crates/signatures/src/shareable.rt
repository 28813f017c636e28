//! Types that are shareable where they have to be.
ghost use Rattle.std.specs.Prelude.{◌≡◌, ◌∷◌};
ghost use Rattle.mo_types.specs.Sub.{Each};
ghost use Rattle.type_definitions.specs.Tables.{Within};
ghost use Rattle.proper_types.specs.Passing.{Judges, Ready};
ghost use Rattle.proper_types.specs.Rules.{done};
ghost use Rattle.signatures.specs.Rules.{all_shareable, is_shareable, each_shareable};

use met_types::Types;
use shareable_types::Sharing;
use type_judgements::Refusal;
use type_terms::TermId;
use typing_rules::Condition;

/// The condition at the place, that a type is shareable.
fn needs_shareable(
    types: &Types,
    sharing: &mut Sharing,
    at: u32,
    kind: TermId,
) -> Result<(), Refusal>
    requires ready { Ready types.now sharing.old }
    requires within { Within types.now.forms kind }
    ensures { Judges (is_shareable at kind) types.now types.now sharing.new done result }
{
    if sharing.is_so(types, kind)? {
        Ok(())
    } else {
        Err(Refusal::False(at, Condition::NotShared))
    }
}

/// The same of several types.
fn each_shareable(
    types: &Types,
    sharing: &mut Sharing,
    at: u32,
    kinds: &[TermId],
) -> Result<(), Refusal>
    requires ready { Ready types.now sharing.old }
    requires within { Each (Within types.now.forms) kinds.now }
    ensures { Judges (each_shareable at kinds.now) types.now types.now sharing.new done result }
{
    for kind in kinds {
        needs_shareable(types, sharing, at, *kind)?;
    }
    Ok(())
}

/// The condition at the place, that the types of a public function's parameters and of what it promises are shareable.
pub(crate) fn all_shareable(
    types: &Types,
    sharing: &mut Sharing,
    at: u32,
    kinds: &[TermId],
    promised: TermId,
) -> Result<(), Refusal>
    requires ready { Ready types.now sharing.old }
    requires kinds { Each (Within types.now.forms) kinds.now }
    requires within { Within types.now.forms promised }
    ensures { Judges (all_shareable at kinds.now promised) types.now types.now sharing.new done result }
{
    needs_shareable(types, sharing, at, promised)?;
    each_shareable(types, sharing, at, kinds)
}
