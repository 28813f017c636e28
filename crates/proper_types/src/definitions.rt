//! Type definitions.
ghost use Rattle.std.specs.Prelude.{◌≡◌};
ghost use Rattle.met_types.specs.States.{Kept};
ghost use Rattle.abstract_types.specs.TypeView.{named};
ghost use Rattle.type_judgements.specs.Judged.{Judged};
ghost use Rattle.proper_types.specs.Rules.{defines, done};

use abstract_types::PlacedName;
use definition_rules::{has_type, keeps_parameters};
use met_types::Types;
use type_judgements::Refusal;
use typing_rules::Condition;

/// Whether the definition of a name is as it has to be: it stands for a type that is no use of a name, and uses the names of its
/// group at its own parameters only (Motoko language manual, section "Type declarations"). The types are as they are.
pub fn defines(types: &Types, name: &PlacedName) -> Result<(), Refusal>
    requires { Kept types.now }
    ensures { Judged (defines (named name.now) types.now.listed) types.now types.now done result }
{
    let at = name.at;
    if !has_type(types.definitions(), types.outcomes(), at) {
        return Err(Refusal::False(at, Condition::BadDefinition));
    }
    if keeps_parameters(types.terms(), types.definitions(), at)? {
        Ok(())
    } else {
        Err(Refusal::False(at, Condition::BadDefinition))
    }
}
