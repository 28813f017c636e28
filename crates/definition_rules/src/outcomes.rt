//! Definitions that stand for a type.
ghost use Rattle.type_definitions.specs.Outcomes.{AreOutcomes};
ghost use Rattle.definition_rules.specs.Outcomes.{HasType};

use type_definitions::{Definitions, Outcome, outcome_at};

/// Whether the definition of this name stands for a type that is no use of a name: Motoko language manual, section "Type
/// declarations".
pub fn has_type(definitions: &Definitions, outcomes: &[Outcome], at: u32) -> bool
    ensures { HasType definitions.now outcomes.now at result }
{
    match outcome_at(definitions.names(), outcomes, at) {
        Outcome::Endless => false,
        Outcome::Parameter(_) | Outcome::Form => true,
    }
}
