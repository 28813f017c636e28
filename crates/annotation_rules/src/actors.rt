//! What actor references stand for.
ghost use Rattle.std.specs.Prelude.{◌≡◌, option_map};
ghost use Rattle.typing_rules.specs.declared.condition.Condition.TheVariants as condition;
ghost use Rattle.typing_rules.specs.Answers.{IsPrincipalText};
ghost use Rattle.typing_rules.specs.Expressions.{actor_text};
ghost use Rattle.typing_rules.specs.Judgements.{Fine, IsPrincipal, Needs};
ghost use Rattle.met_types.specs.States.{IsReached, IsSo, Kept, State};
ghost use Rattle.type_judgements.specs.Judged.{Judged};
ghost use Rattle.abstract_tree.specs.TreeView.{plain};
ghost use Rattle.annotation_rules.specs.Actors.{IsActorAnswer};

use abstract_tree::Expression;
use expression_shapes::{Shape, shape_of};
use met_types::Types;
use mo_num::principal_read;
use std::alloc::Global;
use type_judgements::Refusal;
use type_terms::TermId;
use typing_rules::Condition;

/// The text of an actor reference, where the expression is one.
pub(crate) fn actor_text(a: &Expression<u32>) -> Option<&[u8]>
    ensures { option_map (λ text. text.now) result ≡ actor_text (plain a.now) }
{
    match shape_of(a) {
        Shape::Constant(_) => None,
        Shape::Name(_) => None,
        Shape::Member(_, _) => None,
        Shape::Negative(_) => None,
        Shape::ActorReference(text) => Some(text),
        Shape::Other => None,
    }
}

/// Whether a type is one of actors.
pub(crate) fn is_actor(types: &Types, id: TermId) -> bool
    requires kept { Kept types.now }
    requires reached { IsReached types.now id }
    ensures { IsActorAnswer types.now id result }
{
    match types.node(id) {
        Some(node) => node.actor_of().is_some(),
        None => false,
    }
}

/// Whether some principal has this text.
fn is_principal(alloc: Global, text: &[u8]) -> bool
    ensures { IsSo result (IsPrincipalText text.now) }
{
    principal_read(alloc, text).is_some()
}

/// The condition at the place, that some principal has this text.
pub(crate) fn needs_principal(alloc: Global, place: u32, text: &[u8]) -> Result<(), Refusal>
    ensures { (s : State) → Judged (λ later. Needs condition.BadPrincipal place (IsPrincipal text.now) Fine) s s (λ made later. made) result }
{
    if is_principal(alloc, text) {
        Ok(())
    } else {
        Err(Refusal::False(place, Condition::BadPrincipal))
    }
}
