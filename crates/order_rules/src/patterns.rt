//! What a pattern says of the value that it stands on.
ghost use Rattle.std.specs.Prelude.{◌≡◌, option_map};
ghost use Rattle.typing_rules.specs.AsyncPlaces.{around_of};
ghost use Rattle.typing_rules.specs.TypedTrees.{annotation};
ghost use Rattle.abstract_types.specs.PatternView.{plain};
ghost use Rattle.abstract_types.specs.TypeView.{type_node};
ghost use Rattle.value_scopes.specs.Places.{around_in};

use abstract_types::{Pattern, PatternForm, TypeNode};
use value_scopes::Around;

/// The type that is written at a pattern.
pub(crate) fn annotation(q: &Pattern<u32>) -> Option<&TypeNode>
    ensures { option_map (λ n. type_node n.now) result ≡ annotation (plain q.now) }
{
    match q.form.get() {
        PatternForm::Annotated(_, annotation) => Some(annotation),
        PatternForm::Alternative(_, _) => None,
        PatternForm::Optional(_) => None,
        PatternForm::Tag(_) => None,
        PatternForm::Tagged(_, _) => None,
        PatternForm::Variable(_) => None,
        PatternForm::Wildcard => None,
        PatternForm::Constant(_, _) => None,
        PatternForm::Tuple(_) => None,
        PatternForm::Object(_) => None,
    }
}

/// What stands directly around the value.
pub(crate) fn around_of(q: &Pattern<u32>) -> Around
    ensures { around_in result ≡ around_of (plain q.now) }
{
    match q.form.get() {
        PatternForm::Variable(_) => Around::Named,
        PatternForm::Annotated(_, _) => Around::Other,
        PatternForm::Alternative(_, _) => Around::Other,
        PatternForm::Optional(_) => Around::Other,
        PatternForm::Tag(_) => Around::Other,
        PatternForm::Tagged(_, _) => Around::Other,
        PatternForm::Wildcard => Around::Other,
        PatternForm::Constant(_, _) => Around::Other,
        PatternForm::Tuple(_) => Around::Other,
        PatternForm::Object(_) => Around::Other,
    }
}
