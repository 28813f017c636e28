//! Arrays of either kind.
ghost use Rattle.std.specs.Prelude.{map};
ghost use Rattle.typing_rules.specs.AbstractSyntax as syntax;
ghost use Rattle.abstract_tree.specs.TreeView.{listed, plain};
ghost use Rattle.judging.specs.Answers.{Answers, Judges};
ghost use Rattle.judging.specs.Parts.{Ready};
ghost use Rattle.judging.specs.Views.{kind_reached, rule, typed_in};

use abstract_tree::Expression;
use array_rules::{array, mutable_array};
use judging::{Checker, Judged, Layer, Part};
use value_scopes::Scopes;

/// `[a, b]`, or `[var a, b]`.
pub(crate) fn any_array<F: Fn(&mut Checker, &mut Scopes, Part<'_>) -> Judged>(
    layer: &Layer<F>,
    checker: &mut Checker,
    scopes: &mut Scopes,
    mutable: bool,
    items: &[Expression<u32>],
) -> Judged
    requires judges { Judges layer.now.depth (F.pre layer.now.judge) (F.post layer.now.judge) }
    requires ready { Ready checker.old scopes.old layer.now.site }
    ensures { Answers typed_in kind_reached (rule layer.now.site (syntax.Array mutable (listed (map plain items.now)))) scopes.old checker.old scopes.new checker.new result }
{
    if mutable {
        mutable_array(layer, checker, scopes, items)
    } else {
        array(layer, checker, scopes, items)
    }
}
