//! Parts of what is assigned to.
ghost use Rattle.std.specs.Prelude.{◌≡◌, OnOk, Some};
ghost use Rattle.typing_rules.specs.Terms as terms;
ghost use Rattle.abstract_tree.specs.TreeView.{plain};
ghost use Rattle.judging.specs.Answers.{Answers, Judges};
ghost use Rattle.judging.specs.Parts.{Ready};
ghost use Rattle.judging.specs.Views.{judge_at, kind_reached, typed_in};

use abstract_tree::Expression;
use judging::{Checker, Judged, Layer, Part};
use mo_num::Kind;
use type_terms::Form;
use value_scopes::{Place, Scopes};

/// A part that stands elsewhere in the same body, of which Nat is wanted.
pub(crate) fn fits_nat<F: Fn(&mut Checker, &mut Scopes, Part<'_>) -> Judged>(
    layer: &Layer<F>,
    checker: &mut Checker,
    scopes: &mut Scopes,
    place: Place,
    expression: &Expression<u32>,
) -> Judged
    requires judges { Judges layer.now.depth (F.pre layer.now.judge) (F.post layer.now.judge) }
    requires ready { Ready checker.old scopes.old layer.now.site }
    requires returns { place.returns ≡ layer.now.site.place.returns }
    ensures answer { Answers typed_in kind_reached (judge_at place (plain expression.now) (Some terms.nat)) scopes.old checker.old scopes.new checker.new result }
    ensures ready { OnOk result (Ready checker.new scopes.new layer.now.site) }
{
    let wanted = checker.types.intern(Form::Number(Kind::Nat))?;
    layer.part_at(checker, scopes, place, expression, Some(wanted))
}
