//! Operators whose operands have one type: `#`, `and` and `or`.
ghost use Rattle.typing_rules.specs.Operands as rules;
ghost use Rattle.typing_rules.specs.Terms as terms;
ghost use Rattle.abstract_tree.specs.TreeView.{plain};
ghost use Rattle.judging.specs.Answers.{Answers, Judges};
ghost use Rattle.judging.specs.Parts.{Ready};
ghost use Rattle.judging.specs.Views.{kind_reached, typed_in, wanted_in};
ghost use Rattle.operand_rules.specs.Pairs.{part_of};

use abstract_tree::{Expression, ExpressionForm};
use judging::{Checker, Judged, Layer, Part};
use mo_syntax::BinaryOperator;
use type_terms::Form;
use value_scopes::Scopes;

/// `a # b`: both operands fit Text, which is given.
pub(crate) fn both_text<F: Fn(&mut Checker, &mut Scopes, Part<'_>) -> Judged>(
    layer: &Layer<F>,
    checker: &mut Checker,
    scopes: &mut Scopes,
    operator: BinaryOperator,
    a: &Expression<u32>,
    b: &Expression<u32>,
) -> Judged
    requires judges { Judges layer.now.depth (F.pre layer.now.judge) (F.post layer.now.judge) }
    requires ready { Ready checker.old scopes.old layer.now.site }
    ensures { Answers typed_in kind_reached (λ v. rules.BothFit layer.now.site.at (wanted_in v layer.now.site.wanted) terms.Text operator (part_of layer.now.site (plain a.now) v) (part_of layer.now.site (plain b.now) v)) scopes.old checker.old scopes.new checker.new result }
{
    let left = layer.fits(checker, scopes, a, Form::Text)?;
    let right = layer.fits(checker, scopes, b, Form::Text)?;
    layer.site.has_plain(
        checker,
        Form::Text,
        ExpressionForm::Binary(operator, left, right),
    )
}

/// `a and b`, `a or b`: both operands fit Bool, which is given.
pub(crate) fn both_boolean<F: Fn(&mut Checker, &mut Scopes, Part<'_>) -> Judged>(
    layer: &Layer<F>,
    checker: &mut Checker,
    scopes: &mut Scopes,
    operator: BinaryOperator,
    a: &Expression<u32>,
    b: &Expression<u32>,
) -> Judged
    requires judges { Judges layer.now.depth (F.pre layer.now.judge) (F.post layer.now.judge) }
    requires ready { Ready checker.old scopes.old layer.now.site }
    ensures { Answers typed_in kind_reached (λ v. rules.BothFit layer.now.site.at (wanted_in v layer.now.site.wanted) terms.Boolean operator (part_of layer.now.site (plain a.now) v) (part_of layer.now.site (plain b.now) v)) scopes.old checker.old scopes.new checker.new result }
{
    let left = layer.fits_boolean(checker, scopes, a)?;
    let right = layer.fits_boolean(checker, scopes, b)?;
    layer
        .site
        .has_boolean(checker, ExpressionForm::Binary(operator, left, right))
}
