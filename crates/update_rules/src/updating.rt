//! Assignments with an operator.
ghost use Rattle.typing_rules.specs.AbstractSyntax as syntax;
ghost use Rattle.abstract_tree.specs.TreeView.{plain};
ghost use Rattle.judging.specs.Answers.{Answers, Judges};
ghost use Rattle.judging.specs.Parts.{Ready};
ghost use Rattle.judging.specs.Views.{kind_reached, rule, typed_in};

use abstract_tree::{Expression, ExpressionForm};
use judging::{Checker, Judged, Layer, Part};
use mo_syntax::BinaryOperator;
use operator_rules::operand;
use place_rules::judge_place;
use value_scopes::Scopes;

/// `p += a`, or with another operator: it gives (), where the operator stands on the type of p and a fits its right side. Motoko language
/// manual, section "Compound assignment". `False` names the first condition that is false.
pub fn assign_by<F: Fn(&mut Checker, &mut Scopes, Part<'_>) -> Judged>(
    layer: &Layer<F>,
    checker: &mut Checker,
    scopes: &mut Scopes,
    operator: BinaryOperator,
    of: &Expression<u32>,
    a: &Expression<u32>,
) -> Judged
    requires judges { Judges layer.now.depth (F.pre layer.now.judge) (F.post layer.now.judge) }
    requires ready { Ready checker.old scopes.old layer.now.site }
    ensures { Answers typed_in kind_reached (rule layer.now.site (syntax.AssignBy operator (plain of.now) (plain a.now))) scopes.old checker.old scopes.new checker.new result }
{
    let to = judge_place(layer, checker, scopes, of)?;
    let by = operand(layer, checker, scopes, operator, to.note.kind, a)?;
    layer
        .site
        .has_unit(checker, ExpressionForm::AssignBy(operator, to, by))
}
