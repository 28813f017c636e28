//! `try`.
ghost use Rattle.typing_rules.specs.AbstractSyntax as syntax;
ghost use Rattle.abstract_types.specs.PatternView.{plain as plain_pattern};
ghost use Rattle.abstract_tree.specs.TreeView.{plain};
ghost use Rattle.judging.specs.Answers.{Answers, Judges};
ghost use Rattle.judging.specs.Parts.{Ready};
ghost use Rattle.judging.specs.Views.{kind_reached, rule, typed_in};

use crate::arms::{Arm, judge_arm};
use abstract_tree::{Expression, ExpressionForm};
use abstract_types::Pattern;
use judging::{Checker, Judged, Layer, Part, meets_plain};
use type_judgements::Refusal;
use type_terms::Form;
use typing_rules::Condition;
use value_scopes::Scopes;

/// `try a catch p b`: Motoko language manual, section "Try". It stands in the body of a public function.
pub fn trying<F: Fn(&mut Checker, &mut Scopes, Part<'_>) -> Judged>(
    layer: &Layer<F>,
    checker: &mut Checker,
    scopes: &mut Scopes,
    a: &Expression<u32>,
    pattern: &Pattern<u32>,
    b: &Expression<u32>,
) -> Judged
    requires judges { Judges layer.now.depth (F.pre layer.now.judge) (F.post layer.now.judge) }
    requires ready { Ready checker.old scopes.old layer.now.site }
    ensures { Answers typed_in kind_reached (rule layer.now.site (syntax.Try (plain a.now) (plain_pattern pattern.now) (plain b.now))) scopes.old checker.old scopes.new checker.new result }
{
    if layer.site.place.body.waits() {
        let body = layer.as_wanted(checker, scopes, a)?;
        let error = meets_plain(checker, Form::Error)?;
        let caught = judge_arm(layer, checker, scopes, pattern, error, b)?;
        let kinds = [body.note.kind, caught.body.note.kind];
        let Arm {
            pattern,
            body: handler,
        } = caught;
        layer.site.branches(checker, &kinds, ExpressionForm::Try(body, pattern, handler))
    } else {
        Err(Refusal::False(layer.site.at, Condition::AsyncPlace))
    }
}
