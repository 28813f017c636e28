//! `switch`.
ghost use Rattle.std.specs.Prelude.{map};
ghost use Rattle.typing_rules.specs.AbstractSyntax as syntax;
ghost use Rattle.abstract_tree.specs.TreeView.{cases, plain, plain_case};
ghost use Rattle.judging.specs.Answers.{Answers, Judges};
ghost use Rattle.judging.specs.Parts.{Ready};
ghost use Rattle.judging.specs.Views.{kind_reached, rule, typed_in};

use crate::arms::{each_case, kinds_of};
use abstract_tree::{Case, Expression, ExpressionForm};
use judging::{Checker, Judged, Layer, Part};
use value_scopes::Scopes;

/// `switch a { case p b; case q c }`: Motoko language manual, section "Switch".
pub fn switching<F: Fn(&mut Checker, &mut Scopes, Part<'_>) -> Judged>(
    layer: &Layer<F>,
    checker: &mut Checker,
    scopes: &mut Scopes,
    a: &Expression<u32>,
    list: &[Case<u32>],
) -> Judged
    requires judges { Judges layer.now.depth (F.pre layer.now.judge) (F.post layer.now.judge) }
    requires ready { Ready checker.old scopes.old layer.now.site }
    ensures { Answers typed_in kind_reached (rule layer.now.site (syntax.Switch (plain a.now) (cases (map plain_case list.now)))) scopes.old checker.old scopes.new checker.new result }
{
    let of = layer.part(checker, scopes, a, None)?;
    let made = each_case(layer, checker, scopes, list, of.note.kind)?;
    let kinds = kinds_of(checker.types.terms().allocator(), made.as_slice())?;
    layer.site.branches(checker, kinds.as_slice(), ExpressionForm::Switch(of, made))
}
