//! The rule of `for`.
ghost use Rattle.typing_rules.specs.AbstractSyntax as syntax;
ghost use Rattle.type_definitions.specs.Meanings.{term};
ghost use Rattle.type_definitions.specs.Tables.{Within};
ghost use Rattle.abstract_types.specs.PatternView.{plain as plain_pattern};
ghost use Rattle.abstract_tree.specs.TreeView.{plain};
ghost use Rattle.judging.specs.Answers.{Answers, Judges};
ghost use Rattle.judging.specs.Parts.{Ready};
ghost use Rattle.judging.specs.Views.{kind_reached, rule, typed_in};
ghost use Rattle.iteration_rules.specs.Turns.{passes};

use crate::items::items;
use crate::turns::{Turn, judge_turn};
use abstract_tree::{Expression, ExpressionForm};
use abstract_types::Pattern;
use judging::{Checker, Judged, Layer, Part};
use type_judgements::Refusal;
use type_steps::meets_kind;
use type_terms::TermId;
use typing_rules::Condition;
use value_scopes::{Note, Scopes};

/// `for` over items of this type.
fn pass<F: Fn(&mut Checker, &mut Scopes, Part<'_>) -> Judged>(
    layer: &Layer<F>,
    checker: &mut Checker,
    scopes: &mut Scopes,
    pattern: &Pattern<u32>,
    of: Expression<Note>,
    kind: TermId,
    body: &Expression<u32>,
) -> Judged
    requires judges { Judges layer.now.depth (F.pre layer.now.judge) (F.post layer.now.judge) }
    requires ready { Ready checker.old scopes.old layer.now.site }
    requires within { Within checker.old.types.forms kind }
    ensures { Answers typed_in kind_reached (λ v. passes layer.now.site (plain_pattern pattern.now) (plain body.now) (typed_in of v.later) (term v.later kind) v) scopes.old checker.old scopes.new checker.new result }
{
    meets_kind(checker, kind)?;
    let made = judge_turn(layer, checker, scopes, pattern, kind, body)?;
    let Turn { pattern, body } = made;
    layer
        .site
        .has_unit(checker, ExpressionForm::For(pattern, of, body))
}

/// `for (p in a) b`: Motoko language manual, section "For". The values of `a` have a function `next : () -> ?T`, p stands on T, and b has
/// the type (). `False` names the first condition that is false.
pub fn iterating<F: Fn(&mut Checker, &mut Scopes, Part<'_>) -> Judged>(
    layer: &Layer<F>,
    checker: &mut Checker,
    scopes: &mut Scopes,
    pattern: &Pattern<u32>,
    a: &Expression<u32>,
    b: &Expression<u32>,
) -> Judged
    requires judges { Judges layer.now.depth (F.pre layer.now.judge) (F.post layer.now.judge) }
    requires ready { Ready checker.old scopes.old layer.now.site }
    ensures { Answers typed_in kind_reached (rule layer.now.site (syntax.For (plain_pattern pattern.now) (plain a.now) (plain b.now))) scopes.old checker.old scopes.new checker.new result }
{
    let of = layer.part(checker, scopes, a, None)?;
    match items(&mut checker.types, of.note.kind)? {
        Some(kind) => pass(layer, checker, scopes, pattern, of, kind, b),
        None => Err(Refusal::False(layer.site.at, Condition::NotIterable)),
    }
}
