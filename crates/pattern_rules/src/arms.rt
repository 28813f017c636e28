//! Patterns with what is judged with their names.
ghost use Rattle.std.specs.Prelude.{◌≡◌, IfOk, OnOk, map};
ghost use Rattle.met_types.specs.States.{IsReached};
ghost use Rattle.abstract_types.specs.PatternView.{plain as plain_pattern};
ghost use Rattle.abstract_tree.specs.TreeView.{plain};
ghost use Rattle.judging.specs.Answers.{Answers, Judges};
ghost use Rattle.judging.specs.Parts.{Ready};
ghost use Rattle.pattern_rules.specs.Arms.{arm, arm_in, arm_reached, cases_in, cases_reached, judge_cases};

use abstract_tree::{Case, Expression};
use abstract_types::Pattern;
use judging::{Checker, Judged, Layer, Part};
use mo_num::Memory;
use mo_syntax::Items;
use scope_judging::{stands, unbind};
use std::alloc::Global;
use type_judgements::Refusal;
use type_terms::TermId;
use value_scopes::{Note, Scopes};

/// A pattern, and an expression in which its names are bound.
pub(crate) struct Arm {
    pub(crate) pattern: Pattern<Note>,
    pub(crate) body: Expression<Note>,
}

/// A pattern on this type, and an expression with its names, of which the same is wanted as of the whole.
pub(crate) fn judge_arm<F: Fn(&mut Checker, &mut Scopes, Part<'_>) -> Judged>(
    layer: &Layer<F>,
    checker: &mut Checker,
    scopes: &mut Scopes,
    pattern: &Pattern<u32>,
    kind: TermId,
    body: &Expression<u32>,
) -> Result<Arm, Refusal>
    requires judges { Judges layer.now.depth (F.pre layer.now.judge) (F.post layer.now.judge) }
    requires ready { Ready checker.old scopes.old layer.now.site }
    requires reached { IsReached checker.old.types kind }
    ensures answer { Answers arm_in arm_reached (arm layer.now.site (plain_pattern pattern.now) kind (plain body.now)) scopes.old checker.old scopes.new checker.new result }
    ensures ready { OnOk result (Ready checker.new scopes.new layer.now.site) }
{
    let count = scopes.values.len();
    let pattern = stands(checker, scopes, pattern, kind)?;
    let body = layer.as_wanted(checker, scopes, body)?;
    unbind(scopes, count);
    Ok(Arm { pattern, body })
}

/// The cases of a `switch` on this type.
pub(crate) fn each_case<F: Fn(&mut Checker, &mut Scopes, Part<'_>) -> Judged>(
    layer: &Layer<F>,
    checker: &mut Checker,
    scopes: &mut Scopes,
    cases: &[Case<u32>],
    kind: TermId,
) -> Result<Items<Case<Note>>, Refusal>
    requires judges { Judges layer.now.depth (F.pre layer.now.judge) (F.post layer.now.judge) }
    requires ready { Ready checker.old scopes.old layer.now.site }
    requires reached { IsReached checker.old.types kind }
    ensures answer { Answers cases_in cases_reached (judge_cases layer.now.site cases.now kind) scopes.old checker.old scopes.new checker.new result }
    ensures ready { OnOk result (Ready checker.new scopes.new layer.now.site) }
{
    let mut made = Items::new(checker.types.terms().allocator());
    for i in 0..cases.len() {
        let case = &cases[i];
        let one = judge_arm(layer, checker, scopes, &case.pattern, kind, &case.body)?;
        let Arm { pattern, body } = one;
        made.push(Case { pattern, body })?;
    }
    Ok(made)
}

/// The types of the expressions of cases.
pub(crate) fn kinds_of(alloc: Global, cases: &[Case<Note>]) -> Result<Vec<TermId>, Memory>
    ensures { IfOk result (λ made. made.items ≡ map (λ one. one.body.note.kind) cases.now) }
{
    let mut made = Vec::with_capacity(alloc, cases.len())?;
    for i in 0..cases.len() {
        made.push(cases[i].body.note.kind)?;
    }
    Ok(made)
}
