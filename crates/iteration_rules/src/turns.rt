//! Patterns on the items that are gone over, with the bodies of loops.
ghost use Rattle.std.specs.Prelude.{OnOk};
ghost use Rattle.met_types.specs.States.{IsReached};
ghost use Rattle.abstract_types.specs.PatternView.{plain as plain_pattern};
ghost use Rattle.abstract_tree.specs.TreeView.{plain};
ghost use Rattle.judging.specs.Answers.{Answers, Judges};
ghost use Rattle.judging.specs.Parts.{Ready};
ghost use Rattle.iteration_rules.specs.Turns.{turn, turn_in, turn_reached};

use abstract_tree::Expression;
use abstract_types::Pattern;
use judging::{Checker, Judged, Layer, Part};
use scope_judging::{stands, unbind};
use type_judgements::Refusal;
use type_terms::TermId;
use value_scopes::{Note, Scopes};

/// A pattern, and the body of a loop in which its names are bound.
pub(crate) struct Turn {
    pub(crate) pattern: Pattern<Note>,
    pub(crate) body: Expression<Note>,
}

/// A pattern on this type, and the body of a loop with its names, of which () is wanted.
pub(crate) fn judge_turn<F: Fn(&mut Checker, &mut Scopes, Part<'_>) -> Judged>(
    layer: &Layer<F>,
    checker: &mut Checker,
    scopes: &mut Scopes,
    pattern: &Pattern<u32>,
    kind: TermId,
    body: &Expression<u32>,
) -> Result<Turn, Refusal>
    requires judges { Judges layer.now.depth (F.pre layer.now.judge) (F.post layer.now.judge) }
    requires ready { Ready checker.old scopes.old layer.now.site }
    requires reached { IsReached checker.old.types kind }
    ensures answer { Answers turn_in turn_reached (turn layer.now.site (plain_pattern pattern.now) kind (plain body.now)) scopes.old checker.old scopes.new checker.new result }
    ensures ready { OnOk result (Ready checker.new scopes.new layer.now.site) }
{
    let count = scopes.values.len();
    let pattern = stands(checker, scopes, pattern, kind)?;
    let body = layer.loop_body(checker, scopes, body)?;
    unbind(scopes, count);
    Ok(Turn { pattern, body })
}
