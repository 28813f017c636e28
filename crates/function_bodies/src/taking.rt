//! Parameters, and a body with their names.
ghost use Rattle.std.specs.Prelude.{[], map, option_map};
ghost use Rattle.type_definitions.specs.Tables.{Within};
ghost use Rattle.abstract_types.specs.PatternView.{plain as plain_pattern};
ghost use Rattle.abstract_tree.specs.TreeView.{plain};
ghost use Rattle.judging.specs.Answers.{Answers, Judges};
ghost use Rattle.judging.specs.Parts.{Sound};
ghost use Rattle.function_bodies.specs.Bodies.{bodied_in, bodied_reached, called_in, called_reached, with_context, with_parameters};

use abstract_tree::Expression;
use abstract_types::Pattern;
use body_judging::judge_body;
use judging::{Checker, Judged, Layer, Part};
use scope_judging::unbind;
use signature_judging::{context_of, parameters};
use signatures::Taken;
use type_judgements::Refusal;
use type_terms::TermId;
use value_scopes::{Body, Note, Scopes};

/// Parameters with their types, and a body.
pub(crate) struct Bodied {
    pub(crate) taken: Taken,
    pub(crate) body: Expression<Note>,
}

/// The same with the pattern of a context, where there is one.
pub(crate) struct Called {
    pub(crate) context: Option<Pattern<Note>>,
    pub(crate) bodied: Bodied,
}

/// Parameters that are all annotated, and the body of a function of this type, in which their names are bound.
pub(crate) fn with_parameters<F: Fn(&mut Checker, &mut Scopes, Part<'_>) -> Judged>(
    layer: &Layer<F>,
    checker: &mut Checker,
    scopes: &mut Scopes,
    patterns: &[Pattern<u32>],
    body: Body,
    returns: TermId,
    a: &Expression<u32>,
) -> Result<Bodied, Refusal>
    requires judges { Judges layer.now.depth (F.pre layer.now.judge) (F.post layer.now.judge) }
    requires sound { Sound checker.old scopes.old }
    requires within { Within checker.old.types.forms returns }
    ensures { Answers bodied_in bodied_reached (with_parameters layer.now.site.place (map plain_pattern patterns.now) body returns (plain a.now)) scopes.old checker.old scopes.new checker.new result }
{
    let count = scopes.values.len();
    let taken = parameters(checker, scopes, patterns, &[])?;
    let body = judge_body(layer, checker, scopes, body, returns, a)?;
    unbind(scopes, count);
    Ok(Bodied { taken, body })
}

/// The same, where the names of a context are bound behind those of the parameters.
pub(crate) fn with_context<F: Fn(&mut Checker, &mut Scopes, Part<'_>) -> Judged>(
    layer: &Layer<F>,
    checker: &mut Checker,
    scopes: &mut Scopes,
    context: &Option<Pattern<u32>>,
    patterns: &[Pattern<u32>],
    body: Body,
    returns: TermId,
    a: &Expression<u32>,
) -> Result<Called, Refusal>
    requires judges { Judges layer.now.depth (F.pre layer.now.judge) (F.post layer.now.judge) }
    requires sound { Sound checker.old scopes.old }
    requires within { Within checker.old.types.forms returns }
    ensures { Answers called_in called_reached (with_context layer.now.site.place (option_map plain_pattern context.now) (map plain_pattern patterns.now) body returns (plain a.now)) scopes.old checker.old scopes.new checker.new result }
{
    let count = scopes.values.len();
    let context = context_of(checker, scopes, context)?;
    let bodied = with_parameters(layer, checker, scopes, patterns, body, returns, a)?;
    unbind(scopes, count);
    Ok(Called { context, bodied })
}
