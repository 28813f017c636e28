//! The results and bodies of functions.
ghost use Rattle.std.specs.Prelude.{[], OnOk, map};
ghost use Rattle.mo_types.specs.Sub.{Each};
ghost use Rattle.type_definitions.specs.Tables.{Within};
ghost use Rattle.met_types.specs.States.{IsReached};
ghost use Rattle.abstract_types.specs.PatternView.{plain as plain_pattern};
ghost use Rattle.abstract_types.specs.TypeView.{annotation};
ghost use Rattle.abstract_tree.specs.TreeView.{plain};
ghost use Rattle.judging.specs.Answers.{Answers, Judges};
ghost use Rattle.judging.specs.Parts.{Ready, Sound};
ghost use Rattle.function_rules.specs.Functions.{closed, closed_fine, closed_in, function_fine, function_in, function_parts};

use abstract_tree::Expression;
use abstract_types::{Signature, TypeNode};
use body_judging::judge_body;
use judging::{Checker, Judged, Layer, Part};
use scope_judging::{reads_or, unbind};
use signature_judging::parameters;
use signatures::Taken;
use type_judgements::Refusal;
use type_terms::TermId;
use value_scopes::{Body, Note, Scopes};

/// The result and the body of a function.
pub(crate) struct Closed {
    pub(crate) of: TermId,
    pub(crate) body: Expression<Note>,
}

/// A function: its parameters, and the rest of it.
pub(crate) struct Function {
    pub(crate) taken: Taken,
    pub(crate) closed: Closed,
}

/// The result of a function, which may be this other type where none is written, and its body, where the names of its parameters are
/// in scope.
fn close<F: Fn(&mut Checker, &mut Scopes, Part<'_>) -> Judged>(
    layer: &Layer<F>,
    checker: &mut Checker,
    scopes: &mut Scopes,
    written: &Option<TypeNode>,
    other: TermId,
    body: &Expression<u32>,
) -> Result<Closed, Refusal>
    requires judges { Judges layer.now.depth (F.pre layer.now.judge) (F.post layer.now.judge) }
    requires sound { Sound checker.old scopes.old }
    requires within { Within checker.old.types.forms other }
    ensures { Answers closed_in closed_fine (closed layer.now.site.place (annotation written.now) other (plain body.now) []) scopes.old checker.old scopes.new checker.new result }
{
    let of = reads_or(checker, scopes, written, other)?;
    let body = judge_body(layer, checker, scopes, Body::Local, of, body)?;
    Ok(Closed { of, body })
}

/// The parameters of a function, of which these types are wanted, and its result and its body with their names.
pub(crate) fn function_parts<F: Fn(&mut Checker, &mut Scopes, Part<'_>) -> Judged>(
    layer: &Layer<F>,
    checker: &mut Checker,
    scopes: &mut Scopes,
    signature: &Signature<u32>,
    wanted: &[TermId],
    other: TermId,
    body: &Expression<u32>,
) -> Result<Function, Refusal>
    requires judges { Judges layer.now.depth (F.pre layer.now.judge) (F.post layer.now.judge) }
    requires ready { Ready checker.old scopes.old layer.now.site }
    requires wanted { Each (IsReached checker.old.types) wanted.now }
    requires within { Within checker.old.types.forms other }
    ensures answer { Answers function_in function_fine (function_parts layer.now.site.place (map plain_pattern signature.now.parameters) wanted.now (annotation signature.now.result) other (plain body.now)) scopes.old checker.old scopes.new checker.new result }
    ensures ready { OnOk result (Ready checker.new scopes.new layer.now.site) }
{
    let count = scopes.values.len();
    let taken = parameters(checker, scopes, signature.parameters.as_slice(), wanted)?;
    let closed = close(layer, checker, scopes, &signature.result, other, body)?;
    unbind(scopes, count);
    Ok(Function { taken, closed })
}
