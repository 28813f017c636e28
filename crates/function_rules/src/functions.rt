//! Functions without names.
ghost use Rattle.std.specs.Prelude.{[], length, nat_eq};
ghost use Rattle.mo_types.specs.Sub.{Each};
ghost use Rattle.typing_rules.specs.AbstractSyntax as syntax;
ghost use Rattle.typing_rules.specs.declared.condition.Condition.TheVariants as condition;
ghost use Rattle.typing_rules.specs.Judgements.{Tests};
ghost use Rattle.type_definitions.specs.Tables.{Within};
ghost use Rattle.met_types.specs.States.{IsReached};
ghost use Rattle.abstract_types.specs.PatternView.{plain_signature};
ghost use Rattle.abstract_tree.specs.TreeView.{plain};
ghost use Rattle.value_scopes.specs.declared.scopes.Scopes.{Scopes as Names};
ghost use Rattle.judging.specs.Answers.{Answers, Judges};
ghost use Rattle.judging.specs.Parts.{Ready, Sound, Wanting};
ghost use Rattle.judging.specs.Views.{kind_reached, rule, typed_in};
ghost use Rattle.function_rules.specs.Functions.{ended, function_on, function_fine, or_unit};

use crate::closing::{Closed, Function, function_parts};
use crate::heads::wanted_function;
use abstract_tree::{Expression, ExpressionForm};
use abstract_types::Signature;
use judging::{Checker, Judged, Layer, Part, Site};
use signature_judging::copied_signature;
use type_judgements::Refusal;
use type_terms::{Form, TermId};
use typing_rules::Condition;
use value_scopes::Scopes;
use written_kinds::unit;

/// The function is given with its type, which is below the one that is wanted.
fn ends(site: &Site, checker: &mut Checker, signature: &Signature<u32>, made: Function) -> Judged
    requires wanting { Wanting checker.old site.now }
    requires fine { function_fine checker.old.types made }
    ensures { (c : Names) → Sound checker.old c → Answers typed_in kind_reached (ended site.now (plain_signature signature.now) made) c checker.old c checker.new result }
{
    let Function { taken, closed } = made;
    let (kinds, patterns) = taken.into_parts();
    let Closed { of, body } = closed;
    let signature = copied_signature(checker.types.terms().allocator(), signature, patterns)?;
    site.has_form(
        checker,
        Form::Function(kinds, of),
        ExpressionForm::Function(signature, body),
    )
}

/// A function, of whose parameters these types are wanted, and whose result is this other type where none is written.
fn function_on<F: Fn(&mut Checker, &mut Scopes, Part<'_>) -> Judged>(
    layer: &Layer<F>,
    checker: &mut Checker,
    scopes: &mut Scopes,
    signature: &Signature<u32>,
    wanted: &[TermId],
    other: TermId,
    body: &Expression<u32>,
) -> Judged
    requires judges { Judges layer.now.depth (F.pre layer.now.judge) (F.post layer.now.judge) }
    requires ready { Ready checker.old scopes.old layer.now.site }
    requires wanted { Each (IsReached checker.old.types) wanted.now }
    requires within { Within checker.old.types.forms other }
    ensures { Answers typed_in kind_reached (function_on layer.now.site (plain_signature signature.now) (plain body.now) wanted.now other) scopes.old checker.old scopes.new checker.new result }
{
    let made = function_parts(layer, checker, scopes, signature, wanted, other, body)?;
    ends(&layer.site, checker, signature, made)
}

/// A function where a type of functions is wanted, with these parameters and this result.
fn fits<F: Fn(&mut Checker, &mut Scopes, Part<'_>) -> Judged>(
    layer: &Layer<F>,
    checker: &mut Checker,
    scopes: &mut Scopes,
    signature: &Signature<u32>,
    wanted: &[TermId],
    other: TermId,
    body: &Expression<u32>,
) -> Judged
    requires judges { Judges layer.now.depth (F.pre layer.now.judge) (F.post layer.now.judge) }
    requires ready { Ready checker.old scopes.old layer.now.site }
    requires wanted { Each (IsReached checker.old.types) wanted.now }
    requires within { Within checker.old.types.forms other }
    ensures { Answers typed_in kind_reached (λ v. Tests condition.Mismatch layer.now.site.at (nat_eq (length wanted.now) (length signature.now.parameters)) (function_on layer.now.site (plain_signature signature.now) (plain body.now) wanted.now other v)) scopes.old checker.old scopes.new checker.new result }
{
    if wanted.len() != signature.parameters.len() {
        return Err(Refusal::False(layer.site.at, Condition::Mismatch));
    }
    function_on(layer, checker, scopes, signature, wanted, other, body)
}

/// A function where none is wanted: a result that is not written is ().
fn gives<F: Fn(&mut Checker, &mut Scopes, Part<'_>) -> Judged>(
    layer: &Layer<F>,
    checker: &mut Checker,
    scopes: &mut Scopes,
    signature: &Signature<u32>,
    body: &Expression<u32>,
) -> Judged
    requires judges { Judges layer.now.depth (F.pre layer.now.judge) (F.post layer.now.judge) }
    requires ready { Ready checker.old scopes.old layer.now.site }
    ensures { Answers typed_in kind_reached (or_unit layer.now.site (plain_signature signature.now) (plain body.now)) scopes.old checker.old scopes.new checker.new result }
{
    let unit = unit(&mut checker.types)?;
    function_on(layer, checker, scopes, signature, &[], unit, body)
}

/// `func (p, q) : A { .. }`: it gives its type where all parameters are annotated, and a result that is not written is (). It fits a
/// function type with as many parameters, and takes from it what is not annotated: Motoko language manual, section "Functions".
pub fn function<F: Fn(&mut Checker, &mut Scopes, Part<'_>) -> Judged>(
    layer: &Layer<F>,
    checker: &mut Checker,
    scopes: &mut Scopes,
    signature: &Signature<u32>,
    body: &Expression<u32>,
) -> Judged
    requires judges { Judges layer.now.depth (F.pre layer.now.judge) (F.post layer.now.judge) }
    requires ready { Ready checker.old scopes.old layer.now.site }
    ensures { Answers typed_in kind_reached (rule layer.now.site (syntax.Function (plain_signature signature.now) (plain body.now))) scopes.old checker.old scopes.new checker.new result }
{
    match wanted_function(&layer.site, checker)? {
        Some((_, (parameters, of))) => fits(
            layer,
            checker,
            scopes,
            signature,
            parameters.as_slice(),
            of,
            body,
        ),
        None => gives(layer, checker, scopes, signature, body),
    }
}
