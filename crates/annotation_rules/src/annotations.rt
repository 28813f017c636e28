//! Type annotations (Motoko language manual, sections "Type annotation" and "Actor references").
ghost use Rattle.std.specs.Prelude.{◌≡◌, IfOk, List, Some, is_some};
ghost use Rattle.mo_types.specs.Heads.{actor_of};
ghost use Rattle.type_terms.specs.declared.form.Form.{Form as FormValue};
ghost use Rattle.typing_rules.specs.declared.condition.Condition.TheVariants as condition;
ghost use Rattle.typing_rules.specs.AbstractSyntax as syntax;
ghost use Rattle.typing_rules.specs.Ends.{Has};
ghost use Rattle.typing_rules.specs.Heads.{head};
ghost use Rattle.typing_rules.specs.Judgements.{IsPrincipal, Needs, Part as PartOf, Tests};
ghost use Rattle.typing_rules.specs.TypedTrees.{typed};
ghost use Rattle.type_definitions.specs.Meanings.{term};
ghost use Rattle.met_types.specs.States.{IsReached};
ghost use Rattle.abstract_types.specs.TypeView.{type_node};
ghost use Rattle.abstract_tree.specs.TreeView.{plain};
ghost use Rattle.value_scopes.specs.declared.scopes.Scopes.{Scopes as ScopesValue};
ghost use Rattle.judging.specs.Answers.{Answers, Judges};
ghost use Rattle.judging.specs.Parts.{Ready, Sound, Wanting};
ghost use Rattle.judging.specs.Views.{definitions, form_in, judge_at, kind_reached, rule, typed_in, wanted_in};
ghost use Rattle.annotation_rules.specs.Actors.{annotated_in};

use crate::actors::{actor_text, is_actor, needs_principal};
use abstract_tree::{Expression, ExpressionForm};
use abstract_types::TypeNode;
use judging::{Checker, Judged, Layer, Part, Site};
use mo_num::{Bytes, Memory};
use scope_judging::reads;
use type_copies::copied_type;
use type_judgements::Refusal;
use type_terms::TermId;
use typing_rules::Condition;
use value_scopes::{Note, Scopes};

/// The form of an actor reference of this text.
fn reference(checker: &Checker, text: &[u8]) -> Result<ExpressionForm<Note>, Memory>
    ensures { IfOk result (λ made. (later : List FormValue) → form_in made later ≡ syntax.ActorReference text.now) }
{
    let text = Bytes::from_slice(checker.types.terms().allocator(), text)?;
    Ok(ExpressionForm::ActorReference(text))
}

/// The form of an expression with this type written at it.
fn annotation(
    checker: &Checker,
    of: Expression<Note>,
    written: &TypeNode,
) -> Result<ExpressionForm<Note>, Memory>
    ensures { IfOk result (λ made. (later : List FormValue) → form_in made later ≡ syntax.Annotated (typed_in of later) (type_node written.now)) }
{
    let written = copied_type(checker.types.terms().allocator(), written)?;
    Ok(ExpressionForm::Annotated(of, written))
}

/// An actor reference, at the token of this number, that has this type, as it is written.
fn actor_has(
    site: &Site,
    checker: &mut Checker,
    at: u32,
    text: &[u8],
    kind: TermId,
    written: &TypeNode,
) -> Judged
    requires wanting { Wanting checker.old site.now }
    requires kind { IsReached checker.old.types kind }
    ensures { (c : ScopesValue) → Sound checker.old c
        → Answers typed_in kind_reached (λ v. Tests condition.NotActor site.now.at (is_some (actor_of (head (definitions v) (term v.later kind)))) (Needs condition.BadPrincipal site.now.at (IsPrincipal text.now) (Has site.now.at (wanted_in v site.now.wanted) (term v.later kind) (syntax.Annotated (typed at (term v.later kind) (syntax.ActorReference text.now)) (type_node written.now))))) c checker.old c checker.new result }
{
    if !is_actor(&checker.types, kind) {
        return Err(Refusal::False(site.at, Condition::NotActor));
    }
    needs_principal(checker.types.terms().allocator(), site.at, text)?;
    let inner = reference(checker, text)?;
    let own = Site { at, ..*site };
    let of = own.gives(checker, kind, inner)?;
    let form = annotation(checker, of, written)?;
    site.has(checker, kind, form)
}

/// An expression that fits this type, as it is written.
fn value_has<F: Fn(&mut Checker, &mut Scopes, Part<'_>) -> Judged>(
    layer: &Layer<F>,
    checker: &mut Checker,
    scopes: &mut Scopes,
    a: &Expression<u32>,
    kind: TermId,
    written: &TypeNode,
) -> Judged
    requires judges { Judges layer.now.depth (F.pre layer.now.judge) (F.post layer.now.judge) }
    requires ready { Ready checker.old scopes.old layer.now.site }
    requires kind { IsReached checker.old.types kind }
    ensures { Answers typed_in kind_reached (λ v. PartOf (judge_at layer.now.site.place (plain a.now) (Some (term v.later kind)) v) (λ b. Has layer.now.site.at (wanted_in v layer.now.site.wanted) (term v.later kind) (syntax.Annotated b (type_node written.now)))) scopes.old checker.old scopes.new checker.new result }
{
    let of = layer.part(checker, scopes, a, Some(kind))?;
    let form = annotation(checker, of, written)?;
    layer.site.has(checker, kind, form)
}

/// An actor reference or another expression, that has this type, as it is written.
fn annotated_at<F: Fn(&mut Checker, &mut Scopes, Part<'_>) -> Judged>(
    layer: &Layer<F>,
    checker: &mut Checker,
    scopes: &mut Scopes,
    a: &Expression<u32>,
    kind: TermId,
    written: &TypeNode,
) -> Judged
    requires judges { Judges layer.now.depth (F.pre layer.now.judge) (F.post layer.now.judge) }
    requires ready { Ready checker.old scopes.old layer.now.site }
    requires kind { IsReached checker.old.types kind }
    ensures { Answers typed_in kind_reached (λ v. annotated_in layer.now.site (plain a.now) (type_node written.now) v (term v.later kind)) scopes.old checker.old scopes.new checker.new result }
{
    match actor_text(a) {
        Some(text) => actor_has(&layer.site, checker, a.note, text, kind, written),
        None => value_has(layer, checker, scopes, a, kind, written),
    }
}

/// `a : A`: `a` fits the type that is written, which is given. An actor reference stands there alone, where the type is one of actors and some
/// principal has its text.
pub fn annotated<F: Fn(&mut Checker, &mut Scopes, Part<'_>) -> Judged>(
    layer: &Layer<F>,
    checker: &mut Checker,
    scopes: &mut Scopes,
    a: &Expression<u32>,
    written: &TypeNode,
) -> Judged
    requires judges { Judges layer.now.depth (F.pre layer.now.judge) (F.post layer.now.judge) }
    requires ready { Ready checker.old scopes.old layer.now.site }
    ensures { Answers typed_in kind_reached (rule layer.now.site (syntax.Annotated (plain a.now) (type_node written.now))) scopes.old checker.old scopes.new checker.new result }
{
    let kind = reads(checker, scopes, written)?;
    annotated_at(layer, checker, scopes, a, kind, written)
}

/// `actor "id"` without its type, which is given nowhere.
pub fn actor_reference(site: &Site, checker: &Checker, scopes: &Scopes, text: &[u8]) -> Judged
    requires { Ready checker.now scopes.now site.now }
    ensures { Answers typed_in kind_reached (rule site.now (syntax.ActorReference text.now)) scopes.now checker.now scopes.now checker.now result }
{
    Err(Refusal::False(site.at, Condition::NotActor))
}
