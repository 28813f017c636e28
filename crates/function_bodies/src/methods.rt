//! Public functions and system functions (Motoko language manual, sections "Shared functions" and "System functions").
ghost use Rattle.std.specs.Prelude.{List, option_map};
ghost use Rattle.typing_rules.specs.AbstractSyntax as syntax;
ghost use Rattle.abstract_types.specs.PatternView.{plain as plain_pattern, plain_signature};
ghost use Rattle.abstract_types.specs.TypeView.{named};
ghost use Rattle.abstract_tree.specs.TreeView.{plain};
ghost use Rattle.judging.specs.Answers.{Answers, Judges};
ghost use Rattle.judging.specs.Parts.{Sound};
ghost use Rattle.order_rules.specs.declared.entries.MadeDeclaration.{MadeDeclaration as Made};
ghost use Rattle.function_bodies.specs.Bodies.{any_made, body_in, judge_body as judged_body};

use crate::promises::body_of;
use crate::taking::{Bodied, Called, with_context};
use abstract_tree::{DeclarationForm, Expression};
use abstract_types::{Pattern, PlacedName, Signature};
use body_judging::judge_body;
use judging::{Checker, Judged, Layer, Part};
use object_types::{async_term, method_sort};
use order_rules::MadeDeclaration;
use signature_judging::copied_signature;
use type_copies::copied_name;
use type_judgements::Refusal;
use value_scopes::{Body, Note, Scopes};
use written_kinds::{shared, unit};

/// `public shared (p) func f(q) : async A { .. }`, at the token of this number: Motoko language manual, section "Shared functions".
pub fn method_body<F: Fn(&mut Checker, &mut Scopes, Part<'_>) -> Judged>(
    layer: &Layer<F>,
    checker: &mut Checker,
    scopes: &mut Scopes,
    at: u32,
    query: bool,
    context: &Option<Pattern<u32>>,
    name: &PlacedName,
    signature: &Signature<u32>,
    a: &Expression<u32>,
) -> Result<MadeDeclaration, Refusal>
    requires judges { Judges layer.now.depth (F.pre layer.now.judge) (F.post layer.now.judge) }
    requires sound { Sound checker.old scopes.old }
    ensures { (rest : List Made) → Answers (body_in rest) any_made (judged_body layer.now.site.place at (syntax.Method query (option_map plain_pattern context.now) (named name.now) (plain_signature signature.now) (plain a.now)) rest) scopes.old checker.old scopes.new checker.new result }
{
    let copy = copied_name(checker.types.terms().allocator(), name)?;
    let of = async_term(&scopes.types, &mut checker.types, &signature.result)?;
    let made = with_context(
        layer,
        checker,
        scopes,
        context,
        signature.parameters.as_slice(),
        body_of(query),
        of,
        a,
    )?;
    let Called { context, bodied } = made;
    let Bodied { taken, body } = bodied;
    let (kinds, patterns) = taken.into_parts();
    let kind = shared(&mut checker.types, method_sort(query), kinds, of)?;
    let alloc = checker.types.terms().allocator();
    let signature = copied_signature(alloc, signature, patterns)?;
    let note = Note { at, kind };
    let form = DeclarationForm::Method(query, context, copy, signature, body);
    Ok(MadeDeclaration { note, form })
}

/// `system func f() { .. }`, at the token of this number: Motoko language manual, section "System functions". () is wanted of its body.
pub fn system_body<F: Fn(&mut Checker, &mut Scopes, Part<'_>) -> Judged>(
    layer: &Layer<F>,
    checker: &mut Checker,
    scopes: &mut Scopes,
    at: u32,
    name: &PlacedName,
    a: &Expression<u32>,
) -> Result<MadeDeclaration, Refusal>
    requires judges { Judges layer.now.depth (F.pre layer.now.judge) (F.post layer.now.judge) }
    requires sound { Sound checker.old scopes.old }
    ensures { (rest : List Made) → Answers (body_in rest) any_made (judged_body layer.now.site.place at (syntax.System (named name.now) (plain a.now)) rest) scopes.old checker.old scopes.new checker.new result }
{
    let copy = copied_name(checker.types.terms().allocator(), name)?;
    let kind = unit(&mut checker.types)?;
    let body = judge_body(layer, checker, scopes, Body::Local, kind, a)?;
    let note = Note { at, kind };
    let form = DeclarationForm::System(copy, body);
    Ok(MadeDeclaration { note, form })
}
