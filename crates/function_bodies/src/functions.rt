//! Functions with a name (Motoko language manual, section "Function declaration").
ghost use Rattle.std.specs.Prelude.{List};
ghost use Rattle.typing_rules.specs.AbstractSyntax as syntax;
ghost use Rattle.abstract_types.specs.PatternView.{plain_signature};
ghost use Rattle.abstract_types.specs.TypeView.{named};
ghost use Rattle.abstract_tree.specs.TreeView.{plain};
ghost use Rattle.judging.specs.Answers.{Answers, Judges};
ghost use Rattle.judging.specs.Parts.{Sound};
ghost use Rattle.order_rules.specs.declared.entries.MadeDeclaration.{MadeDeclaration as Made};
ghost use Rattle.function_bodies.specs.Bodies.{any_made, body_in, judge_body};
ghost use Rattle.function_bodies.specs.Functions.{function_in};

use crate::taking::{Bodied, with_parameters};
use abstract_tree::{DeclarationForm, Expression};
use abstract_types::{PlacedName, Signature};
use declared_names::push_generics;
use declared_types::{Otherwise, term_or};
use judging::{Checker, Judged, Layer, Part};
use order_rules::MadeDeclaration;
use signature_judging::copied_signature;
use type_copies::copied_name;
use type_judgements::Refusal;
use value_scopes::{Body, Note, Scopes};
use written_kinds::function;

/// A function, where its type parameters are in scope.
fn function_within<F: Fn(&mut Checker, &mut Scopes, Part<'_>) -> Judged>(
    layer: &Layer<F>,
    checker: &mut Checker,
    scopes: &mut Scopes,
    at: u32,
    name: &PlacedName,
    signature: &Signature<u32>,
    a: &Expression<u32>,
) -> Result<MadeDeclaration, Refusal>
    requires judges { Judges layer.now.depth (F.pre layer.now.judge) (F.post layer.now.judge) }
    requires sound { Sound checker.old scopes.old }
    ensures { (rest : List Made) → Answers (body_in rest) any_made (function_in layer.now.site.place at (named name.now) (plain_signature signature.now) (plain a.now) rest) scopes.old checker.old scopes.new checker.new result }
{
    let copy = copied_name(checker.types.terms().allocator(), name)?;
    let of = term_or(
        &scopes.types,
        &mut checker.types,
        &signature.result,
        Otherwise::Unit,
    )?;
    let made = with_parameters(
        layer,
        checker,
        scopes,
        signature.parameters.as_slice(),
        Body::Local,
        of,
        a,
    )?;
    let Bodied { taken, body } = made;
    let (kinds, patterns) = taken.into_parts();
    let kind = function(&mut checker.types, kinds, of)?;
    let alloc = checker.types.terms().allocator();
    let signature = copied_signature(alloc, signature, patterns)?;
    let note = Note { at, kind };
    let form = DeclarationForm::Func(copy, signature, body);
    Ok(MadeDeclaration { note, form })
}

/// `func f<T>(p) : A { .. }`, at the token of this number: Motoko language manual, section "Function declaration".
pub fn function_body<F: Fn(&mut Checker, &mut Scopes, Part<'_>) -> Judged>(
    layer: &Layer<F>,
    checker: &mut Checker,
    scopes: &mut Scopes,
    at: u32,
    name: &PlacedName,
    signature: &Signature<u32>,
    a: &Expression<u32>,
) -> Result<MadeDeclaration, Refusal>
    requires judges { Judges layer.now.depth (F.pre layer.now.judge) (F.post layer.now.judge) }
    requires sound { Sound checker.old scopes.old }
    ensures { (rest : List Made) → Answers (body_in rest) any_made (judge_body layer.now.site.place at (syntax.Func (named name.now) (plain_signature signature.now) (plain a.now)) rest) scopes.old checker.old scopes.new checker.new result }
{
    let count = scopes.types.len();
    push_generics(&mut scopes.types, signature.generics.as_slice())?;
    let made = function_within(layer, checker, scopes, at, name, signature, a)?;
    scopes.types.truncate(count);
    Ok(made)
}
