//! Objects (Motoko language manual, section "Objects").
ghost use Rattle.std.specs.Prelude.{[], map};
ghost use Rattle.mo_types.specs.Sub.{Each};
ghost use Rattle.typing_rules.specs.declared.condition.Condition.TheVariants as condition;
ghost use Rattle.typing_rules.specs.AbstractSyntax as syntax;
ghost use Rattle.typing_rules.specs.Ends.{Has};
ghost use Rattle.typing_rules.specs.Expressions.{all_there};
ghost use Rattle.typing_rules.specs.Judgements.{Gives, Part as PartOf, Tests};
ghost use Rattle.typing_rules.specs.Terms as terms;
ghost use Rattle.typing_rules.specs.TypedTrees.{field_types, typed};
ghost use Rattle.type_definitions.specs.Meanings.{term};
ghost use Rattle.met_types.specs.States.{IsReached};
ghost use Rattle.type_scopes.specs.Scopes.{seen};
ghost use Rattle.abstract_tree.specs.TreeView.{fields as listed, plain_field};
ghost use Rattle.judging.specs.Answers.{Answers, Judges};
ghost use Rattle.judging.specs.Parts.{Ready};
ghost use Rattle.judging.specs.Views.{kind_reached, rule, typed_in, wanted_in};
ghost use Rattle.object_rules.specs.Values.{judge_fields, wants};

use crate::fields::{MadeFields, judge_fields};
use abstract_tree::{ExpressionForm, ObjectField};
use judging::{Checker, Judged, Layer, Part};
use mo_types::Field;
use object_parts::{are_there, wanted_object};
use type_judgements::Refusal;
use type_terms::{Form, TermId};
use typing_rules::Condition;
use value_scopes::Scopes;

/// An object where none is wanted.
fn object_gives<F: Fn(&mut Checker, &mut Scopes, Part<'_>) -> Judged>(
    layer: &Layer<F>,
    checker: &mut Checker,
    scopes: &mut Scopes,
    fields: &[ObjectField<u32>],
) -> Judged
    requires judges { Judges layer.now.depth (F.pre layer.now.judge) (F.post layer.now.judge) }
    requires ready { Ready checker.old scopes.old layer.now.site }
    ensures { Answers typed_in kind_reached (λ v. PartOf (judge_fields layer.now.site.place fields.now [] v) (λ fs. Has layer.now.site.at (wanted_in v layer.now.site.wanted) (terms.Object (field_types (seen v.scopes.types) fs)) (syntax.Object fs))) scopes.old checker.old scopes.new checker.new result }
{
    let made = judge_fields(layer, checker, scopes, fields, &[])?;
    let MadeFields { fields, kinds } = made;
    layer.site.has_form(checker, Form::Object(kinds), ExpressionForm::Object(fields))
}

/// An object of which these fields are wanted.
fn object_fits<F: Fn(&mut Checker, &mut Scopes, Part<'_>) -> Judged>(
    layer: &Layer<F>,
    checker: &mut Checker,
    scopes: &mut Scopes,
    fields: &[ObjectField<u32>],
    wanted: TermId,
    kinds: &[Field<TermId>],
) -> Judged
    requires judges { Judges layer.now.depth (F.pre layer.now.judge) (F.post layer.now.judge) }
    requires ready { Ready checker.old scopes.old layer.now.site }
    requires wanted { IsReached checker.old.types wanted }
    requires kinds { Each (λ g. IsReached checker.old.types g.part) kinds.now }
    ensures { Answers typed_in kind_reached (λ v. Tests condition.Mismatch layer.now.site.at (all_there (listed (map plain_field fields.now)) (wants kinds.now v.later)) (PartOf (judge_fields layer.now.site.place fields.now kinds.now v) (λ fs. Gives (typed layer.now.site.at (term v.later wanted) (syntax.Object fs))))) scopes.old checker.old scopes.new checker.new result }
{
    if !are_there(fields, kinds) {
        return Err(Refusal::False(layer.site.at, Condition::Mismatch));
    }
    let made = judge_fields(layer, checker, scopes, fields, kinds)?;
    let MadeFields {
        fields,
        kinds: _kinds,
    } = made;
    layer
        .site
        .gives(checker, wanted, ExpressionForm::Object(fields))
}

/// `{ x = a; var y : A = b }`: it gives the object type of its fields, each of the type that is written or of its value's. It fits an object
/// type whose fields are all there, are `var` alike, and fit; further fields are judged as well. `False` names the first condition that is
/// false.
pub fn object<F: Fn(&mut Checker, &mut Scopes, Part<'_>) -> Judged>(
    layer: &Layer<F>,
    checker: &mut Checker,
    scopes: &mut Scopes,
    fields: &[ObjectField<u32>],
) -> Judged
    requires judges { Judges layer.now.depth (F.pre layer.now.judge) (F.post layer.now.judge) }
    requires ready { Ready checker.old scopes.old layer.now.site }
    ensures { Answers typed_in kind_reached (rule layer.now.site (syntax.Object (listed (map plain_field fields.now)))) scopes.old checker.old scopes.new checker.new result }
{
    match wanted_object(&layer.site, checker)? {
        Some((wanted, kinds)) => {
            object_fits(layer, checker, scopes, fields, wanted, kinds.as_slice())
        }
        None => object_gives(layer, checker, scopes, fields),
    }
}
