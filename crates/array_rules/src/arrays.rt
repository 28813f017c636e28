//! Arrays (Motoko language manual, section "Arrays").
ghost use Rattle.std.specs.Prelude.{None, Some, false, map, true};
ghost use Rattle.typing_rules.specs.declared.condition.Condition.TheVariants as condition;
ghost use Rattle.typing_rules.specs.AbstractSyntax as syntax;
ghost use Rattle.typing_rules.specs.Ends.{Greatest, Has};
ghost use Rattle.typing_rules.specs.Expressions.{Elements, JudgeAll};
ghost use Rattle.typing_rules.specs.Judgements.{Gives, Part as PartOf};
ghost use Rattle.typing_rules.specs.Terms as terms;
ghost use Rattle.typing_rules.specs.TypedTrees.{typed, types_of};
ghost use Rattle.type_definitions.specs.Meanings.{term};
ghost use Rattle.met_types.specs.States.{IsReached};
ghost use Rattle.abstract_tree.specs.TreeView.{listed, plain};
ghost use Rattle.judging.specs.Answers.{Answers, Judges};
ghost use Rattle.judging.specs.Parts.{Ready};
ghost use Rattle.judging.specs.Views.{context, definitions, kind_reached, rule, typed_in, wanted_in};

use crate::elements::{all, element_kind, mutable_element_kind};
use abstract_tree::{Expression, ExpressionForm};
use data_parts::{wanted_array, wanted_mutable_array};
use judging::{Checker, Judged, Layer, Part};
use type_terms::{Form, TermId};
use value_scopes::Scopes;

/// An array of which this type is wanted, with this type of its elements.
fn array_fits<F: Fn(&mut Checker, &mut Scopes, Part<'_>) -> Judged>(
    layer: &Layer<F>,
    checker: &mut Checker,
    scopes: &mut Scopes,
    mutable: bool,
    items: &[Expression<u32>],
    wanted: TermId,
    kind: TermId,
) -> Judged
    requires judges { Judges layer.now.depth (F.pre layer.now.judge) (F.post layer.now.judge) }
    requires ready { Ready checker.old scopes.old layer.now.site }
    requires wanted { IsReached checker.old.types wanted }
    requires kind { IsReached checker.old.types kind }
    ensures { Answers typed_in kind_reached (λ v. PartOf (JudgeAll (definitions v) (context v layer.now.site.place) (listed (map plain items.now)) (Some (term v.later kind))) (λ es. Gives (typed layer.now.site.at (term v.later wanted) (syntax.Array mutable es)))) scopes.old checker.old scopes.new checker.new result }
{
    let made = all(layer, checker, scopes, items, Some(kind))?;
    layer
        .site
        .gives(checker, wanted, ExpressionForm::Array(mutable, made))
}

/// An array that cannot be written, where none is wanted.
fn array_gives<F: Fn(&mut Checker, &mut Scopes, Part<'_>) -> Judged>(
    layer: &Layer<F>,
    checker: &mut Checker,
    scopes: &mut Scopes,
    items: &[Expression<u32>],
) -> Judged
    requires judges { Judges layer.now.depth (F.pre layer.now.judge) (F.post layer.now.judge) }
    requires ready { Ready checker.old scopes.old layer.now.site }
    ensures { Answers typed_in kind_reached (λ v. PartOf (JudgeAll (definitions v) (context v layer.now.site.place) (listed (map plain items.now)) None) (λ es. PartOf (Elements layer.now.site.at (types_of es)) (λ u. Has layer.now.site.at (wanted_in v layer.now.site.wanted) (terms.Array u) (syntax.Array false es)))) scopes.old checker.old scopes.new checker.new result }
{
    let made = all(layer, checker, scopes, items, None)?;
    let kind = element_kind(checker, layer.site.at, made.as_slice())?;
    layer.site.has_form(
        checker,
        Form::Array(kind),
        ExpressionForm::Array(false, made),
    )
}

/// `[a, b]`: it gives the array of the greatest type of its elements, and `[]` that of None. It fits an array where each element fits.
pub fn array<F: Fn(&mut Checker, &mut Scopes, Part<'_>) -> Judged>(
    layer: &Layer<F>,
    checker: &mut Checker,
    scopes: &mut Scopes,
    items: &[Expression<u32>],
) -> Judged
    requires judges { Judges layer.now.depth (F.pre layer.now.judge) (F.post layer.now.judge) }
    requires ready { Ready checker.old scopes.old layer.now.site }
    ensures { Answers typed_in kind_reached (rule layer.now.site (syntax.Array false (listed (map plain items.now)))) scopes.old checker.old scopes.new checker.new result }
{
    match wanted_array(&layer.site, checker) {
        Some((wanted, kind)) => array_fits(layer, checker, scopes, false, items, wanted, kind),
        None => array_gives(layer, checker, scopes, items),
    }
}

/// An array that can be written, where none is wanted.
fn mutable_array_gives<F: Fn(&mut Checker, &mut Scopes, Part<'_>) -> Judged>(
    layer: &Layer<F>,
    checker: &mut Checker,
    scopes: &mut Scopes,
    items: &[Expression<u32>],
) -> Judged
    requires judges { Judges layer.now.depth (F.pre layer.now.judge) (F.post layer.now.judge) }
    requires ready { Ready checker.old scopes.old layer.now.site }
    ensures { Answers typed_in kind_reached (λ v. PartOf (JudgeAll (definitions v) (context v layer.now.site.place) (listed (map plain items.now)) None) (λ es. PartOf (Greatest condition.NeedsType layer.now.site.at (types_of es)) (λ u. Has layer.now.site.at (wanted_in v layer.now.site.wanted) (terms.MutableArray u) (syntax.Array true es)))) scopes.old checker.old scopes.new checker.new result }
{
    let made = all(layer, checker, scopes, items, None)?;
    let kind = mutable_element_kind(checker, layer.site.at, made.as_slice())?;
    layer.site.has_form(
        checker,
        Form::MutableArray(kind),
        ExpressionForm::Array(true, made),
    )
}

/// `[var a, b]`: it gives the array of the greatest type of its elements, of which there is at least one. It fits an array where each element
/// fits.
pub fn mutable_array<F: Fn(&mut Checker, &mut Scopes, Part<'_>) -> Judged>(
    layer: &Layer<F>,
    checker: &mut Checker,
    scopes: &mut Scopes,
    items: &[Expression<u32>],
) -> Judged
    requires judges { Judges layer.now.depth (F.pre layer.now.judge) (F.post layer.now.judge) }
    requires ready { Ready checker.old scopes.old layer.now.site }
    ensures { Answers typed_in kind_reached (rule layer.now.site (syntax.Array true (listed (map plain items.now)))) scopes.old checker.old scopes.new checker.new result }
{
    match wanted_mutable_array(&layer.site, checker) {
        Some((wanted, kind)) => array_fits(layer, checker, scopes, true, items, wanted, kind),
        None => mutable_array_gives(layer, checker, scopes, items),
    }
}
