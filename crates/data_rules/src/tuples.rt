//! Tuples (Motoko language manual, section "Tuples").
ghost use Rattle.std.specs.Prelude.{[], Some, length, map, nat_eq};
ghost use Rattle.mo_types.specs.Sub.{Each};
ghost use Rattle.typing_rules.specs.declared.condition.Condition.TheVariants as condition;
ghost use Rattle.typing_rules.specs.AbstractSyntax as syntax;
ghost use Rattle.typing_rules.specs.Expressions.{JudgeEach};
ghost use Rattle.typing_rules.specs.Judgements.{Gives, Part as PartOf, Tests};
ghost use Rattle.typing_rules.specs.Terms as terms;
ghost use Rattle.typing_rules.specs.TypedTrees.{typed, types_of};
ghost use Rattle.typing_rules.specs.Ends.{Has};
ghost use Rattle.type_definitions.specs.Meanings.{term};
ghost use Rattle.met_types.specs.States.{IsReached};
ghost use Rattle.abstract_tree.specs.TreeView.{listed, plain};
ghost use Rattle.judging.specs.Answers.{Answers, Judges};
ghost use Rattle.judging.specs.Parts.{Ready};
ghost use Rattle.judging.specs.Views.{context, definitions, kind_reached, rule, typed_in, wanted_in};

use abstract_tree::{Expression, ExpressionForm};
use data_parts::kinds_of;
use judging::{Checker, Judged, Layer, Part};
use type_judgements::Refusal;
use type_terms::{Form, TermId};
use typing_rules::Condition;
use value_scopes::Scopes;

/// A tuple where none is wanted.
fn tuple_gives<F: Fn(&mut Checker, &mut Scopes, Part<'_>) -> Judged>(
    layer: &Layer<F>,
    checker: &mut Checker,
    scopes: &mut Scopes,
    items: &[Expression<u32>],
) -> Judged
    requires judges { Judges layer.now.depth (F.pre layer.now.judge) (F.post layer.now.judge) }
    requires ready { Ready checker.old scopes.old layer.now.site }
    ensures { Answers typed_in kind_reached (λ v. PartOf (JudgeEach (definitions v) (context v layer.now.site.place) (listed (map plain items.now)) []) (λ es. Has layer.now.site.at (wanted_in v layer.now.site.wanted) (terms.Tuple (terms.unlisted (types_of es))) (syntax.Tuple es))) scopes.old checker.old scopes.new checker.new result }
{
    let made = layer.each(checker, scopes, items, &[])?;
    let kinds = kinds_of(checker.types.terms().allocator(), made.as_slice())?;
    layer
        .site
        .has_form(checker, Form::Tuple(kinds), ExpressionForm::Tuple(made))
}

/// A tuple of which these types are wanted.
fn tuple_fits<F: Fn(&mut Checker, &mut Scopes, Part<'_>) -> Judged>(
    layer: &Layer<F>,
    checker: &mut Checker,
    scopes: &mut Scopes,
    items: &[Expression<u32>],
    wanted: TermId,
    kinds: &[TermId],
) -> Judged
    requires judges { Judges layer.now.depth (F.pre layer.now.judge) (F.post layer.now.judge) }
    requires ready { Ready checker.old scopes.old layer.now.site }
    requires wanted { IsReached checker.old.types wanted }
    requires kinds { Each (IsReached checker.old.types) kinds.now }
    ensures { Answers typed_in kind_reached (λ v. Tests condition.Mismatch layer.now.site.at (nat_eq (length kinds.now) (length items.now)) (PartOf (JudgeEach (definitions v) (context v layer.now.site.place) (listed (map plain items.now)) (map (λ id. Some (term v.later id)) kinds.now)) (λ es. Gives (typed layer.now.site.at (term v.later wanted) (syntax.Tuple es))))) scopes.old checker.old scopes.new checker.new result }
{
    if kinds.len() != items.len() {
        return Err(Refusal::False(layer.site.at, Condition::Mismatch));
    }
    let made = layer.each(checker, scopes, items, kinds)?;
    layer
        .site
        .gives(checker, wanted, ExpressionForm::Tuple(made))
}

/// `(a, b)`: it gives the tuple of the types, and fits a tuple type part by part.
pub fn tuple<F: Fn(&mut Checker, &mut Scopes, Part<'_>) -> Judged>(
    layer: &Layer<F>,
    checker: &mut Checker,
    scopes: &mut Scopes,
    items: &[Expression<u32>],
) -> Judged
    requires judges { Judges layer.now.depth (F.pre layer.now.judge) (F.post layer.now.judge) }
    requires ready { Ready checker.old scopes.old layer.now.site }
    ensures { Answers typed_in kind_reached (rule layer.now.site (syntax.Tuple (listed (map plain items.now)))) scopes.old checker.old scopes.new checker.new result }
{
    match layer.site.wanted_tuple(checker)? {
        Some((wanted, kinds)) => {
            tuple_fits(layer, checker, scopes, items, wanted, kinds.as_slice())
        }
        None => tuple_gives(layer, checker, scopes, items),
    }
}
