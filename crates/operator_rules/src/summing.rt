//! Arithmetic: Motoko language manual, sections "Binary operators" and "Numeric types".
ghost use Rattle.std.specs.Prelude.{Some};
ghost use Rattle.typing_rules.specs.AbstractSyntax as syntax;
ghost use Rattle.typing_rules.specs.declared.condition.Condition.TheVariants as condition;
ghost use Rattle.typing_rules.specs.Ends.{Has};
ghost use Rattle.typing_rules.specs.Heads.{head};
ghost use Rattle.typing_rules.specs.Judgements.{Gives, Given, Part as InTurn};
ghost use Rattle.typing_rules.specs.Literals.{written};
ghost use Rattle.typing_rules.specs.Operands as rules;
ghost use Rattle.typing_rules.specs.Operators.{number_with};
ghost use Rattle.typing_rules.specs.TypedTrees.{typed};
ghost use Rattle.type_definitions.specs.Meanings.{term};
ghost use Rattle.met_types.specs.States.{IsReached};
ghost use Rattle.abstract_tree.specs.TreeView.{plain};
ghost use Rattle.judging.specs.Answers.{Answers, Judges};
ghost use Rattle.judging.specs.Parts.{Ready};
ghost use Rattle.judging.specs.Views.{definitions, kind_reached, typed_in, wanted_in};
ghost use Rattle.operand_rules.specs.Families.{family_in};
ghost use Rattle.operand_rules.specs.Pairs.{part_of};

use abstract_tree::{Expression, ExpressionForm};
use judging::{Checker, Judged, Layer, Part};
use mo_syntax::BinaryOperator;
use operand_rules::{Family, number_with, operands, wanted_with};
use type_judgements::Refusal;
use type_terms::TermId;
use typing_rules::Condition;
use value_scopes::Scopes;

/// Both operands fit the type that is wanted, which is given.
fn as_wanted<F: Fn(&mut Checker, &mut Scopes, Part<'_>) -> Judged>(
    layer: &Layer<F>,
    checker: &mut Checker,
    scopes: &mut Scopes,
    wanted: TermId,
    operator: BinaryOperator,
    a: &Expression<u32>,
    b: &Expression<u32>,
) -> Judged
    requires judges { Judges layer.now.depth (F.pre layer.now.judge) (F.post layer.now.judge) }
    requires ready { Ready checker.old scopes.old layer.now.site }
    requires wanted { IsReached checker.old.types wanted }
    ensures { Answers typed_in kind_reached (λ v. InTurn (part_of layer.now.site (plain a.now) v (wanted_in v layer.now.site.wanted)) (λ x. InTurn (part_of layer.now.site (plain b.now) v (wanted_in v layer.now.site.wanted)) (λ y. Gives (typed layer.now.site.at (term v.later wanted) (syntax.Binary operator x y))))) scopes.old checker.old scopes.new checker.new result }
{
    let left = layer.as_wanted(checker, scopes, a)?;
    let right = layer.as_wanted(checker, scopes, b)?;
    layer.site.gives(
        checker,
        wanted,
        ExpressionForm::Binary(operator, left, right),
    )
}

/// The greatest of both types is given, where the operator stands on it.
fn by_operands<F: Fn(&mut Checker, &mut Scopes, Part<'_>) -> Judged>(
    layer: &Layer<F>,
    checker: &mut Checker,
    scopes: &mut Scopes,
    family: Family,
    operator: BinaryOperator,
    a: &Expression<u32>,
    b: &Expression<u32>,
) -> Judged
    requires judges { Judges layer.now.depth (F.pre layer.now.judge) (F.post layer.now.judge) }
    requires ready { Ready checker.old scopes.old layer.now.site }
    ensures { Answers typed_in kind_reached (λ v. InTurn (rules.Operands (definitions v) layer.now.site.at (written (plain a.now)) (written (plain b.now)) (part_of layer.now.site (plain a.now) v) (part_of layer.now.site (plain b.now) v)) (λ q. Given condition.BadOperator layer.now.site.at (number_with (family_in family) (head (definitions v) q.0)) (λ _. Has layer.now.site.at (wanted_in v layer.now.site.wanted) q.0 (syntax.Binary operator q.1 q.2)))) scopes.old checker.old scopes.new checker.new result }
{
    let pair = operands(layer, checker, scopes, a, b)?;
    match number_with(&checker.types, family, pair.kind) {
        Some(_) => {
            let form = ExpressionForm::Binary(operator, pair.left, pair.right);
            layer.site.has(checker, pair.kind, form)
        }
        None => Err(Refusal::False(layer.site.at, Condition::BadOperator)),
    }
}

/// Arithmetic with an operator of this family.
pub(crate) fn arithmetic<F: Fn(&mut Checker, &mut Scopes, Part<'_>) -> Judged>(
    layer: &Layer<F>,
    checker: &mut Checker,
    scopes: &mut Scopes,
    family: Family,
    operator: BinaryOperator,
    a: &Expression<u32>,
    b: &Expression<u32>,
) -> Judged
    requires judges { Judges layer.now.depth (F.pre layer.now.judge) (F.post layer.now.judge) }
    requires ready { Ready checker.old scopes.old layer.now.site }
    ensures { Answers typed_in kind_reached (λ v. rules.Arithmetic (definitions v) layer.now.site.at (wanted_in v layer.now.site.wanted) (family_in family) operator (written (plain a.now)) (written (plain b.now)) (part_of layer.now.site (plain a.now) v) (part_of layer.now.site (plain b.now) v)) scopes.old checker.old scopes.new checker.new result }
{
    match wanted_with(&layer.site, checker, family) {
        Some((wanted, _)) => as_wanted(layer, checker, scopes, wanted, operator, a, b),
        None => by_operands(layer, checker, scopes, family, operator, a, b),
    }
}
