//! The right side of `p += e`, or with another operator (Motoko language manual, section "Compound assignment").
ghost use Rattle.std.specs.Prelude.{OnOk, Some};
ghost use Rattle.typing_rules.specs.declared.condition.Condition.TheVariants as condition;
ghost use Rattle.typing_rules.specs.Heads.{head};
ghost use Rattle.typing_rules.specs.Judgements.{Given, Gives, IsBelow, Meets, Needs};
ghost use Rattle.typing_rules.specs.Operands as rules;
ghost use Rattle.typing_rules.specs.Operators.{family, number_with};
ghost use Rattle.typing_rules.specs.Terms as terms;
ghost use Rattle.type_definitions.specs.Meanings.{term};
ghost use Rattle.met_types.specs.States.{IsReached};
ghost use Rattle.abstract_tree.specs.TreeView.{plain};
ghost use Rattle.value_scopes.specs.declared.scopes.Scopes.{Scopes as ScopesValue};
ghost use Rattle.judging.specs.Answers.{Answers, Judges};
ghost use Rattle.judging.specs.Parts.{Known, Ready, Sound};
ghost use Rattle.judging.specs.Views.{definitions, kind_reached, term_in, typed_in};
ghost use Rattle.operand_rules.specs.Families.{family_in};
ghost use Rattle.operand_rules.specs.Pairs.{part_of};

use abstract_tree::Expression;
use judging::{Checker, Judged, Layer, Part, meets_plain};
use mo_syntax::BinaryOperator;
use operand_rules::{Family, family_of, number_with};
use type_judgements::{Refusal, needs_below};
use type_terms::{Form, TermId};
use typing_rules::Condition;
use value_scopes::Scopes;

/// The type of texts, which this one is equal to.
fn needs_text(at: u32, checker: &mut Checker, kind: TermId) -> Result<TermId, Refusal>
    requires known { Known checker.old }
    requires kind { IsReached checker.old.types kind }
    ensures { (c : ScopesValue) → Sound checker.old c → Answers term_in IsReached (λ v. Meets terms.Text (Needs condition.Mismatch at (IsBelow (term v.later kind) terms.Text) (Needs condition.Mismatch at (IsBelow terms.Text (term v.later kind)) (Gives terms.Text)))) c checker.old c checker.new result }
{
    let text = meets_plain(checker, Form::Text)?;
    let alloc = checker.types.terms().allocator();
    needs_below(alloc, &checker.types, Condition::Mismatch, at, kind, text)?;
    needs_below(alloc, &checker.types, Condition::Mismatch, at, text, kind)?;
    Ok(text)
}

/// The right side of `p #= e`.
fn text_operand<F: Fn(&mut Checker, &mut Scopes, Part<'_>) -> Judged>(
    layer: &Layer<F>,
    checker: &mut Checker,
    scopes: &mut Scopes,
    kind: TermId,
    a: &Expression<u32>,
) -> Judged
    requires judges { Judges layer.now.depth (F.pre layer.now.judge) (F.post layer.now.judge) }
    requires ready { Ready checker.old scopes.old layer.now.site }
    requires kind { IsReached checker.old.types kind }
    ensures answer { Answers typed_in kind_reached (λ v. Meets terms.Text (Needs condition.Mismatch layer.now.site.at (IsBelow (term v.later kind) terms.Text) (Needs condition.Mismatch layer.now.site.at (IsBelow terms.Text (term v.later kind)) (part_of layer.now.site (plain a.now) v (Some terms.Text))))) scopes.old checker.old scopes.new checker.new result }
    ensures ready { OnOk result (Ready checker.new scopes.new layer.now.site) }
{
    let text = needs_text(layer.site.at, checker, kind)?;
    layer.part(checker, scopes, a, Some(text))
}

/// The right side, where the operator stands on numbers.
fn number_operand<F: Fn(&mut Checker, &mut Scopes, Part<'_>) -> Judged>(
    layer: &Layer<F>,
    checker: &mut Checker,
    scopes: &mut Scopes,
    family: Family,
    kind: TermId,
    a: &Expression<u32>,
) -> Judged
    requires judges { Judges layer.now.depth (F.pre layer.now.judge) (F.post layer.now.judge) }
    requires ready { Ready checker.old scopes.old layer.now.site }
    requires kind { IsReached checker.old.types kind }
    ensures answer { Answers typed_in kind_reached (λ v. Given condition.BadOperator layer.now.site.at (number_with (family_in family) (head (definitions v) (term v.later kind))) (λ _. part_of layer.now.site (plain a.now) v (Some (term v.later kind)))) scopes.old checker.old scopes.new checker.new result }
    ensures ready { OnOk result (Ready checker.new scopes.new layer.now.site) }
{
    match number_with(&checker.types, family, kind) {
        Some(_) => layer.part(checker, scopes, a, Some(kind)),
        None => Err(Refusal::False(layer.site.at, Condition::BadOperator)),
    }
}

/// The right side of `p += e`, or with another operator, where p has this type: Motoko language manual, section "Compound assignment".
/// `False` names the first condition that is false.
pub fn operand<F: Fn(&mut Checker, &mut Scopes, Part<'_>) -> Judged>(
    layer: &Layer<F>,
    checker: &mut Checker,
    scopes: &mut Scopes,
    operator: BinaryOperator,
    kind: TermId,
    a: &Expression<u32>,
) -> Judged
    requires judges { Judges layer.now.depth (F.pre layer.now.judge) (F.post layer.now.judge) }
    requires ready { Ready checker.old scopes.old layer.now.site }
    requires kind { IsReached checker.old.types kind }
    ensures answer { Answers typed_in kind_reached (λ v. rules.Operand (definitions v) layer.now.site.at (family operator) (term v.later kind) (part_of layer.now.site (plain a.now) v)) scopes.old checker.old scopes.new checker.new result }
    ensures ready { OnOk result (Ready checker.new scopes.new layer.now.site) }
{
    match family_of(operator) {
        Family::Concatenation => text_operand(layer, checker, scopes, kind, a),
        Family::Arithmetic => number_operand(layer, checker, scopes, Family::Arithmetic, kind, a),
        Family::Wrapping => number_operand(layer, checker, scopes, Family::Wrapping, kind, a),
        Family::Equality => number_operand(layer, checker, scopes, Family::Equality, kind, a),
        Family::Ordering => number_operand(layer, checker, scopes, Family::Ordering, kind, a),
        Family::Logical => number_operand(layer, checker, scopes, Family::Logical, kind, a),
    }
}
