//! The rule of `-` before an expression (Motoko language manual, section "Unary operators").
ghost use Rattle.std.specs.Prelude.{◌≡◌, IfOk, None, neg_ℤ, pos};
ghost use Rattle.mo_num.specs.declared.kind.Kind.TheVariants as kinds;
ghost use Rattle.typing_rules.specs.AbstractSyntax as syntax;
ghost use Rattle.typing_rules.specs.declared.condition.Condition.TheVariants as condition;
ghost use Rattle.typing_rules.specs.Ends.{Has};
ghost use Rattle.typing_rules.specs.Heads.{head};
ghost use Rattle.typing_rules.specs.Judgements.{Gives, Given, Part as InTurn};
ghost use Rattle.typing_rules.specs.Literals.{Number};
ghost use Rattle.typing_rules.specs.Operands.{Negative};
ghost use Rattle.typing_rules.specs.Operators.{negated_of};
ghost use Rattle.typing_rules.specs.Terms as terms;
ghost use Rattle.typing_rules.specs.TypedTrees.{type_of, typed};
ghost use Rattle.type_definitions.specs.Meanings.{term};
ghost use Rattle.met_types.specs.States.{IsReached, Kept};
ghost use Rattle.abstract_tree.specs.TreeView.{plain};
ghost use Rattle.value_scopes.specs.declared.scopes.Scopes.{Scopes as ScopesValue};
ghost use Rattle.judging.specs.Answers.{Answers, Judges};
ghost use Rattle.judging.specs.Parts.{Ready, Sound, Wanting};
ghost use Rattle.judging.specs.Views.{definitions, kind_reached, rule, typed_in, wanted_in};
ghost use Rattle.operand_rules.specs.Pairs.{part_of};
ghost use Rattle.operator_rules.specs.Nodes.{IsNumberNode, Makes};

use abstract_tree::{Expression, ExpressionForm};
use abstract_types::Boxed;
use judging::{Checker, Judged, Layer, Part, Site};
use literal_rules::number;
use mo_num::{Kind, Memory};
use mo_syntax::Literal;
use operand_rules::{negated_of, plain_number, wanted_signed};
use type_judgements::Refusal;
use type_terms::{Form, TermId};
use typing_rules::Condition;
use value_scopes::{Note, Scopes};

/// The negative of a number.
fn opposite(number: u64) -> i128
    ensures { result ≡ neg_ℤ (pos number) }
{
    -(number as i128)
}

/// The node of a number without a sign, which is a Nat.
fn number_node(checker: &mut Checker, at: u32, number: u64) -> Result<Expression<Note>, Memory>
    requires { Kept checker.old.types }
    ensures { IfOk result (λ made. Makes checker.old checker.new (IsNumberNode at number made)) }
{
    let kind = checker.types.intern(Form::Number(Kind::Nat))?;
    let form = Boxed::new(
        checker.types.terms().allocator(),
        ExpressionForm::Constant(Literal::Number(number)),
    )?;
    let note = Note { at, kind };
    Ok(Expression { note, form })
}

/// `-` before a number that stands there.
fn negative_number(site: &Site, checker: &mut Checker, at: u32, of: u64) -> Judged
    requires { Wanting checker.old site.now }
    ensures { (c : ScopesValue) → Sound checker.old c → Answers typed_in kind_reached (λ v. Number (definitions v) site.now.at (wanted_in v site.now.wanted) kinds.Int (neg_ℤ (pos of)) (syntax.Negative (typed at terms.nat (syntax.Constant (syntax.Number of))))) c checker.old c checker.new result }
{
    let node = number_node(checker, at, of)?;
    number(
        site,
        checker,
        Kind::Int,
        opposite(of),
        ExpressionForm::Negative(node),
    )
}

/// `- a`, where a fits the signed type that is wanted, which is given.
fn as_wanted<F: Fn(&mut Checker, &mut Scopes, Part<'_>) -> Judged>(
    layer: &Layer<F>,
    checker: &mut Checker,
    scopes: &mut Scopes,
    wanted: TermId,
    a: &Expression<u32>,
) -> Judged
    requires judges { Judges layer.now.depth (F.pre layer.now.judge) (F.post layer.now.judge) }
    requires ready { Ready checker.old scopes.old layer.now.site }
    requires wanted { IsReached checker.old.types wanted }
    ensures { Answers typed_in kind_reached (λ v. InTurn (part_of layer.now.site (plain a.now) v (wanted_in v layer.now.site.wanted)) (λ x. Gives (typed layer.now.site.at (term v.later wanted) (syntax.Negative x)))) scopes.old checker.old scopes.new checker.new result }
{
    let of = layer.as_wanted(checker, scopes, a)?;
    layer
        .site
        .gives(checker, wanted, ExpressionForm::Negative(of))
}

/// `- a`, by the type of a.
fn by_operand<F: Fn(&mut Checker, &mut Scopes, Part<'_>) -> Judged>(
    layer: &Layer<F>,
    checker: &mut Checker,
    scopes: &mut Scopes,
    a: &Expression<u32>,
) -> Judged
    requires judges { Judges layer.now.depth (F.pre layer.now.judge) (F.post layer.now.judge) }
    requires ready { Ready checker.old scopes.old layer.now.site }
    ensures { Answers typed_in kind_reached (λ v. InTurn (part_of layer.now.site (plain a.now) v None) (λ x. Given condition.BadOperator layer.now.site.at (negated_of (head (definitions v) (type_of x))) (λ k. Has layer.now.site.at (wanted_in v layer.now.site.wanted) (terms.Number k) (syntax.Negative x)))) scopes.old checker.old scopes.new checker.new result }
{
    let of = layer.part(checker, scopes, a, None)?;
    match negated_of(&checker.types, of.note.kind) {
        Some(kind) => layer
            .site
            .has_plain(checker, Form::Number(kind), ExpressionForm::Negative(of)),
        None => Err(Refusal::False(layer.site.at, Condition::BadOperator)),
    }
}

/// `- a`, where a is no number without a sign.
fn negated<F: Fn(&mut Checker, &mut Scopes, Part<'_>) -> Judged>(
    layer: &Layer<F>,
    checker: &mut Checker,
    scopes: &mut Scopes,
    a: &Expression<u32>,
) -> Judged
    requires judges { Judges layer.now.depth (F.pre layer.now.judge) (F.post layer.now.judge) }
    requires ready { Ready checker.old scopes.old layer.now.site }
    ensures { Answers typed_in kind_reached (λ v. Negative (definitions v) layer.now.site.at (wanted_in v layer.now.site.wanted) (part_of layer.now.site (plain a.now) v)) scopes.old checker.old scopes.new checker.new result }
{
    match wanted_signed(&layer.site, checker) {
        Some((wanted, _)) => as_wanted(layer, checker, scopes, wanted, a),
        None => by_operand(layer, checker, scopes, a),
    }
}

/// `- a`: Motoko language manual, section "Unary operators". Nat or Int gives Int, and a signed type with a width itself. `False` names the
/// first condition that is false.
pub fn negative<F: Fn(&mut Checker, &mut Scopes, Part<'_>) -> Judged>(
    layer: &Layer<F>,
    checker: &mut Checker,
    scopes: &mut Scopes,
    a: &Expression<u32>,
) -> Judged
    requires judges { Judges layer.now.depth (F.pre layer.now.judge) (F.post layer.now.judge) }
    requires ready { Ready checker.old scopes.old layer.now.site }
    ensures { Answers typed_in kind_reached (rule layer.now.site (syntax.Negative (plain a.now))) scopes.old checker.old scopes.new checker.new result }
{
    match plain_number(a) {
        Some(number) => negative_number(&layer.site, checker, a.note, number),
        None => negated(layer, checker, scopes, a),
    }
}
