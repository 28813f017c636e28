//! Comparisons: Motoko language manual, sections "Relational operators" and "Equality".
ghost use Rattle.std.specs.Prelude.{◌≡◌, IfOk, List};
ghost use Rattle.type_terms.specs.declared.form.Form.{Form as FormValue};
ghost use Rattle.typing_rules.specs.AbstractSyntax as syntax;
ghost use Rattle.typing_rules.specs.declared.condition.Condition.TheVariants as condition;
ghost use Rattle.typing_rules.specs.Ends.{Has};
ghost use Rattle.typing_rules.specs.Judgements.{Fine, IsComparable, Needs};
ghost use Rattle.typing_rules.specs.Literals.{written};
ghost use Rattle.typing_rules.specs.Operands as rules;
ghost use Rattle.typing_rules.specs.Terms as terms;
ghost use Rattle.typing_rules.specs.TypedTrees.{subsumed};
ghost use Rattle.type_definitions.specs.Meanings.{term};
ghost use Rattle.met_types.specs.States.{IsReached};
ghost use Rattle.abstract_tree.specs.TreeView.{plain};
ghost use Rattle.value_scopes.specs.declared.scopes.Scopes.{Scopes as ScopesValue};
ghost use Rattle.judging.specs.Answers.{Answers, Judges};
ghost use Rattle.judging.specs.Parts.{Known, Ready, Sound, Wanting};
ghost use Rattle.judging.specs.Views.{definitions, kind_reached, no_more, nothing, typed_in, wanted_in};
ghost use Rattle.operand_rules.specs.Pairs.{part_of};

use abstract_tree::{Expression, ExpressionForm};
use abstract_types::Boxed;
use judging::{Checker, Judged, Layer, Part, Site};
use mo_num::Memory;
use mo_syntax::BinaryOperator;
use operand_rules::{OperandPair, is_ordered, operands};
use type_judgements::Refusal;
use type_terms::TermId;
use typing_rules::Condition;
use value_scopes::{Note, Scopes};

/// An operand at a type above its own.
fn subsumed(
    checker: &Checker,
    kind: TermId,
    of: Expression<Note>,
) -> Result<Expression<Note>, Memory>
    ensures { IfOk result (λ made. (later : List FormValue) → typed_in made later ≡ subsumed (term later kind) (typed_in of later)) }
{
    let note = Note {
        at: of.note.at,
        kind,
    };
    let form = Boxed::new(
        checker.types.terms().allocator(),
        ExpressionForm::Subsumed(of),
    )?;
    Ok(Expression { note, form })
}

/// Both operands are compared at the greatest of their types.
fn compared(
    site: &Site,
    checker: &mut Checker,
    operator: BinaryOperator,
    pair: OperandPair,
) -> Judged
    requires { Wanting checker.old site.now }
    ensures { (c : ScopesValue) → Sound checker.old c → Answers typed_in kind_reached (λ v. Has site.now.at (wanted_in v site.now.wanted) terms.Boolean (syntax.Binary operator (subsumed (term v.later pair.kind) (typed_in pair.left v.later)) (subsumed (term v.later pair.kind) (typed_in pair.right v.later)))) c checker.old c checker.new result }
{
    let left = subsumed(checker, pair.kind, pair.left)?;
    let right = subsumed(checker, pair.kind, pair.right)?;
    site.has_boolean(checker, ExpressionForm::Binary(operator, left, right))
}

/// The condition that values of a type may be compared.
fn needs_comparable(at: u32, checker: &mut Checker, kind: TermId) -> Result<(), Refusal>
    requires known { Known checker.old }
    requires kind { IsReached checker.old.types kind }
    ensures { (c : ScopesValue) → Sound checker.old c → Answers nothing no_more (λ v. Needs condition.BadOperator at (IsComparable (term v.later kind)) Fine) c checker.old c checker.new result }
{
    if checker.equality.is_so(&checker.types, kind)? {
        Ok(())
    } else {
        Err(Refusal::False(at, Condition::BadOperator))
    }
}

/// `a == b`, `a != b`: values of the greatest of both types may be compared. Gives Bool.
pub(crate) fn equality<F: Fn(&mut Checker, &mut Scopes, Part<'_>) -> Judged>(
    layer: &Layer<F>,
    checker: &mut Checker,
    scopes: &mut Scopes,
    operator: BinaryOperator,
    a: &Expression<u32>,
    b: &Expression<u32>,
) -> Judged
    requires judges { Judges layer.now.depth (F.pre layer.now.judge) (F.post layer.now.judge) }
    requires ready { Ready checker.old scopes.old layer.now.site }
    ensures { Answers typed_in kind_reached (λ v. rules.Equality (definitions v) layer.now.site.at (wanted_in v layer.now.site.wanted) operator (written (plain a.now)) (written (plain b.now)) (part_of layer.now.site (plain a.now) v) (part_of layer.now.site (plain b.now) v)) scopes.old checker.old scopes.new checker.new result }
{
    let pair = operands(layer, checker, scopes, a, b)?;
    needs_comparable(layer.site.at, checker, pair.kind)?;
    compared(&layer.site, checker, operator, pair)
}

/// `a < b`, or another comparison by an order: the greatest of both types has one. Gives Bool.
pub(crate) fn ordering<F: Fn(&mut Checker, &mut Scopes, Part<'_>) -> Judged>(
    layer: &Layer<F>,
    checker: &mut Checker,
    scopes: &mut Scopes,
    operator: BinaryOperator,
    a: &Expression<u32>,
    b: &Expression<u32>,
) -> Judged
    requires judges { Judges layer.now.depth (F.pre layer.now.judge) (F.post layer.now.judge) }
    requires ready { Ready checker.old scopes.old layer.now.site }
    ensures { Answers typed_in kind_reached (λ v. rules.Ordering (definitions v) layer.now.site.at (wanted_in v layer.now.site.wanted) operator (written (plain a.now)) (written (plain b.now)) (part_of layer.now.site (plain a.now) v) (part_of layer.now.site (plain b.now) v)) scopes.old checker.old scopes.new checker.new result }
{
    let pair = operands(layer, checker, scopes, a, b)?;
    if is_ordered(&checker.types, pair.kind) {
        compared(&layer.site, checker, operator, pair)
    } else {
        Err(Refusal::False(layer.site.at, Condition::BadOperator))
    }
}
