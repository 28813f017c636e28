//! The rule of operators of two operands.
ghost use Rattle.typing_rules.specs.AbstractSyntax as syntax;
ghost use Rattle.abstract_tree.specs.TreeView.{plain};
ghost use Rattle.judging.specs.Answers.{Answers, Judges};
ghost use Rattle.judging.specs.Parts.{Ready};
ghost use Rattle.judging.specs.Views.{kind_reached, rule, typed_in};

use crate::comparing::{equality, ordering};
use crate::summing::arithmetic;
use crate::words::{both_boolean, both_text};
use abstract_tree::Expression;
use judging::{Checker, Judged, Layer, Part};
use mo_syntax::BinaryOperator;
use operand_rules::{Family, family_of};
use value_scopes::Scopes;

/// `a + b`, or with another operator: Motoko language manual, sections "Binary operators", "Relational operators", "Equality", "And" and
/// "Or". `False` names the first condition that is false.
pub fn binary<F: Fn(&mut Checker, &mut Scopes, Part<'_>) -> Judged>(
    layer: &Layer<F>,
    checker: &mut Checker,
    scopes: &mut Scopes,
    operator: BinaryOperator,
    a: &Expression<u32>,
    b: &Expression<u32>,
) -> Judged
    requires judges { Judges layer.now.depth (F.pre layer.now.judge) (F.post layer.now.judge) }
    requires ready { Ready checker.old scopes.old layer.now.site }
    ensures { Answers typed_in kind_reached (rule layer.now.site (syntax.Binary operator (plain a.now) (plain b.now))) scopes.old checker.old scopes.new checker.new result }
{
    match family_of(operator) {
        Family::Arithmetic => arithmetic(
            layer,
            checker,
            scopes,
            Family::Arithmetic,
            operator,
            a,
            b,
        ),
        Family::Wrapping => arithmetic(layer, checker, scopes, Family::Wrapping, operator, a, b),
        Family::Concatenation => both_text(layer, checker, scopes, operator, a, b),
        Family::Equality => equality(layer, checker, scopes, operator, a, b),
        Family::Ordering => ordering(layer, checker, scopes, operator, a, b),
        Family::Logical => both_boolean(layer, checker, scopes, operator, a, b),
    }
}
