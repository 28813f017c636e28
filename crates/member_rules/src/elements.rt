//! Parts of tuples, and elements of arrays.
ghost use Rattle.typing_rules.specs.AbstractSyntax as syntax;
ghost use Rattle.abstract_tree.specs.TreeView.{plain};
ghost use Rattle.judging.specs.Answers.{Answers, Judges};
ghost use Rattle.judging.specs.Parts.{Ready};
ghost use Rattle.judging.specs.Views.{kind_reached, rule, typed_in};

use abstract_tree::{Expression, ExpressionForm};
use judging::{Checker, Judged, Layer, Part};
use member_heads::{element, tuple_part};
use mo_num::Kind;
use type_judgements::Refusal;
use type_terms::Form;
use typing_rules::Condition;
use value_scopes::Scopes;

/// `a.n`, a part of a tuple: Motoko language manual, section "Tuple projection".
pub fn projection<F: Fn(&mut Checker, &mut Scopes, Part<'_>) -> Judged>(
    layer: &Layer<F>,
    checker: &mut Checker,
    scopes: &mut Scopes,
    a: &Expression<u32>,
    number: u64,
) -> Judged
    requires judges { Judges layer.now.depth (F.pre layer.now.judge) (F.post layer.now.judge) }
    requires ready { Ready checker.old scopes.old layer.now.site }
    ensures { Answers typed_in kind_reached (rule layer.now.site (syntax.Projection (plain a.now) number)) scopes.old checker.old scopes.new checker.new result }
{
    let of = layer.part(checker, scopes, a, None)?;
    match tuple_part(&checker.types, of.note.kind, number) {
        Some(kind) => layer
            .site
            .has(checker, kind, ExpressionForm::Projection(of, number)),
        None => Err(Refusal::False(layer.site.at, Condition::NotTuple)),
    }
}

/// `a[i]`, an element of an array: Motoko language manual, section "Array indexing".
pub fn index<F: Fn(&mut Checker, &mut Scopes, Part<'_>) -> Judged>(
    layer: &Layer<F>,
    checker: &mut Checker,
    scopes: &mut Scopes,
    a: &Expression<u32>,
    i: &Expression<u32>,
) -> Judged
    requires judges { Judges layer.now.depth (F.pre layer.now.judge) (F.post layer.now.judge) }
    requires ready { Ready checker.old scopes.old layer.now.site }
    ensures { Answers typed_in kind_reached (rule layer.now.site (syntax.Index (plain a.now) (plain i.now))) scopes.old checker.old scopes.new checker.new result }
{
    let of = layer.part(checker, scopes, a, None)?;
    match element(&checker.types, of.note.kind) {
        Some(kind) => {
            let place = layer.fits(checker, scopes, i, Form::Number(Kind::Nat))?;
            layer
                .site
                .has(checker, kind, ExpressionForm::Index(of, place))
        }
        None => Err(Refusal::False(layer.site.at, Condition::NotArray)),
    }
}
