//! What may be assigned to, by its form.
ghost use Rattle.std.specs.Prelude.{◌≡◌, IfOk, None};
ghost use Rattle.typing_rules.specs.AbstractSyntax as syntax;
ghost use Rattle.abstract_tree.specs.TreeView.{plain};
ghost use Rattle.judging.specs.Answers.{Answers, Judges};
ghost use Rattle.judging.specs.Parts.{Ready};
ghost use Rattle.judging.specs.Views.{kind_reached, typed_in};
ghost use Rattle.place_rules.specs.Places.{place_rule};

use crate::fitting::fits_nat;
use abstract_tree::{Expression, ExpressionForm};
use judging::{Checker, Judged, Layer, Part, Site};
use member_heads::{element, mutable_element, object_field};
use mo_num::{Bytes, Memory};
use name_rules::built_in;
use type_judgements::Refusal;
use typing_rules::Condition;
use value_scopes::Scopes;

fn copied(checker: &Checker, bytes: &[u8]) -> Result<Bytes, Memory>
    ensures { IfOk result (λ made. made ≡ bytes.now) }
{
    Bytes::from_slice(checker.types.terms().allocator(), bytes)
}

/// A `var` name.
pub(crate) fn variable(site: &Site, checker: &mut Checker, scopes: &Scopes, name: &[u8]) -> Judged
    requires ready { Ready checker.old scopes.now site.now }
    requires wanted { site.now.wanted ≡ None }
    ensures { Answers typed_in kind_reached (place_rule site.now (syntax.Name name.now)) scopes.now checker.old scopes.now checker.new result }
{
    match scopes.values.find(name) {
        Some(bound) => {
            if bound.mutable {
                let form = ExpressionForm::Name(copied(checker, name)?);
                site.has(checker, bound.kind, form)
            } else {
                Err(Refusal::False(site.at, Condition::NotMutable))
            }
        }
        None => Err(Refusal::False(site.at, Condition::NotMutable)),
    }
}

/// A `var` field.
pub(crate) fn variable_field<F: Fn(&mut Checker, &mut Scopes, Part<'_>) -> Judged>(
    layer: &Layer<F>,
    site: &Site,
    checker: &mut Checker,
    scopes: &mut Scopes,
    a: &Expression<u32>,
    name: &[u8],
) -> Judged
    requires judges { Judges layer.now.depth (F.pre layer.now.judge) (F.post layer.now.judge) }
    requires ready { Ready checker.old scopes.old layer.now.site }
    requires returns { site.now.place.returns ≡ layer.now.site.place.returns }
    requires wanted { site.now.wanted ≡ None }
    ensures { Answers typed_in kind_reached (place_rule site.now (syntax.Member (plain a.now) name.now)) scopes.old checker.old scopes.new checker.new result }
{
    match built_in(scopes, a, name) {
        Some(_) => Err(Refusal::False(site.at, Condition::NotMutable)),
        None => {
            let of = layer.part_at(checker, scopes, site.place, a, None)?;
            match object_field(&checker.types, of.note.kind, name) {
                Some((mutable, kind)) => {
                    if mutable {
                        let name = copied(checker, name)?;
                        site.has(checker, kind, ExpressionForm::Member(of, name))
                    } else {
                        Err(Refusal::False(site.at, Condition::NotMutable))
                    }
                }
                None => Err(Refusal::False(site.at, Condition::NoField)),
            }
        }
    }
}

/// An element of an array of `var`.
pub(crate) fn variable_element<F: Fn(&mut Checker, &mut Scopes, Part<'_>) -> Judged>(
    layer: &Layer<F>,
    site: &Site,
    checker: &mut Checker,
    scopes: &mut Scopes,
    a: &Expression<u32>,
    i: &Expression<u32>,
) -> Judged
    requires judges { Judges layer.now.depth (F.pre layer.now.judge) (F.post layer.now.judge) }
    requires ready { Ready checker.old scopes.old layer.now.site }
    requires returns { site.now.place.returns ≡ layer.now.site.place.returns }
    requires wanted { site.now.wanted ≡ None }
    ensures { Answers typed_in kind_reached (place_rule site.now (syntax.Index (plain a.now) (plain i.now))) scopes.old checker.old scopes.new checker.new result }
{
    let of = layer.part_at(checker, scopes, site.place, a, None)?;
    match element(&checker.types, of.note.kind) {
        Some(_) => match mutable_element(&checker.types, of.note.kind) {
            Some(kind) => {
                let place = fits_nat(layer, checker, scopes, site.place, i)?;
                site.has(checker, kind, ExpressionForm::Index(of, place))
            }
            None => Err(Refusal::False(site.at, Condition::NotMutable)),
        },
        None => Err(Refusal::False(site.at, Condition::NotArray)),
    }
}
