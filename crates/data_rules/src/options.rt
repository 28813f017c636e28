//! Options (Motoko language manual, sections "Options", "Option block" and "Null break").
ghost use Rattle.std.specs.Prelude.{◌≡◌, true};
ghost use Rattle.typing_rules.specs.AbstractSyntax as syntax;
ghost use Rattle.abstract_tree.specs.TreeView.{plain};
ghost use Rattle.judging.specs.Answers.{Answers, Judges};
ghost use Rattle.judging.specs.Parts.{Ready};
ghost use Rattle.judging.specs.Views.{kind_reached, rule, typed_in};

use abstract_tree::{Expression, ExpressionForm};
use judging::{Checker, Judged, Layer, Part, option_part};
use type_judgements::Refusal;
use type_terms::Form;
use typing_rules::Condition;
use value_scopes::{Place, Scopes};

/// `?a`: it gives the option of the type, and fits an option where `a` fits its part.
pub fn option_of<F: Fn(&mut Checker, &mut Scopes, Part<'_>) -> Judged>(
    layer: &Layer<F>,
    checker: &mut Checker,
    scopes: &mut Scopes,
    a: &Expression<u32>,
) -> Judged
    requires judges { Judges layer.now.depth (F.pre layer.now.judge) (F.post layer.now.judge) }
    requires ready { Ready checker.old scopes.old layer.now.site }
    ensures { Answers typed_in kind_reached (rule layer.now.site (syntax.Optional (plain a.now))) scopes.old checker.old scopes.new checker.new result }
{
    match layer.site.wanted_option(checker) {
        Some((wanted, part)) => {
            let of = layer.part(checker, scopes, a, Some(part))?;
            layer
                .site
                .gives(checker, wanted, ExpressionForm::Optional(of))
        }
        None => {
            let of = layer.part(checker, scopes, a, None)?;
            let kind = Form::Optional(of.note.kind);
            layer
                .site
                .has_form(checker, kind, ExpressionForm::Optional(of))
        }
    }
}

/// The same place, where `!` has a `do ?` to end.
fn ending(place: Place) -> Place
    ensures { result ≡ record place { ends = true } }
{
    Place {
        ends: true,
        ..place
    }
}

/// `do ? a`: it gives the option of the type of `a`, and fits an option where `a` fits its part. `!` in `a` may end it.
pub fn do_option<F: Fn(&mut Checker, &mut Scopes, Part<'_>) -> Judged>(
    layer: &Layer<F>,
    checker: &mut Checker,
    scopes: &mut Scopes,
    a: &Expression<u32>,
) -> Judged
    requires judges { Judges layer.now.depth (F.pre layer.now.judge) (F.post layer.now.judge) }
    requires ready { Ready checker.old scopes.old layer.now.site }
    ensures { Answers typed_in kind_reached (rule layer.now.site (syntax.DoOption (plain a.now))) scopes.old checker.old scopes.new checker.new result }
{
    let place = ending(layer.site.place);
    match layer.site.wanted_option(checker) {
        Some((wanted, part)) => {
            let of = layer.part_at(checker, scopes, place, a, Some(part))?;
            layer
                .site
                .gives(checker, wanted, ExpressionForm::DoOption(of))
        }
        None => {
            let of = layer.part_at(checker, scopes, place, a, None)?;
            let kind = Form::Optional(of.note.kind);
            layer
                .site
                .has_form(checker, kind, ExpressionForm::DoOption(of))
        }
    }
}

/// `a!`: of an option it gives the part, or ends the `do ?` around it.
pub fn bang<F: Fn(&mut Checker, &mut Scopes, Part<'_>) -> Judged>(
    layer: &Layer<F>,
    checker: &mut Checker,
    scopes: &mut Scopes,
    a: &Expression<u32>,
) -> Judged
    requires judges { Judges layer.now.depth (F.pre layer.now.judge) (F.post layer.now.judge) }
    requires ready { Ready checker.old scopes.old layer.now.site }
    ensures { Answers typed_in kind_reached (rule layer.now.site (syntax.Bang (plain a.now))) scopes.old checker.old scopes.new checker.new result }
{
    if !layer.site.place.ends {
        return Err(Refusal::False(layer.site.at, Condition::BangPlace));
    }
    let of = layer.part(checker, scopes, a, None)?;
    match option_part(&checker.types, of.note.kind) {
        Some(part) => layer.site.has(checker, part, ExpressionForm::Bang(of)),
        None => Err(Refusal::False(layer.site.at, Condition::NotOption)),
    }
}
