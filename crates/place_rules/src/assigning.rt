//! Assignments.
ghost use Rattle.std.specs.Prelude.{◌≡◌, OnOk};
ghost use Rattle.typing_rules.specs.AbstractSyntax as syntax;
ghost use Rattle.typing_rules.specs.Expressions.{JudgePlace};
ghost use Rattle.abstract_tree.specs.TreeView.{plain};
ghost use Rattle.judging.specs.Answers.{Answers, Judges};
ghost use Rattle.judging.specs.Parts.{Ready};
ghost use Rattle.judging.specs.Views.{context, definitions, kind_reached, rule, typed_in};
ghost use Rattle.place_rules.specs.Places.{site_in};

use crate::kinds::{variable, variable_element, variable_field};
use abstract_tree::{Expression, ExpressionForm};
use judging::{Checker, Judged, Layer, Part, Site};
use type_judgements::Refusal;
use typing_rules::Condition;
use value_scopes::{Around, Place, Scopes};

fn site_in(place: Place, at: u32) -> Site
    ensures { result ≡ site_in place at }
{
    Site {
        at,
        place: place.directly(Around::Other),
        around: Around::Other,
        wanted: None,
    }
}

/// What may be assigned to: a `var` name, a `var` field or an element of an array of `var`. Motoko language manual, section "Assignment".
pub fn judge_place<F: Fn(&mut Checker, &mut Scopes, Part<'_>) -> Judged>(
    layer: &Layer<F>,
    checker: &mut Checker,
    scopes: &mut Scopes,
    of: &Expression<u32>,
) -> Judged
    requires judges { Judges layer.now.depth (F.pre layer.now.judge) (F.post layer.now.judge) }
    requires ready { Ready checker.old scopes.old layer.now.site }
    ensures answer { Answers typed_in kind_reached (λ v. JudgePlace (definitions v) (context v layer.now.site.place) (plain of.now)) scopes.old checker.old scopes.new checker.new result }
    ensures ready { OnOk result (Ready checker.new scopes.new layer.now.site) }
{
    let site = site_in(layer.site.place, of.note);
    match of.form.get() {
        ExpressionForm::Name(name) => variable(&site, checker, scopes, name.as_slice()),
        ExpressionForm::Member(a, name) => {
            variable_field(layer, &site, checker, scopes, a, name.as_slice())
        }
        ExpressionForm::Index(a, i) => variable_element(layer, &site, checker, scopes, a, i),
        _ => Err(Refusal::False(site.at, Condition::NotMutable)),
    }
}

/// `p := a`: Motoko language manual, section "Assignment".
pub fn assign<F: Fn(&mut Checker, &mut Scopes, Part<'_>) -> Judged>(
    layer: &Layer<F>,
    checker: &mut Checker,
    scopes: &mut Scopes,
    of: &Expression<u32>,
    a: &Expression<u32>,
) -> Judged
    requires judges { Judges layer.now.depth (F.pre layer.now.judge) (F.post layer.now.judge) }
    requires ready { Ready checker.old scopes.old layer.now.site }
    ensures { Answers typed_in kind_reached (rule layer.now.site (syntax.Assign (plain of.now) (plain a.now))) scopes.old checker.old scopes.new checker.new result }
{
    let to = judge_place(layer, checker, scopes, of)?;
    let from = layer.part(checker, scopes, a, Some(to.note.kind))?;
    layer
        .site
        .has_unit(checker, ExpressionForm::Assign(to, from))
}
