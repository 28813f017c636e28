//! The bodies of functions.
ghost use Rattle.std.specs.Prelude.{◌≡◌, OnOk, Some};
ghost use Rattle.type_definitions.specs.Tables.{Within};
ghost use Rattle.abstract_tree.specs.TreeView.{plain};
ghost use Rattle.judging.specs.declared.site.Site.{Site};
ghost use Rattle.judging.specs.Answers.{Answers, Judges};
ghost use Rattle.judging.specs.Parts.{Entering, Ready, Sound};
ghost use Rattle.judging.specs.Views.{judge, kind_reached, typed_in};
ghost use Rattle.body_judging.specs.Bodies.{body_place, judge_body};

use abstract_tree::Expression;
use judging::{Checker, Judged, Layer, Part};
use type_terms::TermId;
use value_scopes::{Around, Body, NameStack, Place, Scopes};

/// The place of such a body.
fn body_place(body: Body, returns: TermId) -> Place
    ensures { result ≡ body_place body returns }
{
    Place {
        returns: Some(returns),
        ends: false,
        body,
        around: Around::Other,
    }
}

fn judge_there<F: Fn(&mut Checker, &mut Scopes, Part<'_>) -> Judged>(
    layer: &Layer<F>,
    checker: &mut Checker,
    scopes: &mut Scopes,
    place: Place,
    expression: &Expression<u32>,
    wanted: TermId,
) -> Judged
    requires judges { Judges layer.now.depth (F.pre layer.now.judge) (F.post layer.now.judge) }
    requires entering { Entering checker.old scopes.old place (Some wanted) }
    ensures { Answers typed_in kind_reached (judge place (plain expression.now) (Some wanted)) scopes.old checker.old scopes.new checker.new result }
{
    let part = Part {
        depth: layer.depth,
        place,
        expression,
        wanted: Some(wanted),
    };
    (layer.judge)(checker, scopes, part)
}

/// An expression as the body of a function of this type, which is wanted of it and need not be met yet: Motoko language manual,
/// sections "Functions" and "Function declaration". The names of the parameters are in scope before. Neither labels nor `do ?` around
/// the function are seen in its body. The names in scope are as they were, where it is given.
pub fn judge_body<F: Fn(&mut Checker, &mut Scopes, Part<'_>) -> Judged>(
    layer: &Layer<F>,
    checker: &mut Checker,
    scopes: &mut Scopes,
    body: Body,
    returns: TermId,
    expression: &Expression<u32>,
) -> Judged
    requires judges { Judges layer.now.depth (F.pre layer.now.judge) (F.post layer.now.judge) }
    requires sound { Sound checker.old scopes.old }
    requires within { Within checker.old.types.forms returns }
    ensures answer { Answers typed_in kind_reached (judge_body body returns (plain expression.now)) scopes.old checker.old scopes.new checker.new result }
    ensures ready { (x : Site) → Ready checker.old scopes.old x → OnOk result (Ready checker.new scopes.new x) }
{
    let none = NameStack::new(checker.types.terms().allocator());
    let labels = std::mem::replace(&mut scopes.labels, none);
    let place = body_place(body, returns);
    let made = judge_there(layer, checker, scopes, place, expression, returns);
    scopes.labels = labels;
    made
}
