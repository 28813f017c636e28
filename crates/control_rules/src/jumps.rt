//! Jumps: `break`, `continue`, `return` and `throw`.
ghost use Rattle.std.specs.Prelude.{◌≡◌, IfOk};
ghost use Rattle.mo_scopes.specs.Scopes.{named};
ghost use Rattle.typing_rules.specs.AbstractSyntax as syntax;
ghost use Rattle.abstract_tree.specs.TreeView.{plain};
ghost use Rattle.judging.specs.Answers.{Answers, Judges};
ghost use Rattle.judging.specs.Parts.{Ready};
ghost use Rattle.judging.specs.Views.{kind_reached, rule, typed_in};

use abstract_tree::{Expression, ExpressionForm};
use judging::{Checker, Judged, Layer, Part, Site};
use mo_num::{Bytes, Memory};
use type_judgements::Refusal;
use typing_rules::Condition;
use value_scopes::{Label, Scopes};

fn copied(checker: &Checker, bytes: &[u8]) -> Result<Bytes, Memory>
    ensures { IfOk result (λ made. made ≡ bytes.now) }
{
    Bytes::from_slice(checker.types.terms().allocator(), bytes)
}

/// The label of this name.
fn label_named(scopes: &Scopes, name: &[u8]) -> Option<Label>
    ensures { result ≡ named scopes.now.labels name.now }
{
    scopes.labels.find(name).copied()
}

/// `break x`: Motoko language manual, section "Break".
pub fn breaking(site: &Site, checker: &mut Checker, scopes: &Scopes, name: &[u8]) -> Judged
    requires { Ready checker.old scopes.now site.now }
    ensures { Answers typed_in kind_reached (rule site.now (syntax.Break name.now)) scopes.now checker.old scopes.now checker.new result }
{
    match label_named(scopes, name) {
        Some(label) => {
            let form = ExpressionForm::Break(copied(checker, name)?);
            site.leaves(checker, label.kind, form)
        }
        None => Err(Refusal::False(site.at, Condition::BadLabel)),
    }
}

/// `break x a`: Motoko language manual, section "Break".
pub fn breaking_with<F: Fn(&mut Checker, &mut Scopes, Part<'_>) -> Judged>(
    layer: &Layer<F>,
    checker: &mut Checker,
    scopes: &mut Scopes,
    name: &[u8],
    a: &Expression<u32>,
) -> Judged
    requires judges { Judges layer.now.depth (F.pre layer.now.judge) (F.post layer.now.judge) }
    requires ready { Ready checker.old scopes.old layer.now.site }
    ensures { Answers typed_in kind_reached (rule layer.now.site (syntax.BreakWith name.now (plain a.now))) scopes.old checker.old scopes.new checker.new result }
{
    match label_named(scopes, name) {
        Some(label) => {
            let of = layer.part(checker, scopes, a, Some(label.kind))?;
            let name = copied(checker, name)?;
            layer
                .site
                .has_bottom(checker, ExpressionForm::BreakWith(name, of))
        }
        None => Err(Refusal::False(layer.site.at, Condition::BadLabel)),
    }
}

/// `continue x`: Motoko language manual, section "Continue". It stands in the body of a loop directly under its label.
pub fn continuing(site: &Site, checker: &mut Checker, scopes: &Scopes, name: &[u8]) -> Judged
    requires { Ready checker.old scopes.now site.now }
    ensures { Answers typed_in kind_reached (rule site.now (syntax.Continue name.now)) scopes.now checker.old scopes.now checker.new result }
{
    match label_named(scopes, name) {
        Some(label) => {
            if label.is_loop {
                let form = ExpressionForm::Continue(copied(checker, name)?);
                site.has_bottom(checker, form)
            } else {
                Err(Refusal::False(site.at, Condition::BadLabel))
            }
        }
        None => Err(Refusal::False(site.at, Condition::BadLabel)),
    }
}

/// `return`: Motoko language manual, section "Return".
pub fn returning(site: &Site, checker: &mut Checker, scopes: &Scopes) -> Judged
    requires { Ready checker.old scopes.now site.now }
    ensures { Answers typed_in kind_reached (rule site.now syntax.Return) scopes.now checker.old scopes.now checker.new result }
{
    match site.place.returns {
        Some(kind) => site.leaves(checker, kind, ExpressionForm::Return),
        None => Err(Refusal::False(site.at, Condition::BadLabel)),
    }
}

/// `return a`: Motoko language manual, section "Return".
pub fn returning_with<F: Fn(&mut Checker, &mut Scopes, Part<'_>) -> Judged>(
    layer: &Layer<F>,
    checker: &mut Checker,
    scopes: &mut Scopes,
    a: &Expression<u32>,
) -> Judged
    requires judges { Judges layer.now.depth (F.pre layer.now.judge) (F.post layer.now.judge) }
    requires ready { Ready checker.old scopes.old layer.now.site }
    ensures { Answers typed_in kind_reached (rule layer.now.site (syntax.ReturnWith (plain a.now))) scopes.old checker.old scopes.new checker.new result }
{
    match layer.site.place.returns {
        Some(kind) => {
            let of = layer.part(checker, scopes, a, Some(kind))?;
            layer
                .site
                .has_bottom(checker, ExpressionForm::ReturnWith(of))
        }
        None => Err(Refusal::False(layer.site.at, Condition::BadLabel)),
    }
}

/// `throw a`: Motoko language manual, section "Throw".
pub fn throwing<F: Fn(&mut Checker, &mut Scopes, Part<'_>) -> Judged>(
    layer: &Layer<F>,
    checker: &mut Checker,
    scopes: &mut Scopes,
    a: &Expression<u32>,
) -> Judged
    requires judges { Judges layer.now.depth (F.pre layer.now.judge) (F.post layer.now.judge) }
    requires ready { Ready checker.old scopes.old layer.now.site }
    ensures { Answers typed_in kind_reached (rule layer.now.site (syntax.Throw (plain a.now))) scopes.old checker.old scopes.new checker.new result }
{
    if layer.site.place.body.waits() {
        let of = layer.fits_error(checker, scopes, a)?;
        layer.site.has_bottom(checker, ExpressionForm::Throw(of))
    } else {
        Err(Refusal::False(layer.site.at, Condition::AsyncPlace))
    }
}
