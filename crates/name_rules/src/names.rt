//! The rule of names of values.
ghost use Rattle.std.specs.Prelude.{◌≡◌, IfOk};
ghost use Rattle.typing_rules.specs.AbstractSyntax as syntax;
ghost use Rattle.judging.specs.Answers.{Answers};
ghost use Rattle.judging.specs.Parts.{Ready};
ghost use Rattle.judging.specs.Views.{kind_reached, rule, typed_in};

use crate::futures::future_placed;
use abstract_tree::ExpressionForm;
use judging::{Checker, Judged, Site};
use mo_num::{Bytes, Memory};
use type_judgements::Refusal;
use typing_rules::Condition;
use value_scopes::Scopes;

fn copied(checker: &Checker, bytes: &[u8]) -> Result<Bytes, Memory>
    ensures { IfOk result (λ made. made ≡ bytes.now) }
{
    Bytes::from_slice(checker.types.terms().allocator(), bytes)
}

/// A name: Motoko language manual, section "Identifiers". A function with type parameters stands only as a callee.
pub fn name(site: &Site, checker: &mut Checker, scopes: &Scopes, name: &[u8]) -> Judged
    requires { Ready checker.old scopes.now site.now }
    ensures { Answers typed_in kind_reached (rule site.now (syntax.Name name.now)) scopes.now checker.old scopes.now checker.new result }
{
    match scopes.values.find(name) {
        Some(bound) => {
            if bound.generics.is_empty() {
                let takes = site.around.takes_name();
                future_placed(checker, site.place.body, takes, site.at, bound.kind)?;
                let form = ExpressionForm::Name(copied(checker, name)?);
                site.has(checker, bound.kind, form)
            } else {
                Err(Refusal::False(site.at, Condition::TypeArguments))
            }
        }
        None => Err(Refusal::False(site.at, Condition::NoField)),
    }
}
