//! Members of modules of the base library.
ghost use Rattle.typing_rules.specs.declared.condition.Condition.TheVariants as condition;
ghost use Rattle.typing_rules.specs.AbstractSyntax as syntax;
ghost use Rattle.typing_rules.specs.Ends.{Has};
ghost use Rattle.typing_rules.specs.Judgements.{Tests};
ghost use Rattle.typing_rules.specs.Members as rules;
ghost use Rattle.typing_rules.specs.Patterns.{is_empty};
ghost use Rattle.judging.specs.Answers.{Answers};
ghost use Rattle.judging.specs.Parts.{Ready};
ghost use Rattle.judging.specs.Views.{kind_reached, rule, typed_in, wanted_in};

use abstract_tree::ExpressionForm;
use built_in_members::member_bound;
use judging::{Checker, Judged, Site};
use mo_scopes::Member;
use type_judgements::Refusal;
use typing_rules::Condition;
use value_scopes::Scopes;

/// A member of a module, where it is given: Motoko language manual, section "Imports".
pub fn given_member(site: &Site, checker: &mut Checker, scopes: &Scopes, member: Member) -> Judged
    requires { Ready checker.old scopes.now site.now }
    ensures { Answers typed_in kind_reached (rule site.now (syntax.BuiltIn member)) scopes.now checker.old scopes.now checker.new result }
{
    let bound = member_bound(&mut checker.types, member)?;
    site.has(checker, bound.kind, ExpressionForm::BuiltIn(member))
}

/// A member of a module, where it is written: one with type parameters stands only as a callee.
pub(crate) fn module_member(
    site: &Site,
    checker: &mut Checker,
    scopes: &Scopes,
    member: Member,
) -> Judged
    requires { Ready checker.old scopes.now site.now }
    ensures { Answers typed_in kind_reached (λ v. Tests condition.TypeArguments site.now.at (is_empty (rules.member_bound member).generics) (Has site.now.at (wanted_in v site.now.wanted) (rules.member_bound member).type (syntax.BuiltIn member))) scopes.now checker.old scopes.now checker.new result }
{
    let bound = member_bound(&mut checker.types, member)?;
    if bound.generics.is_empty() {
        site.has(checker, bound.kind, ExpressionForm::BuiltIn(member))
    } else {
        Err(Refusal::False(site.at, Condition::TypeArguments))
    }
}
