//! Types that are shareable where they have to be, and those of shared functions where they have to be.
ghost use Rattle.std.specs.Prelude.{◌≡◌};
ghost use Rattle.mo_subtype.specs.Renamed.{on_node};
ghost use Rattle.type_terms.specs.declared.form.TermId.{TermId as Id};
ghost use Rattle.typing_rules.specs.Terms.{Term};
ghost use Rattle.typing_rules.specs.Types as rules;
ghost use Rattle.abstract_types.specs.TypeView.{type_node};
ghost use Rattle.type_scopes.specs.Scopes.{seen};
ghost use Rattle.proper_types.specs.Passing.{Judges, Ready};
ghost use Rattle.proper_types.specs.Rules.{done, each_sent, method, sent};

use abstract_types::TypeNode;
use met_types::Types;
use mo_types::{Node, Sort};
use shareable_types::Sharing;
use type_judgements::Refusal;
use type_scopes::TypeScope;
use type_terms::TermId;
use typing_rules::Condition;
use written_types::term;

/// The condition at the place, that a written type is shareable.
fn needs_shareable(
    scope: &TypeScope,
    types: &mut Types,
    sharing: &mut Sharing,
    at: u32,
    node: &TypeNode,
) -> Result<(), Refusal>
    requires { Ready types.old sharing.old }
    ensures { Judges (sent (seen scope.now) at (type_node node.now)) types.old types.new sharing.new done result }
{
    let id = term(scope, types, node)?;
    if sharing.is_so(types, id)? {
        Ok(())
    } else {
        Err(Refusal::False(at, Condition::NotShared))
    }
}

/// The condition at the place, that the written types of a shared function's parameters and of what it promises are shareable.
pub(crate) fn all_shareable(
    scope: &TypeScope,
    types: &mut Types,
    sharing: &mut Sharing,
    at: u32,
    parameters: &[TypeNode],
    promised: &TypeNode,
) -> Result<(), Refusal>
    requires { Ready types.old sharing.old }
    ensures { Judges (each_sent (seen scope.now) at promised.now parameters.now) types.old types.new sharing.new done result }
{
    needs_shareable(scope, types, sharing, at, promised)?;
    for parameter in parameters {
        needs_shareable(scope, types, sharing, at, parameter)?;
    }
    Ok(())
}

/// Whether this is the head of a shared function's type.
fn is_shared_function(head: &Node<TermId>) -> bool
    ensures { (f : Id → Term) → result ≡ rules.is_shared_function (on_node f head.now) }
{
    match head {
        Node::Func(Sort::Local, _, _) => false,
        Node::Func(_, _, _) => true,
        _ => false,
    }
}

/// The condition at the place, that a written type is that of a shared function.
pub(crate) fn needs_method(
    scope: &TypeScope,
    types: &mut Types,
    sharing: &Sharing,
    at: u32,
    node: &TypeNode,
) -> Result<(), Refusal>
    requires { Ready types.old sharing.now }
    ensures { Judges (method (seen scope.now) at (type_node node.now)) types.old types.new sharing.now done result }
{
    let id = term(scope, types, node)?;
    let head = types.head(id)?;
    if is_shared_function(&head) {
        Ok(())
    } else {
        Err(Refusal::False(at, Condition::NotShared))
    }
}
