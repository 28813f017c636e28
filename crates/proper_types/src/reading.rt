//! The types that are written.
ghost use Rattle.std.specs.Prelude.{◌≡◌, IfOk, OnOk, map, option_map};
ghost use Rattle.mo_types.specs.Sub.{Each};
ghost use Rattle.type_definitions.specs.Tables.{Within};
ghost use Rattle.met_types.specs.States.{IsReached};
ghost use Rattle.abstract_types.specs.TypeView.{type_node};
ghost use Rattle.type_scopes.specs.Scopes.{seen};
ghost use Rattle.proper_types.specs.Passing.{Judges, Ready};
ghost use Rattle.proper_types.specs.Rules.{as_term, as_terms, given_or, reads, reads_each};

use crate::walk::proper;
use abstract_types::TypeNode;
use met_types::Types;
use mo_num::Sequence;
use shareable_types::Sharing;
use type_judgements::{Refusal, meets};
use type_scopes::TypeScope;
use type_terms::TermId;
use written_types::term;

/// The type that is written, where it is as it has to be; it is met: Motoko language manual, section "Types".
pub fn reads(
    scope: &TypeScope,
    types: &mut Types,
    sharing: &mut Sharing,
    node: &TypeNode,
) -> Result<TermId, Refusal>
    requires { Ready types.old sharing.old }
    ensures reached { IfOk result (IsReached types.new) }
    ensures judged { Judges (reads (seen scope.now) (type_node node.now)) types.old types.new sharing.new as_term result }
{
    proper(scope, types, sharing, node)?;
    let id = term(scope, types, node)?;
    meets(types, id)?;
    Ok(id)
}

/// The type that is written, or else another, which is as it was.
pub fn reads_or(
    scope: &TypeScope,
    types: &mut Types,
    sharing: &mut Sharing,
    node: Option<&TypeNode>,
    other: TermId,
) -> Result<TermId, Refusal>
    requires ready { Ready types.old sharing.old }
    requires within { Within types.old.forms other }
    ensures within { IfOk result (Within types.new.forms) }
    ensures reached { IsReached types.old other → IfOk result (IsReached types.new) }
    ensures judged { Judges (given_or (seen scope.now) (option_map (λ n. type_node n.now) node.entry) other) types.old types.new sharing.new as_term result }
{
    match node {
        Some(node) => reads(scope, types, sharing, node),
        None => Ok(other),
    }
}

/// The types that are written, in their order.
pub fn reads_each(
    scope: &TypeScope,
    types: &mut Types,
    sharing: &mut Sharing,
    nodes: &[TypeNode],
) -> Result<Sequence<TermId>, Refusal>
    requires { Ready types.old sharing.old }
    ensures reached { IfOk result (Each (IsReached types.new)) }
    ensures judged { Judges (reads_each (seen scope.now) (map type_node nodes.now)) types.old types.new sharing.new as_terms result }
{
    let mut made = Sequence::new(types.terms().allocator());
    for node in nodes {
        made.push(reads(scope, types, sharing, node)?)?;
    }
    Ok(made)
}
