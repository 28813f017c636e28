//! What is called, and what a call gives.
ghost use Rattle.std.specs.Prelude.{◌≡◌, IfOk, option_map};
ghost use Rattle.mo_types.specs.Heads.{func_of};
ghost use Rattle.mo_types.specs.Sub.{Each};
ghost use Rattle.type_definitions.specs.Tables.{Within};
ghost use Rattle.met_types.specs.States.{IsReached, Kept};
ghost use Rattle.instance_rules.specs.Instances.{Puts};
ghost use Rattle.application_rules.specs.Functions.{FindsFunction, IsCalled, IsFutureOf, IsResult, only, seen_function};

use member_heads::promoted;
use met_types::Types;
use mo_num::{Memory, Sequence};
use mo_types::{Node, Sort};
use type_terms::{Form, TermId};

/// The types of the parameters and results of a function.
pub(crate) struct Function {
    pub(crate) sort: Sort,
    pub(crate) parameters: Sequence<TermId>,
    pub(crate) results: Sequence<TermId>,
}

fn function_at(node: Node<TermId>) -> Option<Function>
    ensures { option_map seen_function result ≡ func_of node }
{
    match node {
        Node::Func(sort, parameters, results) => Some(Function {
            sort,
            parameters,
            results,
        }),
        _ => None,
    }
}

/// What values of this type take and give, where they are functions.
pub(crate) fn function_parts(types: &mut Types, id: TermId) -> Result<Option<Function>, Memory>
    requires kept { Kept types.old }
    requires reached { IsReached types.old id }
    ensures { IfOk result (λ found. FindsFunction types.old id found types.new) }
{
    let last = promoted(types, id);
    let node = types.head(last)?;
    Ok(function_at(node))
}

fn only(results: &[TermId]) -> Option<TermId>
    ensures { result ≡ only results.now }
{
    if results.len() == 1 {
        Some(results[0])
    } else {
        None
    }
}

/// The type of these results: that of the one, or else their tuple.
fn result_of(types: &mut Types, results: Sequence<TermId>) -> Result<TermId, Memory>
    requires kept { Kept types.old }
    requires within { Each (Within types.old.forms) results }
    ensures { IfOk result (λ id. Puts types.old (IsResult results id) id types.new) }
{
    match only(results.as_slice()) {
        Some(one) => Ok(one),
        None => types.intern(Form::Tuple(results)),
    }
}

fn future_of(types: &mut Types, kind: TermId) -> Result<TermId, Memory>
    requires kept { Kept types.old }
    requires within { Within types.old.forms kind }
    ensures { IfOk result (λ id. Puts types.old (IsFutureOf kind id) id types.new) }
{
    types.intern(Form::Async(kind))
}

/// What a call of a function of this sort with these results gives: a future, where it is shared.
pub(crate) fn called(
    types: &mut Types,
    sort: Sort,
    results: Sequence<TermId>,
) -> Result<TermId, Memory>
    requires kept { Kept types.old }
    requires within { Each (Within types.old.forms) results }
    ensures { IfOk result (λ id. Puts types.old (IsCalled sort results id) id types.new) }
{
    let given = result_of(types, results)?;
    match sort {
        Sort::Local => Ok(given),
        Sort::Shared => future_of(types, given),
        Sort::Query => future_of(types, given),
    }
}
