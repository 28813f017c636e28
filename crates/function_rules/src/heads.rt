//! The type that is wanted, where it is that of functions.
ghost use Rattle.std.specs.Prelude.{◌≡◌, ◌<◌, IfOk, IfSome, Some, length, option_map, slice_get};
ghost use Rattle.mo_types.specs.Sub.{Each};
ghost use Rattle.typing_rules.specs.Calls.{local_of};
ghost use Rattle.met_types.specs.States.{IsReached, Kept};
ghost use Rattle.judging.specs.Heads.{HeadHas, PartsFound, WantedHas, part_in};
ghost use Rattle.judging.specs.Parts.{Wanting};
ghost use Rattle.function_rules.specs.Locals.{local_at, only, shown};

use judging::{Checker, Site};
use met_types::Types;
use mo_num::Memory;
use mo_types::{Node, Sort, TypeId};
use type_terms::TermId;

/// The parameters and the results of a function that is not shared.
fn local_at(node: &Node) -> Option<(&[TypeId], &[TypeId])>
    ensures { option_map (λ q. (q.0.now, q.1.now)) result ≡ local_at node.now }
{
    match node {
        Node::Func(Sort::Local, parameters, results) => {
            Some((parameters.as_slice(), results.as_slice()))
        }
        _ => None,
    }
}

fn part_at(parts: &[TypeId], i: usize) -> Option<TypeId>
    ensures { result ≡ slice_get parts.now i }
{
    parts.get(i).copied()
}

/// The one of several, where there is only one.
fn only(parts: &[TypeId]) -> Option<TypeId>
    ensures { result ≡ only parts.now }
{
    if parts.len() == 1 {
        part_at(parts, 0)
    } else {
        None
    }
}

/// The term of a type of the graph, where there is one.
fn part_in(types: &Types, part: Option<TypeId>) -> Option<TermId>
    ensures { result ≡ part_in types.now part }
{
    match part {
        Some(part) => types.term_at(part),
        None => None,
    }
}

/// The types of the graph, as terms.
fn terms_at(types: &Types, parts: &[TypeId]) -> Result<Vec<TermId>, Memory>
    requires { Each (λ p. p.index < length types.now.reached) parts.now }
    ensures { IfOk result (λ made. PartsFound types.now parts.now made.items) }
{
    let mut made = Vec::with_capacity(types.terms().allocator(), parts.len())?;
    for part in parts {
        match types.term_at(*part) {
            Some(id) => made.push(id)?,
            None => return Err(Memory),
        }
    }
    Ok(made)
}

/// The types of the parameters and the result of a function that is not shared. Such a function has one result, which may be a
/// tuple: a type that has others is none that the checker makes.
fn local_parts(
    types: &Types,
    parameters: &[TypeId],
    results: &[TypeId],
) -> Result<(Vec<TermId>, TermId), Memory>
    requires { Each (λ p. p.index < length types.now.reached) parameters.now }
    ensures parameters { IfOk result (λ made. PartsFound types.now parameters.now made.0.items) }
    ensures of { IfOk result (λ made. Some made.1 ≡ part_in types.now (only results.now)) }
{
    match part_in(types, only(results)) {
        Some(of) => Ok((terms_at(types, parameters)?, of)),
        None => Err(Memory),
    }
}

/// The same of a type, where it is that of such functions.
fn function_parts(types: &Types, id: TermId) -> Result<Option<(Vec<TermId>, TermId)>, Memory>
    requires kept { Kept types.now }
    requires reached { IsReached types.now id }
    ensures is { IfOk result (λ found. HeadHas local_of types.now id (λ later. option_map (shown later) found)) }
    ensures parameters { IfOk result (λ found. IfSome found (λ q. Each (IsReached types.now) q.0.items)) }
    ensures of { IfOk result (λ found. IfSome found (λ q. IsReached types.now q.1)) }
{
    match types.node(id) {
        Some(node) => match local_at(node) {
            Some((parameters, results)) => Ok(Some(local_parts(types, parameters, results)?)),
            None => Ok(None),
        },
        None => Ok(None),
    }
}

/// The type that is wanted, where it is that of functions that are not shared, and the types of their parameters and their result.
pub(crate) fn wanted_function(
    site: &Site,
    checker: &Checker,
) -> Result<Option<(TermId, (Vec<TermId>, TermId))>, Memory>
    requires { Wanting checker.now site.now }
    ensures is { IfOk result (λ found. WantedHas local_of checker.now.types site.now.wanted shown found) }
    ensures parameters { IfOk result (λ found. IfSome found (λ q. Each (IsReached checker.now.types) q.1.0.items)) }
    ensures of { IfOk result (λ found. IfSome found (λ q. IsReached checker.now.types q.1.1)) }
{
    match site.wanted {
        Some(wanted) => match function_parts(&checker.types, wanted)? {
            Some(parts) => Ok(Some((wanted, parts))),
            None => Ok(None),
        },
        None => Ok(None),
    }
}
