//! The abstract syntax of a type, and of the lists of types that stand in signatures and calls. `at` is the number of a token, and
//! what is asked for stands so many tokens behind it.
ghost use Rattle.std.specs.Prelude.{◌≡◌, ◌+◌, IfOk, map, option_map};
ghost use Rattle.typing_rules.specs.AbstractTypes as syntax;
ghost use Rattle.typing_rules.specs.AbstractTypes.{in_type, written_parameter};
ghost use Rattle.typing_rules.specs.AbstractExpressions.{type_arguments};
ghost use Rattle.abstract_types.specs.TypeView.{parameter, type_node};
ghost use Rattle.abstract_type_walk.specs.Stands.{Lists, MayStand, Stands};
ghost use Rattle.abstract_type_walk.specs.TypeWalks.{AreGenerics, AreTypeArguments};

use crate::type_walk::TypeWalk;
use abstract_types::{TypeNode, TypeParameter, number_behind, placed_name};
use mo_num::Memory;
use mo_syntax::{Items, Node, TypeExpression, TypeParameter as WrittenParameter};
use std::alloc::Global;

// That of a type of at most so many levels. A type of more levels than there are addresses is none that memory holds.
fn type_within(
    alloc: Global,
    depth: usize,
    a: &TypeExpression,
    at: u32,
) -> Result<(TypeNode, u32), Memory>
    ensures { IfOk result (Stands type_node (in_type a.now) at) }
{
    if depth == 0 {
        return Err(Memory);
    }
    let walk = TypeWalk {
        alloc,
        depth: depth - 1,
        types: type_within,
    };
    walk.layer(a, at)
}

/// The abstract syntax of the type, and the number of the token behind it. The recursion is as deep as the type.
pub fn abstract_type(
    alloc: Global,
    a: &TypeExpression,
    at: u32,
    tokens: u32,
) -> Result<(TypeNode, u32), Memory>
    ensures { IfOk result (Stands type_node (in_type a.now) (at + tokens)) }
{
    type_within(alloc, usize::MAX, a, number_behind(at, tokens)?)
}

/// The same of a type that may be missing, behind a `:`.
pub fn abstract_annotation(
    alloc: Global,
    annotation: &Option<Node<TypeExpression>>,
    at: u32,
    tokens: u32,
) -> Result<(Option<TypeNode>, u32), Memory>
    ensures { IfOk result (MayStand type_node (syntax.annotation annotation.now) (at + tokens)) }
{
    let colon = number_behind(at, tokens)?;
    match annotation {
        None => Ok((None, colon)),
        Some(a) => {
            let (made, behind) = abstract_type(alloc, a.get(), colon, 1)?;
            Ok((Some(made), behind))
        }
    }
}

/// The same of the type arguments in `< >` of a call, where these stand.
pub fn abstract_type_arguments(
    alloc: Global,
    types: &Option<Items<Node<TypeExpression>>>,
    at: u32,
) -> Result<(Option<Items<TypeNode>>, u32), Memory>
    ensures { IfOk result (AreTypeArguments (type_arguments types.now) at) }
{
    match types {
        None => Ok((None, at)),
        Some(types) => {
            let walk = TypeWalk {
                alloc,
                depth: usize::MAX,
                types: type_within,
            };
            let (made, close) = walk.each(types.as_slice(), at, 1)?;
            Ok((Some(made), number_behind(close, 1)?))
        }
    }
}

fn type_parameter(
    alloc: Global,
    written: &WrittenParameter,
    at: u32,
    tokens: u32,
) -> Result<(TypeParameter, u32), Memory>
    ensures { IfOk result (Stands parameter (written_parameter written.now) (at + tokens)) }
{
    let place = number_behind(at, tokens)?;
    let name = placed_name(alloc, &written.name, place)?;
    let (bound, behind) = abstract_annotation(alloc, &written.bound, place, 1)?;
    Ok((TypeParameter { name, bound }, behind))
}

fn each_type_parameter(
    alloc: Global,
    parameters: &[WrittenParameter],
    at: u32,
    tokens: u32,
) -> Result<(Items<TypeParameter>, u32), Memory>
    ensures { IfOk result (Lists parameter (map written_parameter parameters.now) (at + tokens)) }
{
    let mut next = number_behind(at, tokens)?;
    let mut mark = 0;
    let mut made = Items::new(alloc);
    for one in parameters {
        let (node, behind) = type_parameter(alloc, one, next, mark)?;
        made.push(node)?;
        next = behind;
        mark = 1;
    }
    Ok((made, next))
}

/// The same of the type parameters in `< >` of a function or class, where these stand.
pub fn abstract_generics(
    alloc: Global,
    generics: &Option<Items<WrittenParameter>>,
    at: u32,
) -> Result<(Items<TypeParameter>, u32), Memory>
    ensures { IfOk result (AreGenerics generics.now at) }
{
    match generics {
        None => Ok((Items::new(alloc), at)),
        Some(parameters) => {
            let (made, close) = each_type_parameter(alloc, parameters.as_slice(), at, 1)?;
            Ok((made, number_behind(close, 1)?))
        }
    }
}
