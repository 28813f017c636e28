//! The tokens of a type.
ghost use Rattle.std.specs.Prelude.{◌≡◌, ◌++◌, ◌∷◌, [], OnOk, map, option_map};
ghost use Rattle.mo_syntax.specs.Writing as writing;
ghost use Rattle.mo_syntax.specs.Writing.{angles, commas};
ghost use Rattle.mo_syntax.specs.TypeGrammar.{type_tokens, type_parameter_tokens, type_parameters_tokens};
ghost use Rattle.mo_syntax.specs.declared.token.TokenKind.{TokenKind};
ghost use Rattle.mo_syntax.specs.declared.mark.Mark.{Mark};

use crate::leaves::{put_mark, put_name};
use crate::type_layers::TypeWriter;
use mo_num::Memory;
use mo_syntax::{Items, Kinds, Mark, Name, Node, TypeExpression, TypeParameter};
use std::alloc::Global;

// The tokens of a type of at most so many levels. A type of more levels than there are addresses is none that memory holds.
fn put_type_within(
    alloc: Global,
    depth: usize,
    a: &TypeExpression,
    out: &mut Kinds,
) -> Result<(), Memory>
    ensures { OnOk result (out.new ≡ out.old ++ type_tokens a.now) }
{
    if depth == 0 {
        return Err(Memory);
    }
    let writer = TypeWriter {
        alloc,
        depth: depth - 1,
        types: put_type_within,
    };
    writer.put_layer(a, out)
}

pub(crate) fn put_type(alloc: Global, a: &TypeExpression, out: &mut Kinds) -> Result<(), Memory>
    ensures { OnOk result (out.new ≡ out.old ++ type_tokens a.now) }
{
    put_type_within(alloc, usize::MAX, a, out)
}

pub(crate) fn put_annotation(
    alloc: Global,
    annotation: &Option<Node<TypeExpression>>,
    out: &mut Kinds,
) -> Result<(), Memory>
    ensures { OnOk result (out.new ≡ out.old ++ writing.annotation (option_map type_tokens annotation.now)) }
{
    match annotation {
        None => Ok(()),
        Some(a) => {
            put_mark(out, Mark::Colon)?;
            put_type(alloc, a.get(), out)
        }
    }
}

fn put_type_parameter(
    alloc: Global,
    parameter: &TypeParameter,
    out: &mut Kinds,
) -> Result<(), Memory>
    ensures { OnOk result (out.new ≡ out.old ++ type_parameter_tokens parameter.now) }
{
    put_name(alloc, out, &parameter.name)?;
    match &parameter.bound {
        None => Ok(()),
        Some(a) => {
            put_mark(out, Mark::Subtype)?;
            put_type(alloc, a.get(), out)
        }
    }
}

fn put_each_type_parameter(
    alloc: Global,
    parameters: &[TypeParameter],
    out: &mut Kinds,
) -> Result<(), Memory>
    ensures { OnOk result (out.new ≡ out.old ++ commas (map type_parameter_tokens parameters.now)) }
{
    let [first, others @ ..] = parameters else {
        return Ok(());
    };
    put_type_parameter(alloc, first, out)?;
    for one in others {
        put_mark(out, Mark::Comma)?;
        put_type_parameter(alloc, one, out)?;
    }
    Ok(())
}

pub(crate) fn put_type_parameters(
    alloc: Global,
    parameters: &Option<Items<TypeParameter>>,
    out: &mut Kinds,
) -> Result<(), Memory>
    ensures { OnOk result (out.new ≡ out.old ++ type_parameters_tokens parameters.now) }
{
    match parameters {
        None => Ok(()),
        Some(parameters) => {
            put_mark(out, Mark::AngleOpen)?;
            put_each_type_parameter(alloc, parameters.as_slice(), out)?;
            put_mark(out, Mark::AngleClose)
        }
    }
}

pub(crate) fn put_type_arguments(
    alloc: Global,
    arguments: &Option<Items<Node<TypeExpression>>>,
    out: &mut Kinds,
) -> Result<(), Memory>
    ensures { OnOk result (out.new ≡ out.old ++ angles (option_map (map type_tokens) arguments.now)) }
{
    let writer = TypeWriter {
        alloc,
        depth: usize::MAX,
        types: put_type_within,
    };
    writer.put_arguments(arguments, out)
}

fn put_each_name(alloc: Global, names: &[Name], out: &mut Kinds) -> Result<(), Memory>
    ensures { OnOk result (out.new ≡ out.old ++ commas (map (λ y. TokenKind.Identifier y ∷ []) names.now)) }
{
    let [first, others @ ..] = names else {
        return Ok(());
    };
    put_name(alloc, out, first)?;
    for one in others {
        put_mark(out, Mark::Comma)?;
        put_name(alloc, out, one)?;
    }
    Ok(())
}

/// Names in `< >`, where these stand.
pub(crate) fn put_names(
    alloc: Global,
    names: &Option<Items<Name>>,
    out: &mut Kinds,
) -> Result<(), Memory>
    ensures { OnOk result (out.new ≡ out.old ++ angles (option_map (map (λ y. TokenKind.Identifier y ∷ [])) names.now)) }
{
    match names {
        None => Ok(()),
        Some(names) => {
            put_mark(out, Mark::AngleOpen)?;
            put_each_name(alloc, names.as_slice(), out)?;
            put_mark(out, Mark::AngleClose)
        }
    }
}
