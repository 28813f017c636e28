//! What stands in `< >`: type parameters, type arguments and names.

ghost use Rattle.mo_parser_base.specs.Input as input;
ghost use Rattle.mo_parser_base.specs.Input.{Reads};
ghost use Rattle.mo_parser_types.specs.Generics as spec;
ghost use Rattle.mo_parser_types.specs.Types.{a_type};
ghost use Rattle.mo_syntax.specs.declared.token.TokenKind.{TokenKind};
ghost use Rattle.mo_syntax.specs.declared.mark.Mark.{Mark};

use crate::start::a_type;
use mo_parser_base::{Cursor, Stop, read_commas};
use mo_syntax::{Items, Mark, Name, Node, TypeExpression, TypeParameter};
use std::alloc::Global;

#[tactic(auto, unfolding(crate::specs::Generics::parameter))]
fn parameter(alloc: Global, tokens: &mut Cursor<'_>) -> Result<TypeParameter, Stop>
    ensures { Reads (spec.parameter tokens.old) result tokens.new }
{
    let name = tokens.identifier(alloc)?;
    let bound = bound(alloc, tokens)?;
    Ok(TypeParameter { name, bound })
}

fn bound(alloc: Global, tokens: &mut Cursor<'_>) -> Result<Option<Node<TypeExpression>>, Stop>
    ensures { Reads (input.behind (TokenKind.Mark Mark.Subtype) a_type tokens.old) result tokens.new }
{
    if !tokens.eat_mark(Mark::Subtype) {
        return Ok(None);
    }
    Ok(Some(a_type(alloc, tokens)?))
}

/// Type parameters in `< >`, or none.
#[tactic(auto, unfolding(crate::specs::Generics::type_parameters))]
pub fn read_type_parameters(
    alloc: Global,
    tokens: &mut Cursor<'_>,
) -> Result<Option<Items<TypeParameter>>, Stop>
    ensures { Reads (spec.type_parameters tokens.old) result tokens.new }
{
    if !tokens.eat_mark(Mark::AngleOpen) {
        return Ok(None);
    }
    let found = read_commas(
        alloc,
        tokens,
        Mark::AngleClose,
        |tokens| parameter(alloc, tokens),
    )?;
    Ok(Some(found))
}

/// Types in `< >`, or none.
#[tactic(auto, unfolding(crate::specs::Generics::type_arguments))]
pub fn read_type_arguments(
    alloc: Global,
    tokens: &mut Cursor<'_>,
) -> Result<Option<Items<Node<TypeExpression>>>, Stop>
    ensures { Reads (spec.type_arguments tokens.old) result tokens.new }
{
    if !tokens.eat_mark(Mark::AngleOpen) {
        return Ok(None);
    }
    let found = read_commas(
        alloc,
        tokens,
        Mark::AngleClose,
        |tokens| a_type(alloc, tokens),
    )?;
    Ok(Some(found))
}

/// Names in `< >`, or none.
#[tactic(auto, unfolding(crate::specs::Generics::type_names))]
pub fn read_type_names(alloc: Global, tokens: &mut Cursor<'_>) -> Result<Option<Items<Name>>, Stop>
    ensures { Reads (spec.type_names tokens.old) result tokens.new }
{
    if !tokens.eat_mark(Mark::AngleOpen) {
        return Ok(None);
    }
    let found = read_commas(
        alloc,
        tokens,
        Mark::AngleClose,
        |tokens| tokens.identifier(alloc),
    )?;
    Ok(Some(found))
}
