//! Types, from the outside.

ghost use Rattle.std.specs.Prelude.{List, IfOk};
ghost use Rattle.mo_syntax.specs.declared.token.TokenKind.{TokenKind};
ghost use Rattle.mo_syntax.specs.declared.types.TypeExpression.{TypeExpression};
ghost use Rattle.mo_syntax.specs.ExpressionGrammar.{first};
ghost use Rattle.mo_parser_base.specs.Input.{Reads};
ghost use Rattle.mo_parser_types.specs.Ends.{EndsType, Finds, IsFront};
ghost use Rattle.mo_parser_types.specs.Types as spec;

use crate::grammar::Grammar;
use mo_parser_base::{Cursor, Stop};
use mo_syntax::{Mark, Node, TypeExpression};
use std::alloc::Global;

/// A type of a level, 0 or the tighter 1, in which types nest no deeper than `depth`.
pub fn type_at(
    alloc: Global,
    tokens: &mut Cursor<'_>,
    depth: usize,
    level: u8,
) -> Result<Node<TypeExpression>, Stop>
    ensures { Reads (spec.type_at depth level tokens.old) result tokens.new }
{
    if depth == 0 {
        return Err(Stop::Refused);
    }
    Grammar {
        alloc,
        depth: depth - 1,
        inner: type_at,
    }
    .level(tokens, level)
}

#[tactic(auto, unfolding(crate::specs::Types::a_type))]
pub(crate) fn a_type(alloc: Global, tokens: &mut Cursor<'_>) -> Result<Node<TypeExpression>, Stop>
    ensures { Reads (spec.a_type tokens.old) result tokens.new }
{
    let depth = tokens.deepest();
    type_at(alloc, tokens, depth, 0)
}

/// A type off the front of the tokens, as far as it goes. After an error the tokens are those from where the reading stopped.
pub fn read_type(alloc: Global, tokens: &mut Cursor<'_>) -> Result<Node<TypeExpression>, Stop>
    // What is read is spelled so.
    ensures found { IfOk result (λ x. IsFront x tokens.old tokens.new) }
    // What is spelled so is read, and nothing else is.
    ensures only { (x : TypeExpression) (rest : List TokenKind) → IsFront x tokens.old rest → EndsType (first rest) → Finds x rest result tokens.new }
    ensures reads { Reads (spec.a_type tokens.old) result tokens.new }
{
    a_type(alloc, tokens)
}

/// `:` and a type, or neither.
#[tactic(auto, unfolding(crate::specs::Types::annotation))]
pub fn read_annotation(
    alloc: Global,
    tokens: &mut Cursor<'_>,
) -> Result<Option<Node<TypeExpression>>, Stop>
    ensures { Reads (spec.annotation tokens.old) result tokens.new }
{
    if !tokens.eat_mark(Mark::Colon) {
        return Ok(None);
    }
    Ok(Some(a_type(alloc, tokens)?))
}
