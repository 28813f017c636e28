//! Expressions and declarations, from the outside.

ghost use Rattle.mo_parser_base.specs.Input.{Reads};
ghost use Rattle.mo_parser_expressions.specs.Expressions as spec;

use crate::grammar::Grammar;
use mo_parser_base::{Cursor, Stop};
use mo_syntax::{Declaration, Expression, Node};
use std::alloc::Global;

/// An expression of a level, in which expressions and declarations nest no deeper than `depth`. The levels are those of the grammar:
/// 0 is any expression, 2 to 7 are those of operators of two operands, 8 of one, and 9 of calls.
#[cycle(expression)]
pub fn expression_at(
    alloc: Global,
    tokens: &mut Cursor<'_>,
    depth: usize,
    level: u8,
) -> Result<Node<Expression>, Stop>
    ensures { Reads (spec.expression_at depth level tokens.old) result tokens.new }
{
    if depth == 0 {
        return Err(Stop::Refused);
    }
    Grammar {
        alloc,
        depth: depth - 1,
        inner: expression_at,
        declared: declaration_at,
    }
    .level(tokens, level)
}

/// A declaration, in which expressions and declarations nest no deeper than `depth`.
#[cycle(expression)]
pub fn declaration_at(
    alloc: Global,
    tokens: &mut Cursor<'_>,
    depth: usize,
) -> Result<Node<Declaration>, Stop>
    ensures { Reads (spec.declaration_at depth tokens.old) result tokens.new }
{
    if depth == 0 {
        return Err(Stop::Refused);
    }
    Grammar {
        alloc,
        depth: depth - 1,
        inner: expression_at,
        declared: declaration_at,
    }
    .declaration(tokens)
}

/// An expression off the front of the tokens, as far as it goes.
#[tactic(auto, unfolding(crate::specs::Expressions::an_expression))]
pub fn read_expression(alloc: Global, tokens: &mut Cursor<'_>) -> Result<Node<Expression>, Stop>
    ensures { Reads (spec.an_expression tokens.old) result tokens.new }
{
    let depth = tokens.deepest();
    expression_at(alloc, tokens, depth, 0)
}

/// A declaration off the front of the tokens, as far as it goes.
#[tactic(auto, unfolding(crate::specs::Expressions::a_declaration))]
pub fn read_declaration(alloc: Global, tokens: &mut Cursor<'_>) -> Result<Node<Declaration>, Stop>
    ensures { Reads (spec.a_declaration tokens.old) result tokens.new }
{
    let depth = tokens.deepest();
    declaration_at(alloc, tokens, depth)
}

/// An expression behind its `=`, or else a block.
#[tactic(auto, unfolding(crate::specs::Expressions::a_body))]
pub fn read_body(
    alloc: Global,
    tokens: &mut Cursor<'_>,
    equal_sign: bool,
) -> Result<Node<Expression>, Stop>
    ensures { Reads (spec.a_body equal_sign tokens.old) result tokens.new }
{
    Grammar {
        alloc,
        depth: tokens.deepest(),
        inner: expression_at,
        declared: declaration_at,
    }
    .body(tokens, equal_sign)
}
