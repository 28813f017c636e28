//! What is read is spelled so, and what is spelled so is read.

ghost use Rattle.std.specs.Prelude.{List, IfOk};
ghost use Rattle.mo_parser_base.specs.Input.{Reads};
ghost use Rattle.mo_parser_exact.specs.Ends.{EndsExpression};
ghost use Rattle.mo_parser_exact.specs.Fronts.{Finds, IsDeclared, IsFront, body_level};
ghost use Rattle.mo_parser_expressions.specs.Expressions as spec;
ghost use Rattle.mo_syntax.specs.ExpressionGrammar.{exp, first};
ghost use Rattle.mo_syntax.specs.declared.declarations.Declaration.{Declaration};
ghost use Rattle.mo_syntax.specs.declared.expressions.Expression.{Expression};
ghost use Rattle.mo_syntax.specs.declared.token.TokenKind.{TokenKind};

use mo_parser_base::{Cursor, Stop};
use mo_parser_expressions as rules;
use mo_syntax::{Declaration, Expression, Node};
use std::alloc::Global;

/// An expression off the front of the tokens, as far as it goes. After an error the tokens are those from where the reading stopped.
pub fn read_expression(alloc: Global, tokens: &mut Cursor<'_>) -> Result<Node<Expression>, Stop>
    // What is read is spelled so.
    ensures found { IfOk result (λ x. IsFront exp x tokens.old tokens.new) }
    // What is spelled so is read, and nothing else is.
    ensures only { (x : Expression) (rest : List TokenKind) → IsFront exp x tokens.old rest → EndsExpression (first rest) → Finds x rest result tokens.new }
    ensures reads { Reads (spec.an_expression tokens.old) result tokens.new }
{
    rules::read_expression(alloc, tokens)
}

/// A declaration off the front of the tokens, as far as it goes.
pub fn read_declaration(alloc: Global, tokens: &mut Cursor<'_>) -> Result<Node<Declaration>, Stop>
    ensures found { IfOk result (λ x. IsDeclared x tokens.old tokens.new) }
    ensures only { (x : Declaration) (rest : List TokenKind) → IsDeclared x tokens.old rest → EndsExpression (first rest) → Finds x rest result tokens.new }
    ensures reads { Reads (spec.a_declaration tokens.old) result tokens.new }
{
    rules::read_declaration(alloc, tokens)
}

/// An expression behind its `=`, or else a block.
pub fn read_body(
    alloc: Global,
    tokens: &mut Cursor<'_>,
    equal_sign: bool,
) -> Result<Node<Expression>, Stop>
    ensures found { IfOk result (λ x. IsFront (body_level equal_sign) x tokens.old tokens.new) }
    ensures only { (x : Expression) (rest : List TokenKind) → IsFront (body_level equal_sign) x tokens.old rest → EndsExpression (first rest) → Finds x rest result tokens.new }
    ensures reads { Reads (spec.a_body equal_sign tokens.old) result tokens.new }
{
    rules::read_body(alloc, tokens, equal_sign)
}
