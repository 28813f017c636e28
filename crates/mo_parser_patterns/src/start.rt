//! Patterns, from the outside.

ghost use Rattle.std.specs.Prelude.{List, IfOk};
ghost use Rattle.mo_parser_base.specs.Input.{Reads};
ghost use Rattle.mo_parser_patterns.specs.Ends.{EndsPattern, Finds, IsFront};
ghost use Rattle.mo_parser_patterns.specs.Patterns as spec;
ghost use Rattle.mo_syntax.specs.ExpressionGrammar.{first};
ghost use Rattle.mo_syntax.specs.declared.patterns.Pattern.{Pattern};
ghost use Rattle.mo_syntax.specs.declared.token.TokenKind.{TokenKind};

use crate::grammar::Grammar;
use mo_parser_base::{Cursor, Stop};
use mo_syntax::{Node, Pattern};
use std::alloc::Global;

/// A pattern of a level, in which patterns nest no deeper than `depth`: 0 is a whole one, 2 one without `or` and type, and 3 that of a case.
pub fn pattern_at(
    alloc: Global,
    tokens: &mut Cursor<'_>,
    depth: usize,
    level: u8,
) -> Result<Node<Pattern>, Stop>
    ensures { Reads (spec.pattern_at depth level tokens.old) result tokens.new }
{
    if depth == 0 {
        return Err(Stop::Refused);
    }
    Grammar {
        alloc,
        depth: depth - 1,
        inner: pattern_at,
    }
    .level(tokens, level)
}

#[tactic(auto, unfolding(crate::specs::Patterns::a_pattern))]
pub(crate) fn a_pattern(alloc: Global, tokens: &mut Cursor<'_>) -> Result<Node<Pattern>, Stop>
    ensures { Reads (spec.a_pattern tokens.old) result tokens.new }
{
    let depth = tokens.deepest();
    pattern_at(alloc, tokens, depth, 0)
}

#[tactic(auto, unfolding(crate::specs::Patterns::a_case_pattern))]
fn a_case_pattern(alloc: Global, tokens: &mut Cursor<'_>) -> Result<Node<Pattern>, Stop>
    ensures { Reads (spec.a_case_pattern tokens.old) result tokens.new }
{
    let depth = tokens.deepest();
    pattern_at(alloc, tokens, depth, 3)
}

/// A pattern off the front of the tokens, as far as it goes. After an error the tokens are those from where the reading stopped.
pub fn read_pattern(alloc: Global, tokens: &mut Cursor<'_>) -> Result<Node<Pattern>, Stop>
    // What is read is spelled so.
    ensures found { IfOk result (λ x. IsFront 0 x tokens.old tokens.new) }
    // What is spelled so is read, and nothing else is.
    ensures only { (x : Pattern) (rest : List TokenKind) → IsFront 0 x tokens.old rest → EndsPattern (first rest) → Finds x rest result tokens.new }
    ensures reads { Reads (spec.a_pattern tokens.old) result tokens.new }
{
    a_pattern(alloc, tokens)
}

/// The pattern of a case off the front of the tokens.
pub fn read_case_pattern(alloc: Global, tokens: &mut Cursor<'_>) -> Result<Node<Pattern>, Stop>
    ensures found { IfOk result (λ x. IsFront 3 x tokens.old tokens.new) }
    ensures only { (x : Pattern) (rest : List TokenKind) → IsFront 3 x tokens.old rest → Finds x rest result tokens.new }
    ensures reads { Reads (spec.a_case_pattern tokens.old) result tokens.new }
{
    a_case_pattern(alloc, tokens)
}
