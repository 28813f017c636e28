//! Parameters of functions, and the pattern of the context of a call.

ghost use Rattle.mo_parser_base.specs.Input as input;
ghost use Rattle.mo_parser_base.specs.Input.{Reads};
ghost use Rattle.mo_parser_patterns.specs.Patterns as spec;
ghost use Rattle.mo_syntax.specs.declared.token.TokenKind.{TokenKind};
ghost use Rattle.mo_syntax.specs.declared.mark.Mark.{Mark};

use crate::grammar::Grammar;
use crate::start::{a_pattern, pattern_at};
use mo_parser_base::{Cursor, Stop, read_commas, read_semicolons};
use mo_syntax::{Items, Mark, Node, Parameters, Pattern, PatternField};
use std::alloc::Global;

/// Patterns in `( )`, or a name.
#[tactic(auto, unfolding(crate::specs::Patterns::a_list))]
pub fn read_parameters(alloc: Global, tokens: &mut Cursor<'_>) -> Result<Parameters, Stop>
    ensures { Reads (spec.a_list tokens.old) result tokens.new }
{
    if tokens.eat_mark(Mark::ParenOpen) {
        let found = read_commas(
            alloc,
            tokens,
            Mark::ParenClose,
            |tokens| a_pattern(alloc, tokens),
        )?;
        return Ok(Parameters::List(found));
    }
    Ok(Parameters::Single(tokens.identifier(alloc)?))
}

#[tactic(auto, unfolding(crate::specs::Patterns::a_field))]
fn a_field(alloc: Global, tokens: &mut Cursor<'_>) -> Result<Node<PatternField>, Stop>
    ensures { Reads (spec.a_field tokens.old) result tokens.new }
{
    Grammar {
        alloc,
        depth: tokens.deepest(),
        inner: pattern_at,
    }
    .field(tokens)
}

/// Fields with `;` between them up to a closing brace, which is taken, and whether a `;` ends them.
#[tactic(auto, unfolding(crate::specs::Patterns::fields))]
pub fn read_pattern_fields(
    alloc: Global,
    tokens: &mut Cursor<'_>,
) -> Result<(Items<Node<PatternField>>, bool), Stop>
    ensures { Reads (spec.fields tokens.old) result tokens.new }
{
    read_semicolons(alloc, tokens, |tokens| a_field(alloc, tokens))
}
