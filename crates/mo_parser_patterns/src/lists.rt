//! Lists in patterns.

ghost use Rattle.mo_parser_base.specs.Input as input;
ghost use Rattle.mo_parser_base.specs.Input.{Reads};
ghost use Rattle.mo_parser_patterns.specs.Patterns as spec;
ghost use Rattle.mo_parser_patterns.specs.Nests.{Nests};
ghost use Rattle.mo_syntax.specs.declared.token.TokenKind.{TokenKind};
ghost use Rattle.mo_syntax.specs.declared.mark.Mark.{Mark};

use crate::grammar::Grammar;
use mo_parser_base::{Cursor, Stop, read_commas, read_semicolons};
use mo_syntax::{Items, Mark, Node, Pattern, PatternField, Word};
use std::alloc::Global;

impl<F: Fn(Global, &mut Cursor<'_>, usize, u8) -> Result<Node<Pattern>, Stop>> Grammar<F> {
    pub(crate) fn patterns(&self, tokens: &mut Cursor<'_>) -> Result<Items<Node<Pattern>>, Stop>
        requires { Nests self.now.depth (F.pre self.now.inner) (F.post self.now.inner) }
        ensures { Reads (input.commas (spec.pattern_at self.now.depth 0) (TokenKind.Mark Mark.ParenClose) tokens.old) result tokens.new }
    {
        read_commas(
            self.alloc,
            tokens,
            Mark::ParenClose,
            |tokens| self.inner(tokens, 0),
        )
    }

    pub(crate) fn fields(
        &self,
        tokens: &mut Cursor<'_>,
    ) -> Result<(Items<Node<PatternField>>, bool), Stop>
        requires { Nests self.now.depth (F.pre self.now.inner) (F.post self.now.inner) }
        ensures { Reads (input.semicolons (spec.field (spec.pattern_at self.now.depth)) tokens.old) result tokens.new }
    {
        read_semicolons(self.alloc, tokens, |tokens| self.field(tokens))
    }

    #[tactic(auto, unfolding(crate::specs::Patterns::alternatives))]
    pub(crate) fn alternatives(&self, tokens: &mut Cursor<'_>) -> Result<Node<Pattern>, Stop>
        requires { Nests self.now.depth (F.pre self.now.inner) (F.post self.now.inner) }
        ensures { Reads (spec.alternatives (spec.pattern_at self.now.depth) tokens.old) result tokens.new }
    {
        let start = tokens.start();
        let mut left = self.unary(tokens)?;
        for _turn in 0..tokens.left() {
            if !tokens.eat_word(Word::Or) {
                return Ok(left);
            }
            let right = self.unary(tokens)?;
            left = tokens.node(self.alloc, start, Pattern::Alternative(left, right))?;
        }
        Ok(left)
    }
}
