//! Lists in expressions.

ghost use Rattle.std.specs.Prelude.{◌≡◌};
ghost use Rattle.mo_parser_base.specs.Input as input;
ghost use Rattle.mo_parser_base.specs.Input.{Reads};
ghost use Rattle.mo_parser_expressions.specs.Expressions as spec;
ghost use Rattle.mo_parser_expressions.specs.Nests.{Declares, Nests};
ghost use Rattle.mo_syntax.specs.declared.mark.Mark.{Mark};
ghost use Rattle.mo_syntax.specs.declared.token.TokenKind.{TokenKind};

use crate::grammar::Grammar;
use mo_parser_base::{Cursor, Stop, read_commas, read_semicolons};
use mo_syntax::{
    Case, Declaration, DeclarationField, Expression, ExpressionField, Items, Mark, Node,
};
use std::alloc::Global;

impl<
    F: Fn(Global, &mut Cursor<'_>, usize, u8) -> Result<Node<Expression>, Stop>,
    G: Fn(Global, &mut Cursor<'_>, usize) -> Result<Node<Declaration>, Stop>,
> Grammar<F, G> {
    pub(crate) fn arguments(&self, tokens: &mut Cursor<'_>) -> Result<Items<Node<Expression>>, Stop>
        requires nests { Nests self.now.depth (F.pre self.now.inner) (F.post self.now.inner) }
        requires declares { Declares self.now.depth (G.pre self.now.declared) (G.post self.now.declared) }
        ensures { Reads (input.commas (spec.expression_at self.now.depth 0) (TokenKind.Mark Mark.ParenClose) tokens.old) result tokens.new }
    {
        read_commas(
            self.alloc,
            tokens,
            Mark::ParenClose,
            |tokens| self.inner(tokens, 0),
        )
    }

    pub(crate) fn elements(&self, tokens: &mut Cursor<'_>) -> Result<Items<Node<Expression>>, Stop>
        requires nests { Nests self.now.depth (F.pre self.now.inner) (F.post self.now.inner) }
        requires declares { Declares self.now.depth (G.pre self.now.declared) (G.post self.now.declared) }
        ensures { Reads (input.commas (spec.expression_at self.now.depth 0) (TokenKind.Mark Mark.BracketClose) tokens.old) result tokens.new }
    {
        read_commas(
            self.alloc,
            tokens,
            Mark::BracketClose,
            |tokens| self.inner(tokens, 0),
        )
    }

    pub(crate) fn declarations(
        &self,
        tokens: &mut Cursor<'_>,
    ) -> Result<(Items<Node<Declaration>>, bool), Stop>
        requires nests { Nests self.now.depth (F.pre self.now.inner) (F.post self.now.inner) }
        requires declares { Declares self.now.depth (G.pre self.now.declared) (G.post self.now.declared) }
        ensures { Reads (input.semicolons (spec.declaration_at self.now.depth) tokens.old) result tokens.new }
    {
        read_semicolons(self.alloc, tokens, |tokens| self.declared(tokens))
    }

    #[tactic(auto, unfolding(crate::specs::Expressions::members))]
    pub(crate) fn members(
        &self,
        tokens: &mut Cursor<'_>,
    ) -> Result<(Items<Node<DeclarationField>>, bool), Stop>
        requires nests { Nests self.now.depth (F.pre self.now.inner) (F.post self.now.inner) }
        requires declares { Declares self.now.depth (G.pre self.now.declared) (G.post self.now.declared) }
        ensures { Reads (spec.members (spec.expression_at self.now.depth) (spec.declaration_at self.now.depth) tokens.old) result tokens.new }
    {
        read_semicolons(self.alloc, tokens, |tokens| self.member(tokens))
    }

    pub(crate) fn cases(&self, tokens: &mut Cursor<'_>) -> Result<(Items<Node<Case>>, bool), Stop>
        requires nests { Nests self.now.depth (F.pre self.now.inner) (F.post self.now.inner) }
        requires declares { Declares self.now.depth (G.pre self.now.declared) (G.post self.now.declared) }
        ensures { Reads (input.semicolons (spec.one_case (spec.expression_at self.now.depth) (spec.declaration_at self.now.depth)) tokens.old) result tokens.new }
    {
        read_semicolons(self.alloc, tokens, |tokens| self.one_case(tokens))
    }

    pub(crate) fn entries(
        &self,
        tokens: &mut Cursor<'_>,
    ) -> Result<(Items<Node<ExpressionField>>, bool), Stop>
        requires nests { Nests self.now.depth (F.pre self.now.inner) (F.post self.now.inner) }
        requires declares { Declares self.now.depth (G.pre self.now.declared) (G.post self.now.declared) }
        ensures { Reads (input.semicolons (spec.entry (spec.expression_at self.now.depth) (spec.declaration_at self.now.depth)) tokens.old) result tokens.new }
    {
        read_semicolons(self.alloc, tokens, |tokens| self.entry(tokens))
    }
}
