//! Lists in types.

ghost use Rattle.mo_parser_base.specs.Input as input;
ghost use Rattle.mo_parser_base.specs.Input.{Reads};
ghost use Rattle.mo_parser_types.specs.Types as spec;
ghost use Rattle.mo_parser_types.specs.Nests.{Nests};
ghost use Rattle.mo_syntax.specs.declared.token.TokenKind.{TokenKind};
ghost use Rattle.mo_syntax.specs.declared.mark.Mark.{Mark};

use crate::grammar::Grammar;
use mo_parser_base::{Cursor, Stop, read_commas, read_semicolons, read_some_semicolons};
use mo_syntax::{Items, Mark, Node, TypeExpression, TypeField, TypeItem, TypeMethod, TypeTag};
use std::alloc::Global;

impl<F: Fn(Global, &mut Cursor<'_>, usize, u8) -> Result<Node<TypeExpression>, Stop>> Grammar<F> {
    pub(crate) fn types(&self, tokens: &mut Cursor<'_>) -> Result<Items<Node<TypeExpression>>, Stop>
        requires { Nests self.now.depth (F.pre self.now.inner) (F.post self.now.inner) }
        ensures { Reads (input.commas (spec.type_at self.now.depth 0) (TokenKind.Mark Mark.AngleClose) tokens.old) result tokens.new }
    {
        read_commas(
            self.alloc,
            tokens,
            Mark::AngleClose,
            |tokens| self.inner(tokens, 0),
        )
    }

    pub(crate) fn items(&self, tokens: &mut Cursor<'_>) -> Result<Items<Node<TypeItem>>, Stop>
        requires { Nests self.now.depth (F.pre self.now.inner) (F.post self.now.inner) }
        ensures { Reads (input.commas (spec.item (spec.type_at self.now.depth)) (TokenKind.Mark Mark.ParenClose) tokens.old) result tokens.new }
    {
        read_commas(
            self.alloc,
            tokens,
            Mark::ParenClose,
            |tokens| self.item(tokens),
        )
    }

    pub(crate) fn fields(
        &self,
        tokens: &mut Cursor<'_>,
    ) -> Result<(Items<Node<TypeField>>, bool), Stop>
        requires { Nests self.now.depth (F.pre self.now.inner) (F.post self.now.inner) }
        ensures { Reads (input.semicolons (spec.field (spec.type_at self.now.depth)) tokens.old) result tokens.new }
    {
        read_semicolons(self.alloc, tokens, |tokens| self.field(tokens))
    }

    pub(crate) fn tags(&self, tokens: &mut Cursor<'_>) -> Result<(Items<Node<TypeTag>>, bool), Stop>
        requires { Nests self.now.depth (F.pre self.now.inner) (F.post self.now.inner) }
        ensures { Reads (input.some_semicolons (spec.tag (spec.type_at self.now.depth)) tokens.old) result tokens.new }
    {
        read_some_semicolons(self.alloc, tokens, |tokens| self.tag(tokens))
    }

    pub(crate) fn methods(
        &self,
        tokens: &mut Cursor<'_>,
    ) -> Result<(Items<Node<TypeMethod>>, bool), Stop>
        requires { Nests self.now.depth (F.pre self.now.inner) (F.post self.now.inner) }
        ensures { Reads (input.semicolons (spec.method (spec.type_at self.now.depth)) tokens.old) result tokens.new }
    {
        read_semicolons(self.alloc, tokens, |tokens| self.method(tokens))
    }
}
