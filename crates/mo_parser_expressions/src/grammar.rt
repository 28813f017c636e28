//! The rules take the parsers of inner expressions and declarations as parameters, so that each is proved by itself.

ghost use Rattle.std.specs.Prelude.{◌≡◌};
ghost use Rattle.mo_parser_base.specs.Input as input;
ghost use Rattle.mo_parser_base.specs.Input.{Reads};
ghost use Rattle.mo_parser_expressions.specs.Expressions as spec;
ghost use Rattle.mo_parser_expressions.specs.Nests.{Declares, Nests};
ghost use Rattle.mo_syntax.specs.declared.mark.Mark.{Mark};
ghost use Rattle.mo_syntax.specs.declared.token.TokenKind.{TokenKind};
ghost use Rattle.mo_syntax.specs.declared.word.Word.{Word};

use crate::signs::begins;
use mo_parser_base::{Cursor, Look, Stop};
use mo_parser_patterns::read_case_pattern;
use mo_parser_types::read_annotation;
use mo_syntax::{
    Case, Declaration, DeclarationField, Expression, ExpressionField, Items, Mark, Node,
    Visibility, Word,
};
use std::alloc::Global;

#[derive(Clone, Copy)]
pub(crate) struct Grammar<F, G> {
    pub(crate) alloc: Global,
    // How deep expressions and declarations may still nest.
    pub(crate) depth: usize,
    pub(crate) inner: F,
    pub(crate) declared: G,
}

impl<
    F: Fn(Global, &mut Cursor<'_>, usize, u8) -> Result<Node<Expression>, Stop>,
    G: Fn(Global, &mut Cursor<'_>, usize) -> Result<Node<Declaration>, Stop>,
> Grammar<F, G> {
    pub(crate) fn inner(&self, tokens: &mut Cursor<'_>, level: u8) -> Result<Node<Expression>, Stop>
        requires nests { Nests self.now.depth (F.pre self.now.inner) (F.post self.now.inner) }
        requires declares { Declares self.now.depth (G.pre self.now.declared) (G.post self.now.declared) }
        ensures { Reads (spec.expression_at self.now.depth level tokens.old) result tokens.new }
    {
        (self.inner)(self.alloc, tokens, self.depth, level)
    }

    pub(crate) fn declared(&self, tokens: &mut Cursor<'_>) -> Result<Node<Declaration>, Stop>
        requires nests { Nests self.now.depth (F.pre self.now.inner) (F.post self.now.inner) }
        requires declares { Declares self.now.depth (G.pre self.now.declared) (G.post self.now.declared) }
        ensures { Reads (spec.declaration_at self.now.depth tokens.old) result tokens.new }
    {
        (self.declared)(self.alloc, tokens, self.depth)
    }

    #[tactic(auto, unfolding(crate::specs::Expressions::block))]
    pub(crate) fn block(&self, tokens: &mut Cursor<'_>) -> Result<Node<Expression>, Stop>
        requires nests { Nests self.now.depth (F.pre self.now.inner) (F.post self.now.inner) }
        requires declares { Declares self.now.depth (G.pre self.now.declared) (G.post self.now.declared) }
        ensures { Reads (spec.block (spec.expression_at self.now.depth) (spec.declaration_at self.now.depth) tokens.old) result tokens.new }
    {
        let start = tokens.start();
        tokens.expect_mark(Mark::BraceOpen)?;
        let (declarations, last) = self.declarations(tokens)?;
        Ok(tokens.node(self.alloc, start, Expression::Block(declarations, last))?)
    }

    /// A block, or an expression that does not begin with `{`.
    #[tactic(auto, unfolding(crate::specs::Expressions::nested))]
    pub(crate) fn nested(&self, tokens: &mut Cursor<'_>) -> Result<Node<Expression>, Stop>
        requires nests { Nests self.now.depth (F.pre self.now.inner) (F.post self.now.inner) }
        requires declares { Declares self.now.depth (G.pre self.now.declared) (G.post self.now.declared) }
        ensures { Reads (spec.nested (spec.expression_at self.now.depth) (spec.declaration_at self.now.depth) tokens.old) result tokens.new }
    {
        match tokens.peek() {
            Look::Mark(Mark::BraceOpen) => self.block(tokens),
            _ => self.inner(tokens, 0),
        }
    }

    #[tactic(auto, unfolding(crate::specs::Expressions::body))]
    pub(crate) fn body(
        &self,
        tokens: &mut Cursor<'_>,
        equal_sign: bool,
    ) -> Result<Node<Expression>, Stop>
        requires nests { Nests self.now.depth (F.pre self.now.inner) (F.post self.now.inner) }
        requires declares { Declares self.now.depth (G.pre self.now.declared) (G.post self.now.declared) }
        ensures { Reads (spec.body (spec.expression_at self.now.depth) (spec.declaration_at self.now.depth) equal_sign tokens.old) result tokens.new }
    {
        if equal_sign {
            self.inner(tokens, 0)
        } else {
            self.block(tokens)
        }
    }

    /// An expression, where the next token can begin one.
    #[tactic(auto, unfolding(crate::specs::Expressions::optional))]
    pub(crate) fn optional(&self, tokens: &mut Cursor<'_>) -> Result<Option<Node<Expression>>, Stop>
        requires nests { Nests self.now.depth (F.pre self.now.inner) (F.post self.now.inner) }
        requires declares { Declares self.now.depth (G.pre self.now.declared) (G.post self.now.declared) }
        ensures { Reads (spec.optional (spec.expression_at self.now.depth) (spec.declaration_at self.now.depth) tokens.old) result tokens.new }
    {
        if begins(tokens.peek()) {
            return Ok(Some(self.inner(tokens, 0)?));
        }
        Ok(None)
    }

    #[tactic(auto, unfolding(crate::specs::Expressions::visibility))]
    pub(crate) fn visibility(&self, tokens: &mut Cursor<'_>) -> Result<Option<Visibility>, Stop>
        requires nests { Nests self.now.depth (F.pre self.now.inner) (F.post self.now.inner) }
        requires declares { Declares self.now.depth (G.pre self.now.declared) (G.post self.now.declared) }
        ensures { Reads (spec.visibility (spec.expression_at self.now.depth) (spec.declaration_at self.now.depth) tokens.old) result tokens.new }
    {
        match tokens.peek() {
            Look::Reserved(Word::Public) => {
                tokens.skip();
                Ok(Some(Visibility::Public))
            }
            Look::Reserved(Word::Private) => {
                tokens.skip();
                Ok(Some(Visibility::Private))
            }
            _ => Ok(None),
        }
    }

    #[tactic(auto, unfolding(crate::specs::Expressions::member))]
    pub(crate) fn member(&self, tokens: &mut Cursor<'_>) -> Result<Node<DeclarationField>, Stop>
        requires nests { Nests self.now.depth (F.pre self.now.inner) (F.post self.now.inner) }
        requires declares { Declares self.now.depth (G.pre self.now.declared) (G.post self.now.declared) }
        ensures { Reads (spec.member (spec.expression_at self.now.depth) (spec.declaration_at self.now.depth) tokens.old) result tokens.new }
    {
        let start = tokens.start();
        let visibility = self.visibility(tokens)?;
        let declaration = self.declared(tokens)?;
        let made = DeclarationField {
            visibility,
            declaration,
        };
        Ok(tokens.node(self.alloc, start, made)?)
    }

    #[tactic(auto, unfolding(crate::specs::Expressions::one_case))]
    pub(crate) fn one_case(&self, tokens: &mut Cursor<'_>) -> Result<Node<Case>, Stop>
        requires nests { Nests self.now.depth (F.pre self.now.inner) (F.post self.now.inner) }
        requires declares { Declares self.now.depth (G.pre self.now.declared) (G.post self.now.declared) }
        ensures { Reads (spec.one_case (spec.expression_at self.now.depth) (spec.declaration_at self.now.depth) tokens.old) result tokens.new }
    {
        let start = tokens.start();
        tokens.expect_word(Word::Case)?;
        let pattern = read_case_pattern(self.alloc, tokens)?;
        let body = self.nested(tokens)?;
        Ok(tokens.node(self.alloc, start, Case { pattern, body })?)
    }

    /// `=` and an expression, or neither.
    pub(crate) fn value(&self, tokens: &mut Cursor<'_>) -> Result<Option<Node<Expression>>, Stop>
        requires nests { Nests self.now.depth (F.pre self.now.inner) (F.post self.now.inner) }
        requires declares { Declares self.now.depth (G.pre self.now.declared) (G.post self.now.declared) }
        ensures { Reads (input.behind (TokenKind.Mark Mark.EqualSign) (spec.expression_at self.now.depth 0) tokens.old) result tokens.new }
    {
        if !tokens.eat_mark(Mark::EqualSign) {
            return Ok(None);
        }
        Ok(Some(self.inner(tokens, 0)?))
    }

    #[tactic(auto, unfolding(crate::specs::Expressions::entry))]
    pub(crate) fn entry(&self, tokens: &mut Cursor<'_>) -> Result<Node<ExpressionField>, Stop>
        requires nests { Nests self.now.depth (F.pre self.now.inner) (F.post self.now.inner) }
        requires declares { Declares self.now.depth (G.pre self.now.declared) (G.post self.now.declared) }
        ensures { Reads (spec.entry (spec.expression_at self.now.depth) (spec.declaration_at self.now.depth) tokens.old) result tokens.new }
    {
        let start = tokens.start();
        let mutable = tokens.eat_word(Word::Var);
        let name = tokens.identifier(self.alloc)?;
        let annotation = read_annotation(self.alloc, tokens)?;
        let value = self.value(tokens)?;
        let made = ExpressionField {
            mutable,
            name,
            annotation,
            value,
        };
        Ok(tokens.node(self.alloc, start, made)?)
    }
}
