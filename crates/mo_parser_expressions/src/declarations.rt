//! Declarations, behind the word that they begin with.

ghost use Rattle.std.specs.Prelude.{◌≡◌};
ghost use Rattle.mo_parser_base.specs.Input as input;
ghost use Rattle.mo_parser_base.specs.Input.{Reads};
ghost use Rattle.mo_parser_expressions.specs.Expressions as spec;
ghost use Rattle.mo_parser_expressions.specs.Nests.{Declares, Nests};
ghost use Rattle.mo_syntax.specs.declared.mark.Mark.{Mark};
ghost use Rattle.mo_syntax.specs.declared.token.TokenKind.{TokenKind};
ghost use Rattle.mo_syntax.specs.declared.word.Word.{Word};

use crate::grammar::Grammar;
use crate::signs::{begins_parameters, is_name};
use mo_parser_base::{Cursor, Look, Stop};
use mo_parser_patterns::{read_parameters, read_pattern};
use mo_parser_types::{read_annotation, read_type, read_type_names, read_type_parameters};
use mo_syntax::{Declaration, Expression, Mark, Node, Parameters, TypeExpression, Word};
use std::alloc::Global;

/// Parameters, a result type where one stands, and whether a `=` follows.
pub(crate) type Signature = (Parameters, (Option<Node<TypeExpression>>, bool));

impl<
    F: Fn(Global, &mut Cursor<'_>, usize, u8) -> Result<Node<Expression>, Stop>,
    G: Fn(Global, &mut Cursor<'_>, usize) -> Result<Node<Declaration>, Stop>,
> Grammar<F, G> {
    #[tactic(auto, unfolding(crate::specs::Expressions::signature))]
    pub(crate) fn signature(&self, tokens: &mut Cursor<'_>) -> Result<Signature, Stop>
        requires nests { Nests self.now.depth (F.pre self.now.inner) (F.post self.now.inner) }
        requires declares { Declares self.now.depth (G.pre self.now.declared) (G.post self.now.declared) }
        ensures { Reads (spec.signature (spec.expression_at self.now.depth) (spec.declaration_at self.now.depth) tokens.old) result tokens.new }
    {
        let parameters = read_parameters(self.alloc, tokens)?;
        let result = read_annotation(self.alloc, tokens)?;
        let equal_sign = tokens.eat_mark(Mark::EqualSign);
        Ok((parameters, (result, equal_sign)))
    }

    #[tactic(auto, unfolding(crate::specs::Expressions::signed))]
    pub(crate) fn signed(
        &self,
        tokens: &mut Cursor<'_>,
    ) -> Result<(Signature, Node<Expression>), Stop>
        requires nests { Nests self.now.depth (F.pre self.now.inner) (F.post self.now.inner) }
        requires declares { Declares self.now.depth (G.pre self.now.declared) (G.post self.now.declared) }
        ensures { Reads (spec.signed (spec.expression_at self.now.depth) (spec.declaration_at self.now.depth) tokens.old) result tokens.new }
    {
        let (parameters, (result, equal_sign)) = self.signature(tokens)?;
        let body = self.body(tokens, equal_sign)?;
        Ok(((parameters, (result, equal_sign)), body))
    }

    #[tactic(auto, unfolding(crate::specs::Expressions::let_declaration))]
    pub(crate) fn let_declaration(&self, tokens: &mut Cursor<'_>) -> Result<Declaration, Stop>
        requires nests { Nests self.now.depth (F.pre self.now.inner) (F.post self.now.inner) }
        requires declares { Declares self.now.depth (G.pre self.now.declared) (G.post self.now.declared) }
        ensures { Reads (spec.let_declaration (spec.expression_at self.now.depth) (spec.declaration_at self.now.depth) tokens.old) result tokens.new }
    {
        let pattern = read_pattern(self.alloc, tokens)?;
        tokens.expect_mark(Mark::EqualSign)?;
        Ok(Declaration::Let(pattern, self.inner(tokens, 0)?))
    }

    #[tactic(auto, unfolding(crate::specs::Expressions::var_declaration))]
    pub(crate) fn var_declaration(&self, tokens: &mut Cursor<'_>) -> Result<Declaration, Stop>
        requires nests { Nests self.now.depth (F.pre self.now.inner) (F.post self.now.inner) }
        requires declares { Declares self.now.depth (G.pre self.now.declared) (G.post self.now.declared) }
        ensures { Reads (spec.var_declaration (spec.expression_at self.now.depth) (spec.declaration_at self.now.depth) tokens.old) result tokens.new }
    {
        let name = tokens.identifier(self.alloc)?;
        let kind = read_annotation(self.alloc, tokens)?;
        tokens.expect_mark(Mark::EqualSign)?;
        Ok(Declaration::Var(name, kind, self.inner(tokens, 0)?))
    }

    #[tactic(auto, unfolding(crate::specs::Expressions::func_declaration))]
    pub(crate) fn func_declaration(&self, tokens: &mut Cursor<'_>) -> Result<Declaration, Stop>
        requires nests { Nests self.now.depth (F.pre self.now.inner) (F.post self.now.inner) }
        requires declares { Declares self.now.depth (G.pre self.now.declared) (G.post self.now.declared) }
        ensures { Reads (spec.func_declaration (spec.expression_at self.now.depth) (spec.declaration_at self.now.depth) tokens.old) result tokens.new }
    {
        let name = tokens.identifier(self.alloc)?;
        let generics = read_type_parameters(self.alloc, tokens)?;
        let ((parameters, (result, equal_sign)), body) = self.signed(tokens)?;
        Ok(Declaration::Func(name, generics, parameters, result, equal_sign, body))
    }

    #[tactic(auto, unfolding(crate::specs::Expressions::type_declaration))]
    pub(crate) fn type_declaration(&self, tokens: &mut Cursor<'_>) -> Result<Declaration, Stop>
        requires nests { Nests self.now.depth (F.pre self.now.inner) (F.post self.now.inner) }
        requires declares { Declares self.now.depth (G.pre self.now.declared) (G.post self.now.declared) }
        ensures { Reads (spec.type_declaration (spec.expression_at self.now.depth) (spec.declaration_at self.now.depth) tokens.old) result tokens.new }
    {
        let name = tokens.identifier(self.alloc)?;
        let names = read_type_names(self.alloc, tokens)?;
        tokens.expect_mark(Mark::EqualSign)?;
        Ok(Declaration::TypeAlias(name, names, read_type(self.alloc, tokens)?))
    }

    #[tactic(auto, unfolding(crate::specs::Expressions::class_declaration))]
    pub(crate) fn class_declaration(&self, tokens: &mut Cursor<'_>) -> Result<Declaration, Stop>
        requires nests { Nests self.now.depth (F.pre self.now.inner) (F.post self.now.inner) }
        requires declares { Declares self.now.depth (G.pre self.now.declared) (G.post self.now.declared) }
        ensures { Reads (spec.class_declaration (spec.expression_at self.now.depth) (spec.declaration_at self.now.depth) tokens.old) result tokens.new }
    {
        let name = tokens.identifier(self.alloc)?;
        let generics = read_type_parameters(self.alloc, tokens)?;
        let parameters = read_parameters(self.alloc, tokens)?;
        tokens.expect_mark(Mark::BraceOpen)?;
        let (fields, last) = self.members(tokens)?;
        Ok(Declaration::Class(name, generics, parameters, fields, last))
    }

    #[tactic(auto, unfolding(crate::specs::Expressions::object_declaration))]
    pub(crate) fn object_declaration(&self, tokens: &mut Cursor<'_>) -> Result<Declaration, Stop>
        requires nests { Nests self.now.depth (F.pre self.now.inner) (F.post self.now.inner) }
        requires declares { Declares self.now.depth (G.pre self.now.declared) (G.post self.now.declared) }
        ensures { Reads (spec.object_declaration (spec.expression_at self.now.depth) (spec.declaration_at self.now.depth) tokens.old) result tokens.new }
    {
        let name = tokens.identifier(self.alloc)?;
        tokens.expect_mark(Mark::BraceOpen)?;
        let (fields, last) = self.members(tokens)?;
        Ok(Declaration::NamedObject(name, fields, last))
    }

    #[tactic(auto, unfolding(crate::specs::Expressions::evaluated))]
    pub(crate) fn evaluated(&self, tokens: &mut Cursor<'_>) -> Result<Declaration, Stop>
        requires nests { Nests self.now.depth (F.pre self.now.inner) (F.post self.now.inner) }
        requires declares { Declares self.now.depth (G.pre self.now.declared) (G.post self.now.declared) }
        ensures { Reads (spec.evaluated (spec.expression_at self.now.depth) (spec.declaration_at self.now.depth) tokens.old) result tokens.new }
    {
        Ok(Declaration::Evaluate(self.inner(tokens, 0)?))
    }

    #[tactic(auto, unfolding(crate::specs::Expressions::func_or_expression))]
    pub(crate) fn func_or_expression(&self, tokens: &mut Cursor<'_>) -> Result<Declaration, Stop>
        requires nests { Nests self.now.depth (F.pre self.now.inner) (F.post self.now.inner) }
        requires declares { Declares self.now.depth (G.pre self.now.declared) (G.post self.now.declared) }
        ensures { Reads (spec.func_or_expression (spec.expression_at self.now.depth) (spec.declaration_at self.now.depth) tokens.old) result tokens.new }
    {
        if is_name(tokens.peek_second()) && begins_parameters(tokens.peek_third()) {
            tokens.skip();
            return self.func_declaration(tokens);
        }
        self.evaluated(tokens)
    }

    #[tactic(auto, unfolding(crate::specs::Expressions::object_or_expression))]
    pub(crate) fn object_or_expression(&self, tokens: &mut Cursor<'_>) -> Result<Declaration, Stop>
        requires nests { Nests self.now.depth (F.pre self.now.inner) (F.post self.now.inner) }
        requires declares { Declares self.now.depth (G.pre self.now.declared) (G.post self.now.declared) }
        ensures { Reads (spec.object_or_expression (spec.expression_at self.now.depth) (spec.declaration_at self.now.depth) tokens.old) result tokens.new }
    {
        if is_name(tokens.peek_second()) {
            tokens.skip();
            return self.object_declaration(tokens);
        }
        self.evaluated(tokens)
    }

    #[tactic(auto, unfolding(crate::specs::Expressions::declaration))]
    pub(crate) fn declaration_layer(&self, tokens: &mut Cursor<'_>) -> Result<Declaration, Stop>
        requires nests { Nests self.now.depth (F.pre self.now.inner) (F.post self.now.inner) }
        requires declares { Declares self.now.depth (G.pre self.now.declared) (G.post self.now.declared) }
        ensures { Reads (spec.declaration (spec.expression_at self.now.depth) (spec.declaration_at self.now.depth) tokens.old) result tokens.new }
    {
        match tokens.peek() {
            Look::Reserved(Word::Let) => {
                tokens.skip();
                self.let_declaration(tokens)
            }
            Look::Reserved(Word::Var) => {
                tokens.skip();
                self.var_declaration(tokens)
            }
            Look::Reserved(Word::TypeWord) => {
                tokens.skip();
                self.type_declaration(tokens)
            }
            Look::Reserved(Word::Class) => {
                tokens.skip();
                self.class_declaration(tokens)
            }
            Look::Reserved(Word::Func) => self.func_or_expression(tokens),
            Look::Reserved(Word::Object) => self.object_or_expression(tokens),
            Look::Mark(Mark::BraceOpen) => Err(Stop::Refused),
            _ => self.evaluated(tokens),
        }
    }

    pub(crate) fn declaration(&self, tokens: &mut Cursor<'_>) -> Result<Node<Declaration>, Stop>
        requires nests { Nests self.now.depth (F.pre self.now.inner) (F.post self.now.inner) }
        requires declares { Declares self.now.depth (G.pre self.now.declared) (G.post self.now.declared) }
        ensures { Reads (spec.declaration (spec.expression_at self.now.depth) (spec.declaration_at self.now.depth) tokens.old) result tokens.new }
    {
        let start = tokens.start();
        let made = self.declaration_layer(tokens)?;
        Ok(tokens.node(self.alloc, start, made)?)
    }
}
