//! Atoms, what goes on with them, and operators of one operand.

ghost use Rattle.std.specs.Prelude.{◌≡◌};
ghost use Rattle.mo_parser_base.specs.Input as input;
ghost use Rattle.mo_parser_base.specs.Input.{Reads};
ghost use Rattle.mo_parser_expressions.specs.Expressions as spec;
ghost use Rattle.mo_parser_expressions.specs.Nests.{Declares, Nests};
ghost use Rattle.mo_syntax.specs.declared.mark.Mark.{Mark};
ghost use Rattle.mo_syntax.specs.declared.token.TokenKind.{TokenKind};
ghost use Rattle.mo_syntax.specs.declared.word.Word.{Word};

use crate::grammar::Grammar;
use crate::signs::{begins_postfix, goes_on};
use mo_parser_base::{Cursor, Look, Stop};
use mo_parser_types::read_type_arguments;
use mo_syntax::{Declaration, Expression, Mark, Node, Text, Word};
use std::alloc::Global;

impl<
    F: Fn(Global, &mut Cursor<'_>, usize, u8) -> Result<Node<Expression>, Stop>,
    G: Fn(Global, &mut Cursor<'_>, usize) -> Result<Node<Declaration>, Stop>,
> Grammar<F, G> {
    #[tactic(auto, unfolding(crate::specs::Expressions::constant))]
    pub(crate) fn constant(&self, tokens: &mut Cursor<'_>) -> Result<Expression, Stop>
        requires nests { Nests self.now.depth (F.pre self.now.inner) (F.post self.now.inner) }
        requires declares { Declares self.now.depth (G.pre self.now.declared) (G.post self.now.declared) }
        ensures { Reads (spec.constant (spec.expression_at self.now.depth) (spec.declaration_at self.now.depth) tokens.old) result tokens.new }
    {
        Ok(Expression::Constant(tokens.literal(self.alloc)?))
    }

    #[tactic(auto, unfolding(crate::specs::Expressions::variable))]
    pub(crate) fn variable(&self, tokens: &mut Cursor<'_>) -> Result<Expression, Stop>
        requires nests { Nests self.now.depth (F.pre self.now.inner) (F.post self.now.inner) }
        requires declares { Declares self.now.depth (G.pre self.now.declared) (G.post self.now.declared) }
        ensures { Reads (spec.variable (spec.expression_at self.now.depth) (spec.declaration_at self.now.depth) tokens.old) result tokens.new }
    {
        Ok(Expression::Variable(tokens.identifier(self.alloc)?))
    }

    #[tactic(auto, unfolding(crate::specs::Expressions::parenthesized))]
    pub(crate) fn parenthesized(&self, tokens: &mut Cursor<'_>) -> Result<Expression, Stop>
        requires nests { Nests self.now.depth (F.pre self.now.inner) (F.post self.now.inner) }
        requires declares { Declares self.now.depth (G.pre self.now.declared) (G.post self.now.declared) }
        ensures { Reads (spec.parenthesized (spec.expression_at self.now.depth) (spec.declaration_at self.now.depth) tokens.old) result tokens.new }
    {
        Ok(Expression::Parenthesized(self.arguments(tokens)?))
    }

    #[tactic(auto, unfolding(crate::specs::Expressions::condition))]
    pub(crate) fn condition_layer(&self, tokens: &mut Cursor<'_>) -> Result<Expression, Stop>
        requires nests { Nests self.now.depth (F.pre self.now.inner) (F.post self.now.inner) }
        requires declares { Declares self.now.depth (G.pre self.now.declared) (G.post self.now.declared) }
        ensures { Reads (spec.condition (spec.expression_at self.now.depth) (spec.declaration_at self.now.depth) tokens.old) result tokens.new }
    {
        match tokens.peek() {
            Look::Identifier => self.variable(tokens),
            Look::Mark(Mark::ParenOpen) => {
                tokens.skip();
                self.parenthesized(tokens)
            }
            _ => self.constant(tokens),
        }
    }

    pub(crate) fn condition(&self, tokens: &mut Cursor<'_>) -> Result<Node<Expression>, Stop>
        requires nests { Nests self.now.depth (F.pre self.now.inner) (F.post self.now.inner) }
        requires declares { Declares self.now.depth (G.pre self.now.declared) (G.post self.now.declared) }
        ensures { Reads (spec.condition (spec.expression_at self.now.depth) (spec.declaration_at self.now.depth) tokens.old) result tokens.new }
    {
        let start = tokens.start();
        let made = self.condition_layer(tokens)?;
        Ok(tokens.node(self.alloc, start, made)?)
    }

    #[tactic(auto, unfolding(crate::specs::Expressions::array))]
    pub(crate) fn array(&self, tokens: &mut Cursor<'_>) -> Result<Expression, Stop>
        requires nests { Nests self.now.depth (F.pre self.now.inner) (F.post self.now.inner) }
        requires declares { Declares self.now.depth (G.pre self.now.declared) (G.post self.now.declared) }
        ensures { Reads (spec.array (spec.expression_at self.now.depth) (spec.declaration_at self.now.depth) tokens.old) result tokens.new }
    {
        let mutable = tokens.eat_word(Word::Var);
        Ok(Expression::Array(mutable, self.elements(tokens)?))
    }

    #[tactic(auto, unfolding(crate::specs::Expressions::record_of))]
    pub(crate) fn record_of(&self, tokens: &mut Cursor<'_>) -> Result<Expression, Stop>
        requires nests { Nests self.now.depth (F.pre self.now.inner) (F.post self.now.inner) }
        requires declares { Declares self.now.depth (G.pre self.now.declared) (G.post self.now.declared) }
        ensures { Reads (spec.record_of (spec.expression_at self.now.depth) (spec.declaration_at self.now.depth) tokens.old) result tokens.new }
    {
        let (fields, last) = self.entries(tokens)?;
        Ok(Expression::Object(fields, last))
    }

    fn closed_text(&self, tokens: &mut Cursor<'_>) -> Result<Text, Stop>
        ensures { Reads ((input.◌◂◌ input.text (TokenKind.Mark Mark.ParenClose)) tokens.old) result tokens.new }
    {
        let text = tokens.text(self.alloc)?;
        tokens.expect_mark(Mark::ParenClose)?;
        Ok(text)
    }

    #[tactic(auto, unfolding(crate::specs::Expressions::actor_reference))]
    pub(crate) fn actor_reference(&self, tokens: &mut Cursor<'_>) -> Result<Expression, Stop>
        requires nests { Nests self.now.depth (F.pre self.now.inner) (F.post self.now.inner) }
        requires declares { Declares self.now.depth (G.pre self.now.declared) (G.post self.now.declared) }
        ensures { Reads (spec.actor_reference (spec.expression_at self.now.depth) (spec.declaration_at self.now.depth) tokens.old) result tokens.new }
    {
        if tokens.eat_mark(Mark::ParenOpen) {
            return Ok(Expression::ActorReference(true, self.closed_text(tokens)?));
        }
        Ok(Expression::ActorReference(false, tokens.text(self.alloc)?))
    }

    #[tactic(auto, unfolding(crate::specs::Expressions::atom))]
    pub(crate) fn atom_layer(&self, tokens: &mut Cursor<'_>) -> Result<Expression, Stop>
        requires nests { Nests self.now.depth (F.pre self.now.inner) (F.post self.now.inner) }
        requires declares { Declares self.now.depth (G.pre self.now.declared) (G.post self.now.declared) }
        ensures { Reads (spec.atom (spec.expression_at self.now.depth) (spec.declaration_at self.now.depth) tokens.old) result tokens.new }
    {
        match tokens.peek() {
            Look::Identifier => self.variable(tokens),
            Look::Mark(Mark::ParenOpen) => {
                tokens.skip();
                self.parenthesized(tokens)
            }
            Look::Mark(Mark::BracketOpen) => {
                tokens.skip();
                self.array(tokens)
            }
            Look::Mark(Mark::BraceOpen) => {
                tokens.skip();
                self.record_of(tokens)
            }
            Look::Reserved(Word::Actor) => {
                tokens.skip();
                self.actor_reference(tokens)
            }
            _ => self.constant(tokens),
        }
    }

    pub(crate) fn atom(&self, tokens: &mut Cursor<'_>) -> Result<Node<Expression>, Stop>
        requires nests { Nests self.now.depth (F.pre self.now.inner) (F.post self.now.inner) }
        requires declares { Declares self.now.depth (G.pre self.now.declared) (G.post self.now.declared) }
        ensures { Reads (spec.atom (spec.expression_at self.now.depth) (spec.declaration_at self.now.depth) tokens.old) result tokens.new }
    {
        let start = tokens.start();
        let made = self.atom_layer(tokens)?;
        Ok(tokens.node(self.alloc, start, made)?)
    }

    #[tactic(auto, unfolding(crate::specs::Expressions::selected))]
    pub(crate) fn selected(
        &self,
        tokens: &mut Cursor<'_>,
        a: Node<Expression>,
    ) -> Result<Expression, Stop>
        requires nests { Nests self.now.depth (F.pre self.now.inner) (F.post self.now.inner) }
        requires declares { Declares self.now.depth (G.pre self.now.declared) (G.post self.now.declared) }
        ensures { Reads (spec.selected (spec.expression_at self.now.depth) (spec.declaration_at self.now.depth) a tokens.old) result tokens.new }
    {
        match tokens.peek() {
            Look::Number => Ok(Expression::Projection(a, tokens.number()?)),
            _ => Ok(Expression::Member(a, tokens.identifier(self.alloc)?)),
        }
    }

    #[tactic(auto, unfolding(crate::specs::Expressions::indexed))]
    pub(crate) fn indexed(
        &self,
        tokens: &mut Cursor<'_>,
        a: Node<Expression>,
    ) -> Result<Expression, Stop>
        requires nests { Nests self.now.depth (F.pre self.now.inner) (F.post self.now.inner) }
        requires declares { Declares self.now.depth (G.pre self.now.declared) (G.post self.now.declared) }
        ensures { Reads (spec.indexed (spec.expression_at self.now.depth) (spec.declaration_at self.now.depth) a tokens.old) result tokens.new }
    {
        let b = self.inner(tokens, 0)?;
        tokens.expect_mark(Mark::BracketClose)?;
        Ok(Expression::Index(a, b))
    }

    #[tactic(auto, unfolding(crate::specs::Expressions::called))]
    pub(crate) fn called(
        &self,
        tokens: &mut Cursor<'_>,
        a: Node<Expression>,
    ) -> Result<Expression, Stop>
        requires nests { Nests self.now.depth (F.pre self.now.inner) (F.post self.now.inner) }
        requires declares { Declares self.now.depth (G.pre self.now.declared) (G.post self.now.declared) }
        ensures { Reads (spec.called (spec.expression_at self.now.depth) (spec.declaration_at self.now.depth) a tokens.old) result tokens.new }
    {
        let types = read_type_arguments(self.alloc, tokens)?;
        tokens.expect_mark(Mark::ParenOpen)?;
        Ok(Expression::Call(a, types, self.arguments(tokens)?))
    }

    #[tactic(auto, unfolding(crate::specs::Expressions::longer))]
    pub(crate) fn longer_layer(
        &self,
        tokens: &mut Cursor<'_>,
        a: Node<Expression>,
    ) -> Result<Expression, Stop>
        requires nests { Nests self.now.depth (F.pre self.now.inner) (F.post self.now.inner) }
        requires declares { Declares self.now.depth (G.pre self.now.declared) (G.post self.now.declared) }
        ensures { Reads (spec.longer (spec.expression_at self.now.depth) (spec.declaration_at self.now.depth) a tokens.old) result tokens.new }
    {
        match tokens.peek() {
            Look::Mark(Mark::Dot) => {
                tokens.skip();
                self.selected(tokens, a)
            }
            Look::Mark(Mark::BracketOpen) => {
                tokens.skip();
                self.indexed(tokens, a)
            }
            Look::Mark(Mark::AngleOpen | Mark::ParenOpen) => self.called(tokens, a),
            Look::Mark(Mark::Bang) => {
                tokens.skip();
                Ok(Expression::Bang(a))
            }
            _ => Err(Stop::Refused),
        }
    }

    pub(crate) fn longer(
        &self,
        tokens: &mut Cursor<'_>,
        start: u32,
        a: Node<Expression>,
    ) -> Result<Node<Expression>, Stop>
        requires nests { Nests self.now.depth (F.pre self.now.inner) (F.post self.now.inner) }
        requires declares { Declares self.now.depth (G.pre self.now.declared) (G.post self.now.declared) }
        ensures { Reads (spec.longer (spec.expression_at self.now.depth) (spec.declaration_at self.now.depth) a tokens.old) result tokens.new }
    {
        let made = self.longer_layer(tokens, a)?;
        Ok(tokens.node(self.alloc, start, made)?)
    }

    #[tactic(auto, unfolding(crate::specs::Expressions::postfix))]
    pub(crate) fn postfix(&self, tokens: &mut Cursor<'_>) -> Result<Node<Expression>, Stop>
        requires nests { Nests self.now.depth (F.pre self.now.inner) (F.post self.now.inner) }
        requires declares { Declares self.now.depth (G.pre self.now.declared) (G.post self.now.declared) }
        ensures { Reads (spec.postfix (spec.expression_at self.now.depth) (spec.declaration_at self.now.depth) tokens.old) result tokens.new }
    {
        let start = tokens.start();
        let mut a = self.atom(tokens)?;
        for _turn in 0..tokens.left() {
            if !goes_on(tokens.peek()) {
                return Ok(a);
            }
            a = self.longer(tokens, start, a)?;
        }
        Ok(a)
    }

    /// What a tag carries, if it carries something.
    #[tactic(auto, unfolding(crate::specs::Expressions::payload))]
    pub(crate) fn payload(&self, tokens: &mut Cursor<'_>) -> Result<Option<Node<Expression>>, Stop>
        requires nests { Nests self.now.depth (F.pre self.now.inner) (F.post self.now.inner) }
        requires declares { Declares self.now.depth (G.pre self.now.declared) (G.post self.now.declared) }
        ensures { Reads (spec.payload (spec.expression_at self.now.depth) (spec.declaration_at self.now.depth) tokens.old) result tokens.new }
    {
        if begins_postfix(tokens.peek()) {
            return Ok(Some(self.inner(tokens, 9)?));
        }
        Ok(None)
    }

    #[tactic(auto, unfolding(crate::specs::Expressions::tagged))]
    pub(crate) fn tagged(&self, tokens: &mut Cursor<'_>) -> Result<Expression, Stop>
        requires nests { Nests self.now.depth (F.pre self.now.inner) (F.post self.now.inner) }
        requires declares { Declares self.now.depth (G.pre self.now.declared) (G.post self.now.declared) }
        ensures { Reads (spec.tagged (spec.expression_at self.now.depth) (spec.declaration_at self.now.depth) tokens.old) result tokens.new }
    {
        let name = tokens.identifier(self.alloc)?;
        let payload = self.payload(tokens)?;
        Ok(Expression::Tagged(name, payload))
    }

    #[tactic(auto, unfolding(crate::specs::Expressions::unary))]
    pub(crate) fn unary(&self, tokens: &mut Cursor<'_>) -> Result<Node<Expression>, Stop>
        requires nests { Nests self.now.depth (F.pre self.now.inner) (F.post self.now.inner) }
        requires declares { Declares self.now.depth (G.pre self.now.declared) (G.post self.now.declared) }
        ensures { Reads (spec.unary (spec.expression_at self.now.depth) (spec.declaration_at self.now.depth) tokens.old) result tokens.new }
    {
        let start = tokens.start();
        let made = match tokens.peek() {
            Look::Mark(Mark::Question) => {
                tokens.skip();
                Expression::Optional(self.inner(tokens, 8)?)
            }
            Look::Mark(Mark::Minus) => {
                tokens.skip();
                Expression::Negative(self.inner(tokens, 8)?)
            }
            Look::Reserved(Word::Not) => {
                tokens.skip();
                Expression::Not(self.inner(tokens, 8)?)
            }
            Look::Mark(Mark::Tag) => {
                tokens.skip();
                self.tagged(tokens)?
            }
            _ => return self.postfix(tokens),
        };
        Ok(tokens.node(self.alloc, start, made)?)
    }
}
