//! Operators of two operands, types behind expressions, and assignments.

ghost use Rattle.std.specs.Prelude.{◌≡◌};
ghost use Rattle.mo_parser_base.specs.Input as input;
ghost use Rattle.mo_parser_base.specs.Input.{Reads};
ghost use Rattle.mo_parser_expressions.specs.Expressions as spec;
ghost use Rattle.mo_parser_expressions.specs.Nests.{Declares, Nests};
ghost use Rattle.mo_syntax.specs.declared.mark.Mark.{Mark};
ghost use Rattle.mo_syntax.specs.declared.token.TokenKind.{TokenKind};
ghost use Rattle.mo_syntax.specs.declared.word.Word.{Word};

use crate::grammar::Grammar;
use crate::signs::{assignment, begins_unary, goes, level_at, operator};
use mo_parser_base::{Cursor, Stop};
use mo_parser_types::read_type;
use mo_syntax::{AssignmentOperator, BinaryOperator, Declaration, Expression, Mark, Node};
use std::alloc::Global;

impl<
    F: Fn(Global, &mut Cursor<'_>, usize, u8) -> Result<Node<Expression>, Stop>,
    G: Fn(Global, &mut Cursor<'_>, usize) -> Result<Node<Declaration>, Stop>,
> Grammar<F, G> {
    pub(crate) fn operated(
        &self,
        tokens: &mut Cursor<'_>,
        start: u32,
        a: Node<Expression>,
        operator: Option<BinaryOperator>,
    ) -> Result<Node<Expression>, Stop>
        requires nests { Nests self.now.depth (F.pre self.now.inner) (F.post self.now.inner) }
        requires declares { Declares self.now.depth (G.pre self.now.declared) (G.post self.now.declared) }
        ensures { Reads (spec.operated (spec.expression_at self.now.depth) (spec.declaration_at self.now.depth) a operator tokens.old) result tokens.new }
    {
        let Some(operator) = operator else {
            return Err(Stop::Refused);
        };
        tokens.skip();
        let b = self.inner(tokens, level_at(Some(operator)) + 1)?;
        let made = Expression::Binary(operator, a, b);
        Ok(tokens.node(self.alloc, start, made)?)
    }

    #[tactic(auto, unfolding(crate::specs::Expressions::climbed))]
    pub(crate) fn climbed(
        &self,
        tokens: &mut Cursor<'_>,
        start: u32,
        least: u8,
        a: Node<Expression>,
    ) -> Result<Node<Expression>, Stop>
        requires nests { Nests self.now.depth (F.pre self.now.inner) (F.post self.now.inner) }
        requires declares { Declares self.now.depth (G.pre self.now.declared) (G.post self.now.declared) }
        ensures { Reads (spec.climbed (spec.expression_at self.now.depth) (spec.declaration_at self.now.depth) least a tokens.old) result tokens.new }
    {
        let mut a = a;
        let mut height = 8;
        for _turn in 0..tokens.left() {
            let next = operator(tokens.peek());
            if !goes(least, height, next) {
                return Ok(a);
            }
            a = self.operated(tokens, start, a, next)?;
            height = level_at(next);
        }
        Ok(a)
    }

    #[tactic(auto, unfolding(crate::specs::Expressions::operations))]
    pub(crate) fn operations(
        &self,
        tokens: &mut Cursor<'_>,
        least: u8,
    ) -> Result<Node<Expression>, Stop>
        requires nests { Nests self.now.depth (F.pre self.now.inner) (F.post self.now.inner) }
        requires declares { Declares self.now.depth (G.pre self.now.declared) (G.post self.now.declared) }
        ensures { Reads (spec.operations (spec.expression_at self.now.depth) (spec.declaration_at self.now.depth) least tokens.old) result tokens.new }
    {
        let start = tokens.start();
        let a = self.unary(tokens)?;
        self.climbed(tokens, start, least, a)
    }

    #[tactic(auto, unfolding(crate::specs::Expressions::annotated))]
    pub(crate) fn annotated(
        &self,
        tokens: &mut Cursor<'_>,
        start: u32,
        a: Node<Expression>,
    ) -> Result<Node<Expression>, Stop>
        requires nests { Nests self.now.depth (F.pre self.now.inner) (F.post self.now.inner) }
        requires declares { Declares self.now.depth (G.pre self.now.declared) (G.post self.now.declared) }
        ensures { Reads (spec.annotated (spec.expression_at self.now.depth) (spec.declaration_at self.now.depth) a tokens.old) result tokens.new }
    {
        let mut a = a;
        for _turn in 0..tokens.left() {
            if !tokens.eat_mark(Mark::Colon) {
                return Ok(a);
            }
            let kind = read_type(self.alloc, tokens)?;
            a = tokens.node(self.alloc, start, Expression::Annotated(a, kind))?;
        }
        Ok(a)
    }

    #[tactic(auto, unfolding(crate::specs::Expressions::extended))]
    pub(crate) fn extended(
        &self,
        tokens: &mut Cursor<'_>,
        start: u32,
        a: Node<Expression>,
    ) -> Result<Node<Expression>, Stop>
        requires nests { Nests self.now.depth (F.pre self.now.inner) (F.post self.now.inner) }
        requires declares { Declares self.now.depth (G.pre self.now.declared) (G.post self.now.declared) }
        ensures { Reads (spec.extended (spec.expression_at self.now.depth) (spec.declaration_at self.now.depth) a tokens.old) result tokens.new }
    {
        let b = self.climbed(tokens, start, 2, a)?;
        self.annotated(tokens, start, b)
    }

    pub(crate) fn assigned_by(
        &self,
        tokens: &mut Cursor<'_>,
        start: u32,
        a: Node<Expression>,
        operator: Option<AssignmentOperator>,
    ) -> Result<Node<Expression>, Stop>
        requires nests { Nests self.now.depth (F.pre self.now.inner) (F.post self.now.inner) }
        requires declares { Declares self.now.depth (G.pre self.now.declared) (G.post self.now.declared) }
        ensures { Reads (spec.assigned_by (spec.expression_at self.now.depth) (spec.declaration_at self.now.depth) a operator tokens.old) result tokens.new }
    {
        let Some(operator) = operator else {
            return self.extended(tokens, start, a);
        };
        tokens.skip();
        let b = self.inner(tokens, 0)?;
        let made = Expression::Assign(operator, a, b);
        Ok(tokens.node(self.alloc, start, made)?)
    }

    #[tactic(auto, unfolding(crate::specs::Expressions::assigned))]
    pub(crate) fn assigned(
        &self,
        tokens: &mut Cursor<'_>,
        start: u32,
        a: Node<Expression>,
    ) -> Result<Node<Expression>, Stop>
        requires nests { Nests self.now.depth (F.pre self.now.inner) (F.post self.now.inner) }
        requires declares { Declares self.now.depth (G.pre self.now.declared) (G.post self.now.declared) }
        ensures { Reads (spec.assigned (spec.expression_at self.now.depth) (spec.declaration_at self.now.depth) a tokens.old) result tokens.new }
    {
        let next = assignment(tokens.peek());
        self.assigned_by(tokens, start, a, next)
    }

    #[tactic(auto, unfolding(crate::specs::Expressions::plain))]
    pub(crate) fn plain(&self, tokens: &mut Cursor<'_>) -> Result<Node<Expression>, Stop>
        requires nests { Nests self.now.depth (F.pre self.now.inner) (F.post self.now.inner) }
        requires declares { Declares self.now.depth (G.pre self.now.declared) (G.post self.now.declared) }
        ensures { Reads (spec.plain (spec.expression_at self.now.depth) (spec.declaration_at self.now.depth) tokens.old) result tokens.new }
    {
        let start = tokens.start();
        if begins_unary(tokens.peek()) {
            let a = self.unary(tokens)?;
            return self.extended(tokens, start, a);
        }
        let a = self.postfix(tokens)?;
        self.assigned(tokens, start, a)
    }
}
