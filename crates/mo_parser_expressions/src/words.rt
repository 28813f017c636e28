//! The expressions that begin with a word, behind it.

ghost use Rattle.std.specs.Prelude.{◌≡◌};
ghost use Rattle.mo_parser_base.specs.Input as input;
ghost use Rattle.mo_parser_base.specs.Input.{Reads};
ghost use Rattle.mo_parser_expressions.specs.Expressions as spec;
ghost use Rattle.mo_parser_expressions.specs.Nests.{Declares, Nests};
ghost use Rattle.mo_syntax.specs.declared.mark.Mark.{Mark};
ghost use Rattle.mo_syntax.specs.declared.token.TokenKind.{TokenKind};
ghost use Rattle.mo_syntax.specs.declared.word.Word.{Word};

use crate::grammar::Grammar;
use crate::signs::{is_control, is_worded};
use mo_parser_base::{Cursor, Look, Stop};
use mo_parser_patterns::{read_case_pattern, read_pattern};
use mo_parser_types::read_annotation;
use mo_syntax::{Declaration, Expression, Mark, Node, Pattern, Word};
use std::alloc::Global;

fn do_of(option: bool, block: Node<Expression>) -> Expression
    ensures { result ≡ spec.to_optional option block }
{
    if option {
        Expression::DoOptional(block)
    } else {
        Expression::Do(block)
    }
}

impl<
    F: Fn(Global, &mut Cursor<'_>, usize, u8) -> Result<Node<Expression>, Stop>,
    G: Fn(Global, &mut Cursor<'_>, usize) -> Result<Node<Declaration>, Stop>,
> Grammar<F, G> {
    pub(crate) fn otherwise(
        &self,
        tokens: &mut Cursor<'_>,
    ) -> Result<Option<Node<Expression>>, Stop>
        requires nests { Nests self.now.depth (F.pre self.now.inner) (F.post self.now.inner) }
        requires declares { Declares self.now.depth (G.pre self.now.declared) (G.post self.now.declared) }
        ensures { Reads (input.behind (TokenKind.Reserved Word.Else) (spec.nested (spec.expression_at self.now.depth) (spec.declaration_at self.now.depth)) tokens.old) result tokens.new }
    {
        if !tokens.eat_word(Word::Else) {
            return Ok(None);
        }
        Ok(Some(self.nested(tokens)?))
    }

    #[tactic(auto, unfolding(crate::specs::Expressions::if_rule))]
    pub(crate) fn if_rule(&self, tokens: &mut Cursor<'_>) -> Result<Expression, Stop>
        requires nests { Nests self.now.depth (F.pre self.now.inner) (F.post self.now.inner) }
        requires declares { Declares self.now.depth (G.pre self.now.declared) (G.post self.now.declared) }
        ensures { Reads (spec.if_rule (spec.expression_at self.now.depth) (spec.declaration_at self.now.depth) tokens.old) result tokens.new }
    {
        let condition = self.condition(tokens)?;
        let a = self.nested(tokens)?;
        let otherwise = self.otherwise(tokens)?;
        Ok(Expression::If(condition, a, otherwise))
    }

    #[tactic(auto, unfolding(crate::specs::Expressions::switch_rule))]
    pub(crate) fn switch_rule(&self, tokens: &mut Cursor<'_>) -> Result<Expression, Stop>
        requires nests { Nests self.now.depth (F.pre self.now.inner) (F.post self.now.inner) }
        requires declares { Declares self.now.depth (G.pre self.now.declared) (G.post self.now.declared) }
        ensures { Reads (spec.switch_rule (spec.expression_at self.now.depth) (spec.declaration_at self.now.depth) tokens.old) result tokens.new }
    {
        let condition = self.condition(tokens)?;
        tokens.expect_mark(Mark::BraceOpen)?;
        let (cases, last) = self.cases(tokens)?;
        Ok(Expression::Switch(condition, cases, last))
    }

    #[tactic(auto, unfolding(crate::specs::Expressions::while_rule))]
    pub(crate) fn while_rule(&self, tokens: &mut Cursor<'_>) -> Result<Expression, Stop>
        requires nests { Nests self.now.depth (F.pre self.now.inner) (F.post self.now.inner) }
        requires declares { Declares self.now.depth (G.pre self.now.declared) (G.post self.now.declared) }
        ensures { Reads (spec.while_rule (spec.expression_at self.now.depth) (spec.declaration_at self.now.depth) tokens.old) result tokens.new }
    {
        let condition = self.condition(tokens)?;
        Ok(Expression::While(condition, self.nested(tokens)?))
    }

    pub(crate) fn end_of_loop(
        &self,
        tokens: &mut Cursor<'_>,
    ) -> Result<Option<Node<Expression>>, Stop>
        requires nests { Nests self.now.depth (F.pre self.now.inner) (F.post self.now.inner) }
        requires declares { Declares self.now.depth (G.pre self.now.declared) (G.post self.now.declared) }
        ensures { Reads (input.behind (TokenKind.Reserved Word.While) (spec.condition (spec.expression_at self.now.depth) (spec.declaration_at self.now.depth)) tokens.old) result tokens.new }
    {
        if !tokens.eat_word(Word::While) {
            return Ok(None);
        }
        Ok(Some(self.condition(tokens)?))
    }

    #[tactic(auto, unfolding(crate::specs::Expressions::loop_rule))]
    pub(crate) fn loop_rule(&self, tokens: &mut Cursor<'_>) -> Result<Expression, Stop>
        requires nests { Nests self.now.depth (F.pre self.now.inner) (F.post self.now.inner) }
        requires declares { Declares self.now.depth (G.pre self.now.declared) (G.post self.now.declared) }
        ensures { Reads (spec.loop_rule (spec.expression_at self.now.depth) (spec.declaration_at self.now.depth) tokens.old) result tokens.new }
    {
        let a = self.nested(tokens)?;
        Ok(Expression::Loop(a, self.end_of_loop(tokens)?))
    }

    #[tactic(auto, unfolding(crate::specs::Expressions::binding))]
    fn binding(&self, tokens: &mut Cursor<'_>) -> Result<(Node<Pattern>, Node<Expression>), Stop>
        requires nests { Nests self.now.depth (F.pre self.now.inner) (F.post self.now.inner) }
        requires declares { Declares self.now.depth (G.pre self.now.declared) (G.post self.now.declared) }
        ensures { Reads (spec.binding (spec.expression_at self.now.depth) (spec.declaration_at self.now.depth) tokens.old) result tokens.new }
    {
        tokens.expect_mark(Mark::ParenOpen)?;
        let pattern = read_pattern(self.alloc, tokens)?;
        tokens.expect_word(Word::In)?;
        let a = self.inner(tokens, 0)?;
        tokens.expect_mark(Mark::ParenClose)?;
        Ok((pattern, a))
    }

    #[tactic(auto, unfolding(crate::specs::Expressions::for_rule))]
    pub(crate) fn for_rule(&self, tokens: &mut Cursor<'_>) -> Result<Expression, Stop>
        requires nests { Nests self.now.depth (F.pre self.now.inner) (F.post self.now.inner) }
        requires declares { Declares self.now.depth (G.pre self.now.declared) (G.post self.now.declared) }
        ensures { Reads (spec.for_rule (spec.expression_at self.now.depth) (spec.declaration_at self.now.depth) tokens.old) result tokens.new }
    {
        let (pattern, a) = self.binding(tokens)?;
        Ok(Expression::For(pattern, a, self.nested(tokens)?))
    }

    #[tactic(auto, unfolding(crate::specs::Expressions::label_rule))]
    pub(crate) fn label_rule(&self, tokens: &mut Cursor<'_>) -> Result<Expression, Stop>
        requires nests { Nests self.now.depth (F.pre self.now.inner) (F.post self.now.inner) }
        requires declares { Declares self.now.depth (G.pre self.now.declared) (G.post self.now.declared) }
        ensures { Reads (spec.label_rule (spec.expression_at self.now.depth) (spec.declaration_at self.now.depth) tokens.old) result tokens.new }
    {
        let name = tokens.identifier(self.alloc)?;
        let kind = read_annotation(self.alloc, tokens)?;
        Ok(Expression::Label(name, kind, self.nested(tokens)?))
    }

    #[tactic(auto, unfolding(crate::specs::Expressions::break_rule))]
    pub(crate) fn break_rule(&self, tokens: &mut Cursor<'_>) -> Result<Expression, Stop>
        requires nests { Nests self.now.depth (F.pre self.now.inner) (F.post self.now.inner) }
        requires declares { Declares self.now.depth (G.pre self.now.declared) (G.post self.now.declared) }
        ensures { Reads (spec.break_rule (spec.expression_at self.now.depth) (spec.declaration_at self.now.depth) tokens.old) result tokens.new }
    {
        let name = tokens.identifier(self.alloc)?;
        Ok(Expression::Break(name, self.optional(tokens)?))
    }

    #[tactic(auto, unfolding(crate::specs::Expressions::do_rule))]
    pub(crate) fn do_rule(&self, tokens: &mut Cursor<'_>) -> Result<Expression, Stop>
        requires nests { Nests self.now.depth (F.pre self.now.inner) (F.post self.now.inner) }
        requires declares { Declares self.now.depth (G.pre self.now.declared) (G.post self.now.declared) }
        ensures { Reads (spec.do_rule (spec.expression_at self.now.depth) (spec.declaration_at self.now.depth) tokens.old) result tokens.new }
    {
        let option = tokens.eat_mark(Mark::Question);
        Ok(do_of(option, self.block(tokens)?))
    }

    #[tactic(auto, unfolding(crate::specs::Expressions::try_rule))]
    pub(crate) fn try_rule(&self, tokens: &mut Cursor<'_>) -> Result<Expression, Stop>
        requires nests { Nests self.now.depth (F.pre self.now.inner) (F.post self.now.inner) }
        requires declares { Declares self.now.depth (G.pre self.now.declared) (G.post self.now.declared) }
        ensures { Reads (spec.try_rule (spec.expression_at self.now.depth) (spec.declaration_at self.now.depth) tokens.old) result tokens.new }
    {
        let a = self.nested(tokens)?;
        tokens.expect_word(Word::Catch)?;
        let pattern = read_case_pattern(self.alloc, tokens)?;
        Ok(Expression::Try(a, pattern, self.nested(tokens)?))
    }

    #[tactic(auto, unfolding(crate::specs::Expressions::function_rule))]
    pub(crate) fn function_rule(&self, tokens: &mut Cursor<'_>) -> Result<Expression, Stop>
        requires nests { Nests self.now.depth (F.pre self.now.inner) (F.post self.now.inner) }
        requires declares { Declares self.now.depth (G.pre self.now.declared) (G.post self.now.declared) }
        ensures { Reads (spec.function_rule (spec.expression_at self.now.depth) (spec.declaration_at self.now.depth) tokens.old) result tokens.new }
    {
        let ((parameters, (result, equal_sign)), body) = self.signed(tokens)?;
        Ok(Expression::Function(parameters, result, equal_sign, body))
    }

    #[tactic(auto, unfolding(crate::specs::Expressions::object_rule))]
    pub(crate) fn object_rule(&self, tokens: &mut Cursor<'_>) -> Result<Expression, Stop>
        requires nests { Nests self.now.depth (F.pre self.now.inner) (F.post self.now.inner) }
        requires declares { Declares self.now.depth (G.pre self.now.declared) (G.post self.now.declared) }
        ensures { Reads (spec.object_rule (spec.expression_at self.now.depth) (spec.declaration_at self.now.depth) tokens.old) result tokens.new }
    {
        tokens.expect_mark(Mark::BraceOpen)?;
        let (fields, last) = self.members(tokens)?;
        Ok(Expression::ObjectBlock(fields, last))
    }

    pub(crate) fn control(&self, tokens: &mut Cursor<'_>, word: Word) -> Result<Expression, Stop>
        requires nests { Nests self.now.depth (F.pre self.now.inner) (F.post self.now.inner) }
        requires declares { Declares self.now.depth (G.pre self.now.declared) (G.post self.now.declared) }
        ensures { Reads (spec.control (spec.expression_at self.now.depth) (spec.declaration_at self.now.depth) word tokens.old) result tokens.new }
    {
        match word {
            Word::If => self.if_rule(tokens),
            Word::Switch => self.switch_rule(tokens),
            Word::While => self.while_rule(tokens),
            Word::Loop => self.loop_rule(tokens),
            Word::For => self.for_rule(tokens),
            Word::Label => self.label_rule(tokens),
            Word::Break => self.break_rule(tokens),
            Word::Continue => Ok(Expression::Continue(tokens.identifier(self.alloc)?)),
            Word::Return => Ok(Expression::Return(self.optional(tokens)?)),
            Word::Do => self.do_rule(tokens),
            _ => Err(Stop::Refused),
        }
    }

    pub(crate) fn effect(&self, tokens: &mut Cursor<'_>, word: Word) -> Result<Expression, Stop>
        requires nests { Nests self.now.depth (F.pre self.now.inner) (F.post self.now.inner) }
        requires declares { Declares self.now.depth (G.pre self.now.declared) (G.post self.now.declared) }
        ensures { Reads (spec.effect (spec.expression_at self.now.depth) (spec.declaration_at self.now.depth) word tokens.old) result tokens.new }
    {
        match word {
            Word::Await => Ok(Expression::Await(self.nested(tokens)?)),
            Word::Throw => Ok(Expression::Throw(self.nested(tokens)?)),
            Word::Try => self.try_rule(tokens),
            Word::Assert => Ok(Expression::Assert(self.nested(tokens)?)),
            Word::Ignore => Ok(Expression::Ignore(self.nested(tokens)?)),
            Word::Debug => Ok(Expression::Debug(self.nested(tokens)?)),
            Word::Func => self.function_rule(tokens),
            Word::Object => self.object_rule(tokens),
            _ => Err(Stop::Refused),
        }
    }

    #[tactic(auto, unfolding(crate::specs::Expressions::worded))]
    pub(crate) fn worded(
        &self,
        tokens: &mut Cursor<'_>,
        start: u32,
        word: Word,
    ) -> Result<Node<Expression>, Stop>
        requires nests { Nests self.now.depth (F.pre self.now.inner) (F.post self.now.inner) }
        requires declares { Declares self.now.depth (G.pre self.now.declared) (G.post self.now.declared) }
        ensures { Reads (spec.worded (spec.expression_at self.now.depth) (spec.declaration_at self.now.depth) word tokens.old) result tokens.new }
    {
        tokens.skip();
        let made = if is_control(word) {
            self.control(tokens, word)?
        } else {
            self.effect(tokens, word)?
        };
        Ok(tokens.node(self.alloc, start, made)?)
    }

    #[tactic(auto, unfolding(crate::specs::Expressions::whole))]
    pub(crate) fn whole(&self, tokens: &mut Cursor<'_>) -> Result<Node<Expression>, Stop>
        requires nests { Nests self.now.depth (F.pre self.now.inner) (F.post self.now.inner) }
        requires declares { Declares self.now.depth (G.pre self.now.declared) (G.post self.now.declared) }
        ensures { Reads (spec.whole (spec.expression_at self.now.depth) (spec.declaration_at self.now.depth) tokens.old) result tokens.new }
    {
        let start = tokens.start();
        match tokens.peek() {
            Look::Reserved(word) => {
                if is_worded(word) {
                    return self.worded(tokens, start, word);
                }
                self.plain(tokens)
            }
            _ => self.plain(tokens),
        }
    }

    #[tactic(auto, unfolding(crate::specs::Expressions::level))]
    pub(crate) fn level(&self, tokens: &mut Cursor<'_>, level: u8) -> Result<Node<Expression>, Stop>
        requires nests { Nests self.now.depth (F.pre self.now.inner) (F.post self.now.inner) }
        requires declares { Declares self.now.depth (G.pre self.now.declared) (G.post self.now.declared) }
        ensures { Reads (spec.level (spec.expression_at self.now.depth) (spec.declaration_at self.now.depth) level tokens.old) result tokens.new }
    {
        if level == 0 {
            self.whole(tokens)
        } else if level < 8 {
            self.operations(tokens, level)
        } else if level == 8 {
            self.unary(tokens)
        } else {
            self.postfix(tokens)
        }
    }
}
