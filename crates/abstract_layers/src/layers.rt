//! The layers of expressions: each is walked over by the walks over what stands in it. `at` is the number of a token, and what is
//! asked for stands so many tokens behind it.
ghost use Rattle.std.specs.Prelude.{◌≢◌, IfOk, map, option_map, length};
ghost use Rattle.mo_syntax.specs.declared.declarations.Declaration.TheOpen as written;
ghost use Rattle.typing_rules.specs.AbstractExpressions as rules;
ghost use Rattle.typing_rules.specs.AbstractExpressions.{expression_step, in_expression};
ghost use Rattle.abstract_tree.specs.TreeView.{plain};
ghost use Rattle.abstract_type_walk.specs.Stands.{Stands};
ghost use Rattle.abstract_parts.specs.Shapes.{ahead, leaf_form, one_form, two_form};
ghost use Rattle.abstract_parts.specs.TreeWalks.{Walks};

use abstract_parts::{
    LeafForm, OneForm, TreeWalk, TwoForm, actor_reference, finish, leaf, one_form, two_form,
};
use abstract_tree::{DeclarationForm, Expression, ExpressionForm};
use abstract_types::number_behind;
use mo_num::Memory;
use mo_syntax::{Declaration as WrittenDeclaration, Expression as WrittenExpression, Node};
use std::alloc::Global;

/// The layers over these walks. Each is a function of its own, and what goes by the form of a layer stands above.
#[derive(Clone, Copy)]
pub struct Layers<F, G> {
    pub parts: TreeWalk<F, G>,
}

impl<
    F: Fn(Global, usize, &WrittenExpression, u32) -> Result<(Expression<u32>, u32), Memory>,
    G: Fn(Global, usize, &WrittenDeclaration, u32) -> Result<(DeclarationForm<u32>, u32), Memory>,
> Layers<F, G> {
    /// `if c a else b`, or without a second branch.
    pub fn conditional(
        &self,
        c: &Node<WrittenExpression>,
        a: &Node<WrittenExpression>,
        otherwise: &Option<Node<WrittenExpression>>,
        at: u32,
    ) -> Result<(Expression<u32>, u32), Memory>
        requires { Walks self.now.parts.depth (F.pre self.now.parts.expressions) (F.post self.now.parts.expressions) (G.pre self.now.parts.declarations) (G.post self.now.parts.declarations) }
        ensures { IfOk result (Stands plain (rules.conditional (in_expression c.now) (in_expression a.now) (option_map in_expression otherwise.now)) at) }
    {
        match otherwise {
            None => self.two(1, c, 0, a, 0, TwoForm::When, at),
            Some(b) => self.either(c, a, b, at),
        }
    }

    /// `loop a while c`, or without a condition.
    pub fn looped(
        &self,
        a: &Node<WrittenExpression>,
        condition: &Option<Node<WrittenExpression>>,
        at: u32,
    ) -> Result<(Expression<u32>, u32), Memory>
        requires { Walks self.now.parts.depth (F.pre self.now.parts.expressions) (F.post self.now.parts.expressions) (G.pre self.now.parts.declarations) (G.post self.now.parts.declarations) }
        ensures { IfOk result (Stands plain (rules.looped (in_expression a.now) (option_map in_expression condition.now)) at) }
    {
        match condition {
            None => self.behind(1, a, OneForm::Loop, at),
            Some(c) => self.two(1, a, 1, c, 0, TwoForm::LoopWhile, at),
        }
    }

    /// So many tokens, and an expression behind them or none.
    pub fn may(
        &self,
        tokens: u32,
        a: &Option<Node<WrittenExpression>>,
        alone: LeafForm<'_>,
        with: OneForm<'_>,
        at: u32,
    ) -> Result<(Expression<u32>, u32), Memory>
        requires { Walks self.now.parts.depth (F.pre self.now.parts.expressions) (F.post self.now.parts.expressions) (G.pre self.now.parts.declarations) (G.post self.now.parts.declarations) }
        ensures { IfOk result (Stands plain (rules.may tokens (option_map in_expression a.now) (leaf_form alone.entry) (one_form with.entry)) at) }
    {
        match a {
            None => leaf(self.parts.alloc, tokens, alone, at),
            Some(a) => self.behind(tokens, a, with, at),
        }
    }

    /// An expression with so many tokens before it.
    pub fn behind(
        &self,
        tokens: u32,
        a: &Node<WrittenExpression>,
        form: OneForm<'_>,
        at: u32,
    ) -> Result<(Expression<u32>, u32), Memory>
        requires { Walks self.now.parts.depth (F.pre self.now.parts.expressions) (F.post self.now.parts.expressions) (G.pre self.now.parts.declarations) (G.post self.now.parts.declarations) }
        ensures { IfOk result (Stands plain (rules.behind tokens (in_expression a.now) (one_form form.entry)) at) }
    {
        let (of, last) = self.parts.walk(a, at, tokens)?;
        let form = one_form(self.parts.alloc, form, of)?;
        finish(self.parts.alloc, at, form, last, 0)
    }

    /// An expression with so many tokens behind it.
    pub fn ahead(
        &self,
        a: &Node<WrittenExpression>,
        tokens: u32,
        form: OneForm<'_>,
        at: u32,
    ) -> Result<(Expression<u32>, u32), Memory>
        requires { Walks self.now.parts.depth (F.pre self.now.parts.expressions) (F.post self.now.parts.expressions) (G.pre self.now.parts.declarations) (G.post self.now.parts.declarations) }
        ensures { IfOk result (Stands plain (ahead (in_expression a.now) tokens (one_form form.entry)) at) }
    {
        let (of, last) = self.parts.walk(a, at, 0)?;
        let form = one_form(self.parts.alloc, form, of)?;
        finish(self.parts.alloc, at, form, last, tokens)
    }

    /// Two expressions, with so many tokens before, between and behind them.
    pub fn two(
        &self,
        before: u32,
        a: &Node<WrittenExpression>,
        between: u32,
        b: &Node<WrittenExpression>,
        behind: u32,
        form: TwoForm,
        at: u32,
    ) -> Result<(Expression<u32>, u32), Memory>
        requires { Walks self.now.parts.depth (F.pre self.now.parts.expressions) (F.post self.now.parts.expressions) (G.pre self.now.parts.declarations) (G.post self.now.parts.declarations) }
        ensures { IfOk result (Stands plain (rules.between before (in_expression a.now) between (in_expression b.now) behind (two_form form)) at) }
    {
        let (left, middle) = self.parts.walk(a, at, before)?;
        let (right, last) = self.parts.walk(b, middle, between)?;
        finish(
            self.parts.alloc,
            at,
            two_form(form, left, right),
            last,
            behind,
        )
    }

    /// One expression in parentheses is that expression itself.
    pub fn parenthesized(
        &self,
        items: &[Node<WrittenExpression>],
        at: u32,
    ) -> Result<(Expression<u32>, u32), Memory>
        requires { Walks self.now.parts.depth (F.pre self.now.parts.expressions) (F.post self.now.parts.expressions) (G.pre self.now.parts.declarations) (G.post self.now.parts.declarations) }
        ensures { IfOk result (Stands plain (expression_step (written.Parenthesized (map in_expression items.now))) at) }
    {
        match items {
            [item] => {
                let (made, close) = self.parts.walk(item, at, 1)?;
                Ok((made, number_behind(close, 1)?))
            }
            several => self.tuple(several, at),
        }
    }

    fn tuple(
        &self,
        items: &[Node<WrittenExpression>],
        at: u32,
    ) -> Result<(Expression<u32>, u32), Memory>
        requires walks { Walks self.now.parts.depth (F.pre self.now.parts.expressions) (F.post self.now.parts.expressions) (G.pre self.now.parts.declarations) (G.post self.now.parts.declarations) }
        requires several { length items.now ≢ 1 }
        ensures { IfOk result (Stands plain (expression_step (written.Parenthesized (map in_expression items.now))) at) }
    {
        let (items, close) = self.parts.each(items, at, 1)?;
        finish(self.parts.alloc, at, ExpressionForm::Tuple(items), close, 1)
    }
}
