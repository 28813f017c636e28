//! The layers of expressions by their forms. `at` is the number of a token, and what is asked for stands from it on.
ghost use Rattle.std.specs.Prelude.{IfOk};
ghost use Rattle.typing_rules.specs.AbstractExpressions.{in_expression};
ghost use Rattle.abstract_tree.specs.TreeView.{plain};
ghost use Rattle.abstract_type_walk.specs.Stands.{Stands};
ghost use Rattle.abstract_parts.specs.TreeWalks.{Walks};

use abstract_layers::Layers;
use abstract_parts::{LeafForm, OneForm, TwoForm, actor_reference, leaf};
use abstract_tree::{DeclarationForm, Expression};
use mo_num::Memory;
use mo_syntax::{Declaration as WrittenDeclaration, Expression as WrittenExpression};
use std::alloc::Global;

/// The layers of expressions and declarations.
#[derive(Clone, Copy)]
pub(crate) struct TreeLayers<F, G> {
    pub layers: Layers<F, G>,
}

impl<
    F: Fn(Global, usize, &WrittenExpression, u32) -> Result<(Expression<u32>, u32), Memory>,
    G: Fn(Global, usize, &WrittenDeclaration, u32) -> Result<(DeclarationForm<u32>, u32), Memory>,
> TreeLayers<F, G> {
    pub(crate) fn layer(
        &self,
        a: &WrittenExpression,
        at: u32,
    ) -> Result<(Expression<u32>, u32), Memory>
        requires { Walks self.now.layers.parts.depth (F.pre self.now.layers.parts.expressions) (F.post self.now.layers.parts.expressions) (G.pre self.now.layers.parts.declarations) (G.post self.now.layers.parts.declarations) }
        ensures { IfOk result (Stands plain (in_expression a.now) at) }
    {
        match a {
            WrittenExpression::Assign(operator, a, b) => {
                self.layers
                    .two(0, a, 1, b, 0, TwoForm::Assign(*operator), at)
            }
            WrittenExpression::Annotated(a, kind) => self.layers.annotated(a, kind, at),
            WrittenExpression::Binary(operator, a, b) => {
                self.layers
                    .two(0, a, 1, b, 0, TwoForm::Binary(*operator), at)
            }
            WrittenExpression::If(c, a, b) => self.layers.conditional(c, a, b, at),
            WrittenExpression::Switch(a, cases, last) => self.layers.switch(a, cases, *last, at),
            WrittenExpression::While(c, a) => self.layers.two(1, c, 0, a, 0, TwoForm::While, at),
            WrittenExpression::Loop(a, c) => self.layers.looped(a, c, at),
            WrittenExpression::For(q, a, b) => self.layers.for_loop(q, a, b, at),
            WrittenExpression::Label(name, kind, a) => self.layers.label(name, kind, a, at),
            WrittenExpression::Break(name, a) => {
                self.layers
                    .may(2, a, LeafForm::Break(name), OneForm::Break(name), at)
            }
            WrittenExpression::Continue(name) => leaf(
                self.layers.parts.alloc,
                2,
                LeafForm::Continue(name),
                at,
            ),
            WrittenExpression::Return(a) => self
                .layers
                .may(1, a, LeafForm::Return, OneForm::Return, at),
            WrittenExpression::Do(a) => self.layers.behind(1, a, OneForm::Do, at),
            WrittenExpression::DoOptional(a) => self.layers.behind(2, a, OneForm::DoOption, at),
            WrittenExpression::Await(a) => self.layers.behind(1, a, OneForm::Await, at),
            WrittenExpression::Throw(a) => self.layers.behind(1, a, OneForm::Throw, at),
            WrittenExpression::Try(a, q, b) => self.layers.try_catch(a, q, b, at),
            WrittenExpression::Assert(a) => self.layers.behind(1, a, OneForm::Assert, at),
            WrittenExpression::Ignore(a) => self.layers.behind(1, a, OneForm::Ignore, at),
            WrittenExpression::Debug(a) => self.layers.behind(1, a, OneForm::Debug, at),
            WrittenExpression::Function(parameters, annotation, equal_sign, body) => {
                self.layers
                    .function(parameters, annotation, *equal_sign, body, at)
            }
            WrittenExpression::ObjectBlock(fields, last) => self
                .layers
                .object_block(fields, *last, at),
            WrittenExpression::Optional(a) => self.layers.behind(1, a, OneForm::Optional, at),
            WrittenExpression::Negative(a) => self.layers.behind(1, a, OneForm::Negative, at),
            WrittenExpression::Not(a) => self.layers.behind(1, a, OneForm::Not, at),
            WrittenExpression::Tagged(name, a) => {
                self.layers
                    .may(2, a, LeafForm::Tag(name), OneForm::Tagged(name), at)
            }
            WrittenExpression::Member(a, name) => self
                .layers
                .ahead(a, 2, OneForm::Member(name), at),
            WrittenExpression::Projection(a, number) => {
                self.layers.ahead(a, 2, OneForm::Projection(*number), at)
            }
            WrittenExpression::Index(a, b) => self.layers.two(0, a, 1, b, 1, TwoForm::Index, at),
            WrittenExpression::Call(a, types, arguments) => self
                .layers
                .call(a, types, arguments, at),
            WrittenExpression::Bang(a) => self.layers.ahead(a, 1, OneForm::Bang, at),
            WrittenExpression::Constant(literal) => {
                leaf(self.layers.parts.alloc, 1, LeafForm::Constant(literal), at)
            }
            WrittenExpression::Variable(name) => leaf(
                self.layers.parts.alloc,
                1,
                LeafForm::Name(name),
                at,
            ),
            WrittenExpression::Parenthesized(items) => self
                .layers
                .parenthesized(items.as_slice(), at),
            WrittenExpression::Array(mutable, items) => self.layers.array(*mutable, items, at),
            WrittenExpression::Object(fields, last) => self.layers.object(fields, *last, at),
            WrittenExpression::ActorReference(parentheses, text) => {
                actor_reference(self.layers.parts.alloc, *parentheses, text, at)
            }
            WrittenExpression::Block(declarations, last) => self
                .layers
                .block(declarations, *last, at),
        }
    }
}
