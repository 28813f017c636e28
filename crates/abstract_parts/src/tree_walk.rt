//! The walks over the layers below. `at` is the number of a token, and what is asked for stands so many tokens behind it.
ghost use Rattle.std.specs.Prelude.{◌+◌, IfOk};
ghost use Rattle.typing_rules.specs.AbstractExpressions.{in_declaration, in_expression};
ghost use Rattle.abstract_tree.specs.TreeView.{plain, plain_declaration_form};
ghost use Rattle.abstract_type_walk.specs.Stands.{Stands};
ghost use Rattle.abstract_parts.specs.TreeWalks.{Walks};

use abstract_tree::{DeclarationForm, Expression};
use abstract_types::number_behind;
use mo_num::Memory;
use mo_syntax::{Declaration as WrittenDeclaration, Expression as WrittenExpression, Node};
use std::alloc::Global;

/// The walks over expressions and declarations of at most so many levels. What walks over a layer takes these as parameters, so that
/// each function is proved by itself.
#[derive(Clone, Copy)]
pub struct TreeWalk<F, G> {
    pub alloc: Global,
    pub depth: usize,
    pub expressions: F,
    pub declarations: G,
}

impl<
    F: Fn(Global, usize, &WrittenExpression, u32) -> Result<(Expression<u32>, u32), Memory>,
    G: Fn(Global, usize, &WrittenDeclaration, u32) -> Result<(DeclarationForm<u32>, u32), Memory>,
> TreeWalk<F, G> {
    /// The expression behind so many tokens, and the number of the token behind it.
    pub fn walk(
        &self,
        a: &Node<WrittenExpression>,
        at: u32,
        tokens: u32,
    ) -> Result<(Expression<u32>, u32), Memory>
        requires { Walks self.now.depth (F.pre self.now.expressions) (F.post self.now.expressions) (G.pre self.now.declarations) (G.post self.now.declarations) }
        ensures { IfOk result (Stands plain (in_expression a.now) (at + tokens)) }
    {
        (self.expressions)(self.alloc, self.depth, a.get(), number_behind(at, tokens)?)
    }

    /// The same of a declaration.
    pub fn walk_declared(
        &self,
        d: &Node<WrittenDeclaration>,
        at: u32,
        tokens: u32,
    ) -> Result<(DeclarationForm<u32>, u32), Memory>
        requires { Walks self.now.depth (F.pre self.now.expressions) (F.post self.now.expressions) (G.pre self.now.declarations) (G.post self.now.declarations) }
        ensures { IfOk result (Stands plain_declaration_form (in_declaration d.now) (at + tokens)) }
    {
        (self.declarations)(self.alloc, self.depth, d.get(), number_behind(at, tokens)?)
    }
}
