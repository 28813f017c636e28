//! The abstract syntax of an expression or a declaration.
ghost use Rattle.std.specs.Prelude.{◌+◌, IfOk};
ghost use Rattle.typing_rules.specs.AbstractExpressions.{in_declaration, in_expression};
ghost use Rattle.abstract_type_walk.specs.Stands.{Stands};
ghost use Rattle.abstract_tree.specs.TreeView.{plain, plain_declaration_form};

use crate::tree_layers::TreeLayers;
use abstract_layers::Layers;
use abstract_parts::TreeWalk;
use abstract_tree::{DeclarationForm, Expression};
use abstract_types::number_behind;
use mo_num::Memory;
use mo_syntax::{Declaration as WrittenDeclaration, Expression as WrittenExpression};
use std::alloc::Global;

// That of an expression of at most so many levels. One of more levels than there are addresses is none that memory holds.
#[cycle(abstract_part)]
fn expression_within(
    alloc: Global,
    depth: usize,
    a: &WrittenExpression,
    at: u32,
) -> Result<(Expression<u32>, u32), Memory>
    ensures { IfOk result (Stands plain (in_expression a.now) at) }
{
    if depth == 0 {
        return Err(Memory);
    }
    let parts = TreeWalk {
        alloc,
        depth: depth - 1,
        expressions: expression_within,
        declarations: declaration_within,
    };
    let layers = Layers { parts };
    TreeLayers { layers }.layer(a, at)
}

#[cycle(abstract_part)]
fn declaration_within(
    alloc: Global,
    depth: usize,
    d: &WrittenDeclaration,
    at: u32,
) -> Result<(DeclarationForm<u32>, u32), Memory>
    ensures { IfOk result (Stands plain_declaration_form (in_declaration d.now) at) }
{
    if depth == 0 {
        return Err(Memory);
    }
    let parts = TreeWalk {
        alloc,
        depth: depth - 1,
        expressions: expression_within,
        declarations: declaration_within,
    };
    let layers = Layers { parts };
    TreeLayers { layers }.declared_layer(d, at)
}

/// The abstract syntax of the expression behind so many tokens, and the number of the token behind it. The recursion is as deep as
/// the expression.
pub fn abstract_expression(
    alloc: Global,
    a: &WrittenExpression,
    at: u32,
    tokens: u32,
) -> Result<(Expression<u32>, u32), Memory>
    ensures { IfOk result (Stands plain (in_expression a.now) (at + tokens)) }
{
    expression_within(alloc, usize::MAX, a, number_behind(at, tokens)?)
}

/// The same of a declaration.
pub fn abstract_declaration(
    alloc: Global,
    d: &WrittenDeclaration,
    at: u32,
    tokens: u32,
) -> Result<(DeclarationForm<u32>, u32), Memory>
    ensures { IfOk result (Stands plain_declaration_form (in_declaration d.now) (at + tokens)) }
{
    declaration_within(alloc, usize::MAX, d, number_behind(at, tokens)?)
}
