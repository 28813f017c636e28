//! Expressions and declarations at their places.
ghost use Rattle.std.specs.Prelude.{◌≡◌, IfOk};
ghost use Rattle.typing_rules.specs.AbstractSyntax as syntax;
ghost use Rattle.abstract_tree.specs.TreeView.{plain, plain_declaration, plain_declaration_form, plain_form};

use crate::declarations::{Declaration, DeclarationForm};
use crate::expressions::{Expression, ExpressionForm};
use abstract_types::Boxed;
use mo_num::Memory;
use std::alloc::Global;

/// The expression of this form, whose first token has this number.
#[tactic(auto, unfolding(crate::specs::TreeView::expression, crate::specs::TreeView::expression_form, crate::specs::TreeView::declaration, crate::specs::TreeView::declaration_form, crate::specs::TreeView::case, crate::specs::TreeView::object_field))]
pub fn make_expression(
    alloc: Global,
    at: u32,
    form: ExpressionForm<u32>,
) -> Result<Expression<u32>, Memory>
    ensures { IfOk result (λ made. plain made ≡ syntax.exp at (plain_form form)) }
{
    Ok(Expression {
        note: at,
        form: Boxed::new(alloc, form)?,
    })
}

/// The declaration of this form, whose first token has this number.
#[tactic(auto, unfolding(crate::specs::TreeView::expression, crate::specs::TreeView::expression_form, crate::specs::TreeView::declaration, crate::specs::TreeView::declaration_form, crate::specs::TreeView::case, crate::specs::TreeView::object_field))]
pub fn make_declaration(
    alloc: Global,
    public: bool,
    at: u32,
    form: DeclarationForm<u32>,
) -> Result<Declaration<u32>, Memory>
    ensures { IfOk result (λ made. plain_declaration made ≡ (λ rest. syntax.Then public at (plain_declaration_form form) rest)) }
{
    Ok(Declaration {
        public,
        note: at,
        form: Boxed::new(alloc, form)?,
    })
}
