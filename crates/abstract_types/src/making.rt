//! Types and patterns at their places.
ghost use Rattle.std.specs.Prelude.{◌≡◌, IfOk};
ghost use Rattle.typing_rules.specs.AbstractSyntax as syntax;
ghost use Rattle.abstract_types.specs.PatternView.{plain, plain_form};
ghost use Rattle.abstract_types.specs.TypeView.{type_form, type_node};

use crate::boxed::Boxed;
use crate::patterns::{Pattern, PatternForm};
use crate::types::{TypeForm, TypeNode};
use mo_num::Memory;
use std::alloc::Global;

/// The type of this form, whose first token has this number.
#[tactic(auto, unfolding(crate::specs::TypeView::type_node, crate::specs::TypeView::type_form, crate::specs::TypeView::type_field))]
pub fn make_node(alloc: Global, at: u32, form: TypeForm) -> Result<TypeNode, Memory>
    ensures { IfOk result (λ made. type_node made ≡ syntax.node at (type_form form)) }
{
    Ok(TypeNode {
        at,
        form: Boxed::new(alloc, form)?,
    })
}

/// The pattern of this form, whose first token has this number.
#[tactic(auto, unfolding(crate::specs::PatternView::pattern, crate::specs::PatternView::pattern_form, crate::specs::PatternView::pattern_field))]
pub fn make_pattern(alloc: Global, at: u32, form: PatternForm<u32>) -> Result<Pattern<u32>, Memory>
    ensures { IfOk result (λ made. plain made ≡ syntax.pattern at (plain_form form)) }
{
    Ok(Pattern {
        note: at,
        form: Boxed::new(alloc, form)?,
    })
}
