//! The types of several expressions.
ghost use Rattle.std.specs.Prelude.{◌≡◌, IfOk, map};

use abstract_tree::Expression;
use mo_num::{Memory, Sequence};
use std::alloc::Global;
use type_terms::TermId;
use value_scopes::Note;

/// The types of several expressions, in their order.
pub fn kinds_of(alloc: Global, items: &[Expression<Note>]) -> Result<Sequence<TermId>, Memory>
    ensures { IfOk result (λ made. made ≡ map (λ a. a.note.kind) items.now) }
{
    let mut made = Sequence::new(alloc);
    for item in items {
        made.push(item.note.kind)?;
    }
    Ok(made)
}
