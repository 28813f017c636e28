//! The names that occur in expressions and declarations, and the lists of declarations in them.
ghost use Rattle.std.specs.Prelude.{◌≡◌, ◌++◌, ◌∷◌, [], OnOk};
ghost use Rattle.mo_names.specs.Order.{found, found_step};
ghost use Rattle.mo_order.specs.PartNotes.{found_part};

use crate::layers::Layers;
use crate::step::{Lists, Steps, push_step};
use mo_bindings::Part;
use mo_name_table::Names;
use mo_num::Memory;
use mo_syntax::{Declaration, Expression};
use std::alloc::Global;

// A part of at most so many levels. One of more levels than there are addresses is none that memory holds.
fn note_part(
    alloc: Global,
    depth: usize,
    part: Part<'_>,
    free: &mut Names,
    lists: &mut Lists,
) -> Result<(), Memory>
    ensures free { OnOk result (free.new ≡ free.old ++ (found_part part.entry).free) }
    ensures lists { OnOk result (lists.new ≡ lists.old ++ (found_part part.entry).lists) }
{
    if depth == 0 {
        return Err(Memory);
    }
    let layers = Layers {
        alloc,
        depth: depth - 1,
        parts: note_part,
    };
    match part {
        Part::Expression(e) => layers.expression(e, free, lists),
        Part::Declaration(declaration) => layers.declaration(declaration, free, lists),
    }
}

/// Adds the names that occur in an expression, and the lists in it.
pub(crate) fn note_expression(
    alloc: Global,
    e: &Expression,
    free: &mut Names,
    lists: &mut Lists,
) -> Result<(), Memory>
    ensures free { OnOk result (free.new ≡ free.old ++ (found e.now).free) }
    ensures lists { OnOk result (lists.new ≡ lists.old ++ (found e.now).lists) }
{
    note_part(alloc, usize::MAX, Part::Expression(e), free, lists)
}

/// Adds a declaration to its list, and the lists in it.
pub(crate) fn note_declaration(
    alloc: Global,
    declaration: &Declaration,
    steps: &mut Steps,
    lists: &mut Lists,
) -> Result<(), Memory>
    ensures steps { OnOk result (steps.new ≡ steps.old ++ (found_step declaration.now).step ∷ []) }
    ensures lists { OnOk result (lists.new ≡ lists.old ++ (found_step declaration.now).lists) }
{
    let mut occurs = Names::new(alloc);
    note_part(
        alloc,
        usize::MAX,
        Part::Declaration(declaration),
        &mut occurs,
        lists,
    )?;
    push_step(alloc, declaration, occurs, steps)
}
