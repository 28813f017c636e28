//! The lists of declarations of a program.
ghost use Rattle.std.specs.Prelude.{◌≡◌, ◌++◌, ◌∷◌, [], OnOk, IfOk, map};
ghost use Rattle.mo_name_table.specs.Places.{texts};
ghost use Rattle.mo_names.specs.Order.{field_step, found, list_of};

use crate::step::{Lists, Step, Steps, append, one_name};
use crate::walk::{note_declaration, note_expression};
use mo_name_table::Names;
use mo_num::{Memory, Sequence};
use mo_syntax::{ActorField, Expression, Name, SharedFunction, Tree};
use std::alloc::Global;

/// The lists of a body. What occurs in it is not used at its place.
fn note_body(alloc: Global, body: &Expression, lists: &mut Lists) -> Result<(), Memory>
    ensures { OnOk result (lists.new ≡ lists.old ++ (found body.now).lists) }
{
    let mut unused = Names::new(alloc);
    note_expression(alloc, body, &mut unused, lists)
}

/// A public function, which is used as a shared function alone.
fn note_public(
    alloc: Global,
    function: &SharedFunction,
    steps: &mut Steps,
    lists: &mut Lists,
) -> Result<(), Memory>
    ensures steps { OnOk result (steps.new ≡ steps.old ++ record { defines = []; functions = function.now.name.bytes ∷ []; occurs = [] } ∷ []) }
    ensures lists { OnOk result (lists.new ≡ lists.old ++ (found function.now.body).lists) }
{
    note_body(alloc, function.body.get(), lists)?;
    let functions = one_name(alloc, &function.name)?;
    steps.push(Step::new(Names::new(alloc), functions, Names::new(alloc)))
}

/// A system function, which is not used.
fn note_system(
    alloc: Global,
    body: &Expression,
    steps: &mut Steps,
    lists: &mut Lists,
) -> Result<(), Memory>
    ensures steps { OnOk result (steps.new ≡ steps.old ++ record { defines = []; functions = []; occurs = [] } ∷ []) }
    ensures lists { OnOk result (lists.new ≡ lists.old ++ (found body.now).lists) }
{
    note_body(alloc, body, lists)?;
    let step = Step::new(Names::new(alloc), Names::new(alloc), Names::new(alloc));
    steps.push(step)
}

/// A stable variable.
fn note_stable(
    alloc: Global,
    name: &Name,
    e: &Expression,
    steps: &mut Steps,
    lists: &mut Lists,
) -> Result<(), Memory>
    ensures steps { OnOk result (steps.new ≡ steps.old ++ record { defines = name.now.bytes ∷ []; functions = []; occurs = (found e.now).free } ∷ []) }
    ensures lists { OnOk result (lists.new ≡ lists.old ++ (found e.now).lists) }
{
    let mut occurs = Names::new(alloc);
    note_expression(alloc, e, &mut occurs, lists)?;
    let defines = one_name(alloc, name)?;
    steps.push(Step::new(defines, Names::new(alloc), occurs))
}

fn note_field(
    alloc: Global,
    field: &ActorField,
    steps: &mut Steps,
    lists: &mut Lists,
) -> Result<(), Memory>
    ensures steps { OnOk result (steps.new ≡ steps.old ++ (field_step field.now).step ∷ []) }
    ensures lists { OnOk result (lists.new ≡ lists.old ++ (field_step field.now).lists) }
{
    match field {
        ActorField::Public(function) => note_public(alloc, function.get(), steps, lists),
        ActorField::System(_, _, body) => note_system(alloc, body.get(), steps, lists),
        ActorField::Declared(_, declaration) => {
            note_declaration(alloc, declaration.get(), steps, lists)
        }
        ActorField::Stable(_, name, _, e) => note_stable(alloc, name, e.get(), steps, lists),
    }
}

/// All lists of a program, that of the actor first.
pub(crate) fn lists_of_program(alloc: Global, tree: &Tree) -> Result<Lists, Memory>
    ensures { IfOk result (λ made. made ≡ (list_of (map field_step tree.now.actor.fields)).lists) }
{
    let mut steps = Sequence::new(alloc);
    let mut inner = Sequence::new(alloc);
    for one in tree.actor.get().fields.as_slice() {
        note_field(alloc, one.get(), &mut steps, &mut inner)?;
    }
    let mut lists = Sequence::new(alloc);
    lists.push(steps)?;
    append(&mut lists, inner)?;
    Ok(lists)
}
