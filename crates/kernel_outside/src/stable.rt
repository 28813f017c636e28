//! Stable variables.
ghost use Rattle.std.specs.Prelude.{◌≡◌, ◌++◌, IfOk, OnOk};
ghost use Rattle.abstract_tree.specs.TreeView.{declaration_form};
ghost use Rattle.value_scopes.specs.Values.{noted};
ghost use Rattle.desugaring.specs.Programs as programs;
ghost use Rattle.kernel_types.specs.Numbers.{definitions, number};
ghost use Rattle.kernel_parts.specs.Views.{list_in};
ghost use Rattle.kernel_roles.specs.Roles.{role_of};
ghost use Rattle.kernel_outside.specs.Parts.{stable_in, variable_in};

use abstract_tree::{Declaration, DeclarationForm};
use kernel_frames::Frames;
use kernel_roles::{Role, actor_role};
use kernel_types::KernelTypes;
use mo_num::{Bytes, Memory, Sequence};
use std::alloc::Global;
use type_terms::TermId;
use typed_tree::StableVariable;
use value_scopes::Note;

/// A stable variable of a type, with the name that it has in this frame.
fn variable(
    alloc: Global,
    types: &KernelTypes,
    frames: &Frames,
    kind: TermId,
    name: &[u8],
) -> Result<StableVariable, Memory>
    ensures { IfOk result (λ made. made ≡ variable_in types.now frames.now kind name.now) }
{
    let of_type = types.number(kind)?;
    let found = frames.find(name);
    let copy = Bytes::from_slice(alloc, name)?;
    Ok(StableVariable {
        name: copy,
        of_type,
        cell: found.index,
    })
}

/// Adds the declaration, if it is a stable variable.
fn push_variable(
    alloc: Global,
    types: &KernelTypes,
    frames: &Frames,
    note: Note,
    form: &DeclarationForm<Note>,
    made: &mut Sequence<StableVariable>,
) -> Result<(), Memory>
    ensures { OnOk result (made.new ≡ made.old ++ stable_in types.now frames.now note (role_of (declaration_form (noted types.now.forms) form.now))) }
{
    match actor_role(form) {
        Role::Method(_, _, _, _, _) => Ok(()),
        Role::System(_, _) => Ok(()),
        Role::Stable(name) => {
            let one = variable(alloc, types, frames, note.kind, name.as_slice())?;
            made.push(one)
        }
        Role::Function => Ok(()),
        Role::Other => Ok(()),
    }
}

/// The stable variables, in source order, with their names behind the declarations: Motoko language manual, section "Stability".
pub fn stable_variables(
    alloc: Global,
    types: &KernelTypes,
    frames: &Frames,
    fields: &[Declaration<Note>],
) -> Result<Sequence<StableVariable>, Memory>
    ensures { IfOk result (λ made. made ≡ programs.stable_of (definitions types.now) (number types.now) frames.now (list_in types.now fields.now)) }
{
    let mut made = Sequence::new(alloc);
    for one in fields {
        push_variable(alloc, types, frames, one.note, one.form.get(), &mut made)?;
    }
    Ok(made)
}
