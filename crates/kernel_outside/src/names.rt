//! The names of public functions and of stable variables.
ghost use Rattle.std.specs.Prelude.{◌≡◌, ◌++◌, IfOk, OnOk};
ghost use Rattle.abstract_tree.specs.TreeView.{declaration_form};
ghost use Rattle.desugaring.specs.Programs as programs;
ghost use Rattle.judged_parts.specs.Parts.{See};
ghost use Rattle.kernel_roles.specs.Roles.{list_seen, role_of};
ghost use Rattle.kernel_outside.specs.Parts.{method_name, stable_name};

use abstract_tree::{Declaration, DeclarationForm};
use kernel_names::Names;
use kernel_roles::{Role, actor_role};
use mo_num::{Bytes, Memory};
use std::alloc::Global;
use value_scopes::Note;

/// Adds the name of a public function.
fn push_method(alloc: Global, form: &DeclarationForm<Note>, names: &mut Names) -> Result<(), Memory>
    ensures { (see : See) → OnOk result (names.new ≡ names.old ++ method_name (role_of (declaration_form see form.now))) }
{
    match actor_role(form) {
        Role::Method(_, _, name, _, _) => {
            let copy = Bytes::from_slice(alloc, name.as_slice())?;
            names.push(copy)
        }
        Role::System(_, _) => Ok(()),
        Role::Stable(_) => Ok(()),
        Role::Function => Ok(()),
        Role::Other => Ok(()),
    }
}

/// The names of the public functions, in source order.
pub(crate) fn method_names(alloc: Global, fields: &[Declaration<Note>]) -> Result<Names, Memory>
    ensures { (see : See) → IfOk result (λ made. made ≡ programs.method_names (list_seen see fields.now)) }
{
    let mut names = Names::new(alloc);
    for one in fields {
        push_method(alloc, one.form.get(), &mut names)?;
    }
    Ok(names)
}

/// Adds the name of a stable variable.
fn push_stable(alloc: Global, form: &DeclarationForm<Note>, names: &mut Names) -> Result<(), Memory>
    ensures { (see : See) → OnOk result (names.new ≡ names.old ++ stable_name (role_of (declaration_form see form.now))) }
{
    match actor_role(form) {
        Role::Method(_, _, _, _, _) => Ok(()),
        Role::System(_, _) => Ok(()),
        Role::Stable(name) => {
            let copy = Bytes::from_slice(alloc, name.as_slice())?;
            names.push(copy)
        }
        Role::Function => Ok(()),
        Role::Other => Ok(()),
    }
}

/// The names of the stable variables, in source order.
pub(crate) fn stable_names(alloc: Global, fields: &[Declaration<Note>]) -> Result<Names, Memory>
    ensures { (see : See) → IfOk result (λ made. made ≡ programs.stable_names (list_seen see fields.now)) }
{
    let mut names = Names::new(alloc);
    for one in fields {
        push_stable(alloc, one.form.get(), &mut names)?;
    }
    Ok(names)
}
