//! The group of the public and the system functions.
ghost use Rattle.std.specs.Prelude.{◌≡◌, OnOk};
ghost use Rattle.abstract_tree.specs.TreeView.{declaration_form};
ghost use Rattle.desugaring.specs.Frames.{with_entries};
ghost use Rattle.judged_parts.specs.Parts.{See};
ghost use Rattle.kernel_roles.specs.Roles.{list_seen, role_of};
ghost use Rattle.kernel_outside.specs.Parts.{behind_of, with_functions};

use abstract_tree::{Declaration, DeclarationForm};
use kernel_frames::Frames;
use kernel_roles::{Role, actor_role};
use mo_num::Memory;
use value_scopes::Note;

/// Adds a public or system function, which no name is found by.
fn push_one(frames: &mut Frames, form: &DeclarationForm<Note>) -> Result<(), Memory>
    ensures { (see : See) → OnOk result (frames.new ≡ with_entries (behind_of (role_of (declaration_form see form.now))) frames.old) }
{
    match actor_role(form) {
        Role::Method(_, _, _, _, _) => frames.push_unnamed(),
        Role::System(_, _) => frames.push_unnamed(),
        Role::Stable(_) => Ok(()),
        Role::Function => Ok(()),
        Role::Other => Ok(()),
    }
}

/// Adds the public and system functions behind the declarations, which no name is found by.
pub fn push_functions(frames: &mut Frames, fields: &[Declaration<Note>]) -> Result<(), Memory>
    ensures { (see : See) → OnOk result (frames.new ≡ with_functions (list_seen see fields.now) frames.old) }
{
    for one in fields {
        push_one(frames, one.form.get())?;
    }
    Ok(())
}
