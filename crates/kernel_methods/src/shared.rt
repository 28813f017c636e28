//! Whether the types of public functions are written as those of shared functions.
ghost use Rattle.std.specs.Prelude.{◌≡◌, true};
ghost use Rattle.mo_types.specs.Sub.{Each};
ghost use Rattle.abstract_tree.specs.TreeView.{declaration_form};
ghost use Rattle.type_definitions.specs.Meanings.{term};
ghost use Rattle.value_scopes.specs.Values.{noted};
ghost use Rattle.kernel_roles.specs.Roles.{role_of};
ghost use Rattle.kernel_methods.specs.Shared.{HasShared, IsShared, SharedIn, is_shared};

use abstract_tree::{Declaration, DeclarationForm};
use kernel_roles::{Role, actor_role};
use met_types::Types;
use type_terms::{Form, TermId};
use value_scopes::Note;

fn is_shared_form(form: &Form) -> bool
    ensures { result ≡ is_shared form.now }
{
    match form {
        Form::Shared(_, _, _) => true,
        _ => false,
    }
}

/// Whether a type is that of a shared function, and no name of one.
fn is_shared_type(types: &Types, kind: TermId) -> bool
    ensures { result ≡ true → IsShared (term types.now.forms kind) }
{
    match types.terms().get_index(kind.index() as usize) {
        Some(form) => is_shared_form(form),
        None => false,
    }
}

/// Whether the declaration is no public function, or one of such a type.
fn has_shared(types: &Types, note: Note, form: &DeclarationForm<Note>) -> bool
    ensures { result ≡ true → HasShared (term types.now.forms note.kind) (role_of (declaration_form (noted types.now.forms) form.now)) }
{
    match actor_role(form) {
        Role::Method(_, _, _, _, _) => is_shared_type(types, note.kind),
        Role::System(_, _) => true,
        Role::Stable(_) => true,
        Role::Function => true,
        Role::Other => true,
    }
}

/// Whether each public function has the type of a shared function, and no name of one. Those of a judged program have.
pub fn are_shared(types: &Types, fields: &[Declaration<Note>]) -> bool
    ensures { result ≡ true → Each (SharedIn types.now) fields.now }
{
    for one in fields {
        if !has_shared(types, one.note, one.form.get()) {
            return false;
        }
    }
    true
}
