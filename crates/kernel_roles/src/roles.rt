//! Declarations as parts of an actor.
ghost use Rattle.std.specs.Prelude.{◌≡◌};
ghost use Rattle.abstract_tree.specs.TreeView.{declaration_form};
ghost use Rattle.judged_parts.specs.Parts.{See};
ghost use Rattle.kernel_roles.specs.Roles.{role_of, seen_role, variable_role};

use abstract_tree::{DeclarationForm, Expression};
use abstract_types::{Pattern, Signature};
use mo_num::Bytes;
use value_scopes::Note;

/// What of an actor a declaration is, besides what it is in the order of evaluation.
#[derive(Clone, Copy)]
pub enum Role<'a> {
    /// A public function: whether it is a query, the pattern of its context, its name, its signature and body.
    Method(bool, &'a Option<Pattern<Note>>, &'a Bytes, &'a Signature<Note>, &'a Expression<Note>),
    /// A system function: its name and its body.
    System(&'a Bytes, &'a Expression<Note>),
    /// A stable variable: its name.
    Stable(&'a Bytes),
    /// A function or a class.
    Function,
    Other,
}

fn variable(stable: bool, name: &Bytes) -> Role<'_>
    ensures { (see : See) → seen_role see result ≡ variable_role stable name.now }
{
    if stable {
        Role::Stable(name)
    } else {
        Role::Other
    }
}

/// What of an actor a declaration of this form is: Motoko language manual, section "Actors".
pub fn actor_role(form: &DeclarationForm<Note>) -> Role<'_>
    ensures { (see : See) → seen_role see result ≡ role_of (declaration_form see form.now) }
{
    match form {
        DeclarationForm::Let(_, _) => Role::Other,
        DeclarationForm::Var(stable, name, _, _) => variable(*stable, &name.bytes),
        DeclarationForm::Func(_, _, _) => Role::Function,
        DeclarationForm::Method(query, context, name, of, body) => {
            Role::Method(*query, context, &name.bytes, of, body)
        }
        DeclarationForm::System(name, body) => Role::System(&name.bytes, body),
        DeclarationForm::TypeAlias(_, _, _) => Role::Other,
        DeclarationForm::Class(_, _, _) => Role::Function,
        DeclarationForm::NamedObject(_, _) => Role::Other,
        DeclarationForm::Evaluate(_) => Role::Other,
    }
}
