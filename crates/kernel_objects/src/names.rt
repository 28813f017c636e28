//! The names of the fields of an object of declarations.
ghost use Rattle.std.specs.Prelude.{◌≡◌, ◌++◌, ◌∷◌, [], IfOk, OnOk, map};
ghost use Rattle.abstract_tree.specs.TreeView.{declaration, declaration_form, declarations};
ghost use Rattle.desugaring.specs.Expressions.{public_names};
ghost use Rattle.desugaring.specs.FreeNames.{field_names};
ghost use Rattle.judged_parts.specs.Parts.{See};
ghost use Rattle.kernel_objects.specs.Objects.{own_names};

use abstract_tree::{Declaration, DeclarationForm};
use kernel_names::{Names, pattern_names};
use mo_num::{Bytes, Memory};
use std::alloc::Global;
use value_scopes::Note;

/// Adds a copy of a name.
fn push_copy(alloc: Global, name: &[u8], names: &mut Names) -> Result<(), Memory>
    ensures { OnOk result (names.new ≡ names.old ++ name.now ∷ []) }
{
    let copy = Bytes::from_slice(alloc, name)?;
    names.push(copy)
}

/// Adds the fields that a public declaration gives an object.
fn add_fields(alloc: Global, form: &DeclarationForm<Note>, names: &mut Names) -> Result<(), Memory>
    ensures { (see : See) → OnOk result (names.new ≡ names.old ++ field_names (declaration_form see form.now)) }
{
    match form {
        DeclarationForm::Let(q, _) => pattern_names(alloc, q, names),
        DeclarationForm::Var(_, name, _, _) => push_copy(alloc, name.bytes.as_slice(), names),
        DeclarationForm::Func(name, _, _) => push_copy(alloc, name.bytes.as_slice(), names),
        DeclarationForm::Method(_, _, _, _, _) => Ok(()),
        DeclarationForm::System(_, _) => Ok(()),
        DeclarationForm::TypeAlias(_, _, _) => Ok(()),
        DeclarationForm::Class(name, _, _) => push_copy(alloc, name.bytes.as_slice(), names),
        DeclarationForm::NamedObject(_, _) => Ok(()),
        DeclarationForm::Evaluate(_) => Ok(()),
    }
}

/// Adds the fields that a declaration gives an object, which are none where it is not public.
fn add_public(alloc: Global, one: &Declaration<Note>, names: &mut Names) -> Result<(), Memory>
    ensures { (see : See) → OnOk result (names.new ≡ names.old ++ own_names see one.now) }
{
    if one.public {
        add_fields(alloc, one.form.get(), names)
    } else {
        Ok(())
    }
}

/// The names of an object's fields, which its public declarations bind: Motoko language manual, section "Objects".
pub(crate) fn object_names(alloc: Global, list: &[Declaration<Note>]) -> Result<Names, Memory>
    ensures { (see : See) → IfOk result (λ made. made ≡ public_names (declarations (map (declaration see) list.now))) }
{
    let mut names = Names::new(alloc);
    for one in list {
        add_public(alloc, one, &mut names)?;
    }
    Ok(names)
}
