//! The names that declarations bind in their list, and what binds names around a part.
ghost use Rattle.std.specs.Prelude.{◌≡◌, ◌++◌, OnOk, map};
ghost use Rattle.abstract_tree.specs.TreeView.{declaration, declaration_form, declarations};
ghost use Rattle.abstract_types.specs.PatternView.{listed, pattern};
ghost use Rattle.desugaring.specs.FreeNames.{names_in, names_in_each, names_of, names_of_list};
ghost use Rattle.judged_parts.specs.Parts.{See};

use crate::names::{Names, enter, push_copy};
use crate::patterns::{parameter_names, pattern_names};
use abstract_tree::{Declaration, DeclarationForm};
use abstract_types::Pattern;
use mo_num::Memory;
use std::alloc::Global;
use type_scopes::NamePlaces;
use value_scopes::Note;

/// Adds the names that a declaration binds in its list.
pub fn declaration_names(
    alloc: Global,
    form: &DeclarationForm<Note>,
    names: &mut Names,
) -> Result<(), Memory>
    ensures { (see : See) → OnOk result (names.new ≡ names.old ++ names_of (declaration_form see form.now)) }
{
    match form {
        DeclarationForm::Let(q, _) => pattern_names(alloc, q, names),
        DeclarationForm::Var(_, name, _, _) => push_copy(alloc, name.bytes.as_slice(), names),
        DeclarationForm::Func(name, _, _) => push_copy(alloc, name.bytes.as_slice(), names),
        DeclarationForm::Method(_, _, name, _, _) => push_copy(alloc, name.bytes.as_slice(), names),
        DeclarationForm::System(_, _) => Ok(()),
        DeclarationForm::TypeAlias(_, _, _) => Ok(()),
        DeclarationForm::Class(name, _, _) => push_copy(alloc, name.bytes.as_slice(), names),
        DeclarationForm::NamedObject(name, _) => push_copy(alloc, name.bytes.as_slice(), names),
        DeclarationForm::Evaluate(_) => Ok(()),
    }
}

/// Adds the names that a list of declarations binds.
pub fn list_names(
    alloc: Global,
    list: &[Declaration<Note>],
    names: &mut Names,
) -> Result<(), Memory>
    ensures { (see : See) → OnOk result (names.new ≡ names.old ++ names_of_list (declarations (map (declaration see) list.now))) }
{
    for one in list {
        declaration_names(alloc, one.form.get(), names)?;
    }
    Ok(())
}

/// Binds the names of a pattern.
pub(crate) fn enter_pattern(
    alloc: Global,
    q: &Pattern<Note>,
    bound: &mut NamePlaces,
) -> Result<(), Memory>
    ensures { (see : See) → OnOk result (bound.new ≡ bound.old ++ names_in (pattern see q.now)) }
{
    let mut names = Names::new(alloc);
    pattern_names(alloc, q, &mut names)?;
    enter(names.as_slice(), bound)
}

/// Binds the names of parameters.
pub(crate) fn enter_parameters(
    alloc: Global,
    parameters: &[Pattern<Note>],
    bound: &mut NamePlaces,
) -> Result<(), Memory>
    ensures { (see : See) → OnOk result (bound.new ≡ bound.old ++ names_in_each (listed (map (pattern see) parameters.now))) }
{
    let mut names = Names::new(alloc);
    parameter_names(alloc, parameters, &mut names)?;
    enter(names.as_slice(), bound)
}

/// Binds the names of a list.
pub(crate) fn enter_list(
    alloc: Global,
    list: &[Declaration<Note>],
    bound: &mut NamePlaces,
) -> Result<(), Memory>
    ensures { (see : See) → OnOk result (bound.new ≡ bound.old ++ names_of_list (declarations (map (declaration see) list.now))) }
{
    let mut names = Names::new(alloc);
    list_names(alloc, list, &mut names)?;
    enter(names.as_slice(), bound)
}
