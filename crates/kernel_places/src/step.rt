//! Declarations as far as the places of functions look at them.
ghost use Rattle.std.specs.Prelude.{◌≡◌, ◌∷◌, [], IfOk, Some, option_map};
ghost use Rattle.abstract_tree.specs.TreeView.{declaration_form};
ghost use Rattle.desugaring.specs.FreeNames.{declared, defined_by, function_name};
ghost use Rattle.judged_parts.specs.Parts.{See};
ghost use Rattle.kernel_places.specs.Similar.{Alike, AllAlike, declared_list};

use abstract_tree::{Declaration, DeclarationForm};
use kernel_names::{Names, occurring_names, pattern_names};
use mo_num::{Bytes, Memory, Sequence};
use std::alloc::Global;
use std::marker::Model;
use value_scopes::Note;

/// A declaration: the names that it defines where it is evaluated, or the function that it is, and the names that occur in a function.
pub(crate) struct Step {
    defines: Names,
    function: Option<Bytes>,
    occurs: Names,
}

impl Drop for Step {
    fn drop(self) {
        let Step {
            defines: _defines,
            function: _function,
            occurs: _occurs,
        } = self;
    }
}

impl Model for Step {
    ghost use Rattle.typed_tree.specs.Placing.{Declared};

    ghost Value = { Declared };

    ghost view = { λ s. record { defines = s.defines; function = s.function; occurs = s.occurs } };
}

impl Step {
    fn new(defines: Names, function: Option<Bytes>, occurs: Names) -> Self
        ensures { result ≡ record { defines = defines; function = function; occurs = occurs } }
    {
        Step {
            defines,
            function,
            occurs,
        }
    }

    pub(crate) fn defines(&self) -> &[Bytes]
        ensures { result.now ≡ self.now.defines }
    {
        self.defines.as_slice()
    }

    pub(crate) fn function(&self) -> &Option<Bytes>
        ensures { result.now ≡ self.now.function }
    {
        &self.function
    }

    pub(crate) fn occurs(&self) -> &[Bytes]
        ensures { result.now ≡ self.now.occurs }
    {
        self.occurs.as_slice()
    }
}

/// The list of one name.
fn one_name(alloc: Global, name: &Bytes) -> Result<Names, Memory>
    ensures { IfOk result (λ made. made ≡ name.now ∷ []) }
{
    let copy = Bytes::from_slice(alloc, name.as_slice())?;
    let mut names = Names::new(alloc);
    names.push(copy)?;
    Ok(names)
}

/// The names that a declaration defines where it is evaluated.
fn defined_names(alloc: Global, form: &DeclarationForm<Note>) -> Result<Names, Memory>
    ensures { (see : See) → IfOk result (λ made. made ≡ defined_by (declaration_form see form.now)) }
{
    match form {
        DeclarationForm::Let(q, _) => {
            let mut names = Names::new(alloc);
            pattern_names(alloc, q, &mut names)?;
            Ok(names)
        }
        DeclarationForm::Var(_, name, _, _) => one_name(alloc, &name.bytes),
        DeclarationForm::Func(_, _, _) => Ok(Names::new(alloc)),
        DeclarationForm::Method(_, _, _, _, _) => Ok(Names::new(alloc)),
        DeclarationForm::System(_, _) => Ok(Names::new(alloc)),
        DeclarationForm::TypeAlias(_, _, _) => Ok(Names::new(alloc)),
        DeclarationForm::Class(_, _, _) => Ok(Names::new(alloc)),
        DeclarationForm::NamedObject(name, _) => one_name(alloc, &name.bytes),
        DeclarationForm::Evaluate(_) => Ok(Names::new(alloc)),
    }
}

/// The name of a function or class.
fn name_of(form: &DeclarationForm<Note>) -> Option<&Bytes>
    ensures { (see : See) → option_map (λ name. name.now) result ≡ function_name (declaration_form see form.now) }
{
    match form {
        DeclarationForm::Let(_, _) => None,
        DeclarationForm::Var(_, _, _, _) => None,
        DeclarationForm::Func(name, _, _) => Some(&name.bytes),
        DeclarationForm::Method(_, _, _, _, _) => None,
        DeclarationForm::System(_, _) => None,
        DeclarationForm::TypeAlias(_, _, _) => None,
        DeclarationForm::Class(name, _, _) => Some(&name.bytes),
        DeclarationForm::NamedObject(_, _) => None,
        DeclarationForm::Evaluate(_) => None,
    }
}

/// A function of this name, in which the names of the declaration occur.
fn function_step(
    alloc: Global,
    form: &DeclarationForm<Note>,
    name: &Bytes,
    defines: Names,
) -> Result<Step, Memory>
    ensures { (see : See) → IfOk result (λ made. defines ≡ defined_by (declaration_form see form.now) → Some name.now ≡ function_name (declaration_form see form.now) → Alike made (declared (declaration_form see form.now))) }
{
    let copy = Bytes::from_slice(alloc, name.as_slice())?;
    let occurs = occurring_names(alloc, form)?;
    Ok(Step::new(defines, Some(copy), occurs))
}

/// The declaration. What occurs in one that is no function is not asked for.
fn step_of(alloc: Global, form: &DeclarationForm<Note>) -> Result<Step, Memory>
    ensures { (see : See) → IfOk result (λ made. Alike made (declared (declaration_form see form.now))) }
{
    let defines = defined_names(alloc, form)?;
    match name_of(form) {
        None => Ok(Step::new(defines, None, Names::new(alloc))),
        Some(name) => function_step(alloc, form, name, defines),
    }
}

/// The declarations of a list.
pub(crate) fn steps_of(alloc: Global, list: &[Declaration<Note>]) -> Result<Sequence<Step>, Memory>
    ensures { (see : See) → IfOk result (λ made. AllAlike made (declared_list see list.now)) }
{
    let mut steps = Sequence::new(alloc);
    for one in list {
        let step = step_of(alloc, one.form.get())?;
        steps.push(step)?;
    }
    Ok(steps)
}
