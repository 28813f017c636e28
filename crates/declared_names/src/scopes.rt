//! Names of types that type parameters and lists of declarations bring into scope (Motoko language manual, "Type parameters",
//! "Type declarations").
ghost use Rattle.std.specs.Prelude.{◌≡◌, map, OnOk};
ghost use Rattle.typing_rules.specs.DeclaredTypes.{with_declared, with_list};
ghost use Rattle.typing_rules.specs.TypeScopes.{names_of, with_parameters};
ghost use Rattle.type_scopes.specs.Scopes.{seen};
ghost use Rattle.abstract_types.specs.TypeView.{named, parameter};
ghost use Rattle.abstract_tree.specs.TreeView.{declarations, plain_declaration, plain_declaration_form};
ghost use Rattle.declared_names.specs.Scoping.{Extends};

use abstract_tree::{Declaration, DeclarationForm};
use abstract_types::{PlacedName, TypeParameter};
use mo_num::Memory;
use type_scopes::TypeScope;

/// Brings the type parameters of a function or class into scope, innermost.
pub fn push_generics(scope: &mut TypeScope, generics: &[TypeParameter]) -> Result<(), Memory>
    ensures seen { OnOk result (seen scope.new ≡ with_parameters (seen scope.old) (names_of (map parameter generics.now))) }
    ensures extends { OnOk result (Extends scope.old scope.new) }
{
    for one in generics {
        scope.push_parameter(one.name.bytes.as_slice(), one.name.at)?;
    }
    Ok(())
}

/// Brings the type parameters of a type definition into scope, innermost.
pub fn push_names(scope: &mut TypeScope, names: &[PlacedName]) -> Result<(), Memory>
    ensures seen { OnOk result (seen scope.new ≡ with_parameters (seen scope.old) (map named names.now)) }
    ensures extends { OnOk result (Extends scope.old scope.new) }
{
    for one in names {
        scope.push_parameter(one.bytes.as_slice(), one.at)?;
    }
    Ok(())
}

fn push_declared(scope: &mut TypeScope, form: &DeclarationForm<u32>) -> Result<(), Memory>
    ensures seen { OnOk result (seen scope.new ≡ with_declared (seen scope.old) (plain_declaration_form form.now)) }
    ensures extends { OnOk result (Extends scope.old scope.new) }
{
    match form {
        DeclarationForm::TypeAlias(name, parameters, _) => {
            scope.push_definition(name.bytes.as_slice(), name.at, parameters.len())
        }
        DeclarationForm::Class(name, signature, _) => {
            scope.push_definition(name.bytes.as_slice(), name.at, signature.generics.len())
        }
        DeclarationForm::Let(_, _) => Ok(()),
        DeclarationForm::Var(_, _, _, _) => Ok(()),
        DeclarationForm::Func(_, _, _) => Ok(()),
        DeclarationForm::Method(_, _, _, _, _) => Ok(()),
        DeclarationForm::System(_, _) => Ok(()),
        DeclarationForm::NamedObject(_, _) => Ok(()),
        DeclarationForm::Evaluate(_) => Ok(()),
    }
}

/// Brings the types that a list of declarations defines into scope, innermost.
pub fn push_list(scope: &mut TypeScope, list: &[Declaration<u32>]) -> Result<(), Memory>
    ensures seen { OnOk result (seen scope.new ≡ with_list (seen scope.old) (declarations (map plain_declaration list.now))) }
    ensures extends { OnOk result (Extends scope.old scope.new) }
{
    for one in list {
        push_declared(scope, one.form.get())?;
    }
    Ok(())
}
