//! The names that are bound in the whole of a list of declarations.
ghost use Rattle.std.specs.Prelude.{◌≡◌, map, OnOk};
ghost use Rattle.abstract_tree.specs.TreeView.{declarations, plain_declaration, plain_declaration_form};
ghost use Rattle.type_scopes.specs.Scopes.{seen};
ghost use Rattle.proper_types.specs.Passing.{Ready};
ghost use Rattle.typed_patterns.specs.Binding.{Pushes};
ghost use Rattle.signatures.specs.Naming.{no_more, signature_of};
ghost use Rattle.list_signatures.specs.Listing.{signatures_of};

use abstract_tree::{Declaration, DeclarationForm};
use met_types::Types;
use shareable_types::Sharing;
use signatures::{class_signature, function_signature, method_signature};
use type_judgements::Refusal;
use type_scopes::TypeScope;
use value_scopes::ValueScope;

/// The name that one declaration binds in its whole list.
fn declared(
    scope: &mut TypeScope,
    types: &mut Types,
    sharing: &mut Sharing,
    names: &mut ValueScope,
    form: &DeclarationForm<u32>,
) -> Result<(), Refusal>
    requires { Ready types.old sharing.old }
    ensures scope { OnOk result (scope.new ≡ scope.old) }
    ensures judged { Pushes (signature_of (seen scope.old) (plain_declaration_form form.now)) types.old types.new sharing.new names.old names.new no_more result }
{
    match form {
        DeclarationForm::Func(name, signature, _) => {
            function_signature(scope, types, sharing, names, name, signature)
        }
        DeclarationForm::Class(name, signature, _) => {
            class_signature(scope, types, sharing, names, name, signature)
        }
        DeclarationForm::Method(query, _, name, signature, _) => {
            method_signature(scope, types, sharing, names, *query, name, signature)
        }
        DeclarationForm::Let(_, _) => Ok(()),
        DeclarationForm::Var(_, _, _, _) => Ok(()),
        DeclarationForm::System(_, _) => Ok(()),
        DeclarationForm::TypeAlias(_, _, _) => Ok(()),
        DeclarationForm::NamedObject(_, _) => Ok(()),
        DeclarationForm::Evaluate(_) => Ok(()),
    }
}

/// Whether the signatures of a list's functions, classes and public functions are as they have to be, where the types that it
/// defines are in scope: Motoko language manual, sections "Function declaration", "Class declaration" and "Shared functions". It
/// binds their names in front of the others, the last of the list first. `False` names the first condition that is false, and its
/// place; the names of values and of types are then of no use.
pub fn signatures(
    scope: &mut TypeScope,
    types: &mut Types,
    sharing: &mut Sharing,
    names: &mut ValueScope,
    list: &[Declaration<u32>],
) -> Result<(), Refusal>
    requires { Ready types.old sharing.old }
    ensures scope { OnOk result (scope.new ≡ scope.old) }
    ensures judged { Pushes (signatures_of (seen scope.old) (declarations (map plain_declaration list.now))) types.old types.new sharing.new names.old names.new no_more result }
{
    for one in list {
        declared(scope, types, sharing, names, one.form.get())?;
    }
    Ok(())
}
