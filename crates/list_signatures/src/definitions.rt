//! The types that lists of declarations define.
ghost use Rattle.std.specs.Prelude.{◌≡◌, map, OnOk};
ghost use Rattle.typing_rules.specs.AbstractSyntax as syntax;
ghost use Rattle.abstract_types.specs.TypeView.{named, type_node};
ghost use Rattle.abstract_tree.specs.TreeView.{declarations, plain_declaration, plain_declaration_form};
ghost use Rattle.type_scopes.specs.Scopes.{seen};
ghost use Rattle.proper_types.specs.Passing.{Judges, Ready};
ghost use Rattle.proper_types.specs.Rules.{done};
ghost use Rattle.list_signatures.specs.Listing.{definition_of, definitions_of};

use abstract_tree::{Declaration, DeclarationForm};
use abstract_types::{PlacedName, TypeNode};
use declared_names::push_names;
use met_types::Types;
use proper_types::{defines, proper};
use shareable_types::Sharing;
use type_judgements::Refusal;
use type_scopes::TypeScope;

/// `type x<..> = A`: A is as it has to be where the parameters are in scope.
fn alias(
    scope: &mut TypeScope,
    types: &mut Types,
    sharing: &mut Sharing,
    name: &PlacedName,
    parameters: &[PlacedName],
    of: &TypeNode,
) -> Result<(), Refusal>
    requires { Ready types.old sharing.old }
    ensures scope { OnOk result (scope.new ≡ scope.old) }
    ensures judged { Judges (definition_of (seen scope.old) (syntax.TypeAlias (named name.now) (map named parameters.now) (type_node of.now))) types.old types.new sharing.new done result }
{
    let len = scope.len();
    push_names(scope, parameters)?;
    proper(scope, types, sharing, of)?;
    scope.truncate(len);
    defines(types, name)
}

/// What one declaration defines.
fn definition(
    scope: &mut TypeScope,
    types: &mut Types,
    sharing: &mut Sharing,
    form: &DeclarationForm<u32>,
) -> Result<(), Refusal>
    requires { Ready types.old sharing.old }
    ensures scope { OnOk result (scope.new ≡ scope.old) }
    ensures judged { Judges (definition_of (seen scope.old) (plain_declaration_form form.now)) types.old types.new sharing.new done result }
{
    match form {
        DeclarationForm::TypeAlias(name, parameters, of) => {
            alias(scope, types, sharing, name, parameters.as_slice(), of)
        }
        DeclarationForm::Class(name, _, _) => defines(types, name),
        DeclarationForm::Let(_, _) => Ok(()),
        DeclarationForm::Var(_, _, _, _) => Ok(()),
        DeclarationForm::Func(_, _, _) => Ok(()),
        DeclarationForm::Method(_, _, _, _, _) => Ok(()),
        DeclarationForm::System(_, _) => Ok(()),
        DeclarationForm::NamedObject(_, _) => Ok(()),
        DeclarationForm::Evaluate(_) => Ok(()),
    }
}

/// Whether the types that a list defines are as they have to be, where they are in scope: Motoko language manual, sections "Type
/// declarations" and "Class declaration". `False` names the first condition that is false, and its place; the names of types are
/// then of no use.
pub fn definitions_of(
    scope: &mut TypeScope,
    types: &mut Types,
    sharing: &mut Sharing,
    list: &[Declaration<u32>],
) -> Result<(), Refusal>
    requires { Ready types.old sharing.old }
    ensures scope { OnOk result (scope.new ≡ scope.old) }
    ensures judged { Judges (definitions_of (seen scope.old) (declarations (map plain_declaration list.now))) types.old types.new sharing.new done result }
{
    for one in list {
        definition(scope, types, sharing, one.form.get())?;
    }
    Ok(())
}
