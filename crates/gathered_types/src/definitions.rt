//! What type definitions, classes and type parameters define (Motoko language manual, "Type declarations", "Class declaration",
//! "Type parameters").
ghost use Rattle.std.specs.Prelude.{◌≡◌, IfOk, OnOk, map};
ghost use Rattle.typing_rules.specs.DeclaredTypes.{with_list, within};
ghost use Rattle.typing_rules.specs.Gathered.{defined, of_generics};
ghost use Rattle.typing_rules.specs.TypeScopes.{names_of, term, with_parameters};
ghost use Rattle.met_types.specs.States.{Kept};
ghost use Rattle.type_scopes.specs.Scopes.{seen};
ghost use Rattle.abstract_types.specs.PatternView.{plain_signature};
ghost use Rattle.abstract_types.specs.TypeView.{named, parameter, type_node};
ghost use Rattle.abstract_tree.specs.TreeView.{declarations, plain_declaration};
ghost use Rattle.declared_names.specs.Scoping.{Extends};
ghost use Rattle.gathered_types.specs.Finding.{Finds, class_head};

use crate::found::Found;
use abstract_tree::Declaration;
use abstract_types::{PlacedName, Signature, TypeNode, TypeParameter};
use declared_names::{push_generics, push_list, push_names};
use declared_types::{Otherwise, term_or, written};
use met_types::Types;
use mo_num::{Memory, Sequence};
use object_types::object_type;
use std::alloc::Global;
use type_definitions::{Definition, Numbers};
use type_scopes::TypeScope;
use type_terms::TermId;

/// Finds the bounds of type parameters, which are in scope.
fn find_bounds(
    scope: &TypeScope,
    types: &mut Types,
    found: &mut Found,
    generics: &[TypeParameter],
) -> Result<(), Memory>
    requires { Kept types.old }
    ensures { OnOk result (Finds types.old types.new (of_generics (seen scope.now) (map parameter generics.now)) found.old found.new) }
{
    for one in generics {
        let bound = term_or(scope, types, &one.bound, Otherwise::Any)?;
        found.push_bound(one.name.at, bound)?;
    }
    Ok(())
}

/// Brings type parameters into scope, and finds their bounds.
pub(crate) fn enter_generics(
    scope: &mut TypeScope,
    types: &mut Types,
    found: &mut Found,
    generics: &[TypeParameter],
) -> Result<(), Memory>
    requires { Kept types.old }
    ensures seen { OnOk result (seen scope.new ≡ with_parameters (seen scope.old) (names_of (map parameter generics.now))) }
    ensures extends { OnOk result (Extends scope.old scope.new) }
    ensures found { OnOk result (Finds types.old types.new (of_generics (seen scope.new) (map parameter generics.now)) found.old found.new) }
{
    push_generics(scope, generics)?;
    find_bounds(scope, types, found, generics)?;
    Ok(())
}

/// A definition of the parameters in scope, so many of which were there before its own.
fn definition_of(
    alloc: Global,
    scope: &TypeScope,
    outer: usize,
    right: TermId,
) -> Result<Definition, Memory>
    ensures { IfOk result (λ made. made ≡ record { outer = outer; parameters = (seen scope.now).parameters; right = right }) }
{
    let list = Vec::from_slice(alloc, scope.parameters())?;
    let parameters = Numbers::new(alloc, Sequence::from_vec(list))?;
    Ok(Definition {
        outer,
        parameters,
        right,
    })
}

/// Finds a type definition. The scope is as before, where no memory was wanting.
pub(crate) fn find_alias(
    scope: &mut TypeScope,
    types: &mut Types,
    found: &mut Found,
    name: &PlacedName,
    parameters: &[PlacedName],
    node: &TypeNode,
) -> Result<(), Memory>
    requires { Kept types.old }
    ensures found { OnOk result (Finds types.old types.new (defined (seen scope.old) (named name.now) (map named parameters.now) (term (with_parameters (seen scope.old) (map named parameters.now)) (type_node node.now))) found.old found.new) }
    ensures scope { OnOk result (scope.new ≡ scope.old) }
{
    let len = scope.len();
    let outer = scope.parameters().len();
    push_names(scope, parameters)?;
    let right = written(scope, types, node)?;
    let made = definition_of(types.terms().allocator(), scope, outer, right)?;
    found.push_type(name.at, made)?;
    scope.truncate(len);
    Ok(())
}

/// Finds the definition of a class and the bounds of its type parameters, and brings these and the types that its fields define
/// into scope.
pub(crate) fn enter_class(
    scope: &mut TypeScope,
    types: &mut Types,
    found: &mut Found,
    name: &PlacedName,
    signature: &Signature<u32>,
    fields: &[Declaration<u32>],
) -> Result<(), Memory>
    requires { Kept types.old }
    ensures seen { OnOk result (seen scope.new ≡ with_list (within (seen scope.old) (plain_signature signature.now)) (declarations (map plain_declaration fields.now))) }
    ensures extends { OnOk result (Extends scope.old scope.new) }
    ensures found { OnOk result (Finds types.old types.new (class_head (seen scope.old) (named name.now) (plain_signature signature.now) (declarations (map plain_declaration fields.now))) found.old found.new) }
{
    let outer = scope.parameters().len();
    enter_generics(scope, types, found, signature.generics.as_slice())?;
    push_list(scope, fields)?;
    let right = object_type(scope, types, fields)?;
    let made = definition_of(types.terms().allocator(), scope, outer, right)?;
    found.push_type(name.at, made)?;
    Ok(())
}
