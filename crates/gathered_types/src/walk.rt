//! The walk over the expressions and declarations of a program. It goes as deep as they do, within so many levels: a tree of more
//! levels than there are addresses is none that memory holds. The scope is as before after each part, where no memory was wanting.
ghost use Rattle.std.specs.Prelude.{◌≡◌, OnOk, map};
ghost use Rattle.typing_rules.specs.DeclaredTypes.{with_list, within};
ghost use Rattle.typing_rules.specs.Gathered.{both, in_cases, in_declaration, in_each, in_expression, in_fields, in_list, of_generics};
ghost use Rattle.met_types.specs.States.{Kept};
ghost use Rattle.type_scopes.specs.Scopes.{seen};
ghost use Rattle.abstract_types.specs.PatternView.{plain_signature};
ghost use Rattle.abstract_types.specs.TypeView.{named};
ghost use Rattle.abstract_tree.specs.TreeView.{cases, declarations, fields, listed, plain, plain_case, plain_declaration, plain_declaration_form, plain_field};
ghost use Rattle.gathered_types.specs.Finding.{Finds, class_head};

use crate::definitions::{enter_class, enter_generics, find_alias};
use crate::found::Found;
use abstract_tree::{Case, Declaration, DeclarationForm, Expression, ObjectField};
use abstract_types::{PlacedName, Signature};
use declared_names::push_list;
use expression_parts::{Parts, parts_of_form};
use met_types::Types;
use mo_num::Memory;
use type_scopes::TypeScope;

#[cycle(walk)]
fn find_expression(
    scope: &mut TypeScope,
    types: &mut Types,
    found: &mut Found,
    depth: usize,
    a: &Expression<u32>,
) -> Result<(), Memory>
    requires { Kept types.old }
    ensures found { OnOk result (Finds types.old types.new (in_expression (seen scope.old) (plain a.now)) found.old found.new) }
    ensures scope { OnOk result (scope.new ≡ scope.old) }
{
    if depth == 0 {
        return Err(Memory);
    }
    match parts_of_form(a.form.get()) {
        Parts::Nothing => Ok(()),
        Parts::One(of) => find_expression(scope, types, found, depth - 1, of),
        Parts::Two(first, last) => {
            find_expression(scope, types, found, depth - 1, first)?;
            find_expression(scope, types, found, depth - 1, last)
        }
        Parts::Three(first, middle, last) => {
            find_expression(scope, types, found, depth - 1, first)?;
            find_expression(scope, types, found, depth - 1, middle)?;
            find_expression(scope, types, found, depth - 1, last)
        }
        Parts::Each(items) => find_each(scope, types, found, depth - 1, items),
        Parts::Fields(list) => find_fields(scope, types, found, depth - 1, list),
        Parts::Annotated(of, _) => find_expression(scope, types, found, depth - 1, of),
        Parts::Call(of, _, arguments) => {
            find_expression(scope, types, found, depth - 1, of)?;
            find_each(scope, types, found, depth - 1, arguments)
        }
        Parts::Switch(of, list) => {
            find_expression(scope, types, found, depth - 1, of)?;
            find_cases(scope, types, found, depth - 1, list)
        }
        Parts::WithPattern(_, first, last) => {
            find_expression(scope, types, found, depth - 1, first)?;
            find_expression(scope, types, found, depth - 1, last)
        }
        Parts::Labelled(_, of) => find_expression(scope, types, found, depth - 1, of),
        Parts::Declared(list) => find_block(scope, types, found, depth - 1, list),
        Parts::Function(signature, body) => find_function(
            scope,
            types,
            found,
            depth - 1,
            signature,
            body,
        ),
        Parts::Subsumed(of) => find_expression(scope, types, found, depth - 1, of),
    }
}

#[cycle(walk)]
fn find_each(
    scope: &mut TypeScope,
    types: &mut Types,
    found: &mut Found,
    depth: usize,
    items: &[Expression<u32>],
) -> Result<(), Memory>
    requires { Kept types.old }
    ensures found { OnOk result (Finds types.old types.new (in_each (seen scope.old) (listed (map plain items.now))) found.old found.new) }
    ensures scope { OnOk result (scope.new ≡ scope.old) }
{
    for one in items {
        find_expression(scope, types, found, depth, one)?;
    }
    Ok(())
}

#[cycle(walk)]
fn find_cases(
    scope: &mut TypeScope,
    types: &mut Types,
    found: &mut Found,
    depth: usize,
    list: &[Case<u32>],
) -> Result<(), Memory>
    requires { Kept types.old }
    ensures found { OnOk result (Finds types.old types.new (in_cases (seen scope.old) (cases (map plain_case list.now))) found.old found.new) }
    ensures scope { OnOk result (scope.new ≡ scope.old) }
{
    for one in list {
        find_expression(scope, types, found, depth, &one.body)?;
    }
    Ok(())
}

#[cycle(walk)]
fn find_fields(
    scope: &mut TypeScope,
    types: &mut Types,
    found: &mut Found,
    depth: usize,
    list: &[ObjectField<u32>],
) -> Result<(), Memory>
    requires { Kept types.old }
    ensures found { OnOk result (Finds types.old types.new (in_fields (seen scope.old) (fields (map plain_field list.now))) found.old found.new) }
    ensures scope { OnOk result (scope.new ≡ scope.old) }
{
    for one in list {
        find_expression(scope, types, found, depth, &one.value)?;
    }
    Ok(())
}

// Where the types that the list defines are in scope.
#[cycle(walk)]
fn find_list(
    scope: &mut TypeScope,
    types: &mut Types,
    found: &mut Found,
    depth: usize,
    list: &[Declaration<u32>],
) -> Result<(), Memory>
    requires { Kept types.old }
    ensures found { OnOk result (Finds types.old types.new (in_list (seen scope.old) (declarations (map plain_declaration list.now))) found.old found.new) }
    ensures scope { OnOk result (scope.new ≡ scope.old) }
{
    for one in list {
        find_declaration(scope, types, found, depth, one.form.get())?;
    }
    Ok(())
}

/// Finds what a list of declarations defines, and what stands in it.
#[cycle(walk)]
pub(crate) fn find_block(
    scope: &mut TypeScope,
    types: &mut Types,
    found: &mut Found,
    depth: usize,
    list: &[Declaration<u32>],
) -> Result<(), Memory>
    requires { Kept types.old }
    ensures found { OnOk result (Finds types.old types.new (in_list (with_list (seen scope.old) (declarations (map plain_declaration list.now))) (declarations (map plain_declaration list.now))) found.old found.new) }
    ensures scope { OnOk result (scope.new ≡ scope.old) }
{
    let len = scope.len();
    push_list(scope, list)?;
    find_list(scope, types, found, depth, list)?;
    scope.truncate(len);
    Ok(())
}

#[cycle(walk)]
fn find_function(
    scope: &mut TypeScope,
    types: &mut Types,
    found: &mut Found,
    depth: usize,
    signature: &Signature<u32>,
    body: &Expression<u32>,
) -> Result<(), Memory>
    requires { Kept types.old }
    ensures found { OnOk result (Finds types.old types.new (both (of_generics (within (seen scope.old) (plain_signature signature.now)) (plain_signature signature.now).generics) (in_expression (within (seen scope.old) (plain_signature signature.now)) (plain body.now))) found.old found.new) }
    ensures scope { OnOk result (scope.new ≡ scope.old) }
{
    let len = scope.len();
    enter_generics(scope, types, found, signature.generics.as_slice())?;
    find_expression(scope, types, found, depth, body)?;
    scope.truncate(len);
    Ok(())
}

#[cycle(walk)]
fn find_class(
    scope: &mut TypeScope,
    types: &mut Types,
    found: &mut Found,
    depth: usize,
    name: &PlacedName,
    signature: &Signature<u32>,
    list: &[Declaration<u32>],
) -> Result<(), Memory>
    requires { Kept types.old }
    ensures found { OnOk result (Finds types.old types.new (both (class_head (seen scope.old) (named name.now) (plain_signature signature.now) (declarations (map plain_declaration list.now))) (in_list (with_list (within (seen scope.old) (plain_signature signature.now)) (declarations (map plain_declaration list.now))) (declarations (map plain_declaration list.now)))) found.old found.new) }
    ensures scope { OnOk result (scope.new ≡ scope.old) }
{
    let len = scope.len();
    enter_class(scope, types, found, name, signature, list)?;
    find_list(scope, types, found, depth, list)?;
    scope.truncate(len);
    Ok(())
}

#[cycle(walk)]
fn find_declaration(
    scope: &mut TypeScope,
    types: &mut Types,
    found: &mut Found,
    depth: usize,
    form: &DeclarationForm<u32>,
) -> Result<(), Memory>
    requires { Kept types.old }
    ensures found { OnOk result (Finds types.old types.new (in_declaration (seen scope.old) (plain_declaration_form form.now)) found.old found.new) }
    ensures scope { OnOk result (scope.new ≡ scope.old) }
{
    if depth == 0 {
        return Err(Memory);
    }
    match form {
        DeclarationForm::Let(_, value) => find_expression(scope, types, found, depth - 1, value),
        DeclarationForm::Var(_, _, _, value) => find_expression(
            scope,
            types,
            found,
            depth - 1,
            value,
        ),
        DeclarationForm::Func(_, signature, body) => find_function(
            scope,
            types,
            found,
            depth - 1,
            signature,
            body,
        ),
        DeclarationForm::Method(_, _, _, _, body) => find_expression(
            scope,
            types,
            found,
            depth - 1,
            body,
        ),
        DeclarationForm::System(_, body) => find_expression(scope, types, found, depth - 1, body),
        DeclarationForm::TypeAlias(name, parameters, node) => find_alias(
            scope,
            types,
            found,
            name,
            parameters.as_slice(),
            node,
        ),
        DeclarationForm::Class(name, signature, list) => find_class(
            scope,
            types,
            found,
            depth - 1,
            name,
            signature,
            list.as_slice(),
        ),
        DeclarationForm::NamedObject(_, list) => find_block(
            scope,
            types,
            found,
            depth - 1,
            list.as_slice(),
        ),
        DeclarationForm::Evaluate(of) => find_expression(scope, types, found, depth - 1, of),
    }
}
