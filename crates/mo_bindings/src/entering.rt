//! The scopes of parameters and lists of declarations.
ghost use Rattle.std.specs.Prelude.{◌≡◌, ◌++◌, ◌∷◌, [], OnOk, IfOk, map};
ghost use Rattle.mo_scopes.specs.Findings.{identifier, together, labels, each_identifier, each_label};
ghost use Rattle.mo_scopes.specs.Scopes.{with_types, with_loop};
ghost use Rattle.mo_bindings.specs.ExpressionNames.{type_parameter, each_type_parameter, type_parameters, names_of_parameters, parameter_names, alias_names, header, header_scope, body_scope, in_declaration, in_member, values_of, types_of, block_scope, public_names, member_values, member_types, object_names, object_scope};

use crate::binding::{member_types, member_values, public_names, types_of, values_of};
use mo_name_table::{Names, push_copies, push_copy};
use mo_num::Memory;
use mo_pattern_names::Walk;
use mo_scopes::{Findings, Scope, each_identifier, each_label, identifier, labels, together};
use mo_syntax::{
    Declaration, DeclarationField, Items, Name, Node, Parameters, TypeExpression, TypeParameter,
};

/// Adds the label of a loop.
pub fn enter_loop(walk: Walk, name: &Name, scope: &mut Scope) -> Result<(), Memory>
    ensures { OnOk result (scope.new ≡ with_loop name.now.bytes scope.old) }
{
    scope.add_loop(name.copy(walk.alloc)?)
}

fn type_parameter(
    walk: Walk,
    parameter: &TypeParameter,
    scope: &Scope,
    found: &mut Findings,
) -> Result<(), Memory>
    ensures { OnOk result (found.new ≡ found.old ++ type_parameter scope.now parameter.now) }
{
    identifier(&parameter.name, found)?;
    walk.annotation(&parameter.bound, scope, found)
}

fn each_type_parameter(
    walk: Walk,
    parameters: &[TypeParameter],
    scope: &Scope,
    found: &mut Findings,
) -> Result<(), Memory>
    ensures { OnOk result (found.new ≡ found.old ++ each_type_parameter parameters.now scope.now) }
{
    for one in parameters {
        type_parameter(walk, one, scope, found)?;
    }
    Ok(())
}

fn names_of_parameters(walk: Walk, parameters: &[TypeParameter]) -> Result<Names, Memory>
    ensures { IfOk result (λ made. made ≡ names_of_parameters parameters.now) }
{
    let mut names = Names::new(walk.alloc);
    for one in parameters {
        push_copy(walk.alloc, &mut names, &one.name)?;
    }
    Ok(names)
}

fn parameter_names(walk: Walk, parameters: &Option<Items<TypeParameter>>) -> Result<Names, Memory>
    ensures { IfOk result (λ made. made ≡ parameter_names parameters.now) }
{
    match parameters {
        None => Ok(Names::new(walk.alloc)),
        Some(parameters) => names_of_parameters(walk, parameters.as_slice()),
    }
}

fn type_parameters(
    walk: Walk,
    parameters: &Option<Items<TypeParameter>>,
    scope: &Scope,
    found: &mut Findings,
) -> Result<(), Memory>
    ensures { OnOk result (found.new ≡ found.old ++ type_parameters parameters.now scope.now) }
{
    let Some(parameters) = parameters else {
        return Ok(());
    };
    each_type_parameter(walk, parameters.as_slice(), scope, found)?;
    let names = names_of_parameters(walk, parameters.as_slice())?;
    together(walk.alloc, names.as_slice(), found)
}

/// Adds the parameters of a function without loops around it.
pub fn enter_function(
    walk: Walk,
    generics: &Option<Items<TypeParameter>>,
    parameters: &Parameters,
    result_type: &Option<Node<TypeExpression>>,
    scope: &mut Scope,
    found: &mut Findings,
) -> Result<(), Memory>
    requires { scope.old.loops ≡ [] }
    ensures found { OnOk result (found.new ≡ found.old ++ header generics.now parameters.now result_type.now (header_scope generics.now scope.old)) }
    ensures entered { OnOk result (scope.new ≡ body_scope generics.now parameters.now scope.old) }
{
    let names = parameter_names(walk, generics)?;
    scope.add_types(names)?;
    type_parameters(walk, generics, scope, found)?;
    let mut values = Names::new(walk.alloc);
    walk.whole_parameters(parameters, scope, &mut values, found)?;
    walk.annotation(result_type, scope, found)?;
    scope.add_values(values)
}

/// Adds the names that a list of declarations binds.
pub fn enter_block(
    walk: Walk,
    declarations: &[Node<Declaration>],
    scope: &mut Scope,
    found: &mut Findings,
) -> Result<(), Memory>
    ensures found { OnOk result (found.new ≡ found.old ++ (together (values_of (map in_declaration declarations.now)) ++ together (types_of (map in_declaration declarations.now)))) }
    ensures entered { OnOk result (scope.new ≡ block_scope (map in_declaration declarations.now) scope.old) }
{
    let mut values = Names::new(walk.alloc);
    values_of(walk.alloc, declarations, &mut values)?;
    let mut types = Names::new(walk.alloc);
    types_of(walk.alloc, declarations, &mut types)?;
    together(walk.alloc, values.as_slice(), found)?;
    together(walk.alloc, types.as_slice(), found)?;
    scope.add_values(values)?;
    scope.add_types(types)
}

/// The names that others see.
fn public_labels(walk: Walk, names: &[Name], found: &mut Findings) -> Result<(), Memory>
    ensures { OnOk result (found.new ≡ found.old ++ (each_label names.now ++ labels names.now)) }
{
    each_label(names, found)?;
    labels(walk.alloc, names, found)
}

/// Adds the names that the declarations of an object bind.
pub fn enter_object(
    walk: Walk,
    fields: &[Node<DeclarationField>],
    scope: &mut Scope,
    found: &mut Findings,
) -> Result<(), Memory>
    ensures found { OnOk result (found.new ≡ found.old ++ object_names (map in_member fields.now)) }
    ensures entered { OnOk result (scope.new ≡ object_scope (map in_member fields.now) scope.old) }
{
    let mut values = Names::new(walk.alloc);
    member_values(walk.alloc, fields, &mut values)?;
    let mut types = Names::new(walk.alloc);
    member_types(walk.alloc, fields, &mut types)?;
    let mut names = Names::new(walk.alloc);
    public_names(walk.alloc, fields, &mut names)?;
    together(walk.alloc, values.as_slice(), found)?;
    together(walk.alloc, types.as_slice(), found)?;
    public_labels(walk, names.as_slice(), found)?;
    scope.add_values(values)?;
    scope.add_types(types)
}

fn alias_names(walk: Walk, names: &Option<Items<Name>>) -> Result<Names, Memory>
    ensures { IfOk result (λ made. made ≡ alias_names names.now) }
{
    let mut copies = Names::new(walk.alloc);
    if let Some(names) = names {
        push_copies(walk.alloc, &mut copies, names.as_slice())?;
    }
    Ok(copies)
}

/// Adds the parameters of a definition of a type.
pub fn enter_alias(
    walk: Walk,
    names: &Option<Items<Name>>,
    scope: &mut Scope,
    found: &mut Findings,
) -> Result<(), Memory>
    ensures found { OnOk result (found.new ≡ found.old ++ (each_identifier (alias_names names.now) ++ together (alias_names names.now))) }
    ensures entered { OnOk result (scope.new ≡ with_types (alias_names names.now) scope.old) }
{
    let names = alias_names(walk, names)?;
    each_identifier(names.as_slice(), found)?;
    together(walk.alloc, names.as_slice(), found)?;
    scope.add_types(names)
}
