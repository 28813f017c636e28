//! The names that patterns and declarations bind.
ghost use Rattle.std.specs.Prelude.{◌≡◌, ◌++◌, ◌∷◌, [], OnOk, IfOk, map};
ghost use Rattle.mo_pattern_names.specs.PatternNames.{in_pattern, in_pattern_field, in_parameters, bound_names};
ghost use Rattle.mo_bindings.specs.ExpressionNames.{in_declaration, in_member, values_of, types_of, member_values, member_types, public_names};

use mo_name_table::{Names, push_copy};
use mo_num::Memory;
use mo_syntax::{
    Declaration, DeclarationField, Node, Parameters, Pattern, PatternField, Visibility,
};
use std::alloc::Global;

/// The names that a pattern binds, in the order of the source.
pub fn names_in_pattern(alloc: Global, p: &Pattern) -> Result<Names, Memory>
    ensures { IfOk result (λ made. made ≡ (in_pattern p.now).names) }
{
    let mut names = Names::new(alloc);
    pattern_names(alloc, p, &mut names)?;
    Ok(names)
}

/// The names that the parameters of a function bind, in the order of the source.
pub fn names_in_parameters(alloc: Global, parameters: &Parameters) -> Result<Names, Memory>
    ensures { IfOk result (λ made. made ≡ (in_parameters parameters.now).names) }
{
    let mut names = Names::new(alloc);
    match parameters {
        Parameters::List(patterns) => names_of_patterns(alloc, patterns.as_slice(), &mut names)?,
        Parameters::Single(name) => push_copy(alloc, &mut names, name)?,
    }
    Ok(names)
}

#[cycle(binding)]
#[tactic(auto, unfolding(mo_pattern_names::specs::PatternNames::in_pattern, mo_pattern_names::specs::PatternNames::in_pattern_field))]
fn pattern_names(alloc: Global, p: &Pattern, names: &mut Names) -> Result<(), Memory>
    ensures { OnOk result (names.new ≡ names.old ++ (in_pattern p.now).names) }
{
    match p {
        Pattern::Annotated(p, _) => pattern_names(alloc, p.get(), names),
        Pattern::Alternative(p, q) => {
            pattern_names(alloc, p.get(), names)?;
            pattern_names(alloc, q.get(), names)
        }
        Pattern::Optional(p) => pattern_names(alloc, p.get(), names),
        Pattern::Tagged(_, None) => Ok(()),
        Pattern::Tagged(_, Some(p)) => pattern_names(alloc, p.get(), names),
        Pattern::Variable(name) => push_copy(alloc, names, name),
        Pattern::Wildcard => Ok(()),
        Pattern::Constant(_, _) => Ok(()),
        Pattern::Parenthesized(items) => names_of_patterns(alloc, items.as_slice(), names),
        Pattern::Object(fields, _) => names_of_fields(alloc, fields.as_slice(), names),
    }
}

#[cycle(binding)]
fn names_of_patterns(
    alloc: Global,
    patterns: &[Node<Pattern>],
    names: &mut Names,
) -> Result<(), Memory>
    ensures { OnOk result (names.new ≡ names.old ++ bound_names (map in_pattern patterns.now)) }
{
    for one in patterns {
        pattern_names(alloc, one.get(), names)?;
    }
    Ok(())
}

#[cycle(binding)]
fn names_of_fields(
    alloc: Global,
    fields: &[Node<PatternField>],
    names: &mut Names,
) -> Result<(), Memory>
    ensures { OnOk result (names.new ≡ names.old ++ bound_names (map in_pattern_field fields.now)) }
{
    for one in fields {
        names_of_field(alloc, one.get(), names)?;
    }
    Ok(())
}

#[cycle(binding)]
#[tactic(auto, unfolding(mo_pattern_names::specs::PatternNames::in_pattern, mo_pattern_names::specs::PatternNames::in_pattern_field))]
fn names_of_field(alloc: Global, field: &PatternField, names: &mut Names) -> Result<(), Memory>
    ensures { OnOk result (names.new ≡ names.old ++ (in_pattern_field field.now).names) }
{
    match &field.pattern {
        None => push_copy(alloc, names, &field.name),
        Some(p) => pattern_names(alloc, p.get(), names),
    }
}

/// Adds the values that a declaration binds.
#[tactic(auto, unfolding(crate::specs::ExpressionNames::in_declaration, crate::specs::ExpressionNames::in_expression, crate::specs::ExpressionNames::in_member, crate::specs::ExpressionNames::in_case, crate::specs::ExpressionNames::in_field))]
pub fn declared_values(
    alloc: Global,
    declaration: &Declaration,
    values: &mut Names,
) -> Result<(), Memory>
    ensures { OnOk result (values.new ≡ values.old ++ (in_declaration declaration.now).values) }
{
    match declaration {
        Declaration::Let(p, _) => pattern_names(alloc, p.get(), values),
        Declaration::Var(name, _, _) => push_copy(alloc, values, name),
        Declaration::Func(name, _, _, _, _, _) => push_copy(alloc, values, name),
        Declaration::TypeAlias(_, _, _) => Ok(()),
        Declaration::Class(name, _, _, _, _) => push_copy(alloc, values, name),
        Declaration::NamedObject(name, _, _) => push_copy(alloc, values, name),
        Declaration::Evaluate(_) => Ok(()),
    }
}

/// Adds the types that a declaration binds.
#[tactic(auto, unfolding(crate::specs::ExpressionNames::in_declaration, crate::specs::ExpressionNames::in_expression, crate::specs::ExpressionNames::in_member, crate::specs::ExpressionNames::in_case, crate::specs::ExpressionNames::in_field))]
pub fn declared_types(
    alloc: Global,
    declaration: &Declaration,
    types: &mut Names,
) -> Result<(), Memory>
    ensures { OnOk result (types.new ≡ types.old ++ (in_declaration declaration.now).types) }
{
    match declaration {
        Declaration::Let(_, _) => Ok(()),
        Declaration::Var(_, _, _) => Ok(()),
        Declaration::Func(_, _, _, _, _, _) => Ok(()),
        Declaration::TypeAlias(name, _, _) => push_copy(alloc, types, name),
        Declaration::Class(name, _, _, _, _) => push_copy(alloc, types, name),
        Declaration::NamedObject(_, _, _) => Ok(()),
        Declaration::Evaluate(_) => Ok(()),
    }
}

pub(crate) fn values_of(
    alloc: Global,
    declarations: &[Node<Declaration>],
    values: &mut Names,
) -> Result<(), Memory>
    ensures { OnOk result (values.new ≡ values.old ++ values_of (map in_declaration declarations.now)) }
{
    for one in declarations {
        declared_values(alloc, one.get(), values)?;
    }
    Ok(())
}

pub(crate) fn types_of(
    alloc: Global,
    declarations: &[Node<Declaration>],
    types: &mut Names,
) -> Result<(), Memory>
    ensures { OnOk result (types.new ≡ types.old ++ types_of (map in_declaration declarations.now)) }
{
    for one in declarations {
        declared_types(alloc, one.get(), types)?;
    }
    Ok(())
}

#[tactic(auto, unfolding(crate::specs::ExpressionNames::in_declaration, crate::specs::ExpressionNames::in_expression, crate::specs::ExpressionNames::in_member, crate::specs::ExpressionNames::in_case, crate::specs::ExpressionNames::in_field))]
fn member_value(alloc: Global, field: &DeclarationField, values: &mut Names) -> Result<(), Memory>
    ensures { OnOk result (values.new ≡ values.old ++ (in_member field.now).values) }
{
    declared_values(alloc, field.declaration.get(), values)
}

#[tactic(auto, unfolding(crate::specs::ExpressionNames::in_declaration, crate::specs::ExpressionNames::in_expression, crate::specs::ExpressionNames::in_member, crate::specs::ExpressionNames::in_case, crate::specs::ExpressionNames::in_field))]
fn member_type(alloc: Global, field: &DeclarationField, types: &mut Names) -> Result<(), Memory>
    ensures { OnOk result (types.new ≡ types.old ++ (in_member field.now).types) }
{
    declared_types(alloc, field.declaration.get(), types)
}

#[tactic(auto, unfolding(crate::specs::ExpressionNames::in_declaration, crate::specs::ExpressionNames::in_expression, crate::specs::ExpressionNames::in_member, crate::specs::ExpressionNames::in_case, crate::specs::ExpressionNames::in_field))]
fn public_name(alloc: Global, field: &DeclarationField, names: &mut Names) -> Result<(), Memory>
    ensures { OnOk result (names.new ≡ names.old ++ (in_member field.now).public) }
{
    match &field.visibility {
        None => Ok(()),
        Some(Visibility::Private) => Ok(()),
        Some(Visibility::Public) => declared_values(alloc, field.declaration.get(), names),
    }
}

pub(crate) fn member_values(
    alloc: Global,
    fields: &[Node<DeclarationField>],
    values: &mut Names,
) -> Result<(), Memory>
    ensures { OnOk result (values.new ≡ values.old ++ member_values (map in_member fields.now)) }
{
    for one in fields {
        member_value(alloc, one.get(), values)?;
    }
    Ok(())
}

pub(crate) fn member_types(
    alloc: Global,
    fields: &[Node<DeclarationField>],
    types: &mut Names,
) -> Result<(), Memory>
    ensures { OnOk result (types.new ≡ types.old ++ member_types (map in_member fields.now)) }
{
    for one in fields {
        member_type(alloc, one.get(), types)?;
    }
    Ok(())
}

pub(crate) fn public_names(
    alloc: Global,
    fields: &[Node<DeclarationField>],
    names: &mut Names,
) -> Result<(), Memory>
    ensures { OnOk result (names.new ≡ names.old ++ public_names (map in_member fields.now)) }
{
    for one in fields {
        public_name(alloc, one.get(), names)?;
    }
    Ok(())
}
