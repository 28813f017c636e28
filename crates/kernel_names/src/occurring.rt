//! The names that occur in parts of a program and are not bound. Each function adds those of a part to a list, within so many levels: a part of more
//! levels than there are addresses is none that memory holds. A name is looked up among those that are bound around it in constant time.
ghost use Rattle.std.specs.Prelude.{IfOk, OnOk, map};
ghost use Rattle.abstract_tree.specs.TreeView.{case, cases, declaration, declaration_form, declarations, expression, fields, listed, object_field};
ghost use Rattle.abstract_types.specs.PatternView as patterns;
ghost use Rattle.abstract_types.specs.PatternView.{pattern};
ghost use Rattle.desugaring.specs.FreeNames.{in_cases, in_declaration, in_declarations, in_each, in_fields, names_in, names_in_each, names_of_list, occurring, without};
ghost use Rattle.judged_parts.specs.Parts.{See};
ghost use Rattle.kernel_names.specs.Occurring.{Found, HasSame};

use crate::binding::{enter_list, enter_parameters, enter_pattern};
use crate::names::{Names, leave, push_unless};
use abstract_tree::{Case, Declaration, DeclarationForm, Expression, ObjectField};
use abstract_types::Pattern;
use judged_parts::{Parts, parts_of_form};
use mo_num::Memory;
use std::alloc::Global;
use type_scopes::NamePlaces;
use value_scopes::Note;

#[cycle(occurring)]
fn expression_within(
    alloc: Global,
    a: &Expression<Note>,
    depth: usize,
    bound: &mut NamePlaces,
    names: &mut Names,
) -> Result<(), Memory>
    ensures { (see : See) → OnOk result (Found (occurring (expression see a.now)) bound.old names.old bound.new names.new) }
{
    if depth == 0 {
        return Err(Memory);
    }
    match parts_of_form(a.form.get()) {
        Parts::Nothing => Ok(()),
        Parts::Name(name) => push_unless(alloc, name, bound, names),
        Parts::One(a) => expression_within(alloc, a, depth - 1, bound, names),
        Parts::Two(a, b) => {
            expression_within(alloc, a, depth - 1, bound, names)?;
            expression_within(alloc, b, depth - 1, bound, names)
        }
        Parts::Three(a, b, c) => {
            expression_within(alloc, a, depth - 1, bound, names)?;
            expression_within(alloc, b, depth - 1, bound, names)?;
            expression_within(alloc, c, depth - 1, bound, names)
        }
        Parts::Each(items) => each_within(alloc, items, depth - 1, bound, names),
        Parts::Fields(list) => fields_within(alloc, list, depth - 1, bound, names),
        Parts::Annotated(a, _) => expression_within(alloc, a, depth - 1, bound, names),
        Parts::Call(a, _, arguments) => {
            expression_within(alloc, a, depth - 1, bound, names)?;
            each_within(alloc, arguments, depth - 1, bound, names)
        }
        Parts::Switch(a, list) => {
            expression_within(alloc, a, depth - 1, bound, names)?;
            cases_within(alloc, list, depth - 1, bound, names)
        }
        Parts::WithPattern(q, a, b) => {
            expression_within(alloc, a, depth - 1, bound, names)?;
            arm_within(alloc, q, b, depth - 1, bound, names)
        }
        Parts::Labelled(_, a) => expression_within(alloc, a, depth - 1, bound, names),
        Parts::Declared(list) => block_within(alloc, list, depth - 1, bound, names),
        Parts::Function(g, body) => function_within(
            alloc,
            g.parameters.as_slice(),
            body,
            depth - 1,
            bound,
            names,
        ),
        Parts::Subsumed(a) => expression_within(alloc, a, depth - 1, bound, names),
    }
}

#[cycle(occurring)]
fn each_within(
    alloc: Global,
    items: &[Expression<Note>],
    depth: usize,
    bound: &mut NamePlaces,
    names: &mut Names,
) -> Result<(), Memory>
    ensures { (see : See) → OnOk result (Found (in_each (listed (map (expression see) items.now))) bound.old names.old bound.new names.new) }
{
    for item in items {
        expression_within(alloc, item, depth, bound, names)?;
    }
    Ok(())
}

#[cycle(occurring)]
fn cases_within(
    alloc: Global,
    list: &[Case<Note>],
    depth: usize,
    bound: &mut NamePlaces,
    names: &mut Names,
) -> Result<(), Memory>
    ensures { (see : See) → OnOk result (Found (in_cases (cases (map (case see) list.now))) bound.old names.old bound.new names.new) }
{
    for one in list {
        arm_within(alloc, &one.pattern, &one.body, depth, bound, names)?;
    }
    Ok(())
}

#[cycle(occurring)]
fn fields_within(
    alloc: Global,
    list: &[ObjectField<Note>],
    depth: usize,
    bound: &mut NamePlaces,
    names: &mut Names,
) -> Result<(), Memory>
    ensures { (see : See) → OnOk result (Found (in_fields (fields (map (object_field see) list.now))) bound.old names.old bound.new names.new) }
{
    for field in list {
        expression_within(alloc, &field.value, depth, bound, names)?;
    }
    Ok(())
}

/// What stands behind a pattern.
#[cycle(occurring)]
fn arm_within(
    alloc: Global,
    q: &Pattern<Note>,
    body: &Expression<Note>,
    depth: usize,
    bound: &mut NamePlaces,
    names: &mut Names,
) -> Result<(), Memory>
    ensures { (see : See) → OnOk result (Found (without (names_in (pattern see q.now)) (occurring (expression see body.now))) bound.old names.old bound.new names.new) }
{
    let len = bound.len();
    enter_pattern(alloc, q, bound)?;
    expression_within(alloc, body, depth, bound, names)?;
    leave(bound, len);
    Ok(())
}

#[cycle(occurring)]
fn function_within(
    alloc: Global,
    parameters: &[Pattern<Note>],
    body: &Expression<Note>,
    depth: usize,
    bound: &mut NamePlaces,
    names: &mut Names,
) -> Result<(), Memory>
    ensures { (see : See) → OnOk result (Found (without (names_in_each (patterns.listed (map (pattern see) parameters.now))) (occurring (expression see body.now))) bound.old names.old bound.new names.new) }
{
    let len = bound.len();
    enter_parameters(alloc, parameters, bound)?;
    expression_within(alloc, body, depth, bound, names)?;
    leave(bound, len);
    Ok(())
}

/// A list, without the names that it binds.
#[cycle(occurring)]
fn block_within(
    alloc: Global,
    list: &[Declaration<Note>],
    depth: usize,
    bound: &mut NamePlaces,
    names: &mut Names,
) -> Result<(), Memory>
    ensures { (see : See) → OnOk result (Found (without (names_of_list (declarations (map (declaration see) list.now))) (in_declarations (declarations (map (declaration see) list.now)))) bound.old names.old bound.new names.new) }
{
    let len = bound.len();
    enter_list(alloc, list, bound)?;
    list_within(alloc, list, depth, bound, names)?;
    leave(bound, len);
    Ok(())
}

#[cycle(occurring)]
fn list_within(
    alloc: Global,
    list: &[Declaration<Note>],
    depth: usize,
    bound: &mut NamePlaces,
    names: &mut Names,
) -> Result<(), Memory>
    ensures { (see : See) → OnOk result (Found (in_declarations (declarations (map (declaration see) list.now))) bound.old names.old bound.new names.new) }
{
    for one in list {
        declaration_within(alloc, one.form.get(), depth, bound, names)?;
    }
    Ok(())
}

/// The body of a class.
#[cycle(occurring)]
fn class_within(
    alloc: Global,
    parameters: &[Pattern<Note>],
    list: &[Declaration<Note>],
    depth: usize,
    bound: &mut NamePlaces,
    names: &mut Names,
) -> Result<(), Memory>
    ensures { (see : See) → OnOk result (Found (without (names_in_each (patterns.listed (map (pattern see) parameters.now))) (without (names_of_list (declarations (map (declaration see) list.now))) (in_declarations (declarations (map (declaration see) list.now))))) bound.old names.old bound.new names.new) }
{
    let len = bound.len();
    enter_parameters(alloc, parameters, bound)?;
    block_within(alloc, list, depth, bound, names)?;
    leave(bound, len);
    Ok(())
}

#[cycle(occurring)]
fn declaration_within(
    alloc: Global,
    form: &DeclarationForm<Note>,
    depth: usize,
    bound: &mut NamePlaces,
    names: &mut Names,
) -> Result<(), Memory>
    ensures { (see : See) → OnOk result (Found (in_declaration (declaration_form see form.now)) bound.old names.old bound.new names.new) }
{
    if depth == 0 {
        return Err(Memory);
    }
    match form {
        DeclarationForm::Let(_, a) => expression_within(alloc, a, depth - 1, bound, names),
        DeclarationForm::Var(_, _, _, a) => expression_within(alloc, a, depth - 1, bound, names),
        DeclarationForm::Func(_, g, body) => function_within(
            alloc,
            g.parameters.as_slice(),
            body,
            depth - 1,
            bound,
            names,
        ),
        DeclarationForm::Method(_, _, _, _, _) => Ok(()),
        DeclarationForm::System(_, _) => Ok(()),
        DeclarationForm::TypeAlias(_, _, _) => Ok(()),
        DeclarationForm::Class(_, g, list) => class_within(
            alloc,
            g.parameters.as_slice(),
            list.as_slice(),
            depth - 1,
            bound,
            names,
        ),
        DeclarationForm::NamedObject(_, list) => block_within(
            alloc,
            list.as_slice(),
            depth - 1,
            bound,
            names,
        ),
        DeclarationForm::Evaluate(a) => expression_within(alloc, a, depth - 1, bound, names),
    }
}

/// The names that occur in a declaration and are not bound in it, each once or several times. It recurses as deep as the declaration.
pub fn occurring_names(alloc: Global, form: &DeclarationForm<Note>) -> Result<Names, Memory>
    ensures { (see : See) → IfOk result (λ made. HasSame made (in_declaration (declaration_form see form.now))) }
{
    let mut bound = NamePlaces::new(alloc);
    let mut names = Names::new(alloc);
    declaration_within(alloc, form, usize::MAX, &mut bound, &mut names)?;
    Ok(names)
}
