//! The nodes of expressions and declarations, however their notes are seen. Each function adds those of a part to what is counted, within so many
//! levels: a part of more levels than there are addresses is none that memory holds.
ghost use Rattle.std.specs.Prelude.{IfOk, map};
ghost use Rattle.typing_rules.specs.Nodes.{in_cases, in_declaration, in_each, in_expression, in_fields, in_list};
ghost use Rattle.abstract_tree.specs.TreeView.{case, cases, declaration, declaration_form, declarations, expression, fields, listed, object_field};
ghost use Rattle.judged_parts.specs.Parts.{See};
ghost use Rattle.kernel_counts.specs.Counting.{Counts};

use crate::next::one_more;
use crate::patterns::{count_context, count_pattern, count_signature};
use crate::types::{count_annotation, count_type, count_type_arguments};
use abstract_tree::{Case, Declaration, DeclarationForm, Expression, ObjectField};
use judged_parts::{Parts, parts_of_form};
use mo_num::Memory;
use value_scopes::Note;

#[cycle(expressions)]
fn expression_within(a: &Expression<Note>, depth: usize, counted: u32) -> Result<u32, Memory>
    ensures { (see : See) → IfOk result (Counts (in_expression (expression see a.now)) counted) }
{
    if depth == 0 {
        return Err(Memory);
    }
    let here = one_more(counted)?;
    match parts_of_form(a.form.get()) {
        Parts::Nothing => Ok(here),
        Parts::Name(_) => Ok(here),
        Parts::One(a) => expression_within(a, depth - 1, here),
        Parts::Two(a, b) => {
            let first = expression_within(a, depth - 1, here)?;
            expression_within(b, depth - 1, first)
        }
        Parts::Three(a, b, c) => {
            let first = expression_within(a, depth - 1, here)?;
            let second = expression_within(b, depth - 1, first)?;
            expression_within(c, depth - 1, second)
        }
        Parts::Each(items) => each_within(items, depth - 1, here),
        Parts::Fields(fields) => fields_within(fields, depth - 1, here),
        Parts::Annotated(a, node) => {
            let first = expression_within(a, depth - 1, here)?;
            count_type(node, first)
        }
        Parts::Call(a, types, arguments) => {
            let first = expression_within(a, depth - 1, here)?;
            let second = count_type_arguments(types, first)?;
            each_within(arguments, depth - 1, second)
        }
        Parts::Switch(a, cases) => {
            let first = expression_within(a, depth - 1, here)?;
            cases_within(cases, depth - 1, first)
        }
        Parts::WithPattern(q, a, b) => {
            let first = count_pattern(q, here)?;
            let second = expression_within(a, depth - 1, first)?;
            expression_within(b, depth - 1, second)
        }
        Parts::Labelled(node, a) => {
            let first = count_annotation(node, here)?;
            expression_within(a, depth - 1, first)
        }
        Parts::Declared(list) => list_within(list, depth - 1, here),
        Parts::Function(signature, body) => {
            let first = count_signature(signature, here)?;
            expression_within(body, depth - 1, first)
        }
        Parts::Subsumed(a) => expression_within(a, depth - 1, counted),
    }
}

#[cycle(expressions)]
fn each_within(items: &[Expression<Note>], depth: usize, counted: u32) -> Result<u32, Memory>
    ensures { (see : See) → IfOk result (Counts (in_each (listed (map (expression see) items.now))) counted) }
{
    let mut sum = counted;
    for item in items {
        sum = expression_within(item, depth, sum)?;
    }
    Ok(sum)
}

#[cycle(expressions)]
fn cases_within(list: &[Case<Note>], depth: usize, counted: u32) -> Result<u32, Memory>
    ensures { (see : See) → IfOk result (Counts (in_cases (cases (map (case see) list.now))) counted) }
{
    let mut sum = counted;
    for case in list {
        let pattern = count_pattern(&case.pattern, sum)?;
        sum = expression_within(&case.body, depth, pattern)?;
    }
    Ok(sum)
}

#[cycle(expressions)]
fn fields_within(list: &[ObjectField<Note>], depth: usize, counted: u32) -> Result<u32, Memory>
    ensures { (see : See) → IfOk result (Counts (in_fields (fields (map (object_field see) list.now))) counted) }
{
    let mut sum = counted;
    for field in list {
        let here = one_more(sum)?;
        let annotation = count_annotation(&field.annotation, here)?;
        sum = expression_within(&field.value, depth, annotation)?;
    }
    Ok(sum)
}

#[cycle(expressions)]
fn list_within(list: &[Declaration<Note>], depth: usize, counted: u32) -> Result<u32, Memory>
    ensures { (see : See) → IfOk result (Counts (in_list (declarations (map (declaration see) list.now))) counted) }
{
    let mut sum = counted;
    for one in list {
        let here = one_more(sum)?;
        sum = declaration_within(one.form.get(), depth, here)?;
    }
    Ok(sum)
}

#[cycle(expressions)]
fn declaration_within(
    form: &DeclarationForm<Note>,
    depth: usize,
    counted: u32,
) -> Result<u32, Memory>
    ensures { (see : See) → IfOk result (Counts (in_declaration (declaration_form see form.now)) counted) }
{
    if depth == 0 {
        return Err(Memory);
    }
    match form {
        DeclarationForm::Let(pattern, value) => {
            let first = count_pattern(pattern, counted)?;
            expression_within(value, depth - 1, first)
        }
        DeclarationForm::Var(_, _, annotation, value) => {
            let first = count_annotation(annotation, counted)?;
            expression_within(value, depth - 1, first)
        }
        DeclarationForm::Func(_, signature, body) => {
            let first = count_signature(signature, counted)?;
            expression_within(body, depth - 1, first)
        }
        DeclarationForm::Method(_, context, _, signature, body) => {
            let first = count_context(context, counted)?;
            let second = count_signature(signature, first)?;
            expression_within(body, depth - 1, second)
        }
        DeclarationForm::System(_, body) => expression_within(body, depth - 1, counted),
        DeclarationForm::TypeAlias(_, _, of) => count_type(of, counted),
        DeclarationForm::Class(_, signature, fields) => {
            let first = count_signature(signature, counted)?;
            list_within(fields.as_slice(), depth - 1, first)
        }
        DeclarationForm::NamedObject(_, fields) => list_within(
            fields.as_slice(),
            depth - 1,
            counted,
        ),
        DeclarationForm::Evaluate(of) => expression_within(of, depth - 1, counted),
    }
}

/// Adds the nodes of an expression. It recurses as deep as the expression.
pub fn count_expression(a: &Expression<Note>, counted: u32) -> Result<u32, Memory>
    ensures { (see : See) → IfOk result (Counts (in_expression (expression see a.now)) counted) }
{
    expression_within(a, usize::MAX, counted)
}

/// Adds the nodes of a list of declarations. It recurses as deep as the list.
pub fn count_list(list: &[Declaration<Note>], counted: u32) -> Result<u32, Memory>
    ensures { (see : See) → IfOk result (Counts (in_list (declarations (map (declaration see) list.now))) counted) }
{
    list_within(list, usize::MAX, counted)
}

/// Adds the nodes of a declaration, without the one that it is itself. It recurses as deep as the declaration.
pub fn count_declaration(form: &DeclarationForm<Note>, counted: u32) -> Result<u32, Memory>
    ensures { (see : See) → IfOk result (Counts (in_declaration (declaration_form see form.now)) counted) }
{
    declaration_within(form, usize::MAX, counted)
}
