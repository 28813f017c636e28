//! The nodes of expressions, declarations and programs.
ghost use Rattle.std.specs.Prelude.{◌≡◌, IfOk, map, min};
ghost use Rattle.typing_rules.specs.Nodes.{in_cases, in_declaration, in_each, in_expression, in_fields, in_list, nodes};
ghost use Rattle.abstract_tree.specs.TreeView.{cases, declarations, fields, listed, plain, plain_case, plain_declaration, plain_declaration_form, plain_field, plain_program};
ghost use Rattle.node_counts.specs.Counting.{Counts};

use crate::capped::{capped, one_more};
use crate::patterns::{count_context, count_pattern, count_signature};
use crate::types::{count_annotation, count_type, count_type_arguments};
use abstract_tree::{Case, Declaration, DeclarationForm, Expression, ObjectField, Program};
use expression_parts::{Parts, parts_of_form};
use mo_num::Memory;

#[cycle(expressions)]
fn count_expression(a: &Expression<u32>, depth: usize, counted: u32) -> Result<u32, Memory>
    ensures { IfOk result (Counts (in_expression (plain a.now)) counted) }
{
    if depth == 0 {
        return Err(Memory);
    }
    let here = one_more(counted);
    match parts_of_form(a.form.get()) {
        Parts::Nothing => Ok(here),
        Parts::One(a) => count_expression(a, depth - 1, here),
        Parts::Two(a, b) => {
            let first = count_expression(a, depth - 1, here)?;
            count_expression(b, depth - 1, first)
        }
        Parts::Three(a, b, c) => {
            let first = count_expression(a, depth - 1, here)?;
            let second = count_expression(b, depth - 1, first)?;
            count_expression(c, depth - 1, second)
        }
        Parts::Each(items) => count_each(items, depth - 1, here),
        Parts::Fields(fields) => count_fields(fields, depth - 1, here),
        Parts::Annotated(a, node) => {
            let first = count_expression(a, depth - 1, here)?;
            count_type(node, first)
        }
        Parts::Call(a, types, arguments) => {
            let first = count_expression(a, depth - 1, here)?;
            let second = count_type_arguments(types, first)?;
            count_each(arguments, depth - 1, second)
        }
        Parts::Switch(a, cases) => {
            let first = count_expression(a, depth - 1, here)?;
            count_cases(cases, depth - 1, first)
        }
        Parts::WithPattern(q, a, b) => {
            let first = count_pattern(q, here)?;
            let second = count_expression(a, depth - 1, first)?;
            count_expression(b, depth - 1, second)
        }
        Parts::Labelled(node, a) => {
            let first = count_annotation(node, here)?;
            count_expression(a, depth - 1, first)
        }
        Parts::Declared(list) => count_list(list, depth - 1, here),
        Parts::Function(signature, body) => {
            let first = count_signature(signature, here)?;
            count_expression(body, depth - 1, first)
        }
        Parts::Subsumed(a) => count_expression(a, depth - 1, counted),
    }
}

#[cycle(expressions)]
fn count_each(items: &[Expression<u32>], depth: usize, counted: u32) -> Result<u32, Memory>
    ensures { IfOk result (Counts (in_each (listed (map plain items.now))) counted) }
{
    let mut sum = counted;
    for item in items {
        sum = count_expression(item, depth, sum)?;
    }
    Ok(sum)
}

#[cycle(expressions)]
fn count_cases(list: &[Case<u32>], depth: usize, counted: u32) -> Result<u32, Memory>
    ensures { IfOk result (Counts (in_cases (cases (map plain_case list.now))) counted) }
{
    let mut sum = counted;
    for case in list {
        let pattern = count_pattern(&case.pattern, sum)?;
        sum = count_expression(&case.body, depth, pattern)?;
    }
    Ok(sum)
}

#[cycle(expressions)]
fn count_fields(list: &[ObjectField<u32>], depth: usize, counted: u32) -> Result<u32, Memory>
    ensures { IfOk result (Counts (in_fields (fields (map plain_field list.now))) counted) }
{
    let mut sum = counted;
    for field in list {
        let annotation = count_annotation(&field.annotation, one_more(sum))?;
        sum = count_expression(&field.value, depth, annotation)?;
    }
    Ok(sum)
}

#[cycle(expressions)]
fn count_list(list: &[Declaration<u32>], depth: usize, counted: u32) -> Result<u32, Memory>
    ensures { IfOk result (Counts (in_list (declarations (map plain_declaration list.now))) counted) }
{
    let mut sum = counted;
    for one in list {
        sum = count_declaration(one.form.get(), depth, one_more(sum))?;
    }
    Ok(sum)
}

#[cycle(expressions)]
fn count_declaration(form: &DeclarationForm<u32>, depth: usize, counted: u32) -> Result<u32, Memory>
    ensures { IfOk result (Counts (in_declaration (plain_declaration_form form.now)) counted) }
{
    if depth == 0 {
        return Err(Memory);
    }
    match form {
        DeclarationForm::Let(pattern, value) => {
            let first = count_pattern(pattern, counted)?;
            count_expression(value, depth - 1, first)
        }
        DeclarationForm::Var(_, _, annotation, value) => {
            let first = count_annotation(annotation, counted)?;
            count_expression(value, depth - 1, first)
        }
        DeclarationForm::Func(_, signature, body) => {
            let first = count_signature(signature, counted)?;
            count_expression(body, depth - 1, first)
        }
        DeclarationForm::Method(_, context, _, signature, body) => {
            let first = count_context(context, counted)?;
            let second = count_signature(signature, first)?;
            count_expression(body, depth - 1, second)
        }
        DeclarationForm::System(_, body) => count_expression(body, depth - 1, counted),
        DeclarationForm::TypeAlias(_, _, of) => count_type(of, counted),
        DeclarationForm::Class(_, signature, fields) => {
            let first = count_signature(signature, counted)?;
            count_list(fields.as_slice(), depth - 1, first)
        }
        DeclarationForm::NamedObject(_, fields) => count_list(
            fields.as_slice(),
            depth - 1,
            counted,
        ),
        DeclarationForm::Evaluate(of) => count_expression(of, depth - 1, counted),
    }
}

/// How many nodes a program has, or 50,001 where it has more: one for each expression but parentheses around one thing, each pattern
/// and type likewise, each declaration, and each field of an object, a type or a pattern. It recurses as deep as the program.
pub fn count_nodes(program: &Program<u32>) -> Result<u32, Memory>
    ensures { IfOk result (λ counted. counted ≡ min (nodes (plain_program program.now)) 50001) }
{
    let counted = count_list(program.fields.as_slice(), usize::MAX, 0)?;
    Ok(capped(counted))
}
