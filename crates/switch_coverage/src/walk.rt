//! All switches of a program.
ghost use Rattle.std.specs.Prelude.{◌≡◌, IfOk, OnOk, map};
ghost use Rattle.switch_coverage.specs.Found.{switches_in};
ghost use Rattle.switch_coverage.specs.Switches.{all_of, cases_of, each, in_case, in_expression, in_function, in_methods, in_optional, in_step, in_steps, switches};

use mo_num::Memory;
use mo_types::TypeId;
use std::alloc::Global;
use typed_tree::{Case, Form, Function, Method, Program, Step, TypedExpression};

/// A `switch`: the number of its first token, the type of its value, and its cases.
#[derive(Clone, Copy)]
pub(crate) struct Found<'a> {
    pub token: u32,
    pub of_type: TypeId,
    pub cases: &'a [Case],
}

// Adds the switches of an expression. The recursion is as deep as the tree, which the parser bounds.
#[cycle(walk)]
#[tactic(auto, using(crate::proofs::Lists::one_found), unfolding(crate::specs::Switches::in_expression, crate::specs::Switches::in_form, crate::specs::Switches::in_step, crate::specs::Switches::in_case, crate::specs::Switches::in_function))]
fn add_expression<'a>(
    expression: &'a TypedExpression,
    found: &mut Vec<Found<'a>>,
) -> Result<(), Memory>
    ensures { OnOk result (switches_in found.new.items ≡ (in_expression expression.entry.now).adding (switches_in found.old.items)) }
{
    match expression.form.get() {
        Form::Constant(_) | Form::Name(_) => Ok(()),
        Form::Do(_, operands) => add_expressions(operands.as_slice(), found),
        Form::If(condition, first, second) => {
            add_expression(condition, found)?;
            add_expression(first, found)?;
            add_expression(second, found)
        }
        Form::Switch(token, of, cases) => {
            found.push(Found {
                token: *token,
                of_type: of.of_type,
                cases: cases.as_slice(),
            })?;
            add_expression(of, found)?;
            add_cases(cases.as_slice(), found)
        }
        Form::While(condition, body) => {
            add_expression(condition, found)?;
            add_expression(body, found)
        }
        Form::Loop(body) => add_expression(body, found),
        Form::Repeat(body, condition) => {
            add_expression(body, found)?;
            add_expression(condition, found)
        }
        Form::For(_, of, body) => {
            add_expression(of, found)?;
            add_expression(body, found)
        }
        Form::Label(body) => add_expression(body, found),
        Form::Try(body, _, handler) => {
            add_expression(body, found)?;
            add_expression(handler, found)
        }
        Form::Update(_, place, operand) => {
            add_expression(place, found)?;
            add_expression(operand, found)
        }
        Form::Block(steps, value) => {
            add_steps(steps.as_slice(), found)?;
            add_expression(value, found)
        }
    }
}

#[cycle(walk)]
fn add_expressions<'a>(
    operands: &'a [TypedExpression],
    found: &mut Vec<Found<'a>>,
) -> Result<(), Memory>
    ensures { OnOk result (switches_in found.new.items ≡ all_of (map in_expression operands.entry.now) (switches_in found.old.items)) }
{
    for operand in operands {
        add_expression(operand, found)?;
    }
    Ok(())
}

#[cycle(walk)]
#[tactic(auto, unfolding(crate::specs::Switches::in_case, crate::specs::Switches::in_expression))]
fn add_cases<'a>(cases: &'a [Case], found: &mut Vec<Found<'a>>) -> Result<(), Memory>
    ensures { OnOk result (switches_in found.new.items ≡ cases_of (map in_case cases.entry.now) (switches_in found.old.items)) }
{
    for case in cases {
        add_expression(&case.body, found)?;
    }
    Ok(())
}

#[cycle(walk)]
#[tactic(auto, unfolding(crate::specs::Switches::in_step, crate::specs::Switches::in_expression, crate::specs::Switches::in_function))]
fn add_step<'a>(step: &'a Step, found: &mut Vec<Found<'a>>) -> Result<(), Memory>
    ensures { OnOk result (switches_in found.new.items ≡ in_step step.entry.now (switches_in found.old.items)) }
{
    match step {
        Step::Let(_, value) => add_expression(value, found),
        Step::Var(value) => add_expression(value, found),
        Step::Stable(_, value) => add_expression(value, found),
        Step::Functions(functions) => add_functions(functions.as_slice(), found),
        Step::Evaluate(value) => add_expression(value, found),
    }
}

#[cycle(walk)]
fn add_steps<'a>(steps: &'a [Step], found: &mut Vec<Found<'a>>) -> Result<(), Memory>
    ensures { OnOk result (switches_in found.new.items ≡ in_steps steps.entry.now (switches_in found.old.items)) }
{
    for step in steps {
        add_step(step, found)?;
    }
    Ok(())
}

#[cycle(walk)]
#[tactic(auto, unfolding(crate::specs::Switches::in_function, crate::specs::Switches::in_expression))]
fn add_function<'a>(function: &'a Function, found: &mut Vec<Found<'a>>) -> Result<(), Memory>
    ensures { OnOk result (switches_in found.new.items ≡ in_function function.entry.now (switches_in found.old.items)) }
{
    add_expression(&function.body, found)
}

#[cycle(walk)]
fn add_functions<'a>(functions: &'a [Function], found: &mut Vec<Found<'a>>) -> Result<(), Memory>
    ensures { OnOk result (switches_in found.new.items ≡ each (map in_function functions.entry.now) (switches_in found.old.items)) }
{
    for function in functions {
        add_function(function, found)?;
    }
    Ok(())
}

fn add_methods<'a>(methods: &'a [Method], found: &mut Vec<Found<'a>>) -> Result<(), Memory>
    ensures { OnOk result (switches_in found.new.items ≡ in_methods methods.entry.now (switches_in found.old.items)) }
{
    for method in methods {
        add_function(&method.function, found)?;
    }
    Ok(())
}

fn add_optional<'a>(
    function: &'a Option<Function>,
    found: &mut Vec<Found<'a>>,
) -> Result<(), Memory>
    ensures { OnOk result (switches_in found.new.items ≡ in_optional function.entry.now (switches_in found.old.items)) }
{
    match function {
        Some(function) => add_function(function, found),
        None => Ok(()),
    }
}

/// The switches of a program, each as often as it stands there.
pub(crate) fn switches<'a>(alloc: Global, program: &'a Program) -> Result<Vec<Found<'a>>, Memory>
    ensures { IfOk result (λ found. switches_in found.items ≡ switches program.entry.now) }
{
    let mut found = Vec::new(alloc);
    add_steps(program.declarations.as_slice(), &mut found)?;
    add_methods(program.methods.as_slice(), &mut found)?;
    add_optional(&program.before_upgrade, &mut found)?;
    add_optional(&program.after_upgrade, &mut found)?;
    Ok(found)
}
