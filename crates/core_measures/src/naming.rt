//! Which names around a body are named in it.
ghost use Rattle.std.specs.Prelude.{◌≡◌, ◌+◌, ◌++◌, ℕ, length, map, IfOk, OnOk};
ghost use Rattle.core_ir.specs.declared.expression.Binding.{out-Binding};
ghost use Rattle.core_ir.specs.Outward.{outward, outward_all, outward_bodies, outward_goal};
ghost use Rattle.core_ir.specs.View.{core_body, exps, expression as expression_view, goal as goal_view};
ghost use Rattle.core_measures.specs.Naming.{end_of, given_by, given_in, made_by, made_in, near_behind};
ghost use Rattle.core_measures.specs.Sizes.{size_of};

use crate::measures::sum;
use crate::names::{Names, add_all_beyond, add_beyond, needed};
use crate::sizes::size_of_group;
use core_ir::{Binding, CoreBody, Expression, Goal};
use mo_num::Memory;

// A difference that is there: no number is taken off that was not put on before.
fn less(a: u32, b: u32) -> Result<u32, Memory>
    ensures { IfOk result (λ c. b + c ≡ a) }
{
    match a.checked_sub(b) {
        Some(c) => Ok(c),
        None => Err(Memory),
    }
}

// What is named where the binding makes functions, and the nearest names behind it.
fn made_name(
    sizes: &[u32],
    needs: &[Names],
    near: u32,
    binding: &Binding,
    names: &mut Names,
) -> Result<u32, Memory>
    ensures near { IfOk result (λ behind. behind ≡ near_behind (size_of sizes.now) near (out-Binding binding.now)) }
    ensures names { OnOk result (names.new ≡ names.old ++ made_by (size_of sizes.now) needs.now near (out-Binding binding.now)) }
{
    match binding {
        Binding::Value(_) => sum(1, near),
        Binding::Functions(group) => {
            add_all_beyond(near, needed(needs, *group), names)?;
            sum(size_of_group(sizes, *group), near)
        }
    }
}

fn made_names(
    sizes: &[u32],
    needs: &[Names],
    near: u32,
    bindings: &[Binding],
    names: &mut Names,
) -> Result<u32, Memory>
    ensures end { IfOk result (λ end. end ≡ end_of (size_of sizes.now) near bindings.now) }
    ensures names { OnOk result (names.new ≡ names.old ++ made_in (size_of sizes.now) needs.now near bindings.now) }
{
    let mut at = near;
    for binding in bindings {
        at = made_name(sizes, needs, at, binding, names)?;
    }
    Ok(at)
}

/// What is named beyond the nearest names, so many of them, behind what was named before: each group needs these names of those that it sees.
#[cycle(naming)]
#[tactic(auto, unfolding(core_ir::specs::View::expression, core_ir::specs::View::goal, core_ir::specs::View::binding))]
pub(crate) fn expression_names(
    sizes: &[u32],
    needs: &[Names],
    near: u32,
    expression: &Expression,
    names: &mut Names,
) -> Result<(), Memory>
    ensures { OnOk result (names.new ≡ names.old ++ outward (size_of sizes.now) needs.now near (expression_view expression.now)) }
{
    match expression {
        Expression::Constant(_) | Expression::Global(_) => Ok(()),
        Expression::Name(place) => add_beyond(near, *place, names),
        Expression::Do(goal, arguments) => {
            goal_names(sizes, needs, near, goal, names)?;
            arguments_names(sizes, needs, near, arguments.as_slice(), names)
        }
        Expression::Block(bindings, value) => {
            let bindings = bindings.as_slice();
            let end = made_names(sizes, needs, near, bindings, names)?;
            expression_names(sizes, needs, end, value.get(), names)?;
            given_names(sizes, needs, end, bindings, names)
        }
        Expression::Loop(body) => expression_names(sizes, needs, near, body.get(), names),
        Expression::Label(body) => expression_names(sizes, needs, near, body.get(), names),
        Expression::Try(body, handler) => {
            expression_names(sizes, needs, near, body.get(), names)?;
            expression_names(sizes, needs, sum(1, near)?, handler.get(), names)
        }
    }
}

#[cycle(naming)]
#[tactic(auto, unfolding(core_ir::specs::View::expression, core_ir::specs::View::goal, core_ir::specs::View::binding))]
fn arguments_names(
    sizes: &[u32],
    needs: &[Names],
    near: u32,
    arguments: &[Expression],
    names: &mut Names,
) -> Result<(), Memory>
    ensures { OnOk result (names.new ≡ names.old ++ outward_all (size_of sizes.now) needs.now near (exps (map expression_view arguments.now))) }
{
    for argument in arguments {
        expression_names(sizes, needs, near, argument, names)?;
    }
    Ok(())
}

// What is named in the values of bindings, behind which there are so many nearest names: those of the last one first.
#[cycle(naming)]
#[tactic(auto, unfolding(core_ir::specs::View::expression, core_ir::specs::View::goal, core_ir::specs::View::binding))]
fn given_names(
    sizes: &[u32],
    needs: &[Names],
    end: u32,
    bindings: &[Binding],
    names: &mut Names,
) -> Result<(), Memory>
    ensures { OnOk result ((start : ℕ) → end ≡ end_of (size_of sizes.now) start bindings.now → names.new ≡ names.old ++ given_in (size_of sizes.now) needs.now start bindings.now) }
{
    let mut near = end;
    let mut number = bindings.len();
    while number > 0 {
        number -= 1;
        near = given_name(sizes, needs, near, &bindings[number], names)?;
    }
    Ok(())
}

// The nearest names before a binding.
#[cycle(naming)]
#[tactic(auto, unfolding(core_ir::specs::View::expression, core_ir::specs::View::goal, core_ir::specs::View::binding))]
fn given_name(
    sizes: &[u32],
    needs: &[Names],
    behind: u32,
    binding: &Binding,
    names: &mut Names,
) -> Result<u32, Memory>
    ensures near { IfOk result (λ near. near_behind (size_of sizes.now) near (out-Binding binding.now) ≡ behind) }
    ensures names { IfOk result (λ near. names.new ≡ names.old ++ given_by (size_of sizes.now) needs.now near (out-Binding binding.now)) }
{
    match binding {
        Binding::Value(value) => {
            let near = less(behind, 1)?;
            expression_names(sizes, needs, near, value, names)?;
            Ok(near)
        }
        Binding::Functions(group) => less(behind, size_of_group(sizes, *group)),
    }
}

#[cycle(naming)]
#[tactic(auto, unfolding(core_ir::specs::View::expression, core_ir::specs::View::goal, core_ir::specs::View::binding))]
fn goal_names(
    sizes: &[u32],
    needs: &[Names],
    near: u32,
    goal: &Goal,
    names: &mut Names,
) -> Result<(), Memory>
    ensures { OnOk result (names.new ≡ names.old ++ outward_goal (size_of sizes.now) needs.now near (goal_view goal.now)) }
{
    match goal {
        Goal::Choose(_, yes, no) => {
            expression_names(sizes, needs, near, yes.get(), names)?;
            expression_names(sizes, needs, near, no.get(), names)
        }
        Goal::Match(_, yes, no) => {
            expression_names(sizes, needs, sum(1, near)?, yes.get(), names)?;
            expression_names(sizes, needs, near, no.get(), names)
        }
        Goal::Operate(_)
        | Goal::Call
        | Goal::Tabulate
        | Goal::Send(_)
        | Goal::Throw
        | Goal::Await
        | Goal::Break(_)
        | Goal::Return => Ok(()),
    }
}

/// What is named in the bodies of a group of so many functions.
pub(crate) fn bodies_names(
    sizes: &[u32],
    needs: &[Names],
    size: u32,
    bodies: &[CoreBody],
    names: &mut Names,
) -> Result<(), Memory>
    ensures { OnOk result (names.new ≡ names.old ++ outward_bodies (size_of sizes.now) needs.now size (map core_body bodies.now)) }
{
    for body in bodies {
        let near = sum(body.parameters, size)?;
        expression_names(sizes, needs, near, &body.expression, names)?;
    }
    Ok(())
}
