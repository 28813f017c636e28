//! The measures of an expression, in one walk.
ghost use Rattle.std.specs.Prelude.{◌≡◌, IfOk, map};
ghost use Rattle.core_ir.specs.Expressions.{Exp};
ghost use Rattle.core_ir.specs.View.{binding as binding_view, block, exps, expression as expression_view, goal as goal_view};
ghost use Rattle.core_measures.specs.Measures.{measures, measures_all, measures_goal};
ghost use Rattle.core_measures.specs.Sizes.{size_of};

use crate::measures::{
    AWAIT, Measures, NOTHING, VALUE, before, chosen, done, labelled, looped, matched, tried,
    widened,
};
use crate::sizes::{count, size_of_group};
use core_ir::{Binding, Expression, Goal};
use mo_num::Memory;

/// The measures of an expression, where groups have these sizes.
#[cycle(walk)]
#[tactic(auto, unfolding(core_ir::specs::View::expression, core_ir::specs::View::goal, core_ir::specs::View::binding))]
pub(crate) fn expression_measures(
    sizes: &[u32],
    expression: &Expression,
) -> Result<Measures, Memory>
    ensures { IfOk result (λ m. m ≡ measures (size_of sizes.now) (expression_view expression.now)) }
{
    match expression {
        Expression::Constant(_) | Expression::Name(_) | Expression::Global(_) => Ok(NOTHING),
        Expression::Do(goal, arguments) => {
            let arguments = arguments.as_slice();
            let number = count(arguments.len())?;
            let goal = goal_measures(sizes, goal)?;
            let inside = arguments_measures(sizes, arguments)?;
            done(goal, inside, number)
        }
        Expression::Block(bindings, value) => {
            let inside = expression_measures(sizes, value.get())?;
            bindings_measures(sizes, bindings.as_slice(), inside)
        }
        Expression::Loop(body) => {
            let body = expression_measures(sizes, body.get())?;
            looped(body)
        }
        Expression::Label(body) => {
            let body = expression_measures(sizes, body.get())?;
            labelled(body)
        }
        Expression::Try(body, handler) => {
            let body = expression_measures(sizes, body.get())?;
            let handler = expression_measures(sizes, handler.get())?;
            tried(body, handler)
        }
    }
}

#[cycle(walk)]
#[tactic(auto, unfolding(core_ir::specs::View::expression, core_ir::specs::View::goal, core_ir::specs::View::binding))]
fn arguments_measures(sizes: &[u32], arguments: &[Expression]) -> Result<Measures, Memory>
    ensures { IfOk result (λ m. m ≡ measures_all (size_of sizes.now) (exps (map expression_view arguments.now))) }
{
    let mut all = NOTHING;
    let mut number = arguments.len();
    while number > 0 {
        number -= 1;
        let one = expression_measures(sizes, &arguments[number])?;
        all = before(one, all)?;
    }
    Ok(all)
}

// Of what stands inside the bindings these are the measures.
#[cycle(walk)]
#[tactic(auto, unfolding(core_ir::specs::View::expression, core_ir::specs::View::goal, core_ir::specs::View::binding))]
fn bindings_measures(
    sizes: &[u32],
    bindings: &[Binding],
    inside: Measures,
) -> Result<Measures, Memory>
    ensures { IfOk result (λ m. (e : Exp) → inside ≡ measures (size_of sizes.now) e → m ≡ measures (size_of sizes.now) (block (map binding_view bindings.now) e)) }
{
    let mut all = inside;
    let mut number = bindings.len();
    while number > 0 {
        number -= 1;
        all = binding_measures(sizes, &bindings[number], all)?;
    }
    Ok(all)
}

#[cycle(walk)]
#[tactic(auto, unfolding(core_ir::specs::View::expression, core_ir::specs::View::goal, core_ir::specs::View::binding))]
fn binding_measures(sizes: &[u32], binding: &Binding, inside: Measures) -> Result<Measures, Memory>
    ensures { IfOk result (λ m. (e : Exp) → inside ≡ measures (size_of sizes.now) e → m ≡ measures (size_of sizes.now) (binding_view binding.now e)) }
{
    match binding {
        Binding::Value(value) => {
            let value = expression_measures(sizes, value)?;
            let alone = before(value, NOTHING)?;
            done(inside, alone, 1)
        }
        Binding::Functions(group) => widened(size_of_group(sizes, *group), inside),
    }
}

#[cycle(walk)]
#[tactic(auto, unfolding(core_ir::specs::View::expression, core_ir::specs::View::goal, core_ir::specs::View::binding))]
fn goal_measures(sizes: &[u32], goal: &Goal) -> Result<Measures, Memory>
    ensures { IfOk result (λ m. m ≡ measures_goal (size_of sizes.now) (goal_view goal.now)) }
{
    match goal {
        Goal::Choose(_, yes, no) => {
            let yes = expression_measures(sizes, yes.get())?;
            let no = expression_measures(sizes, no.get())?;
            chosen(yes, no)
        }
        Goal::Match(_, yes, no) => {
            let yes = expression_measures(sizes, yes.get())?;
            let no = expression_measures(sizes, no.get())?;
            matched(yes, no)
        }
        Goal::Await => Ok(AWAIT),
        Goal::Operate(_)
        | Goal::Call
        | Goal::Tabulate
        | Goal::Send(_)
        | Goal::Throw
        | Goal::Break(_)
        | Goal::Return => Ok(VALUE),
    }
}
