//! How many values stand ready at once.
ghost use Rattle.std.specs.Prelude.{◌≡◌, IfOk, map};
ghost use Rattle.core_ir.specs.Expressions.{Exp};
ghost use Rattle.core_ir.specs.FormedExpressions.{width as width_of, width_all, width_goal};
ghost use Rattle.core_ir.specs.View.{binding as binding_view, block, exps, expression as expression_view, goal as goal_view};
ghost use Rattle.suspend_split.specs.Makes.{size_of};

use crate::bindings::size_of_group;
use crate::operands::after;
use core_ir::{Binding, Expression, Goal};
use mo_num::Memory;

/// How many values stand ready at once while the expression is evaluated: those of arguments before the one that is evaluated, and
/// those that have names. More than 2 ^ 32 are taken for what does not fit into memory.
#[cycle(width)]
#[tactic(auto, unfolding(core_ir::specs::View::expression, core_ir::specs::View::goal, core_ir::specs::View::binding))]
pub(crate) fn expression_width(sizes: &[u32], expression: &Expression) -> Result<u32, Memory>
    ensures { IfOk result (λ width. width ≡ width_of (size_of sizes.now) (expression_view expression.now)) }
{
    match expression {
        Expression::Constant(_) | Expression::Name(_) | Expression::Global(_) => Ok(0),
        Expression::Do(goal, arguments) => {
            let arguments = arguments.as_slice();
            let behind = after(goal_width(sizes, goal)?, arguments.len())?;
            let inside = arguments_width(sizes, arguments)?;
            Ok(inside.max(behind))
        }
        Expression::Block(bindings, value) => {
            let inside = expression_width(sizes, value.get())?;
            bindings_width(sizes, bindings.as_slice(), inside)
        }
        Expression::Loop(body) => expression_width(sizes, body.get()),
        Expression::Label(body) => expression_width(sizes, body.get()),
        Expression::Try(body, handler) => {
            let body = expression_width(sizes, body.get())?;
            let handler = expression_width(sizes, handler.get())?;
            after(body.max(handler), 1)
        }
    }
}

#[cycle(width)]
#[tactic(auto, unfolding(core_ir::specs::View::expression, core_ir::specs::View::goal, core_ir::specs::View::binding))]
fn arguments_width(sizes: &[u32], arguments: &[Expression]) -> Result<u32, Memory>
    ensures { IfOk result (λ width. width ≡ width_all (size_of sizes.now) (exps (map expression_view arguments.now))) }
{
    let mut width = 0;
    let mut number = arguments.len();
    while number > 0 {
        number -= 1;
        let one = expression_width(sizes, &arguments[number])?;
        width = after(one.max(width), 1)?;
    }
    Ok(width)
}

// Of what stands inside the bindings so many stand ready at once.
#[cycle(width)]
#[tactic(auto, unfolding(core_ir::specs::View::expression, core_ir::specs::View::goal, core_ir::specs::View::binding))]
fn bindings_width(sizes: &[u32], bindings: &[Binding], inside: u32) -> Result<u32, Memory>
    ensures { IfOk result (λ width. (e : Exp) → inside ≡ width_of (size_of sizes.now) e → width ≡ width_of (size_of sizes.now) (block (map binding_view bindings.now) e)) }
{
    let mut width = inside;
    let mut number = bindings.len();
    while number > 0 {
        number -= 1;
        width = binding_width(sizes, &bindings[number], width)?;
    }
    Ok(width)
}

#[cycle(width)]
#[tactic(auto, unfolding(core_ir::specs::View::expression, core_ir::specs::View::goal, core_ir::specs::View::binding))]
fn binding_width(sizes: &[u32], binding: &Binding, inside: u32) -> Result<u32, Memory>
    ensures { IfOk result (λ width. (e : Exp) → inside ≡ width_of (size_of sizes.now) e → width ≡ width_of (size_of sizes.now) (binding_view binding.now e)) }
{
    match binding {
        Binding::Value(value) => {
            let value = expression_width(sizes, value)?;
            after(value.max(inside), 1)
        }
        Binding::Functions(group) => after(inside, size_of_group(sizes, *group) as usize),
    }
}

#[cycle(width)]
#[tactic(auto, unfolding(core_ir::specs::View::expression, core_ir::specs::View::goal, core_ir::specs::View::binding))]
fn goal_width(sizes: &[u32], goal: &Goal) -> Result<u32, Memory>
    ensures { IfOk result (λ width. width ≡ width_goal (size_of sizes.now) (goal_view goal.now)) }
{
    match goal {
        Goal::Choose(_, yes, no) => {
            let yes = expression_width(sizes, yes.get())?;
            let no = expression_width(sizes, no.get())?;
            Ok(yes.max(no))
        }
        Goal::Match(_, yes, no) => {
            let yes = expression_width(sizes, yes.get())?;
            let no = expression_width(sizes, no.get())?;
            after(yes.max(no), 1)
        }
        Goal::Operate(_)
        | Goal::Call
        | Goal::Tabulate
        | Goal::Send(_)
        | Goal::Throw
        | Goal::Await
        | Goal::Break(_)
        | Goal::Return => Ok(1),
    }
}
