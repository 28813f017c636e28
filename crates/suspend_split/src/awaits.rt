//! Whether a body itself awaits inside an expression.
ghost use Rattle.std.specs.Prelude.{◌≡◌, ◌||◌, map};
ghost use Rattle.core_ir.specs.View.{binding as binding_view, block, exps, expression as expression_view, goal as goal_view};
ghost use Rattle.core_ir.specs.Expressions.{Exp};
ghost use Rattle.core_laws.specs.Split.{awaits, awaits_all, awaits_goal};

use core_ir::{Binding, Expression, Goal};

/// Whether the expression awaits.
#[cycle(awaits)]
#[tactic(auto, unfolding(core_ir::specs::View::expression, core_ir::specs::View::goal, core_ir::specs::View::binding))]
pub(crate) fn expression_awaits(expression: &Expression) -> bool
    ensures { result ≡ awaits (expression_view expression.now) }
{
    match expression {
        Expression::Constant(_) | Expression::Name(_) | Expression::Global(_) => false,
        Expression::Do(goal, arguments) => { goal_awaits(goal) || any_awaits(arguments.as_slice()) }
        Expression::Block(bindings, value) => {
            any_binding_awaits(bindings.as_slice()) || expression_awaits(value.get())
        }
        Expression::Loop(body) | Expression::Label(body) => expression_awaits(body.get()),
        Expression::Try(body, handler) => {
            expression_awaits(body.get()) || expression_awaits(handler.get())
        }
    }
}

#[cycle(awaits)]
#[tactic(auto, unfolding(core_ir::specs::View::expression, core_ir::specs::View::goal, core_ir::specs::View::binding))]
fn any_awaits(arguments: &[Expression]) -> bool
    ensures { result ≡ awaits_all (exps (map expression_view arguments.now)) }
{
    for argument in arguments {
        if expression_awaits(argument) {
            return true;
        }
    }
    false
}

// Whether a binding awaits, or what stands behind them.
#[cycle(awaits)]
#[tactic(auto, unfolding(core_ir::specs::View::expression, core_ir::specs::View::goal, core_ir::specs::View::binding))]
fn any_binding_awaits(bindings: &[Binding]) -> bool
    ensures { (e : Exp) → awaits (block (map binding_view bindings.now) e) ≡ (awaits e || result) }
{
    for binding in bindings {
        if binding_awaits(binding) {
            return true;
        }
    }
    false
}

#[cycle(awaits)]
#[tactic(auto, using(crate::proofs::Truths::or_false), unfolding(core_ir::specs::View::expression, core_ir::specs::View::goal, core_ir::specs::View::binding))]
fn binding_awaits(binding: &Binding) -> bool
    ensures { (e : Exp) → awaits (binding_view binding.now e) ≡ (awaits e || result) }
{
    match binding {
        Binding::Value(value) => expression_awaits(value),
        Binding::Functions(_) => false,
    }
}

#[cycle(awaits)]
#[tactic(auto, unfolding(core_ir::specs::View::expression, core_ir::specs::View::goal, core_ir::specs::View::binding))]
fn goal_awaits(goal: &Goal) -> bool
    ensures { result ≡ awaits_goal (goal_view goal.now) }
{
    match goal {
        Goal::Choose(_, yes, no) | Goal::Match(_, yes, no) => {
            expression_awaits(yes.get()) || expression_awaits(no.get())
        }
        Goal::Await => true,
        Goal::Operate(_)
        | Goal::Call
        | Goal::Tabulate
        | Goal::Send(_)
        | Goal::Throw
        | Goal::Break(_)
        | Goal::Return => false,
    }
}

/// Whether one of the expressions awaits.
pub(crate) fn either_awaits(first: &Expression, second: &Expression) -> bool
    ensures { result ≡ (awaits (expression_view first.now) || awaits (expression_view second.now)) }
{
    expression_awaits(first) || expression_awaits(second)
}
