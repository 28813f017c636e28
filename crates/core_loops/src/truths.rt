//! Conditions that always hold.
ghost use Rattle.std.specs.Prelude.{◌≡◌};
ghost use Rattle.typed_tree.specs.View.{expression};
ghost use Rattle.elaboration.specs.Elaboration.{is_true};

use typed_tree::{Form, Literal, TypedExpression};

// Whether it is the constant `true`, maybe in blocks without declarations.
#[tactic(auto, unfolding(typed_tree::specs::View::expression, typed_tree::specs::View::form))]
pub(crate) fn holds(typed: &TypedExpression) -> bool
    ensures { result ≡ is_true (expression typed.now) }
{
    let mut bare = typed;
    while let Form::Block(steps, value) = bare.form.get() {
        if !steps.is_empty() {
            return false;
        }
        bare = value;
    }
    match bare.form.get() {
        Form::Constant(Literal::Flag(true)) => true,
        _ => false,
    }
}
