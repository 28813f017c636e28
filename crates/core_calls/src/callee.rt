//! Built-in functions that are called at once.
ghost use Rattle.std.specs.Prelude.{◌≡◌, map, Some, None, IfSome, IfNone};
ghost use Rattle.typed_tree.specs.View.{exps, expression};
ghost use Rattle.core_calls.specs.Calling.{IsPlainCall, called_at_once, held_in, seen_held};

use typed_tree::{Action, Form, Member, TypedExpression};

/// A built-in function, and what it holds.
#[derive(Clone, Copy)]
pub(crate) struct Held<'a> {
    pub member: Member,
    pub holds: &'a [TypedExpression],
}

/// A call of a built-in function.
#[derive(Clone, Copy)]
pub(crate) struct MemberCall<'a> {
    pub member: Member,
    pub holds: &'a [TypedExpression],
    pub arguments: &'a [TypedExpression],
}

// The built-in function that an expression is, maybe in blocks without declarations.
#[tactic(auto, unfolding(typed_tree::specs::View::expression, typed_tree::specs::View::form))]
fn held_by(typed: &TypedExpression) -> Option<Held<'_>>
    ensures { seen_held result ≡ held_in (expression typed.entry.now) }
{
    let mut bare = typed;
    while let Form::Block(steps, value) = bare.form.get() {
        if !steps.is_empty() {
            return None;
        }
        bare = value;
    }
    match bare.form.get() {
        Form::Do(Action::BuiltIn(member), holds) => Some(Held {
            member: *member,
            holds: holds.as_slice(),
        }),
        _ => None,
    }
}

/// The call of a built-in function that a call is, if it is one.
pub(crate) fn member_call(typed: &[TypedExpression]) -> Option<MemberCall<'_>>
    ensures some { IfSome result (λ call. exps (map expression typed.entry.now) ≡ called_at_once call.member (exps (map expression call.holds.now)) (exps (map expression call.arguments.now))) }
    ensures none { IfNone result (IsPlainCall (exps (map expression typed.entry.now))) }
{
    let [callee, arguments @ ..] = typed else {
        return None;
    };
    match held_by(callee) {
        Some(Held { member, holds }) => Some(MemberCall {
            member,
            holds,
            arguments,
        }),
        None => None,
    }
}
