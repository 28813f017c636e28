//! The value of a list.
ghost use Rattle.std.specs.Prelude.{◌≡◌, MatchOption, true};
ghost use Rattle.met_types.specs.States.{State};
ghost use Rattle.kernel_declarations.specs.Becoming.{becomes_of, value_becomes};
ghost use Rattle.kernel_pieces.specs.Ordered.{EndsIn, HasNoValue, IsNoValue};

use abstract_tree::{Declaration, DeclarationForm, Expression};
use value_scopes::Note;

/// The expression that a declaration evaluates.
fn evaluated(form: &DeclarationForm<Note>) -> Option<&Expression<Note>>
    ensures { (s : State) (note : Note) → MatchOption result (IsNoValue (becomes_of s note form.now)) (λ a. becomes_of s note form.now ≡ value_becomes s a.now) }
{
    match form {
        DeclarationForm::Let(_, _) => None,
        DeclarationForm::Var(_, _, _, _) => None,
        DeclarationForm::Func(_, _, _) => None,
        DeclarationForm::Method(_, _, _, _, _) => None,
        DeclarationForm::System(_, _) => None,
        DeclarationForm::TypeAlias(_, _, _) => None,
        DeclarationForm::Class(_, _, _) => None,
        DeclarationForm::NamedObject(_, _) => None,
        DeclarationForm::Evaluate(a) => Some(a),
    }
}

/// The last expression of a list.
fn last_expression(declarations: &[Declaration<Note>]) -> Option<&Expression<Note>>
    ensures { (s : State) → MatchOption result (HasNoValue s true declarations.now) (λ a. EndsIn s declarations.now a.now) }
{
    match declarations.last() {
        Some(last) => evaluated(last.form.get()),
        None => None,
    }
}

/// The last expression of a list that has a value: Motoko language manual, section "Blocks".
pub(crate) fn value_of(
    has_value: bool,
    declarations: &[Declaration<Note>],
) -> Option<&Expression<Note>>
    ensures { (s : State) → MatchOption result (HasNoValue s has_value declarations.now) (λ a. (has_value ≡ true) × EndsIn s declarations.now a.now) }
{
    if has_value {
        last_expression(declarations)
    } else {
        None
    }
}
